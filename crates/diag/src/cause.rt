//! Why a text, a design or a comparison is refused.
ghost use Rattle.std.specs.Prelude.{◌≡◌};
ghost use Rattle.diag.specs.Cause.{code_of, text_of};

/// The cause of a refusal. Those of text come first, then those of designs, those of
/// comparisons, those of formulas and proofs, those of step files, and those of AIGER.
#[derive(Clone, Copy, Debug, PartialEq, Eq)]
pub enum Cause {
    /// A byte that begins no token, an unclosed string, or a bad escape.
    BadByte,
    /// No form has this token here, or a key stands twice.
    Unexpected,
    /// A name of these dialects, or one without a dot, that is no operation.
    UnknownOperation,
    /// An operation of another dialect, or a form that is left out.
    OutsideProfile,
    /// A number above its limit.
    NumberTooLarge,
    /// A type or an attribute list within too many others.
    TooDeep,
    /// More bytes than a text may have.
    TooLong,
    /// A value name is defined a second time.
    Redefined,
    /// Nothing defines an operand.
    Undefined,
    /// An operand's type is not the written or required one, or the form takes no such type.
    TypeMismatch,
    /// A type is outside the limits on widths and leaves.
    WidthLimit,
    /// A constant does not fit its type.
    ConstantRange,
    /// An extract reaches past its operand.
    ExtractRange,
    /// A replicate's width is no positive multiple of its operand's.
    ReplicateMultiple,
    /// A concat is wider than an integer may be.
    ConcatWidth,
    /// A divisor is not the result of a nonzero constant.
    Divisor,
    /// An index has another width than its array asks for, or a slice is longer than its array.
    IndexWidth,
    /// A field is unknown, or its name stands twice in a type.
    Field,
    /// A bitcast's types differ in width.
    BitcastWidth,
    /// A clock stands where a value is wanted.
    ClockOperand,
    /// Results, fields or elements are too few or too many.
    Arity,
    /// The outputs given are not those of the ports.
    OutputMismatch,
    /// A module's symbol is defined a second time.
    DuplicateSymbol,
    /// An instance names no module.
    UnknownModule,
    /// An instance's ports are not those of its module.
    InstancePorts,
    /// A port's name stands twice.
    DuplicatePort,
    /// The module's outputs are not given at its end.
    MissingOutput,
    /// A module is within itself.
    RecursiveInstance,
    /// A flattened module is above the limit on weight.
    TooLarge,
    /// A result depends on itself without a register between.
    CombinationalCycle,
    /// An asynchronous reset is no input port, or what it resets to is no constant.
    AsyncReset,
    /// The module to compare is not in its file.
    NoSuchModule,
    /// The modules to compare differ in the types of their ports.
    PortsDiffer,
    /// The modules to compare differ in the widths of their registers.
    RegistersDiffer,
    /// The comparison is above the limit on gates.
    TooManyGates,
    /// A line that no formula has there, a variable above the header's, a number that is too large, or
    /// another count of clauses than the header's.
    BadFormula,
    /// A line that no proof has, a number that is too large or not above those of the clauses before, both
    /// literals of a variable, or a variable above the formula's.
    BadProofLine,
    /// A hint or a deletion names a clause that is not there.
    UnknownClause,
    /// A hint that comes before a conflict is neither false nor a unit, or there is no conflict.
    StepDoesNotFollow,
    /// A hint with a minus sign.
    HintOutsideProfile,
    /// No step of a proof has the empty clause.
    NoEmptyClause,
    /// A line that no step file has there: a word is no literal, or the first one does not begin with `state`, or there is none.
    BadStepLine,
    /// A line of a step file has more or fewer literals than there are leaves.
    LiteralCount,
    /// A literal of a step file has another width than its leaf.
    LiteralWidth,
    /// Not exactly one module of a design that is written as AIGER is public.
    NotOnePublicModule,
    /// The registers of a module that is written as AIGER have more than one clock.
    SeveralClocks,
    /// A register of a module that is written as AIGER has an asynchronous reset.
    AsynchronousReset,
    /// A module that is written as AIGER may take more than 2^28 gates, or has more inputs and latches than that.
    TooManyAndGates,
    /// A line that no text of AIGER has there, or the text ends before its time.
    BadAigerLine,
    /// A literal of AIGER is above those of the greatest variable, or one that is defined is odd or below 2.
    LiteralRange,
    /// A literal of AIGER is defined a second time.
    LiteralDefinedTwice,
    /// A literal of AIGER is used that is not defined.
    LiteralNotDefined,
    /// A gate of AIGER needs itself.
    GateCycle,
}

impl Cause {
    /// The code that the line of a refusal gives.
    #[tactic(auto, unfolding(crate::specs::Cause::code_of))]
    pub fn code(self) -> &'static [u8]
        ensures { result.now ≡ code_of self }
    {
        match self {
            Cause::BadByte => b"S1",
            Cause::Unexpected => b"S2",
            Cause::UnknownOperation => b"S3",
            Cause::OutsideProfile => b"S4",
            Cause::NumberTooLarge => b"S5",
            Cause::TooDeep => b"S6",
            Cause::TooLong => b"S7",
            Cause::Redefined => b"V1",
            Cause::Undefined => b"V2",
            Cause::TypeMismatch => b"V3",
            Cause::WidthLimit => b"V4",
            Cause::ConstantRange => b"V5",
            Cause::ExtractRange => b"V6",
            Cause::ReplicateMultiple => b"V7",
            Cause::ConcatWidth => b"V8",
            Cause::Divisor => b"V9",
            Cause::IndexWidth => b"V10",
            Cause::Field => b"V11",
            Cause::BitcastWidth => b"V12",
            Cause::ClockOperand => b"V13",
            Cause::Arity => b"V14",
            Cause::OutputMismatch => b"V15",
            Cause::DuplicateSymbol => b"V16",
            Cause::UnknownModule => b"V17",
            Cause::InstancePorts => b"V18",
            Cause::DuplicatePort => b"V19",
            Cause::MissingOutput => b"V20",
            Cause::RecursiveInstance => b"V21",
            Cause::TooLarge => b"V22",
            Cause::CombinationalCycle => b"V23",
            Cause::AsyncReset => b"V24",
            Cause::NoSuchModule => b"L1",
            Cause::PortsDiffer => b"L2",
            Cause::RegistersDiffer => b"L3",
            Cause::TooManyGates => b"L4",
            Cause::BadFormula => b"P1",
            Cause::BadProofLine => b"P2",
            Cause::UnknownClause => b"P3",
            Cause::StepDoesNotFollow => b"P4",
            Cause::HintOutsideProfile => b"P5",
            Cause::NoEmptyClause => b"P6",
            Cause::BadStepLine => b"M1",
            Cause::LiteralCount => b"M2",
            Cause::LiteralWidth => b"M3",
            Cause::NotOnePublicModule => b"A1",
            Cause::SeveralClocks => b"A2",
            Cause::AsynchronousReset => b"A3",
            Cause::TooManyAndGates => b"A4",
            Cause::BadAigerLine => b"G1",
            Cause::LiteralRange => b"G2",
            Cause::LiteralDefinedTwice => b"G3",
            Cause::LiteralNotDefined => b"G4",
            Cause::GateCycle => b"G5",
        }
    }

    /// The words that the line of a refusal gives.
    #[tactic(auto, unfolding(crate::specs::Cause::text_of))]
    pub fn text(self) -> &'static [u8]
        ensures { result.now ≡ text_of self }
    {
        match self {
            Cause::BadByte => b"bad byte",
            Cause::Unexpected => b"unexpected token",
            Cause::UnknownOperation => b"unknown operation",
            Cause::OutsideProfile => b"outside the profile",
            Cause::NumberTooLarge => b"number too large",
            Cause::TooDeep => b"nested too deeply",
            Cause::TooLong => b"text too long",
            Cause::Redefined => b"value defined twice",
            Cause::Undefined => b"value not defined",
            Cause::TypeMismatch => b"type mismatch",
            Cause::WidthLimit => b"width outside the limits",
            Cause::ConstantRange => b"constant out of range",
            Cause::ExtractRange => b"extract out of range",
            Cause::ReplicateMultiple => b"not a whole number of copies",
            Cause::ConcatWidth => b"result too wide",
            Cause::Divisor => b"divisor is not a nonzero constant",
            Cause::IndexWidth => b"wrong index width",
            Cause::Field => b"no such field",
            Cause::BitcastWidth => b"bitcast of unequal widths",
            Cause::ClockOperand => b"clock used as a value",
            Cause::Arity => b"wrong number of values",
            Cause::OutputMismatch => b"outputs differ from the ports",
            Cause::DuplicateSymbol => b"module defined twice",
            Cause::UnknownModule => b"no such module",
            Cause::InstancePorts => b"instance differs from the module's ports",
            Cause::DuplicatePort => b"port name twice",
            Cause::MissingOutput => b"hw.output is missing",
            Cause::RecursiveInstance => b"module instances itself",
            Cause::TooLarge => b"design too large",
            Cause::CombinationalCycle => b"combinational cycle",
            Cause::AsyncReset => b"asynchronous reset needs an input port and a constant",
            Cause::NoSuchModule => b"no such module",
            Cause::PortsDiffer => b"ports differ",
            Cause::RegistersDiffer => b"registers differ",
            Cause::TooManyGates => b"too many gates",
            Cause::BadFormula => b"bad formula",
            Cause::BadProofLine => b"bad proof line",
            Cause::UnknownClause => b"unknown clause",
            Cause::StepDoesNotFollow => b"step does not follow",
            Cause::HintOutsideProfile => b"hint outside the profile",
            Cause::NoEmptyClause => b"no empty clause",
            Cause::BadStepLine => b"bad line",
            Cause::LiteralCount => b"wrong number of literals",
            Cause::LiteralWidth => b"wrong width",
            Cause::NotOnePublicModule => b"not one public module",
            Cause::SeveralClocks => b"several clocks",
            Cause::AsynchronousReset => b"asynchronous reset",
            Cause::TooManyAndGates => b"too many gates",
            Cause::BadAigerLine => b"bad line",
            Cause::LiteralRange => b"literal out of range",
            Cause::LiteralDefinedTwice => b"literal defined twice",
            Cause::LiteralNotDefined => b"literal not defined",
            Cause::GateCycle => b"cycle of gates",
        }
    }
}
