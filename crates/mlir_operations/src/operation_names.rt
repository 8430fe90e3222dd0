//! Names of operations in a text.
ghost use Rattle.std.specs.Prelude.{◌≡◌, ◌≢◌, map, IfSome, IfNone};
ghost use Rattle.opcode.specs.Listed.{name_of_listed};
ghost use Rattle.mlir_syntax.specs.AttributeText.{is_among};
ghost use Rattle.mlir_operations.specs.OperationText.{class_of, class_of_listed, class_of_other, is_foreign, is_last};
ghost use Rattle.mlir_operations.specs.NameClasses.{class_seen};

use mlir_lexer::classes::run_of;
use opcode::listed::Listed;
use stored_form::names::{NoDot, dialect};

/// What a name means in an operation's or a module's location.
#[derive(Clone, Copy, PartialEq, Eq)]
pub enum NameClass {
    /// An operation of a body.
    Operation(Listed),
    /// `hw.module`
    Module,
    /// The module that a file is.
    File,
    /// `loc`
    Locations,
    /// An operation that is not read.
    Outside,
    /// No operation.
    Unknown,
}

// The names of the module that a file is.
const FILE_NAMES: [&str; 2] = ["module", "builtin.module"];

// Operations of hw, comb and seq that are left out.
const LEFT_OUT: [&str; 14] = [
    "hw.module.extern",
    "hw.module.generated",
    "hw.hierpath",
    "comb.truth_table",
    "comb.reverse",
    "seq.firmem",
    "seq.hlmem",
    "seq.fifo",
    "seq.shiftreg",
    "seq.to_clock",
    "seq.from_clock",
    "seq.clock_gate",
    "seq.clock_mux",
    "seq.clock_div",
];

// The dialects of which an unknown name is no operation.
const KNOWN_DIALECTS: [&str; 4] = ["hw", "comb", "seq", "builtin"];

/// The class of a name.
pub fn class_of(name: &[u8]) -> NameClass
    ensures { class_seen result ≡ class_of name.now }
{
    match listed_of(name) {
        Some(listed) => class_of_listed(listed),
        None => class_of_other(name),
    }
}

// The listed operation of a name: what its end lets guess, or else one of all.
fn listed_of(name: &[u8]) -> Option<Listed>
    ensures some { IfSome result (λ listed. name_of_listed listed ≡ name.now) }
    ensures none { IfNone result ((listed : Listed) → name_of_listed listed ≢ name.now) }
{
    let guess = guess_of(name);
    if guess.name() == name {
        Some(guess)
    } else {
        Listed::of(name)
    }
}

// A listed operation whose name ends as a name does, where there is one.
fn guess_of(name: &[u8]) -> Listed {
    match name {
        [.., b'd', b'd'] => Listed::CombAdd,
        [.., b'n', b'd'] => Listed::CombAnd,
        [.., b'o', b'r'] if name.len() == 7 => Listed::CombOr,
        [.., b'o', b'r'] => Listed::CombXor,
        [.., b'u', b'b'] => Listed::CombSub,
        [.., b'u', b'l'] => Listed::CombMul,
        [.., b'h', b'l'] => Listed::CombShl,
        [.., b'r', b'u'] => Listed::CombShru,
        [.., b'u', b'x'] => Listed::CombMux,
        [.., b'm', b'p'] => Listed::CombIcmp,
        [.., b't', b'y'] => Listed::CombParity,
        [.., b'c', b't'] => Listed::CombExtract,
        [.., b'a', b't'] => Listed::CombConcat,
        [.., b't', b'e'] => Listed::CombReplicate,
        [.., b'n', b't'] => Listed::HwConstant,
        [.., b'e', b't'] => Listed::HwArrayGet,
        [.., b'c', b'e'] => Listed::HwInstance,
        [.., b'r', b'e'] => Listed::HwWire,
        [.., b'u', b't'] => Listed::HwOutput,
        [.., b'e', b'g'] if name.len() == 10 => Listed::SeqFirreg,
        [.., b'e', b'g'] => Listed::SeqCompreg,
        _ => Listed::HwModule,
    }
}

// The class of a listed name.
fn class_of_listed(listed: Listed) -> NameClass
    ensures { class_seen result ≡ class_of_listed listed }
{
    match listed {
        Listed::HwModule => NameClass::Module,
        _ => NameClass::Operation(listed),
    }
}

// The class of a name that is no listed one.
#[tactic(auto, unfolding(crate::specs::OperationText::class_of_other))]
fn class_of_other(name: &[u8]) -> NameClass
    ensures { class_seen result ≡ class_of_other name.now }
{
    if is_among(name, &FILE_NAMES) {
        NameClass::File
    } else if name == b"loc".as_slice() {
        NameClass::Locations
    } else if is_among(name, &LEFT_OUT) {
        NameClass::Outside
    } else if is_foreign(name) {
        NameClass::Outside
    } else {
        NameClass::Unknown
    }
}

// Whether a name has a dot and another dialect.
fn is_foreign(name: &[u8]) -> bool
    ensures { result ≡ is_foreign name.now }
{
    !(run_of::<NoDot>(name) == name.len()) && !is_among(dialect(name), &KNOWN_DIALECTS)
}

// Whether a name stands in a table.
fn is_among(name: &[u8], names: &[&str]) -> bool
    ensures { result ≡ is_among name.now (map (λ n. n.now) names.now) }
{
    for one in names {
        if one.as_bytes() == name {
            return true;
        }
    }
    false
}

/// Whether an operation is a module's output, which is the last of a body.
pub fn is_last(name: Listed) -> bool
    ensures { result ≡ is_last name }
{
    match name {
        Listed::HwOutput => true,
        _ => false,
    }
}
