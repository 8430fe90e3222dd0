//! The pieces that the text of an operation is made of.
use mlir_lexer::token::TokenKind;

/// A word with a meaning of its own within an operation.
#[derive(Clone, Copy, PartialEq, Eq)]
pub enum Keyword {
    /// `from`
    From,
    /// `clock`
    Clock,
}

/// A piece of the text of an operation after its name.
#[derive(Clone, Copy, PartialEq, Eq)]
pub enum FormatElement {
    /// A token that is always the same.
    Mark(TokenKind),
    /// A word that is always the same.
    Word(Keyword),
    /// An operand.
    Operand,
    /// One operand or more, with commas between them.
    Operands,
    /// Operands in parentheses, with commas between them.
    Group,
    /// The predicate of a comparison.
    Predicate,
    /// A position.
    Number,
    /// `true` or `false`.
    Truth,
    /// An integer.
    Integer,
    /// The constants of an aggregate, in brackets.
    Literals,
    /// The name of a field, a string.
    Field,
    /// An instance: its name, its inner symbol, its module's symbol, its operands and its results.
    Instance,
    /// `reset` and two operands, or nothing.
    Reset,
    /// `reset sync` or `reset async` and two operands, or nothing.
    SyncOrAsyncReset,
    /// A type.
    Type,
    /// A type for each operand, with commas between them.
    Types,
}

/// What may stand after an operation's name: pieces before a dictionary, and pieces after it.
#[derive(Clone, Copy, PartialEq, Eq)]
pub enum Format {
    /// One operand or more of one type.
    Variadic,
    /// Two operands of one type.
    Binary,
    /// A predicate and two operands of one type.
    Comparison,
    /// One operand and its type.
    Unary,
    /// An operand and a position, and the types of operand and result.
    Extraction,
    /// One operand or more, and a type for each.
    Joined,
    /// An operand, and the types of operand and result.
    Conversion,
    /// Three operands, and one type.
    Choice,
    /// `true` or `false`.
    Truth,
    /// An integer and its type.
    Integer,
    /// The constants of an aggregate, and its type.
    Aggregate,
    /// An array and an index, and their types.
    Element,
    /// An array and an index, and the types of array and result.
    Slice,
    /// An array, an index and an element, and the types of array and index.
    ElementChange,
    /// Operands in parentheses and a type.
    Struct,
    /// A struct and the name of a field, and the struct's type.
    Field,
    /// A struct, the name of a field and its value, and the struct's type.
    FieldChange,
    /// An instance.
    Instance,
    /// Nothing.
    Nothing,
    /// Data and a clock, a reset or none, and the type of the data.
    Register,
    /// Data, a clock and an enable, a reset or none, and the type of the data.
    EnabledRegister,
    /// Data and a clock after `clock`, a reset or none, and the type of the data.
    ClockedRegister,
}
