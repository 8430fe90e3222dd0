//! What is wrong with a text.

/// Why a text says no tree.
#[derive(Clone, Copy, Debug, PartialEq, Eq)]
pub enum Fault {
    /// No such line may stand there, the header's numbers do not fit, or the text ends before its time.
    BadLine,
    /// A literal is above those of the greatest variable, or one that is defined is odd or below 2.
    OutOfRange,
    /// A literal is defined a second time.
    DefinedTwice,
    /// A literal is used that is not defined.
    NotDefined,
    /// A gate needs itself.
    GateCycle,
}
