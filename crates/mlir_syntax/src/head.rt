//! What stands first of what is left of a text.
use diag::refusal::Location;
use mlir_lexer::token::Token;

/// What stands first of what is left of a text.
#[derive(Clone, Copy)]
pub enum Head<'s> {
    /// A token.
    Token(Token<'s>),
    /// A byte that begins no token.
    Bad(Location),
    /// The end of the text.
    End(Location),
}
