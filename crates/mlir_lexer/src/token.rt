//! A token, and its kinds.
ghost use Rattle.std.specs.Prelude.{◌≡◌};
ghost use Rattle.mlir_lexer.specs.TokenKinds.{is_kind, tag};

use diag::refusal::Location;

/// The kinds of tokens (MLIR language reference, "Lexical conventions" and "Identifiers").
#[derive(Clone, Copy, PartialEq, Eq)]
pub enum TokenKind {
    /// A letter or `_`, then letters, digits, `_`, `$` and `.`.
    BareName,
    /// `%` and a suffix: digits alone, or letters, digits, `$`, `.`, `_` and `-` that do not begin
    /// with a digit.
    ValueName,
    /// `@` and a suffix.
    SymbolName,
    /// `@` and a string.
    SymbolString,
    /// Digits, or `0x` and hex digits.
    Integer,
    /// A string, its quotes included.
    StringLiteral,
    /// `#` and digits: the number of a result.
    ResultNumber,
    /// `#` and a suffix that does not begin with a digit.
    AttributeAlias,
    /// `!` and a suffix: the keyword of a type.
    TypeName,
    /// `->`
    Arrow,
    /// `(`
    LeftParenthesis,
    /// `)`
    RightParenthesis,
    /// `{`
    LeftBrace,
    /// `}`
    RightBrace,
    /// `[`
    LeftBracket,
    /// `]`
    RightBracket,
    /// `<`
    Less,
    /// `>`
    Greater,
    /// `:`
    Colon,
    /// `,`
    Comma,
    /// `=`
    Equals,
    /// `-` that no `>` follows.
    Minus,
}

/// A token: its kind, the location of its first byte, how many bytes stand before it in the source,
/// and the bytes that it has there.
#[derive(Clone, Copy, PartialEq, Eq)]
pub struct Token<'s> {
    pub kind: TokenKind,
    pub location: Location,
    pub at: u64,
    pub text: &'s [u8],
}

/// Whether two kinds of tokens are the same.
pub fn is_kind(a: TokenKind, b: TokenKind) -> bool
    ensures { result ≡ is_kind a b }
{
    tag(a) == tag(b)
}

// A number for each kind.
fn tag(kind: TokenKind) -> u8
    ensures { result ≡ tag kind }
{
    match kind {
        TokenKind::BareName => 0,
        TokenKind::ValueName => 1,
        TokenKind::SymbolName => 2,
        TokenKind::SymbolString => 3,
        TokenKind::Integer => 4,
        TokenKind::StringLiteral => 5,
        TokenKind::ResultNumber => 6,
        TokenKind::AttributeAlias => 7,
        TokenKind::TypeName => 8,
        TokenKind::Arrow => 9,
        TokenKind::LeftParenthesis => 10,
        TokenKind::RightParenthesis => 11,
        TokenKind::LeftBrace => 12,
        TokenKind::RightBrace => 13,
        TokenKind::LeftBracket => 14,
        TokenKind::RightBracket => 15,
        TokenKind::Less => 16,
        TokenKind::Greater => 17,
        TokenKind::Colon => 18,
        TokenKind::Comma => 19,
        TokenKind::Equals => 20,
        TokenKind::Minus => 21,
    }
}
