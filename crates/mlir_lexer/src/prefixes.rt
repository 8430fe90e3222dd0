//! What the bytes of a text begin with.
ghost use Rattle.std.specs.Prelude.{◌≡◌, ◌≤◌, length};
ghost use Rattle.mlir_lexer.specs.Runs.{begins};
ghost use Rattle.mlir_lexer.specs.Strings.{string_length};
ghost use Rattle.mlir_lexer.specs.Prefixes.{mark_of, mark_prefix, suffix_length, suffix_token, string_token, is_hex_mark, number_prefix, symbol_prefix, hash_prefix, slash_prefix, minus_prefix, sign_prefix, prefix_of};

use crate::classes::{
    Class, Digit, HexDigit, LineByte, NameByte, Space, SuffixByte, begins_with, is_name_start,
    run_of,
};
use crate::strings::string_length;
use crate::token::TokenKind;

/// What some bytes begin with.
#[derive(Clone, Copy, PartialEq, Eq)]
pub enum Prefix {
    /// The end of a line.
    LineEnd,
    /// So many bytes of blanks or of a comment.
    Gap(usize),
    /// A token of this kind that has so many bytes.
    Token(TokenKind, usize),
    /// No token: the byte is refused before which so many stand.
    Bad(usize),
}

/// What a byte and those after it begin with.
#[inline(always)]
#[tactic(auto, unfolding(crate::specs::Prefixes::prefix_of))]
pub fn prefix_of(first: u8, following: &[u8]) -> Prefix
    ensures { result ≡ prefix_of first following.now }
{
    if first == b'\n' {
        Prefix::LineEnd
    } else if Space::has(first) {
        Prefix::Gap(run_of::<Space>(following) + 1)
    } else if is_name_start(first) {
        Prefix::Token(TokenKind::BareName, run_of::<NameByte>(following) + 1)
    } else if Digit::has(first) {
        number_prefix(first, following)
    } else {
        sign_prefix(first, following)
    }
}

// A number.
fn number_prefix(first: u8, following: &[u8]) -> Prefix
    ensures { result ≡ number_prefix first following.now }
{
    if first == b'0' && is_hex_mark(following) {
        Prefix::Token(TokenKind::Integer, run_of::<HexDigit>(&following[1..]) + 2)
    } else {
        Prefix::Token(TokenKind::Integer, run_of::<Digit>(following) + 1)
    }
}

// Whether the bytes begin with `x` and a hex digit.
fn is_hex_mark(bytes: &[u8]) -> bool
    ensures mark { result ≡ is_hex_mark bytes.now }
{
    match bytes {
        [b'x', digit, ..] => HexDigit::has(*digit),
        _ => false,
    }
}

// A token that begins with a sign.
#[inline(always)]
#[tactic(auto, unfolding(crate::specs::Prefixes::sign_prefix))]
fn sign_prefix(first: u8, following: &[u8]) -> Prefix
    ensures { result ≡ sign_prefix first following.now }
{
    if first == b'%' {
        suffix_token(TokenKind::ValueName, following)
    } else if first == b'@' {
        symbol_prefix(following)
    } else if first == b'#' {
        hash_prefix(following)
    } else if first == b'!' {
        suffix_token(TokenKind::TypeName, following)
    } else if first == b'"' {
        string_token(TokenKind::StringLiteral, 0, following)
    } else if first == b'-' {
        minus_prefix(following)
    } else if first == b'/' {
        slash_prefix(following)
    } else {
        mark_prefix(first)
    }
}

// A token of one byte.
#[inline(always)]
#[tactic(auto, unfolding(crate::specs::Prefixes::mark_of))]
fn mark_prefix(byte: u8) -> Prefix
    ensures { result ≡ mark_prefix (mark_of byte) }
{
    let kind = match byte {
        b',' => TokenKind::Comma,
        b':' => TokenKind::Colon,
        b'=' => TokenKind::Equals,
        b'(' => TokenKind::LeftParenthesis,
        b')' => TokenKind::RightParenthesis,
        b'[' => TokenKind::LeftBracket,
        b']' => TokenKind::RightBracket,
        b'<' => TokenKind::Less,
        b'>' => TokenKind::Greater,
        b'{' => TokenKind::LeftBrace,
        b'}' => TokenKind::RightBrace,
        _ => return Prefix::Bad(0),
    };
    Prefix::Token(kind, 1)
}

// How many bytes of a suffix stand at the beginning.
fn suffix_length(bytes: &[u8]) -> usize
    ensures exact { result ≡ suffix_length bytes.now }
    ensures within { result ≤ length bytes.now }
{
    if begins_with::<Digit>(bytes) {
        run_of::<Digit>(bytes)
    } else {
        run_of::<SuffixByte>(bytes)
    }
}

// A token of a sign and a suffix.
fn suffix_token(kind: TokenKind, following: &[u8]) -> Prefix
    ensures { result ≡ suffix_token kind following.now }
{
    match suffix_length(following) {
        0 => Prefix::Bad(0),
        length => Prefix::Token(kind, length + 1),
    }
}

// A token that ends with the string whose bytes after the opening quote are `following`.
fn string_token(kind: TokenKind, before: usize, following: &[u8]) -> Prefix
    requires { before ≤ 1 }
    ensures { result ≡ string_token kind before (string_length following.now) }
{
    match string_length(following) {
        None => Prefix::Bad(before),
        Some(length) => Prefix::Token(kind, before + 1 + length),
    }
}

// A symbol.
fn symbol_prefix(following: &[u8]) -> Prefix
    ensures { result ≡ symbol_prefix following.now }
{
    match following {
        [b'"', body @ ..] => string_token(TokenKind::SymbolString, 1, body),
        _ => suffix_token(TokenKind::SymbolName, following),
    }
}

// The number of a result, or an alias.
fn hash_prefix(following: &[u8]) -> Prefix
    ensures { result ≡ hash_prefix following.now }
{
    if begins_with::<Digit>(following) {
        suffix_token(TokenKind::ResultNumber, following)
    } else {
        suffix_token(TokenKind::AttributeAlias, following)
    }
}

// A comment.
fn slash_prefix(following: &[u8]) -> Prefix
    ensures { result ≡ slash_prefix following.now }
{
    match following {
        [b'/', ..] => Prefix::Gap(run_of::<LineByte>(following) + 1),
        _ => Prefix::Bad(0),
    }
}

// An arrow or a minus.
fn minus_prefix(following: &[u8]) -> Prefix
    ensures { result ≡ minus_prefix following.now }
{
    match following {
        [b'>', ..] => Prefix::Token(TokenKind::Arrow, 2),
        _ => Prefix::Token(TokenKind::Minus, 1),
    }
}
