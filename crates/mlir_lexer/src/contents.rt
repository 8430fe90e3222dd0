//! What names and strings hold.
ghost use Rattle.std.specs.Prelude.{◌≡◌, ◌+◌, ◌<◌, ◌≤◌, [], ◌++◌, drop, OnOk, OnErr};
ghost use Rattle.mlir_lexer.specs.Contents.{hex_value, unescape_byte, unescape, body_of, content_of, Turns, GetsPrefix};

use crate::classes::{Class, Digit, HexDigit};
use crate::token::{Token, TokenKind};
use io_edge::byte_text::Text;
use std::alloc::AllocError;

/// What is read of an escape.
#[derive(Clone, Copy, PartialEq, Eq)]
pub enum Pending {
    /// No part of an escape.
    Nothing,
    /// The backslash.
    Backslash,
    /// The backslash and this hex digit.
    HighDigit(u8),
}

impl<'s> Token<'s> {
    /// Puts what the token holds at the end of a text: a string's content, its escapes undone; a
    /// name, number or keyword without its sign; of every other token its bytes. On an error the
    /// text has got a prefix of it.
    pub fn push_content(&self, into: &mut Text) -> Result<(), AllocError>
        ensures ok { OnOk result (into.new ≡ into.old ++ content_of self.now.kind self.now.text.now) }
        ensures err { OnErr result (GetsPrefix into.old into.new (content_of self.now.kind self.now.text.now)) }
    {
        match self.kind {
            TokenKind::StringLiteral => push_unescaped(body(self.text, 1), into),
            TokenKind::SymbolString => push_unescaped(body(self.text, 2), into),
            TokenKind::ValueName
            | TokenKind::SymbolName
            | TokenKind::ResultNumber
            | TokenKind::AttributeAlias
            | TokenKind::TypeName => into.push_bytes(following(self.text, 1)),
            _ => into.push_bytes(self.text),
        }
    }
}

/// Puts the bytes that a string's body stands for at the end of a text; the body is what stands
/// between the quotes. On an error the text has got a prefix of them.
pub fn push_unescaped(body: &[u8], into: &mut Text) -> Result<(), AllocError>
    ensures ok { OnOk result (into.new ≡ into.old ++ unescape body.now) }
    ensures err { OnErr result (GetsPrefix into.old into.new (unescape body.now)) }
{
    let mut pending = Pending::Nothing;
    for byte in body {
        let (next, stands) = turn(pending, *byte);
        pending = next;
        if let Some(value) = stands {
            match into.push(value) {
                Ok(()) => {}
                Err(error) => return Err(error),
            }
        }
    }
    Ok(())
}

// What is pending once a byte is read, and the byte that is whole by then.
fn turn(pending: Pending, byte: u8) -> (Pending, Option<u8>)
    ensures { Turns pending byte result.0 result.1 }
{
    match pending {
        Pending::Nothing if byte == b'\\' => (Pending::Backslash, None),
        Pending::Nothing => (Pending::Nothing, Some(byte)),
        Pending::Backslash if HexDigit::has(byte) => (Pending::HighDigit(byte), None),
        Pending::Backslash => (Pending::Nothing, Some(unescape_byte(byte))),
        Pending::HighDigit(high) => (
            Pending::Nothing,
            Some(hex_value(high) * 16 + hex_value(byte)),
        ),
    }
}

// What a byte after a backslash stands for.
fn unescape_byte(byte: u8) -> u8
    ensures { result ≡ unescape_byte byte }
{
    if byte == b'n' {
        b'\n'
    } else if byte == b't' {
        b'\t'
    } else {
        byte
    }
}

// The value of a hex digit; 0 for every other byte.
fn hex_value(byte: u8) -> u8
    ensures exact { result ≡ hex_value byte }
    ensures small { result < 16 }
{
    if Digit::has(byte) {
        byte - b'0'
    } else if b'a' <= byte && byte <= b'f' {
        byte - b'a' + 10
    } else if b'A' <= byte && byte <= b'F' {
        byte - b'A' + 10
    } else {
        0
    }
}

// All but the first `before` bytes and the last one.
fn body(text: &[u8], before: usize) -> &[u8]
    requires { before ≤ 2 }
    ensures { result.now ≡ body_of before text.now }
{
    let following = following(text, before);
    let count = text.len().saturating_sub(before + 1);
    &following[..count]
}

// All but the first `before` bytes.
fn following(text: &[u8], before: usize) -> &[u8]
    ensures { result.now ≡ drop before text.now }
{
    if before < text.len() {
        &text[before..]
    } else {
        &[]
    }
}
