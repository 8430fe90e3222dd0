//! Strings: where one ends.
ghost use Rattle.std.specs.Prelude.{◌≡◌, ◌≤◌, length, IfSome};
ghost use Rattle.mlir_lexer.specs.Strings.{is_escape_letter, reading_after, string_length};

use crate::classes::{Class, HexDigit};

/// How far a string is read.
#[derive(Clone, Copy, PartialEq, Eq)]
pub enum Reading {
    /// Outside of escapes.
    Plain,
    /// After a backslash.
    Escape,
    /// After a backslash and one hex digit.
    HexPair,
    /// After the closing quote.
    Closed,
    /// After a bad escape, or at the end of a line.
    Broken,
}

/// How many bytes a string has after its opening quote, where `bytes` follow it; the closing quote
/// counts. None where the string has a bad escape, or its line or the text ends first.
pub fn string_length(bytes: &[u8]) -> Option<usize>
    ensures exact { result ≡ string_length bytes.now }
    ensures within { IfSome result (λ count. count ≤ length bytes.now) }
{
    let mut reading = Reading::Plain;
    for (i, byte) in bytes.iter().enumerate() {
        reading = after(reading, *byte);
        match reading {
            Reading::Closed => return Some(i + 1),
            Reading::Broken => return None,
            Reading::Plain | Reading::Escape | Reading::HexPair => {}
        }
    }
    None
}

// How the string is read once this byte is.
fn after(reading: Reading, byte: u8) -> Reading
    ensures { result ≡ reading_after reading byte }
{
    match reading {
        Reading::Plain => after_plain(byte),
        Reading::Escape => after_backslash(byte),
        Reading::HexPair => after_hex_digit(byte),
        Reading::Closed => Reading::Closed,
        Reading::Broken => Reading::Broken,
    }
}

fn after_plain(byte: u8) -> Reading
    ensures { result ≡ reading_after Reading.Plain byte }
{
    if byte == b'"' {
        Reading::Closed
    } else if byte == b'\\' {
        Reading::Escape
    } else if byte == b'\n' {
        Reading::Broken
    } else {
        Reading::Plain
    }
}

fn after_backslash(byte: u8) -> Reading
    ensures { result ≡ reading_after Reading.Escape byte }
{
    if is_escape_letter(byte) {
        Reading::Plain
    } else if HexDigit::has(byte) {
        Reading::HexPair
    } else {
        Reading::Broken
    }
}

fn after_hex_digit(byte: u8) -> Reading
    ensures { result ≡ reading_after Reading.HexPair byte }
{
    if HexDigit::has(byte) {
        Reading::Plain
    } else {
        Reading::Broken
    }
}

// Whether a byte stands for one byte after a backslash.
fn is_escape_letter(byte: u8) -> bool
    ensures { result ≡ is_escape_letter byte }
{
    (byte == b'\\' || byte == b'"') || (byte == b'n' || byte == b't')
}
