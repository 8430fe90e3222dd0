//! Names and strings, as they are printed.
ghost use Rattle.std.specs.Prelude.{◌≡◌, ◌++◌, ◌∷◌, [], ◌<◌, map, IfOk, OnOk};
ghost use Rattle.mlir_printer.specs.Strings.{is_plain, hex_digit, escaped_byte, escaped_bytes, string_bytes, is_bare, name_bytes, symbol_bytes, stands, suffix_byte};

use io_edge::byte_text::Text;
use mlir_lexer::classes::{Class, Digit, NameByte, SuffixByte, is_name_start, run_of};
use std::alloc::{AllocError, Global};

// The bytes that stand for themselves in a string.
enum PlainByte {}

impl Class for PlainByte {
    ghost test = { is_plain };

    fn has(byte: u8) -> bool {
        32 <= byte && (byte <= 126 && (!(byte == b'"') && !(byte == b'\\')))
    }
}

// A hex digit, in capitals.
fn hex_digit(digit: u8) -> u8
    requires { digit < 16 }
    ensures { result ≡ hex_digit digit }
{
    if digit < 10 { 48 + digit } else { 55 + digit }
}

// Adds a byte of a string.
#[tactic(auto, unfolding(crate::specs::Strings::escaped_byte))]
fn push_escaped_byte(out: &mut Text, byte: u8) -> Result<(), AllocError>
    ensures { OnOk result (out.new ≡ out.old ++ escaped_byte byte) }
{
    if PlainByte::has(byte) {
        out.push(byte)?;
    } else if byte == b'\\' {
        out.push_bytes(b"\\\\")?;
    } else {
        out.push_bytes(&[b'\\', hex_digit(byte / 16), hex_digit(byte % 16)])?;
    }
    Ok(())
}

// Adds the bytes of a string: those before that stand for themselves all at once.
fn push_escaped(out: &mut Text, text: &[u8]) -> Result<(), AllocError>
    ensures { OnOk result (out.new ≡ out.old ++ escaped_bytes text.now) }
{
    let plain = run_of::<PlainByte>(text);
    out.push_bytes(&text[..plain])?;
    push_others(out, &text[plain..])?;
    Ok(())
}

// Adds the bytes of a string one by one.
fn push_others(out: &mut Text, text: &[u8]) -> Result<(), AllocError>
    ensures { OnOk result (out.new ≡ out.old ++ escaped_bytes text.now) }
{
    for byte in text {
        push_escaped_byte(out, *byte)?;
    }
    Ok(())
}

/// Adds a string in its quotes.
#[tactic(auto, unfolding(crate::specs::Strings::string_bytes))]
pub fn push_string(out: &mut Text, text: &[u8]) -> Result<(), AllocError>
    ensures { OnOk result (out.new ≡ out.old ++ string_bytes text.now) }
{
    out.push(b'"')?;
    push_escaped(out, text)?;
    out.push(b'"')?;
    Ok(())
}

// Whether a name is a bare identifier.
fn is_bare(name: &[u8]) -> bool
    ensures { result ≡ is_bare name.now }
{
    match name {
        [first, others @ ..] => {
            is_name_start(*first) && run_of::<NameByte>(others) == others.len()
        }
        [] => false,
    }
}

/// Adds a name: a bare identifier as it is, another one as a string.
#[tactic(auto, unfolding(crate::specs::Strings::name_bytes))]
pub fn push_name(out: &mut Text, name: &[u8]) -> Result<(), AllocError>
    ensures { OnOk result (out.new ≡ out.old ++ name_bytes name.now) }
{
    if is_bare(name) {
        out.push_bytes(name)?;
    } else {
        push_string(out, name)?;
    }
    Ok(())
}

/// Adds a symbol.
#[tactic(auto, unfolding(crate::specs::Strings::symbol_bytes))]
pub fn push_symbol(out: &mut Text, name: &[u8]) -> Result<(), AllocError>
    ensures { OnOk result (out.new ≡ out.old ++ symbol_bytes name.now) }
{
    out.push(b'@')?;
    push_name(out, name)?;
    Ok(())
}

/// Whether a name may stand after `%`, and is not digits alone.
pub fn stands(name: &[u8]) -> bool
    ensures { result ≡ stands name.now }
{
    match name {
        [first, ..] => !Digit::has(*first) && run_of::<SuffixByte>(name) == name.len(),
        [] => false,
    }
}

// A byte of a value's name.
fn suffix_byte(byte: u8) -> u8
    ensures { result ≡ suffix_byte byte }
{
    if SuffixByte::has(byte) { byte } else { b'_' }
}

/// A name with `_` in the place of each byte that may not stand after `%`, and one `_` before it.
pub fn legal_suffix(alloc: Global, name: &[u8]) -> Result<Text, AllocError>
    ensures { IfOk result (λ text. text ≡ 95 ∷ map suffix_byte name.now) }
{
    let mut text = Text::new(alloc);
    text.push(b'_')?;
    for byte in name {
        text.push(suffix_byte(*byte))?;
    }
    Ok(text)
}
