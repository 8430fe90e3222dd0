//! Numerals and literals, as they are printed (IEEE 1364-2005, 3.5.1: integer constants).
ghost use Rattle.std.specs.Prelude.{◌≡◌, ◌++◌, ◌<◌, [], decimal, option_map, OnOk};
ghost use Rattle.verilog_model.specs.Grammar.{base_mark};
ghost use Rattle.verilog_model.specs.Digits.{hex_byte, hex, high_of, literal_of};
ghost use Rattle.verilog_model.specs.Text.{expr_text};

use io_edge::byte_text::Text;
use itoa::Buffer;
use std::alloc::AllocError;

/// Adds a number in decimal. The error is out of memory.
pub fn push_decimal(out: &mut Text, n: u128) -> Result<(), AllocError>
    ensures { OnOk result (out.new ≡ out.old ++ decimal n) }
{
    let mut buffer = Buffer::new();
    out.push_bytes(buffer.format(n).as_bytes())?;
    Ok(())
}

// The digit of a number below 16.
fn hex_byte(n: u8) -> u8
    requires { n < 16 }
    ensures { result ≡ hex_byte n }
{
    if n < 10 { 48 + n } else { 55 + n }
}

/// Adds a number in hexadecimal, with capital letters and no leading zeros. The error is out of memory; a part of the
/// number may then stand in the text.
pub fn push_hex(out: &mut Text, n: u128) -> Result<(), AllocError>
    ensures { OnOk result (out.new ≡ out.old ++ hex n) }
{
    if n < 16 {
        out.push(hex_byte(n as u8))?;
        return Ok(());
    }
    push_hex(out, n / 16)?;
    out.push(hex_byte((n % 16) as u8))?;
    Ok(())
}

// The mark of a hexadecimal literal.
fn base_mark(is_signed: bool) -> &'static [u8]
    ensures { result.now ≡ base_mark is_signed }
{
    if is_signed { b"'sh" } else { b"'h" }
}

/// Adds the literal of a number in so many bits, marked `s` where it is signed. The error is out of memory; a part of the
/// literal may then stand in the text.
pub fn push_literal(out: &mut Text, width: u64, is_signed: bool, n: u128) -> Result<(), AllocError>
    ensures { OnOk result (out.new ≡ out.old ++ expr_text (literal_of width is_signed n) []) }
{
    push_decimal(out, u128::from(width))?;
    out.push_bytes(base_mark(is_signed))?;
    push_hex(out, n)?;
    Ok(())
}

/// The highest bit of so many bits, which a range names; one bit has no range.
pub fn high_of(width: u64) -> Option<u64>
    ensures { option_map decimal result ≡ high_of width }
{
    if width == 1 {
        None
    } else {
        Some(width.saturating_sub(1))
    }
}
