//! Wanted names with the bytes of Verilog names alone.
ghost use Rattle.std.specs.Prelude.{◌≡◌, IfOk, IsTrue, map};
ghost use Rattle.verilog_model.specs.Tokens.{is_name_start, is_name_byte};
ghost use Rattle.verilog_model.specs.Numerals.{all_bytes};
ghost use Rattle.verilog_model.specs.Checks.{starts_name};
ghost use Rattle.name_legalise.specs.Legal.{name_byte, clean};

use std::alloc::{AllocError, Global};

/// Whether a byte may begin a name: a letter or `_` (IEEE 1364-2005, 3.7).
fn is_name_start(byte: u8) -> bool
    ensures { result ≡ is_name_start byte }
{
    (b'a' <= byte && byte <= b'z') || ((b'A' <= byte && byte <= b'Z') || byte == b'_')
}

/// Whether a byte may stand in a name: a letter, a digit, `_`, `$` (3.7).
fn is_name_byte(byte: u8) -> bool
    ensures { result ≡ is_name_byte byte }
{
    is_name_start(byte) || ((b'0' <= byte && byte <= b'9') || byte == b'$')
}

/// The byte, or `_` for one that stands in no name.
fn name_byte(byte: u8) -> u8
    ensures { result ≡ name_byte byte }
{
    if is_name_byte(byte) { byte } else { b'_' }
}

/// Whether the name begins with a letter or `_` once its bytes are those of names.
fn starts_name(wanted: &[u8]) -> bool
    ensures { result ≡ starts_name (map name_byte wanted.now) }
{
    match wanted {
        [first, ..] => is_name_start(name_byte(*first)),
        [] => false,
    }
}

/// Whether each byte may stand in a name.
fn has_name_bytes(wanted: &[u8]) -> bool
    ensures { result ≡ all_bytes is_name_byte wanted.now }
{
    for byte in wanted {
        if !is_name_byte(*byte) {
            return false;
        }
    }
    true
}

/// Whether a wanted name is clean as it is: its bytes are those of names, and it begins with a letter or `_`.
pub fn is_clean(wanted: &[u8]) -> bool
    ensures { IsTrue result → clean wanted.now ≡ wanted.now }
{
    starts_name(wanted) && has_name_bytes(wanted)
}

/// The wanted name with each byte that stands in no name made `_`, and `_` before it where it does not begin with a
/// letter or `_`. Fails where memory runs out.
pub fn clean(alloc: Global, wanted: &[u8]) -> Result<Vec<u8>, AllocError>
    ensures { IfOk result (λ name. name.items ≡ clean wanted.now) }
{
    let mut name = Vec::with_capacity(alloc, wanted.len() + 1)?;
    if !starts_name(wanted) {
        name.push(b'_')?;
    }
    for byte in wanted {
        name.push(name_byte(*byte))?;
    }
    Ok(name)
}
