//! Commas between items.
ghost use Rattle.std.specs.Prelude.{◌≡◌, ◌++◌, OnOk};
ghost use Rattle.mlir_printer.specs.Commas.{comma_bytes};

use io_edge::byte_text::Text;
use std::alloc::AllocError;

/// Adds a comma before what is not the first.
#[tactic(auto, unfolding(crate::specs::Commas::comma_bytes))]
pub fn push_comma(out: &mut Text, number: usize) -> Result<(), AllocError>
    ensures { OnOk result (out.new ≡ out.old ++ comma_bytes number) }
{
    if number == 0 {
        return Ok(());
    }
    push_few(out, b", ")?;
    Ok(())
}

/// Adds a few bytes one by one, which takes less time than all at once where they are at most about four.
pub fn push_few(out: &mut Text, bytes: &[u8]) -> Result<(), AllocError>
    ensures { OnOk result (out.new ≡ out.old ++ bytes.now) }
{
    if bytes.len() > 4 {
        return out.push_bytes(bytes);
    }
    for byte in bytes {
        out.push(*byte)?;
    }
    Ok(())
}
