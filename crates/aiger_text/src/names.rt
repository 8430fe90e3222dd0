//! Names with numbers.
ghost use Rattle.std.specs.Prelude.{◌≡◌, [], ◌∷◌, IfOk};
ghost use Rattle.aiger_design.specs.Operations.{numbered};

use io_edge::byte_text::Text;
use itoa::Buffer;
use std::alloc::{AllocError, Global};

/// A letter and a number in decimal.
pub(crate) fn numbered(alloc: Global, letter: u8, k: u32) -> Result<Text, AllocError>
    ensures { IfOk result (λ text. text ≡ numbered (letter ∷ []) k) }
{
    let mut buffer = Buffer::new();
    let mut text = Text::new(alloc);
    text.push(letter)?;
    text.push_bytes(buffer.format(k).as_bytes())?;
    Ok(text)
}
