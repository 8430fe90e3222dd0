//! The symbols of modules.
ghost use Rattle.std.specs.Prelude.{◌≡◌, IfOk};
ghost use Rattle.generator.specs.Generated.{module_symbol};

use io_edge::byte_text::Text;
use itoa::Buffer;
use std::alloc::{AllocError, Global};

/// The symbol of module `k`.
pub fn module_symbol(alloc: Global, k: u32) -> Result<Text, AllocError>
    ensures { IfOk result (λ text. text ≡ module_symbol k) }
{
    let mut buffer = Buffer::new();
    let mut text = Text::of(alloc, b"M")?;
    text.push_bytes(buffer.format(k).as_bytes())?;
    Ok(text)
}
