//! The digits of numbers.
ghost use Rattle.std.specs.Prelude.{◌≡◌, ℕ, ◌<◌, length, map, Some, slice_get, decimal};

use itoa::Buffer;
use std::alloc::{AllocError, Global};

/// The digits of each of the first numbers, without leading zeros. Contracts see how many numbers these are by
/// `spelled_below`.
#[derive(Drop)]
pub struct Numerals {
    texts: Vec<Vec<u8>>,
    ghost spelled: { (n : ℕ) → n < length texts.items → slice_get (map (λ (text : _). text.items) texts.items) n ≡ Some (decimal n) },
}

impl Numerals {
    ghost use Rattle.std.specs.Prelude.{◌≡◌, ◌<◌, ◌≤◌, decimal, OnOk};
    ghost use Rattle.mlir_printer.specs.Spelled.{spelled_below};

    /// The digits of no number. It takes no memory.
    pub fn new(alloc: Global) -> Numerals
        ensures { spelled_below result ≡ 0 }
    {
        Numerals {
            texts: Vec::new(alloc),
        }
    }

    /// Has the digits of a number as well, where it has those of all smaller ones.
    pub fn reach(&mut self, number: u32) -> Result<(), AllocError>
        requires { number ≤ spelled_below self.old }
        ensures reached { OnOk result (number < spelled_below self.new) }
        ensures kept { spelled_below self.old ≤ spelled_below self.new }
    {
        if (number as usize) < self.texts.len() {
            return Ok(());
        }
        let mut buffer = Buffer::new();
        let alloc = *self.texts.allocator();
        self.texts.reserve(1)?;
        let text = Vec::from_slice(alloc, buffer.format(number).as_bytes())?;
        self.texts.push_reserved(text);
        Ok(())
    }

    /// The digits of a number.
    pub fn digits(&self, number: u32) -> &[u8]
        requires { number < spelled_below self.now }
        ensures { result.now ≡ decimal number }
    {
        self.texts[number as usize].as_slice()
    }
}
