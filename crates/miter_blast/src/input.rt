//! What two modules are given where they differ.
ghost use Rattle.std.specs.Prelude.{◌≡◌, ◌≤◌, length, IfOk};
ghost use Rattle.wiring.specs.Lists.{total};
ghost use Rattle.bits_core.specs.Word.{bit};
ghost use Rattle.miter_blast.specs.Cuts.{cut, AreWordWidths};

use bits_core::Bits;
use std::alloc::{AllocError, Global};
use std::marker::Model;

/// Words for the leaves of a module's inputs, in order, and then for those of its registers.
#[derive(Drop)]
pub struct Input {
    values: Vec<Bits>,
}

impl Model for Input {
    ghost use Rattle.std.specs.Prelude.{List};
    ghost use Rattle.bits_core.specs.Word.{Word};

    ghost Value = { List Word };

    ghost view = { λ i. i.values.items };
}

impl Input {
    /// The words.
    pub fn as_slice(&self) -> &[Bits]
        ensures { result.now ≡ self.now }
    {
        &self.values
    }
}

/// Bits as words of these widths, one after another.
pub(crate) fn cut_bits(alloc: Global, bits: &[bool], widths: &[u32]) -> Result<Input, AllocError>
    requires some { AreWordWidths widths.now }
    requires enough { total widths.now ≤ length bits.now }
    ensures { IfOk result (λ input. input ≡ cut widths.now bits.now) }
{
    let mut values = Vec::with_capacity(alloc, widths.len())?;
    let mut rest = bits;
    for width in widths {
        let (word, others) = rest.split_at(*width as usize);
        values.push(word_of(word))?;
        rest = others;
    }
    Ok(Input { values })
}

// The word of one to 128 bits, the most significant first.
fn word_of(bits: &[bool]) -> Bits
    requires some { 1 ≤ length bits.now }
    requires few { length bits.now ≤ 128 }
    ensures { result ≡ bits.now }
{
    let mut value: u128 = 0;
    for bit in bits {
        value = value * 2 + bit_number(*bit);
    }
    Bits::truncate(bits.len() as u32, value)
}

// A bit as a number.
fn bit_number(one: bool) -> u128
    ensures { result ≡ bit one }
{
    if one { 1 } else { 0 }
}
