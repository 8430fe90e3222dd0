//! Words of any number of bits.
ghost use Rattle.std.specs.Prelude.{◌≡◌, ◌+◌, ◌-◌, ◌++◌, ◌<◌, [], IfOk, OnOk, OnErr};
ghost use Rattle.bits_core.specs.Word.{number, zeros, first};
ghost use Rattle.operation_values.specs.Suits.{IsInteger};

use crate::refusal::Refusal;
use bits_core::Bits;
use std::alloc::{AllocError, Global};
use std::marker::Model;

/// A word of any number of bits, the most significant first. Contracts see it as the list of its bits.
#[derive(Drop)]
pub struct BitString {
    bits: Vec<bool>,
}

impl Model for BitString {
    ghost use Rattle.bits_core.specs.Word.{Word};

    ghost Value = { Word };

    ghost view = { λ s. s.bits.items };
}

impl BitString {
    /// The word without bits. It takes no memory.
    pub fn new(alloc: Global) -> BitString
        ensures { result ≡ [] }
    {
        BitString {
            bits: Vec::new(alloc),
        }
    }

    /// The word of these bits.
    pub fn of(alloc: Global, bits: &[bool]) -> Result<BitString, AllocError>
        ensures { IfOk result (λ word. word ≡ bits.now) }
    {
        let bits = Vec::from_slice(alloc, bits)?;
        Ok(BitString { bits })
    }

    /// That many bits of 0.
    pub fn zeros(alloc: Global, width: u64) -> Result<BitString, AllocError>
        ensures { IfOk result (λ word. word ≡ zeros width) }
    {
        let bits = vec![in alloc; false; width as usize]?;
        Ok(BitString { bits })
    }

    /// The bits, the most significant first.
    pub fn as_slice(&self) -> &[bool]
        ensures { result.now ≡ self.now }
    {
        self.bits.as_slice()
    }

    /// Puts these bits after. On an error the word stays as it was.
    pub fn push_bits(&mut self, bits: &[bool]) -> Result<(), AllocError>
        ensures { OnOk result (self.new ≡ self.old ++ bits.now) }
    {
        self.bits.extend_from_slice(bits)
    }

    /// An equal word with memory of its own.
    pub fn try_clone(&self, alloc: Global) -> Result<BitString, AllocError>
        ensures { IfOk result (λ word. word ≡ self.now) }
    {
        BitString::of(alloc, self.bits.as_slice())
    }

    /// The bits of an integer's word.
    pub fn from_bits(alloc: Global, word: &Bits) -> Result<BitString, AllocError>
        ensures { IfOk result (λ bits. bits ≡ word.now) }
    {
        let mut bits = Vec::new(alloc);
        let mut left = word.width();
        while left > 0 {
            left -= 1;
            bits.push((word.value() >> left) % 2 == 1)?;
        }
        Ok(BitString { bits })
    }
}

/// The integer's word of these bits, or a refusal where there are none or more than 128.
pub fn bits_of(bits: &[bool]) -> Result<Bits, Refusal>
    ensures value { IfOk result (λ word. word ≡ bits.now) }
    ensures suits { OnOk result (IsInteger bits.now) }
    ensures refuses { OnErr result (¬ IsInteger bits.now) }
{
    if bits.is_empty() || bits.len() > 128 {
        return Err(Refusal::NotFitting);
    }
    let mut word = Bits::from(bits[0]);
    for bit in &bits[1..] {
        word = word.concat(&Bits::from(*bit));
    }
    Ok(word)
}
