//! Parts of words.
ghost use Rattle.std.specs.Prelude.{◌≡◌, ◌+◌, ◌++◌, ◌<◌, take, drop, IfOk, ◌^◌};
ghost use Rattle.bits_core.specs.Word.{extract as bits_from};
ghost use Rattle.hw_model.specs.Types.{width};
ghost use Rattle.hw_model.specs.TypeViews.{type_of};

use crate::bit_string::BitString;
use hw_model::types::Ty;
use std::alloc::{AllocError, Global};

/// The first bits, as many as there are.
pub fn first_bits(word: &[bool], width: u64) -> &[bool]
    ensures { result.now ≡ take width word.now }
{
    if width >= word.len() as u64 {
        return word;
    }
    word.split_at(width as usize).0
}

/// What stands after the first bits.
pub fn bits_after(word: &[bool], width: u64) -> &[bool]
    ensures { result.now ≡ drop width word.now }
{
    if width >= word.len() as u64 {
        return &[];
    }
    word.split_at(width as usize).1
}

// the first bits, as many as a value of the type has
pub(crate) fn prefix<'w>(word: &'w [bool], ty: &Ty) -> &'w [bool]
    ensures { result.now ≡ take (width (type_of ty.now)) word.now }
{
    let width = ty.width();
    if width >= word.len() as u64 {
        return word;
    }
    word.split_at(width as usize).0
}

// what stands after as many bits as a value of the type has
pub(crate) fn past<'w>(word: &'w [bool], ty: &Ty) -> &'w [bool]
    ensures { result.now ≡ drop (width (type_of ty.now)) word.now }
{
    let width = ty.width();
    if width >= word.len() as u64 {
        return &[];
    }
    word.split_at(width as usize).1
}

// the bits low to low + width - 1
pub(crate) fn part_of(word: &[bool], low: u128, width: u64) -> &[bool]
    requires { low + width < 2 ^ 128 }
    ensures { result.now ≡ bits_from low width word.now }
{
    let end = low + u128::from(width);
    let start = (word.len() as u128).saturating_sub(end) as usize;
    first_bits(word.split_at(start).1, width)
}

pub(crate) fn two_parts(alloc: Global, high: &[bool], low: &[bool]) -> Result<BitString, AllocError>
    ensures { IfOk result (λ word. word ≡ high.now ++ low.now) }
{
    let mut word = BitString::of(alloc, high)?;
    word.push_bits(low)?;
    Ok(word)
}
