//! The values of operations on integers of 1 to 128 bits.
ghost use Rattle.std.specs.Prelude.{◌≡◌, [], ◌≤◌, ◌%◌, length, IfOk, IsTrue, ◌↔◌, All, OnOk, OnErr, IsErrOf};
ghost use Rattle.hw_model.specs.Types.{width};
ghost use Rattle.hw_model.specs.Types.HwType.{int};
ghost use Rattle.hw_model.specs.TypeViews.{type_of};
ghost use Rattle.hw_model.specs.FamilyViews.{family_of};
ghost use Rattle.hw_model.specs.IntegerKinds.{TakesWords, AllHave, OfOne, OfTwo};
ghost use Rattle.hw_model.specs.Value.{op_value};
ghost use Rattle.operation_values.specs.Suits.{IsIntegerWidth, IsInteger, IsOnIntegers, SuitIntegers};
ghost use Rattle.operation_values.specs.declared.refusal.Refusal.TheVariants.{NotFitting};

use crate::bit_string::{BitString, bits_of};
use crate::refusal::Refusal;
use bits_core::Bits;
use hw_model::families::Family;
use hw_model::integer_values::family_value;
use hw_model::types::Ty;
use std::alloc::Global;

// the value of an operation on integers that takes these words
pub(crate) fn integer_value(
    alloc: Global,
    family: Family<'_>,
    ty: &Ty,
    operands: &[BitString],
) -> Result<BitString, Refusal>
    ensures value { IfOk result (λ word. TakesWords (family_of family.entry) (width (type_of ty.now)) operands.now
        × (word ≡ op_value (family_of family.entry) [] (int (width (type_of ty.now))) 0 operands.now)) }
    ensures suits { OnOk result (SuitIntegers (family_of family.entry) (width (type_of ty.now)) operands.now) }
    ensures refuses { IsErrOf result NotFitting → IsOnIntegers (family_of family.entry) → ¬ SuitIntegers (family_of family.entry) (width (type_of ty.now)) operands.now }
{
    let width = integer_width(ty)?;
    let words = integer_words(alloc, operands)?;
    if !takes_words(family, width, words.as_slice()) {
        return Err(Refusal::NotFitting);
    }
    let word = BitString::from_bits(alloc, &family_value(family, width, words.as_slice()))?;
    Ok(word)
}

// how many bits a value of the type has, where they are 1 to 128
pub(crate) fn integer_width(ty: &Ty) -> Result<u32, Refusal>
    ensures value { IfOk result (λ w. (w ≡ width (type_of ty.now)) × (1 ≤ w) × (w ≤ 128)) }
    ensures refuses { OnErr result (¬ IsIntegerWidth (width (type_of ty.now))) }
{
    let width = ty.width();
    if width == 0 || width > 128 {
        return Err(Refusal::NotFitting);
    }
    Ok(width as u32)
}

fn integer_words(alloc: Global, operands: &[BitString]) -> Result<Vec<Bits>, Refusal>
    ensures value { IfOk result (λ words. words.items ≡ operands.now) }
    ensures suits { OnOk result (All IsInteger operands.now) }
    ensures refuses { IsErrOf result NotFitting → ¬ All IsInteger operands.now }
{
    let mut words = Vec::with_capacity(alloc, operands.len())?;
    for operand in operands {
        words.push(bits_of(operand.as_slice())?)?;
    }
    Ok(words)
}

// whether the kind is one of integers that takes these words
fn takes_words(family: Family<'_>, width: u32, words: &[Bits]) -> bool
    ensures only { IsTrue result → TakesWords (family_of family.entry) width words.now }
    ensures every { IsOnIntegers (family_of family.entry) → TakesWords (family_of family.entry) width words.now → IsTrue result }
{
    match family {
        Family::Variadic(_) => all_have(width, words),
        Family::Sub | Family::Division(_) | Family::Icmp(_) => are_two_alike(words),
        Family::Shift(_) => words.len() == 2,
        Family::Parity => words.len() == 1,
        Family::Extract(low) => is_one_reaching(u64::from(low) + u64::from(width), words),
        Family::Replicate => is_one_dividing(width, words),
        Family::Constant(_) => words.is_empty(),
        _ => false,
    }
}

fn all_have(width: u32, words: &[Bits]) -> bool
    ensures { IsTrue result ↔ AllHave width words.now }
{
    words.iter().all(|word| word.width() == width)
}

fn are_two_alike(words: &[Bits]) -> bool
    ensures { IsTrue result ↔ OfTwo (λ x y. length x ≡ length y) words.now }
{
    match words {
        [a, b] => a.width() == b.width(),
        _ => false,
    }
}

// whether there is one word, of at least `reach` bits
fn is_one_reaching(reach: u64, words: &[Bits]) -> bool
    ensures { IsTrue result ↔ OfOne (λ x. reach ≤ length x) words.now }
{
    match words {
        [word] => reach <= u64::from(word.width()),
        _ => false,
    }
}

fn is_one_dividing(width: u32, words: &[Bits]) -> bool
    ensures { IsTrue result ↔ OfOne (λ x. width % length x ≡ 0) words.now }
{
    match words {
        [word] => width % word.width() == 0,
        _ => false,
    }
}
