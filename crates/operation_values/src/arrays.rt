//! The values of operations on arrays.
ghost use Rattle.std.specs.Prelude.{◌≡◌, ◌+◌, ◌≤◌, ◌==◌, map, cond, IfOk, IsTrue, ◌↔◌, ◌^◌, OnOk, IsErrOf};
ghost use Rattle.bits_core.specs.Word.{number};
ghost use Rattle.hw_model.specs.TypeViews.{type_of};
ghost use Rattle.hw_model.specs.FamilyViews.{array_op_of};
ghost use Rattle.hw_model.specs.IntegerKinds.{OfTwo};
ghost use Rattle.hw_model.specs.Value.{array_value, of_two, of_three, element, elements_from, slice_of, injected_below, inject_element, nth_type};
ghost use Rattle.operation_values.specs.Suits.{ArraySuits, IsInteger, OfThree, OnFirst, IsArray, ReachesFrom};
ghost use Rattle.operation_values.specs.declared.refusal.Refusal.TheVariants.{NotFitting};

use crate::bit_string::BitString;
use crate::operands::{exact_width, number_of, three, two, written_array};
use crate::refusal::Refusal;
use crate::values::concat_words;
use crate::word_parts::part_of;
use hw_model::families::ArrayOp;
use hw_model::types::Ty;
use std::alloc::Global;

// the value of an operation on arrays
pub(crate) fn array_word(
    alloc: Global,
    op: ArrayOp,
    types: &[Ty],
    ty: &Ty,
    operands: &[BitString],
) -> Result<BitString, Refusal>
    ensures value { IfOk result (λ word. word ≡ array_value (array_op_of op) (nth_type (map type_of types.now) 0) (type_of ty.now) operands.now) }
    ensures suits { OnOk result (ArraySuits (array_op_of op) (map type_of types.now) (type_of ty.now) operands.now) }
    ensures refuses { IsErrOf result NotFitting → ¬ ArraySuits (array_op_of op) (map type_of types.now) (type_of ty.now) operands.now }
{
    match op {
        ArrayOp::Create | ArrayOp::Concat => {
            let word = concat_words(alloc, operands)?;
            Ok(word)
        }
        ArrayOp::Get => element_got(alloc, types, operands),
        ArrayOp::Slice => slice_got(alloc, types, ty, operands),
        ArrayOp::Inject => element_put(alloc, types, operands),
    }
}

// element `index` of an array's word, zero past the end
fn element(alloc: Global, ty: &Ty, word: &[bool], index: u128) -> Result<BitString, Refusal>
    ensures value { IfOk result (λ part. part ≡ element (type_of ty.now) word.now index) }
    ensures refuses { IsErrOf result NotFitting → ¬ IsArray (type_of ty.now) }
{
    let Ty::Array(length, element) = ty else {
        return Err(Refusal::NotFitting);
    };
    let width = exact_width(element)?;
    if index >= u128::from(*length) {
        let part = BitString::zeros(alloc, width)?;
        return Ok(part);
    }
    let low = index * u128::from(width);
    let part = BitString::of(alloc, part_of(word, low, width))?;
    Ok(part)
}

// elements low + count - 1 down to low
fn elements(
    alloc: Global,
    ty: &Ty,
    word: &[bool],
    low: u128,
    count: u32,
) -> Result<BitString, Refusal>
    requires { low + count ≤ 2 ^ 128 }
    ensures value { IfOk result (λ part. part ≡ elements_from (type_of ty.now) word.now low count) }
    ensures refuses { IsErrOf result NotFitting → ¬ IsArray (type_of ty.now) }
{
    let mut part = BitString::new(alloc);
    let mut left = count;
    while left > 0 {
        left -= 1;
        let next = element(alloc, ty, word, low + u128::from(left))?;
        part.push_bits(next.as_slice())?;
    }
    Ok(part)
}

// the elements below `count`, from the highest down, with `value` in place of element `index`
fn elements_with(
    alloc: Global,
    ty: &Ty,
    count: u32,
    word: &[bool],
    index: u128,
    value: &BitString,
) -> Result<BitString, Refusal>
    ensures value { IfOk result (λ part. part ≡ injected_below count (type_of ty.now) word.now index value.now) }
    ensures refuses { IsErrOf result NotFitting → ¬ IsArray (type_of ty.now) }
{
    let mut part = BitString::new(alloc);
    let mut left = count;
    while left > 0 {
        left -= 1;
        let next = element_or(alloc, ty, u128::from(left), word, index, value)?;
        part.push_bits(next.as_slice())?;
    }
    Ok(part)
}

// element `at`, or the value in its position where it is element `index`
fn element_or(
    alloc: Global,
    ty: &Ty,
    at: u128,
    word: &[bool],
    index: u128,
    value: &BitString,
) -> Result<BitString, Refusal>
    ensures value { IfOk result (λ part. part ≡ cond (at == index) value.now (element (type_of ty.now) word.now at)) }
    ensures refuses { IsErrOf result NotFitting → ¬ IsArray (type_of ty.now) }
{
    if at == index {
        let part = value.try_clone(alloc)?;
        return Ok(part);
    }
    element(alloc, ty, word, at)
}

fn element_got(alloc: Global, types: &[Ty], operands: &[BitString]) -> Result<BitString, Refusal>
    ensures value { IfOk result (λ word. word ≡ of_two (λ a i. element (nth_type (map type_of types.now) 0) a (number i)) operands.now) }
    ensures suits { OnOk result (OnFirst IsArray (map type_of types.now) × OfTwo (λ a i. IsInteger i) operands.now) }
    ensures refuses { IsErrOf result NotFitting → ¬ (OnFirst IsArray (map type_of types.now) × OfTwo (λ a i. IsInteger i) operands.now) }
{
    let ty = written_array(types)?;
    let (array, index) = two(operands)?;
    let index = number_of(index)?;
    element(alloc, ty, array.as_slice(), index)
}

// whether the index of each of so many elements from an index on has 128 bits
fn reaches(low: u128, count: u32) -> bool
    ensures { IsTrue result ↔ low + count ≤ 2 ^ 128 }
{
    count == 0 || u128::from(count - 1) <= u128::MAX - low
}

fn slice_got(
    alloc: Global,
    types: &[Ty],
    slice: &Ty,
    operands: &[BitString],
) -> Result<BitString, Refusal>
    ensures value { IfOk result (λ word. word ≡ of_two (λ a i. slice_of (nth_type (map type_of types.now) 0) a (number i) (type_of slice.now)) operands.now) }
    ensures suits { OnOk result (OnFirst IsArray (map type_of types.now) × OfTwo (λ a i. IsInteger i × ReachesFrom (number i) (type_of slice.now)) operands.now) }
    ensures refuses { IsErrOf result NotFitting → ¬ (OnFirst IsArray (map type_of types.now) × OfTwo (λ a i. IsInteger i × ReachesFrom (number i) (type_of slice.now)) operands.now) }
{
    let ty = written_array(types)?;
    let (array, index) = two(operands)?;
    let index = number_of(index)?;
    slice_at(alloc, ty, slice, array.as_slice(), index)
}

// the elements of a slice, the first at that index
fn slice_at(
    alloc: Global,
    ty: &Ty,
    slice: &Ty,
    word: &[bool],
    index: u128,
) -> Result<BitString, Refusal>
    ensures value { IfOk result (λ part. part ≡ slice_of (type_of ty.now) word.now index (type_of slice.now)) }
    ensures suits { OnOk result (ReachesFrom index (type_of slice.now)) }
    ensures refuses { IsErrOf result NotFitting → ¬ (IsArray (type_of ty.now) × ReachesFrom index (type_of slice.now)) }
{
    match slice {
        Ty::Array(count, _) => {
            if !reaches(index, *count) {
                return Err(Refusal::NotFitting);
            }
            elements(alloc, ty, word, index, *count)
        }
        _ => Err(Refusal::NotFitting),
    }
}

fn element_put(alloc: Global, types: &[Ty], operands: &[BitString]) -> Result<BitString, Refusal>
    ensures value { IfOk result (λ word. word ≡ of_three (λ a i v. inject_element (nth_type (map type_of types.now) 0) a (number i) v) operands.now) }
    ensures suits { OnOk result (OnFirst IsArray (map type_of types.now) × OfThree (λ a i v. IsInteger i) operands.now) }
    ensures refuses { IsErrOf result NotFitting → ¬ (OnFirst IsArray (map type_of types.now) × OfThree (λ a i v. IsInteger i) operands.now) }
{
    let ty = written_array(types)?;
    let (array, index, value) = three(operands)?;
    let index = number_of(index)?;
    inject_element(alloc, ty, array.as_slice(), index, value)
}

// the array's word with a value in place of element `index`
fn inject_element(
    alloc: Global,
    ty: &Ty,
    word: &[bool],
    index: u128,
    value: &BitString,
) -> Result<BitString, Refusal>
    ensures value { IfOk result (λ part. part ≡ inject_element (type_of ty.now) word.now index value.now) }
    ensures refuses { IsErrOf result NotFitting → ¬ IsArray (type_of ty.now) }
{
    match ty {
        Ty::Array(count, _) => elements_with(alloc, ty, *count, word, index, value),
        _ => Err(Refusal::NotFitting),
    }
}
