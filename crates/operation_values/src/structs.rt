//! The values of operations on structs.
ghost use Rattle.std.specs.Prelude.{◌≡◌, length, map, IfOk, OnOk, IsErrOf};
ghost use Rattle.hw_model.specs.FamilyViews.{struct_op_of};
ghost use Rattle.hw_model.specs.TypeViews.{type_of, field_of as named_type, fields_of};
ghost use Rattle.hw_model.specs.Value.{struct_value, of_one, of_two, field_of, with_field, field_at, fields, nth_type};
ghost use Rattle.operation_values.specs.Suits.{OnFirst, IsStruct, StructSuits};
ghost use Rattle.operation_values.specs.declared.refusal.Refusal.TheVariants.{NotFitting};

use crate::bit_string::BitString;
use crate::operands::{one, two, written_fields};
use crate::refusal::Refusal;
use crate::values::concat_words;
use crate::word_parts::{past, prefix, two_parts};
use hw_model::families::StructOp;
use hw_model::types::{Field, Ty};
use std::alloc::{AllocError, Global};

// the value of an operation on structs
pub(crate) fn struct_word(
    alloc: Global,
    op: StructOp<'_>,
    types: &[Ty],
    index: u32,
    operands: &[BitString],
) -> Result<BitString, Refusal>
    ensures value { IfOk result (λ word. word ≡ struct_value (struct_op_of op.entry) (fields (nth_type (map type_of types.now) 0)) index operands.now) }
    ensures suits { OnOk result (StructSuits (struct_op_of op.entry) (map type_of types.now) operands.now) }
    ensures refuses { IsErrOf result NotFitting → ¬ StructSuits (struct_op_of op.entry) (map type_of types.now) operands.now }
{
    match op {
        StructOp::Create => {
            let word = concat_words(alloc, operands)?;
            Ok(word)
        }
        StructOp::Extract(name) => field_got(alloc, types, name.as_bytes(), operands),
        StructOp::Inject(name) => field_put(alloc, types, name.as_bytes(), operands),
        StructOp::Explode => field_numbered(alloc, types, index, operands),
    }
}

// the part of a struct's word that is the field of that name
fn field_named<'w>(fields: &[Field], name: &[u8], word: &'w [bool]) -> &'w [bool]
    ensures { result.now ≡ field_of (fields_of (map named_type fields.now)) name.now word.now }
{
    match fields {
        [] => &[],
        [field, rest @ ..] => {
            if field.name.as_bytes() == name {
                return prefix(word, &field.ty);
            }
            field_named(rest, name, past(word, &field.ty))
        }
    }
}

// the part of a struct's word that is the field of that number
fn field_at<'w>(fields: &[Field], number: u32, word: &'w [bool]) -> &'w [bool]
    ensures { result.now ≡ field_at (fields_of (map named_type fields.now)) number word.now }
{
    match fields {
        [] => &[],
        [field, rest @ ..] => {
            if number == 0 {
                return prefix(word, &field.ty);
            }
            field_at(rest, number - 1, past(word, &field.ty))
        }
    }
}

// the struct's word with a value in the place of the field of that name
fn with_field(
    alloc: Global,
    fields: &[Field],
    name: &[u8],
    word: &[bool],
    value: &BitString,
) -> Result<BitString, AllocError>
    ensures { IfOk result (λ part. part ≡ with_field (fields_of (map named_type fields.now)) name.now word.now value.now) }
{
    match fields {
        [] => BitString::of(alloc, word),
        [field, rest @ ..] => {
            if field.name.as_bytes() == name {
                return two_parts(alloc, value.as_slice(), past(word, &field.ty));
            }
            let low = with_field(alloc, rest, name, past(word, &field.ty), value)?;
            two_parts(alloc, prefix(word, &field.ty), low.as_slice())
        }
    }
}

fn field_got(
    alloc: Global,
    types: &[Ty],
    name: &[u8],
    operands: &[BitString],
) -> Result<BitString, Refusal>
    ensures value { IfOk result (λ word. word ≡ of_one (field_of (fields (nth_type (map type_of types.now) 0)) name.now) operands.now) }
    ensures suits { OnOk result (OnFirst IsStruct (map type_of types.now) × (length operands.now ≡ 1)) }
    ensures refuses { IsErrOf result NotFitting → ¬ (OnFirst IsStruct (map type_of types.now) × (length operands.now ≡ 1)) }
{
    let word = one(operands)?;
    let fields = written_fields(types)?;
    let part = BitString::of(alloc, field_named(fields, name, word.as_slice()))?;
    Ok(part)
}

fn field_put(
    alloc: Global,
    types: &[Ty],
    name: &[u8],
    operands: &[BitString],
) -> Result<BitString, Refusal>
    ensures value { IfOk result (λ word. word ≡ of_two (with_field (fields (nth_type (map type_of types.now) 0)) name.now) operands.now) }
    ensures suits { OnOk result (OnFirst IsStruct (map type_of types.now) × (length operands.now ≡ 2)) }
    ensures refuses { IsErrOf result NotFitting → ¬ (OnFirst IsStruct (map type_of types.now) × (length operands.now ≡ 2)) }
{
    let (word, value) = two(operands)?;
    let fields = written_fields(types)?;
    let part = with_field(alloc, fields, name, word.as_slice(), value)?;
    Ok(part)
}

fn field_numbered(
    alloc: Global,
    types: &[Ty],
    number: u32,
    operands: &[BitString],
) -> Result<BitString, Refusal>
    ensures value { IfOk result (λ word. word ≡ of_one (field_at (fields (nth_type (map type_of types.now) 0)) number) operands.now) }
    ensures suits { OnOk result (OnFirst IsStruct (map type_of types.now) × (length operands.now ≡ 1)) }
    ensures refuses { IsErrOf result NotFitting → ¬ (OnFirst IsStruct (map type_of types.now) × (length operands.now ≡ 1)) }
{
    let word = one(operands)?;
    let fields = written_fields(types)?;
    let part = BitString::of(alloc, field_at(fields, number, word.as_slice()))?;
    Ok(part)
}
