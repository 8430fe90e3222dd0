//! The words that an operation takes, and the types that it writes.
ghost use Rattle.std.specs.Prelude.{◌≡◌, ◌∷◌, [], length, map, IfOk, OnOk, OnErr};
ghost use Rattle.bits_core.specs.Word.{number};
ghost use Rattle.hw_model.specs.Types.{width};
ghost use Rattle.hw_model.specs.TypeViews.{type_of, field_of as named_type, fields_of};
ghost use Rattle.hw_model.specs.Value.{fields, nth_type};
ghost use Rattle.operation_values.specs.Suits.{IsInteger, IsCounted, OnFirst, IsArray, IsStruct};

use crate::bit_string::{BitString, bits_of};
use crate::refusal::Refusal;
use hw_model::types::{Field, Ty};

pub(crate) fn one(operands: &[BitString]) -> Result<&BitString, Refusal>
    ensures value { IfOk result (λ a. operands.now ≡ a.now ∷ []) }
    ensures refuses { OnErr result (¬ (length operands.now ≡ 1)) }
{
    match operands {
        [a] => Ok(a),
        _ => Err(Refusal::NotFitting),
    }
}

pub(crate) fn two(operands: &[BitString]) -> Result<(&BitString, &BitString), Refusal>
    ensures value { IfOk result (λ p. operands.now ≡ p.0.now ∷ p.1.now ∷ []) }
    ensures refuses { OnErr result (¬ (length operands.now ≡ 2)) }
{
    match operands {
        [a, b] => Ok((a, b)),
        _ => Err(Refusal::NotFitting),
    }
}

pub(crate) fn three(operands: &[BitString]) -> Result<(&BitString, &BitString, &BitString), Refusal>
    ensures value { IfOk result (λ p. operands.now ≡ p.0.now ∷ p.1.now ∷ p.2.now ∷ []) }
    ensures refuses { OnErr result (¬ (length operands.now ≡ 3)) }
{
    match operands {
        [a, b, c] => Ok((a, b, c)),
        _ => Err(Refusal::NotFitting),
    }
}

// the first of the types that an operation writes, where it is an array whose elements' bits are counted
pub(crate) fn written_array(types: &[Ty]) -> Result<&Ty, Refusal>
    ensures value { IfOk result (λ t. nth_type (map type_of types.now) 0 ≡ type_of t.now) }
    ensures suits { OnOk result (OnFirst IsArray (map type_of types.now)) }
    ensures refuses { OnErr result (¬ OnFirst IsArray (map type_of types.now)) }
{
    match types {
        [first, ..] => counted_array(first),
        [] => Err(Refusal::NotFitting),
    }
}

// the type, where it is an array whose elements' bits are counted
fn counted_array(ty: &Ty) -> Result<&Ty, Refusal>
    ensures value { IfOk result (λ t. type_of t.now ≡ type_of ty.now) }
    ensures suits { OnOk result (IsArray (type_of ty.now)) }
    ensures refuses { OnErr result (¬ IsArray (type_of ty.now)) }
{
    let Ty::Array(_, element) = ty else {
        return Err(Refusal::NotFitting);
    };
    exact_width(element)?;
    Ok(ty)
}

// the fields of the first of the types that an operation writes, where it is a struct
pub(crate) fn written_fields(types: &[Ty]) -> Result<&[Field], Refusal>
    ensures value { IfOk result (λ fs. fields (nth_type (map type_of types.now) 0) ≡ fields_of (map named_type fs.now)) }
    ensures suits { OnOk result (OnFirst IsStruct (map type_of types.now)) }
    ensures refuses { OnErr result (¬ OnFirst IsStruct (map type_of types.now)) }
{
    match types {
        [first, ..] => struct_fields(first),
        [] => Err(Refusal::NotFitting),
    }
}

/// How many bits a value of the type has, or a refusal where they are too many to count.
pub fn exact_width(ty: &Ty) -> Result<u64, Refusal>
    ensures value { IfOk result (λ w. w ≡ width (type_of ty.now)) }
    ensures counted { OnOk result (IsCounted (width (type_of ty.now))) }
    ensures refuses { OnErr result (¬ IsCounted (width (type_of ty.now))) }
{
    let width = ty.width();
    if width == u64::MAX {
        return Err(Refusal::NotFitting);
    }
    Ok(width)
}

// the number that a word of 1 to 128 bits stands for
pub(crate) fn number_of(word: &BitString) -> Result<u128, Refusal>
    ensures value { IfOk result (λ n. n ≡ number word.now) }
    ensures suits { OnOk result (IsInteger word.now) }
    ensures refuses { OnErr result (¬ IsInteger word.now) }
{
    let word = bits_of(word.as_slice())?;
    Ok(word.value())
}

fn struct_fields(ty: &Ty) -> Result<&[Field], Refusal>
    ensures value { IfOk result (λ fs. fields (type_of ty.now) ≡ fields_of (map named_type fs.now)) }
    ensures suits { OnOk result (IsStruct (type_of ty.now)) }
    ensures refuses { OnErr result (¬ IsStruct (type_of ty.now)) }
{
    match ty {
        Ty::Struct(list) => Ok(list.fields.as_slice()),
        Ty::Int(_) | Ty::Clock | Ty::Array(_, _) => Err(Refusal::NotFitting),
    }
}
