//! The value of each operation.
ghost use Rattle.std.specs.Prelude.{◌≡◌, length, map, cond, IfOk, OnOk, IsErrOf};
ghost use Rattle.bits_core.specs.Word.{bits_of_ℤ};
ghost use Rattle.hw_model.specs.Types.{width};
ghost use Rattle.hw_model.specs.TypeViews.{type_of};
ghost use Rattle.hw_model.specs.KindViews.{kind_of, literal_of, literals_in, integer_of};
ghost use Rattle.hw_model.specs.FamilyViews.{family_of};
ghost use Rattle.hw_model.specs.Value.{op_value, concat_words, of_one, of_three, is_high, word_of_literal, word_of_literals};
ghost use Rattle.operation_values.specs.Suits.{IsIntegerWidth, HasIntegers, HaveIntegers, Suits};
ghost use Rattle.operation_values.specs.declared.refusal.Refusal.TheVariants.{NotFitting};

use crate::arrays::array_word;
use crate::bit_string::BitString;
use crate::integers::{integer_value, integer_width};
use crate::operands::{one, three};
use crate::refusal::Refusal;
use crate::structs::struct_word;
use hw_model::families::Family;
use hw_model::integer_values::family_value;
use hw_model::kinds::{Integer, Literal, LiteralList, OpKind};
use hw_model::types::Ty;
use std::alloc::{AllocError, Global};

/// The value of the result number `index`, of type `ty`, of an operation of this kind that writes `types`, from the
/// words of its operands, in order. Registers, instances and outputs have the empty word.
///
/// A refusal other than out of memory comes exactly where the operation does not take the words: operations on
/// integers other than concatenations and choices take words of 1 to 128 bits that fit their kind, the others as many
/// words as they have operands, with the types of arrays and structs that they write.
pub fn value_of(
    alloc: Global,
    kind: &OpKind,
    types: &[Ty],
    ty: &Ty,
    index: u32,
    operands: &[BitString],
) -> Result<BitString, Refusal>
    ensures value { IfOk result (λ word. word ≡ op_value (kind_of kind.now) (map type_of types.now) (type_of ty.now) index operands.now) }
    ensures suits { OnOk result (Suits (kind_of kind.now) (map type_of types.now) (type_of ty.now) operands.now) }
    ensures refuses { IsErrOf result NotFitting → ¬ Suits (kind_of kind.now) (map type_of types.now) (type_of ty.now) operands.now }
{
    family_word(alloc, kind.family(), types, ty, index, operands)
}

// the same, by the family
fn family_word(
    alloc: Global,
    family: Family<'_>,
    types: &[Ty],
    ty: &Ty,
    index: u32,
    operands: &[BitString],
) -> Result<BitString, Refusal>
    ensures value { IfOk result (λ word. word ≡ op_value (family_of family.entry) (map type_of types.now) (type_of ty.now) index operands.now) }
    ensures suits { OnOk result (Suits (family_of family.entry) (map type_of types.now) (type_of ty.now) operands.now) }
    ensures refuses { IsErrOf result NotFitting → ¬ Suits (family_of family.entry) (map type_of types.now) (type_of ty.now) operands.now }
{
    match family {
        Family::AggregateConstant(list) => literals_word(alloc, list),
        Family::Concat => {
            let word = concat_words(alloc, operands)?;
            Ok(word)
        }
        Family::Mux => mux_value(alloc, operands),
        Family::Bitcast | Family::Wire => operand_value(alloc, operands),
        Family::Array(op) => array_word(alloc, op, types, ty, operands),
        Family::Struct(op) => struct_word(alloc, op, types, index, operands),
        Family::Instance(_) | Family::Output | Family::Register(_, _) | Family::AsyncFirReg => {
            Ok(BitString::new(alloc))
        }
        _ => integer_value(alloc, family, ty, operands),
    }
}

fn operand_value(alloc: Global, operands: &[BitString]) -> Result<BitString, Refusal>
    ensures value { IfOk result (λ word. word ≡ of_one (λ x. x) operands.now) }
    ensures suits { OnOk result (length operands.now ≡ 1) }
    ensures refuses { IsErrOf result NotFitting → ¬ (length operands.now ≡ 1) }
{
    let word = one(operands)?;
    let word = word.try_clone(alloc)?;
    Ok(word)
}

/// The words joined, the first most significant.
pub fn concat_words(alloc: Global, operands: &[BitString]) -> Result<BitString, AllocError>
    ensures { IfOk result (λ word. word ≡ concat_words operands.now) }
{
    let mut word = BitString::new(alloc);
    for operand in operands {
        word.push_bits(operand.as_slice())?;
    }
    Ok(word)
}

/// Whether the first bit is 1.
pub fn is_high(word: &BitString) -> bool
    ensures { result ≡ is_high word.now }
{
    match word.as_slice() {
        [] => false,
        [bit, ..] => *bit,
    }
}

fn mux_value(alloc: Global, operands: &[BitString]) -> Result<BitString, Refusal>
    ensures value { IfOk result (λ word. word ≡ of_three (λ c x y. cond (is_high c) x y) operands.now) }
    ensures suits { OnOk result (length operands.now ≡ 3) }
    ensures refuses { IsErrOf result NotFitting → ¬ (length operands.now ≡ 3) }
{
    let (condition, a, b) = three(operands)?;
    let word = if is_high(condition) { a } else { b };
    let word = word.try_clone(alloc)?;
    Ok(word)
}

#[cycle(literal_word)]
fn literal_word(alloc: Global, literal: &Literal) -> Result<BitString, Refusal>
    ensures value { IfOk result (λ word. word ≡ word_of_literal (literal_of literal.now)) }
    ensures suits { OnOk result (HasIntegers (literal_of literal.now)) }
    ensures refuses { IsErrOf result NotFitting → ¬ HasIntegers (literal_of literal.now) }
{
    match literal {
        Literal::Leaf(value, ty) => leaf_word(alloc, *value, ty),
        Literal::Parts(list) => literals_word(alloc, list),
    }
}

#[cycle(literal_word)]
fn literals_word(alloc: Global, list: &LiteralList) -> Result<BitString, Refusal>
    ensures value { IfOk result (λ word. word ≡ word_of_literals (literals_in list.now)) }
    ensures suits { OnOk result (HaveIntegers (literals_in list.now)) }
    ensures refuses { IsErrOf result NotFitting → ¬ HaveIntegers (literals_in list.now) }
{
    let mut word = BitString::new(alloc);
    for literal in &list.literals {
        let part = literal_word(alloc, literal)?;
        word.push_bits(part.as_slice())?;
    }
    Ok(word)
}

fn leaf_word(alloc: Global, value: Integer, ty: &Ty) -> Result<BitString, Refusal>
    ensures value { IfOk result (λ word. word ≡ bits_of_ℤ (width (type_of ty.now)) (integer_of value)) }
    ensures suits { OnOk result (IsIntegerWidth (width (type_of ty.now))) }
    ensures refuses { IsErrOf result NotFitting → ¬ IsIntegerWidth (width (type_of ty.now)) }
{
    let width = integer_width(ty)?;
    let word = family_value(Family::Constant(value), width, &[]);
    let word = BitString::from_bits(alloc, &word)?;
    Ok(word)
}
