//! The limits that an operation's types and attributes keep.
ghost use Rattle.std.specs.Prelude.{◌≡◌, false, map};
ghost use Rattle.std.specs.List.{list_any};
ghost use Rattle.std.specs.Option.{option_map};
ghost use Rattle.hw_model.specs.TypeViews.{type_of};
ghost use Rattle.hw_model.specs.FamilyViews.{family_of};
ghost use Rattle.hw_model.specs.KindViews.{integer_of};
ghost use Rattle.op_checks.specs.LiteralChecks.{is_outside_type};
ghost use Rattle.op_checks.specs.TypeChecks.{is_outside};
ghost use Rattle.op_checks.specs.TypeLists.{int_width, array_length};
ghost use Rattle.op_checks.specs.LimitChecks.{of_type, of_both, has_outside_array, has_outside_leaf, has_type_outside, has_constant_outside, reaches_past, has_extract_outside, is_no_multiple, has_broken_copy, has_wide_concat, has_unknown_divisor, is_width_of_index, is_no_index, is_longer, has_wrong_index, has_unknown_field, has_wrong_field, are_unequal, has_unequal_widths, value_types, has_other_clock, has_clock_operand, has_clock_value};

use crate::literal_checks::{LeafTest, any_failing_leaf, is_outside_type};
use crate::type_checks::is_outside;
use crate::type_lists::{
    any_bad_field, any_clock, any_clock_part, any_outside, any_settled_clock, array_length,
    int_width, is_settled_clock, settled_at,
};
use hw_model::families::{ArrayOp, Family, StructOp};
use hw_model::kinds::Integer;
use hw_model::types::{Ty, index_width};
use ir_store::operation::NewResult;
use type_inference::result_types::{field_of, joined_width};

/// Whether a written type or a result's is outside the limits; the result of `comb.concat` is not asked.
#[tactic(auto, unfolding(crate::specs::LimitChecks::has_type_outside))]
pub fn has_type_outside(family: Family<'_>, types: &[Ty], results: &[NewResult]) -> bool
    ensures { result ≡ has_type_outside (family_of family.entry) (map type_of types.now) (map (λ r. type_of r.ty) results.now) }
{
    any_outside(types) || (has_outside_leaf(family) || has_outside_array(family, results))
}

fn has_outside_leaf(family: Family<'_>) -> bool
    ensures { result ≡ has_outside_leaf (family_of family.entry) }
{
    match family {
        Family::AggregateConstant(list) => any_failing_leaf(LeafTest::Width, &list.literals),
        _ => false,
    }
}

fn has_outside_array(family: Family<'_>, results: &[NewResult]) -> bool
    ensures { result ≡ has_outside_array (family_of family.entry) (map (λ r. type_of r.ty) results.now) }
{
    match family {
        Family::Array(ArrayOp::Create) | Family::Array(ArrayOp::Concat) => match results.first() {
            Some(first) => is_outside(&first.ty),
            None => false,
        },
        _ => false,
    }
}

/// Whether a constant is out of the range of its type.
#[tactic(auto, unfolding(crate::specs::LimitChecks::has_constant_outside))]
pub fn has_constant_outside(family: Family<'_>, types: &[Ty]) -> bool
    ensures { result ≡ has_constant_outside (family_of family.entry) (map type_of types.now) }
{
    match family {
        Family::Constant(value) => is_outside_first(value, types.first()),
        Family::AggregateConstant(list) => any_failing_leaf(LeafTest::Range, &list.literals),
        _ => false,
    }
}

fn is_outside_first(value: Integer, ty: Option<&Ty>) -> bool
    ensures { result ≡ of_type (is_outside_type (integer_of value)) (option_map (λ t. type_of t.now) ty.entry) }
{
    match ty {
        Some(ty) => is_outside_type(value, ty),
        None => false,
    }
}

/// Whether an extract reaches past its operand.
#[tactic(auto, unfolding(crate::specs::LimitChecks::has_extract_outside))]
pub fn has_extract_outside(family: Family<'_>, types: &[Ty]) -> bool
    ensures { result ≡ has_extract_outside (family_of family.entry) (map type_of types.now) }
{
    match family {
        Family::Extract(low) => reaches_past(low, types.first(), types.get(1)),
        _ => false,
    }
}

fn reaches_past(low: u32, from: Option<&Ty>, to: Option<&Ty>) -> bool
    ensures { result ≡ of_both (reaches_past low) (int_width (option_map (λ t. type_of t.now) from.entry)) (int_width (option_map (λ t. type_of t.now) to.entry)) }
{
    match (int_width(from), int_width(to)) {
        (Some(width), Some(taken)) => u64::from(width) < u64::from(low) + u64::from(taken),
        (None, _) | (_, None) => false,
    }
}

/// Whether a replicate's width is no positive multiple of its operand's.
#[tactic(auto, unfolding(crate::specs::LimitChecks::has_broken_copy))]
pub fn has_broken_copy(family: Family<'_>, types: &[Ty]) -> bool
    ensures { result ≡ has_broken_copy (family_of family.entry) (map type_of types.now) }
{
    match family {
        Family::Replicate => is_no_multiple(types.first(), types.get(1)),
        _ => false,
    }
}

fn is_no_multiple(from: Option<&Ty>, to: Option<&Ty>) -> bool
    ensures { result ≡ of_both is_no_multiple (int_width (option_map (λ t. type_of t.now) from.entry)) (int_width (option_map (λ t. type_of t.now) to.entry)) }
{
    match (int_width(from), int_width(to)) {
        (Some(width), Some(wide)) => width == 0 || (wide == 0 || wide % width != 0),
        (None, _) | (_, None) => false,
    }
}

/// Whether a concat is wider than 128 bits.
#[tactic(auto, unfolding(crate::specs::LimitChecks::has_wide_concat))]
pub fn has_wide_concat(family: Family<'_>, types: &[Ty]) -> bool
    ensures { result ≡ has_wide_concat (family_of family.entry) (map type_of types.now) }
{
    match family {
        Family::Concat => match joined_width(types) {
            Some(width) => width > 128,
            None => false,
        },
        _ => false,
    }
}

/// Whether a division's divisor is not known to be a nonzero constant.
#[tactic(auto, unfolding(crate::specs::LimitChecks::has_unknown_divisor))]
pub fn has_unknown_divisor(family: Family<'_>, divides_by_constant: bool) -> bool
    ensures { result ≡ has_unknown_divisor (family_of family.entry) divides_by_constant }
{
    match family {
        Family::Division(_) => !divides_by_constant,
        _ => false,
    }
}

/// Whether an index has another width than its array asks for, or a slice is longer than its array.
#[tactic(auto, unfolding(crate::specs::LimitChecks::has_wrong_index))]
pub fn has_wrong_index(family: Family<'_>, types: &[Ty], operands: &[Option<&Ty>]) -> bool
    ensures { result ≡ has_wrong_index (family_of family.entry) (map type_of types.now) (map (option_map (λ t. type_of t.now)) operands.now) }
{
    match family {
        Family::Array(ArrayOp::Get) | Family::Array(ArrayOp::Inject) => is_no_index(
            types.first(),
            types.get(1),
        ),
        Family::Array(ArrayOp::Slice) => {
            is_no_index(types.first(), settled_at(operands, 1))
                || is_longer(types.first(), types.get(1))
        }
        _ => false,
    }
}

fn is_no_index(array: Option<&Ty>, index: Option<&Ty>) -> bool
    ensures { result ≡ is_no_index (option_map (λ t. type_of t.now) array.entry) (option_map (λ t. type_of t.now) index.entry) }
{
    match (array_length(array), int_width(index)) {
        (Some(length), Some(width)) => !is_width_of_index(length, width),
        (None, _) | (_, None) => false,
    }
}

/// Whether a width is that of the indices of an array of `length` elements.
#[tactic(auto, using(crate::proofs::Widths::index_width_told))]
fn is_width_of_index(length: u32, width: u32) -> bool
    ensures { result ≡ is_width_of_index length width }
{
    width == index_width(length)
}

fn is_longer(array: Option<&Ty>, slice: Option<&Ty>) -> bool
    ensures { result ≡ is_longer (option_map (λ t. type_of t.now) array.entry) (option_map (λ t. type_of t.now) slice.entry) }
{
    match (array_length(array), array_length(slice)) {
        (Some(length), Some(taken)) => length < taken,
        (None, _) | (_, None) => false,
    }
}

/// Whether a field is unknown, or its name stands twice in a written type.
#[tactic(auto, unfolding(crate::specs::LimitChecks::has_wrong_field))]
pub fn has_wrong_field(family: Family<'_>, types: &[Ty]) -> bool
    ensures { result ≡ has_wrong_field (family_of family.entry) (map type_of types.now) }
{
    any_bad_field(types) || has_unknown_field(family, types)
}

fn has_unknown_field(family: Family<'_>, types: &[Ty]) -> bool
    ensures { result ≡ has_unknown_field (family_of family.entry) (map type_of types.now) }
{
    match family {
        Family::Struct(StructOp::Extract(name)) | Family::Struct(StructOp::Inject(name)) => {
            field_of(types.first(), name).is_none()
        }
        _ => false,
    }
}

/// Whether a bitcast's types, which are within the limits, differ in width.
#[tactic(auto, unfolding(crate::specs::LimitChecks::has_unequal_widths))]
pub fn has_unequal_widths(family: Family<'_>, types: &[Ty]) -> bool
    requires { list_any is_outside (map type_of types.now) ≡ false }
    ensures { result ≡ has_unequal_widths (family_of family.entry) (map type_of types.now) }
{
    match family {
        Family::Bitcast => are_unequal(types.first(), types.get(1)),
        _ => false,
    }
}

#[tactic(auto, using(crate::proofs::Widths::unequal))]
fn are_unequal(from: Option<&Ty>, to: Option<&Ty>) -> bool
    requires from { of_type is_outside (option_map (λ t. type_of t.now) from) ≡ false }
    requires to { of_type is_outside (option_map (λ t. type_of t.now) to) ≡ false }
    ensures { result ≡ are_unequal (option_map (λ t. type_of t.now) from.entry) (option_map (λ t. type_of t.now) to.entry) }
{
    match (from, to) {
        (Some(from), Some(to)) => from.width() != to.width(),
        (None, _) | (_, None) => false,
    }
}

/// Whether a clock stands where a value is wanted.
#[tactic(auto, unfolding(crate::specs::LimitChecks::has_clock_value))]
pub fn has_clock_value(family: Family<'_>, types: &[Ty], operands: &[Option<&Ty>]) -> bool
    ensures { result ≡ has_clock_value (family_of family.entry) (map type_of types.now) (map (option_map (λ t. type_of t.now)) operands.now) }
{
    any_clock_part(types)
        || (any_clock(value_types(family, types)) || has_clock_operand(family, operands))
}

/// Whether a clock is an operand, other than a register's clock or an instance's operand.
#[tactic(auto, unfolding(crate::specs::LimitChecks::has_clock_operand))]
fn has_clock_operand(family: Family<'_>, operands: &[Option<&Ty>]) -> bool
    ensures { result ≡ has_clock_operand (family_of family.entry) (map (option_map (λ t. type_of t.now)) operands.now) }
{
    match family {
        Family::Instance(_) => false,
        Family::Register(_, _) | Family::AsyncFirReg => has_other_clock(operands),
        _ => any_settled_clock(operands),
    }
}

/// Whether a register has a clock for another operand than its clock, the second.
fn has_other_clock(operands: &[Option<&Ty>]) -> bool
    ensures { result ≡ has_other_clock (map (option_map (λ t. type_of t.now)) operands.now) }
{
    is_settled_clock(settled_at(operands, 0))
        || any_settled_clock(operands.split_at(2.min(operands.len())).1)
}

/// The written types that may not be the clock's: all but those of an instance's operands.
fn value_types<'t>(family: Family<'_>, types: &'t [Ty]) -> &'t [Ty]
    ensures { map type_of result.now ≡ value_types (family_of family.entry) (map type_of types.now) }
{
    match family {
        Family::Instance(instance) => types.split_at(instance.inputs.len().min(types.len())).1,
        _ => types,
    }
}
