//! The operands of an operation and the kinds of its types against what its form asks for.
ghost use Rattle.std.specs.Prelude.{◌≡◌, ◌<◌, map};
ghost use Rattle.std.specs.Option.{option_map};
ghost use Rattle.std.specs.List.{list_any};
ghost use Rattle.hw_model.specs.TypeViews.{type_of};
ghost use Rattle.hw_model.specs.FamilyViews.{family_of};
ghost use Rattle.hw_model.specs.KindViews.{reset_of, literals_in};
ghost use Rattle.op_checks.specs.OperandChecks.{is_no_array_of, has_other_array, has_other_form, enable_differs, reset_differs, register_differs, parts_differ, has_other_operand};

use crate::literal_checks::{LeafTest, any_failing_leaf, parts_differ as list_differs};
use crate::type_lists::{
    any_differs, any_other_than_int, differ_from_fields, differ_from_types, differ_in_three,
    differ_in_two, differs, is_no_array, is_no_int, is_no_struct, settled_at,
};
use crate::type_parts::fields_in;
use hw_model::families::{ArrayOp, Family, StructOp};
use hw_model::kinds::{LiteralList, Reset};
use hw_model::types::Ty;
use type_inference::result_types::{element_of, field_of};

/// Whether a written type is of a kind that the form does not take.
#[tactic(auto, unfolding(crate::specs::OperandChecks::has_other_form))]
pub fn has_other_form(family: Family<'_>, types: &[Ty]) -> bool
    ensures { result ≡ has_other_form (family_of family.entry) (map type_of types.now) }
{
    match family {
        Family::AggregateConstant(list) => any_failing_leaf(LeafTest::Kind, &list.literals),
        Family::Array(ArrayOp::Concat) | Family::Array(ArrayOp::Slice) => has_other_array(types),
        Family::Array(ArrayOp::Get) | Family::Array(ArrayOp::Inject) => {
            is_no_array(types.first()) || is_no_int(types.get(1))
        }
        Family::Struct(StructOp::Create)
        | Family::Struct(StructOp::Extract(_))
        | Family::Struct(StructOp::Inject(_))
        | Family::Struct(StructOp::Explode) => is_no_struct(types.first()),
        Family::Mux
        | Family::Array(ArrayOp::Create)
        | Family::Bitcast
        | Family::Wire
        | Family::Instance(_)
        | Family::Output
        | Family::Register(_, _)
        | Family::AsyncFirReg => false,
        _ => any_other_than_int(types),
    }
}

/// Whether a type is no array, or one of other elements.
fn is_no_array_of(element: Option<&Ty>, ty: &Ty) -> bool
    ensures { result ≡ is_no_array_of (option_map (λ t. type_of t.now) element.entry) (type_of ty.now) }
{
    is_no_array(Some(ty)) || differs(element_of(Some(ty)), element)
}

/// Whether one of the types is no array, or one of other elements than the first.
fn has_other_array(types: &[Ty]) -> bool
    ensures { result ≡ has_other_array (map type_of types.now) }
{
    any_other_array(element_of(types.first()), types)
}

fn any_other_array(element: Option<&Ty>, types: &[Ty]) -> bool
    ensures { result ≡ list_any (is_no_array_of (option_map (λ t. type_of t.now) element.entry)) (map type_of types.now) }
{
    for ty in types {
        if is_no_array_of(element, ty) {
            return true;
        }
    }
    false
}

/// Whether an operand's type is not the written or required one, where it is settled; of an aggregate constant, whether
/// its parts are none of its type.
#[tactic(auto, unfolding(crate::specs::OperandChecks::has_other_operand))]
pub fn has_other_operand(family: Family<'_>, types: &[Ty], operands: &[Option<&Ty>]) -> bool
    ensures { result ≡ has_other_operand (family_of family.entry) (map type_of types.now) (map (option_map (λ t. type_of t.now)) operands.now) }
{
    let first = types.first();
    match family {
        Family::Concat
        | Family::Array(ArrayOp::Concat)
        | Family::Array(ArrayOp::Get)
        | Family::Instance(_)
        | Family::Output => differ_from_types(operands, types),
        Family::Mux => differ_in_three(operands, Some(&Ty::Int(1)), first, first),
        Family::AggregateConstant(list) => parts_differ(list, first),
        Family::Array(ArrayOp::Slice) => {
            differs(settled_at(operands, 0), first) || is_no_int(settled_at(operands, 1))
        }
        Family::Array(ArrayOp::Inject) => differ_in_three(
            operands,
            first,
            types.get(1),
            element_of(first),
        ),
        Family::Struct(StructOp::Create) => differ_from_fields(operands, fields_in(first)),
        Family::Struct(StructOp::Inject(name)) => differ_in_two(
            operands,
            first,
            field_of(first, name),
        ),
        Family::Register(op, reset) => register_differs(op.takes_enable(), reset, first, operands),
        Family::AsyncFirReg => register_differs(false, Reset::Sync, first, operands),
        _ => any_differs(operands, first),
    }
}

/// Whether a list of constants is none of the type, where there is one.
fn parts_differ(list: &LiteralList, ty: Option<&Ty>) -> bool
    ensures { result ≡ parts_differ (literals_in list.now) (option_map (λ t. type_of t.now) ty.entry) }
{
    match ty {
        Some(ty) => list_differs(list, ty),
        None => false,
    }
}

/// Whether an operand of a register has another type than is due.
fn register_differs(
    has_enable: bool,
    reset: Reset,
    ty: Option<&Ty>,
    operands: &[Option<&Ty>],
) -> bool
    ensures { result ≡ register_differs has_enable (reset_of reset) (option_map (λ t. type_of t.now) ty.entry) (map (option_map (λ t. type_of t.now)) operands.now) }
{
    let at = if has_enable { 3 } else { 2 };
    differ_in_two(operands, ty, Some(&Ty::Clock))
        || (enable_differs(has_enable, operands) || reset_differs(reset, ty, at, operands))
}

fn enable_differs(has_enable: bool, operands: &[Option<&Ty>]) -> bool
    ensures { result ≡ enable_differs has_enable (map (option_map (λ t. type_of t.now)) operands.now) }
{
    if has_enable {
        differs(settled_at(operands, 2), Some(&Ty::Int(1)))
    } else {
        false
    }
}

fn reset_differs(reset: Reset, ty: Option<&Ty>, at: usize, operands: &[Option<&Ty>]) -> bool
    requires { at < 4 }
    ensures { result ≡ reset_differs (reset_of reset) (option_map (λ t. type_of t.now) ty.entry) at (map (option_map (λ t. type_of t.now)) operands.now) }
{
    match reset {
        Reset::No => false,
        Reset::Sync => {
            differs(settled_at(operands, at), Some(&Ty::Int(1)))
                || differs(settled_at(operands, at + 1), ty)
        }
    }
}
