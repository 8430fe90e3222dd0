//! Tests of the types that an operation writes, gives and takes.
ghost use Rattle.std.specs.Prelude.{◌≡◌, not, map};
ghost use Rattle.std.specs.List.{list_any};
ghost use Rattle.std.specs.Option.{option_map};
ghost use Rattle.hw_model.specs.TypeViews.{type_of, field_of, fields_of};
ghost use Rattle.hw_model.specs.Sound.{field_list};
ghost use Rattle.op_checks.specs.LimitChecks.{of_type};
ghost use Rattle.op_checks.specs.TypeChecks.{is_outside, has_bad_field, has_clock_part, is_clock, is_int};
ghost use Rattle.op_checks.specs.TypeLists.{known_types, is_no_int, is_no_array, is_no_struct, int_width, array_length, differs, any_differs, differ, settled_at, differ_in_two, differ_in_three};

use crate::type_checks::{has_bad_field, has_clock_part, is_clock, is_int, is_outside};
use hw_model::types::{Field, Ty};
use ir_store::operation::NewResult;

/// Whether one of the types is outside the limits.
pub fn any_outside(types: &[Ty]) -> bool
    ensures { result ≡ list_any is_outside (map type_of types.now) }
{
    for ty in types {
        if is_outside(ty) {
            return true;
        }
    }
    false
}

/// Whether one of the types has a name of a field twice.
pub fn any_bad_field(types: &[Ty]) -> bool
    ensures { result ≡ list_any has_bad_field (map type_of types.now) }
{
    for ty in types {
        if has_bad_field(ty) {
            return true;
        }
    }
    false
}

/// Whether one of the types is an aggregate with a clock within it.
pub fn any_clock_part(types: &[Ty]) -> bool
    ensures { result ≡ list_any has_clock_part (map type_of types.now) }
{
    for ty in types {
        if has_clock_part(ty) {
            return true;
        }
    }
    false
}

/// Whether one of the types is the clock's.
pub fn any_clock(types: &[Ty]) -> bool
    ensures { result ≡ list_any is_clock (map type_of types.now) }
{
    for ty in types {
        if is_clock(ty) {
            return true;
        }
    }
    false
}

/// Whether the type is there and is the clock's.
pub fn is_settled_clock(ty: Option<&Ty>) -> bool
    ensures { result ≡ of_type is_clock (option_map (λ t. type_of t.now) ty.entry) }
{
    match ty {
        Some(ty) => is_clock(ty),
        None => false,
    }
}

/// Whether one of the types is there and is the clock's.
pub fn any_settled_clock(types: &[Option<&Ty>]) -> bool
    ensures { result ≡ list_any (of_type is_clock) (map (option_map (λ t. type_of t.now)) types.now) }
{
    for ty in types {
        if is_settled_clock(*ty) {
            return true;
        }
    }
    false
}

/// Whether one of the types is no integer's.
pub fn any_other_than_int(types: &[Ty]) -> bool
    ensures { result ≡ list_any (λ t. not (is_int t)) (map type_of types.now) }
{
    for ty in types {
        if !is_int(ty) {
            return true;
        }
    }
    false
}

/// Whether the type is there and is no integer's.
pub fn is_no_int(ty: Option<&Ty>) -> bool
    ensures { result ≡ is_no_int (option_map (λ t. type_of t.now) ty.entry) }
{
    match ty {
        Some(Ty::Int(_)) | None => false,
        Some(Ty::Clock | Ty::Array(..) | Ty::Struct(_)) => true,
    }
}

/// Whether the type is there and is no array's.
pub fn is_no_array(ty: Option<&Ty>) -> bool
    ensures { result ≡ is_no_array (option_map (λ t. type_of t.now) ty.entry) }
{
    match ty {
        Some(Ty::Array(..)) | None => false,
        Some(Ty::Clock | Ty::Int(_) | Ty::Struct(_)) => true,
    }
}

/// Whether the type is there and is no struct's.
pub fn is_no_struct(ty: Option<&Ty>) -> bool
    ensures { result ≡ is_no_struct (option_map (λ t. type_of t.now) ty.entry) }
{
    match ty {
        Some(Ty::Struct(_)) | None => false,
        Some(Ty::Clock | Ty::Int(_) | Ty::Array(..)) => true,
    }
}

/// The width of an integer's type.
pub fn int_width(ty: Option<&Ty>) -> Option<u32>
    ensures { result ≡ int_width (option_map (λ t. type_of t.now) ty.entry) }
{
    match ty {
        Some(Ty::Int(width)) => Some(*width),
        Some(Ty::Clock | Ty::Array(..) | Ty::Struct(_)) | None => None,
    }
}

/// The length of an array's type.
pub fn array_length(ty: Option<&Ty>) -> Option<u32>
    ensures { result ≡ array_length (option_map (λ t. type_of t.now) ty.entry) }
{
    match ty {
        Some(Ty::Array(length, _)) => Some(*length),
        Some(Ty::Clock | Ty::Int(_) | Ty::Struct(_)) | None => None,
    }
}

/// Whether two types are there and differ.
pub fn differs(ty: Option<&Ty>, wanted: Option<&Ty>) -> bool
    ensures { result ≡ differs (option_map (λ t. type_of t.now) ty.entry) (option_map (λ t. type_of t.now) wanted.entry) }
{
    match (ty, wanted) {
        (Some(ty), Some(wanted)) => ty != wanted,
        (None, _) | (_, None) => false,
    }
}

/// The type at a position, where it is settled.
pub fn settled_at<'t>(operands: &[Option<&'t Ty>], at: usize) -> Option<&'t Ty>
    ensures { option_map (λ t. type_of t.now) result ≡ settled_at (map (option_map (λ t. type_of t.now)) operands.now) at }
{
    match operands.get(at) {
        Some(ty) => *ty,
        None => None,
    }
}

/// Whether one of the types differs from a type.
pub fn any_differs(operands: &[Option<&Ty>], wanted: Option<&Ty>) -> bool
    ensures { result ≡ any_differs (map (option_map (λ t. type_of t.now)) operands.now) (option_map (λ t. type_of t.now) wanted.entry) }
{
    for ty in operands {
        if differs(*ty, wanted) {
            return true;
        }
    }
    false
}

/// Whether one of the first two differs from the type that it is to be.
pub fn differ_in_two(operands: &[Option<&Ty>], first: Option<&Ty>, second: Option<&Ty>) -> bool
    ensures { result ≡ differ_in_two (map (option_map (λ t. type_of t.now)) operands.now) (option_map (λ t. type_of t.now) first.entry) (option_map (λ t. type_of t.now) second.entry) }
{
    differs(settled_at(operands, 0), first) || differs(settled_at(operands, 1), second)
}

/// Whether one of the first three differs from the type that it is to be.
pub fn differ_in_three(
    operands: &[Option<&Ty>],
    first: Option<&Ty>,
    second: Option<&Ty>,
    third: Option<&Ty>,
) -> bool
    ensures { result ≡ differ_in_three (map (option_map (λ t. type_of t.now)) operands.now) (option_map (λ t. type_of t.now) first.entry) (option_map (λ t. type_of t.now) second.entry) (option_map (λ t. type_of t.now) third.entry) }
{
    differs(settled_at(operands, 0), first)
        || (differs(settled_at(operands, 1), second) || differs(settled_at(operands, 2), third))
}

/// Whether the operands' types and the types differ at a position that both have.
pub fn differ_from_types(operands: &[Option<&Ty>], types: &[Ty]) -> bool
    ensures { result ≡ differ (map (option_map (λ t. type_of t.now)) operands.now) (known_types (map type_of types.now)) }
{
    for (operand, ty) in operands.iter().zip(types) {
        if differs(*operand, Some(ty)) {
            return true;
        }
    }
    false
}

/// Whether the operands' types and those of the fields differ at a position that both have.
pub fn differ_from_fields(operands: &[Option<&Ty>], fields: &[Field]) -> bool
    ensures { result ≡ differ (map (option_map (λ t. type_of t.now)) operands.now) (known_types (field_list (fields_of (map field_of fields.now)))) }
{
    for (operand, field) in operands.iter().zip(fields) {
        if differs(*operand, Some(&field.ty)) {
            return true;
        }
    }
    false
}

/// Whether the results' types and the types differ at a position that both have.
pub fn results_differ_from_types(results: &[NewResult], types: &[Ty]) -> bool
    ensures { result ≡ differ (known_types (map (λ r. type_of r.ty) results.now)) (known_types (map type_of types.now)) }
{
    for (one, ty) in results.iter().zip(types) {
        if one.ty != *ty {
            return true;
        }
    }
    false
}

/// Whether the results' types and those of the fields differ at a position that both have.
pub fn results_differ_from_fields(results: &[NewResult], fields: &[Field]) -> bool
    ensures { result ≡ differ (known_types (map (λ r. type_of r.ty) results.now)) (known_types (field_list (fields_of (map field_of fields.now)))) }
{
    for (one, field) in results.iter().zip(fields) {
        if one.ty != field.ty {
            return true;
        }
    }
    false
}
