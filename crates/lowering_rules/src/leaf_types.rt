//! The leaves of types.
ghost use Rattle.std.specs.Prelude.{◌≡◌, ◌++◌, map, OnOk};
ghost use Rattle.hw_model.specs.Types.{leaves, leaves_of_fields, list_copies};
ghost use Rattle.hw_model.specs.TypeViews.{type_of, field_of, fields_of};
ghost use Rattle.aggregate_laws.specs.Aggregates.{is_scalar};

use hw_model::types::{Field, Ty};
use std::alloc::AllocError;

/// Whether a type has no parts.
pub fn is_scalar(ty: &Ty) -> bool
    ensures { result ≡ is_scalar (type_of ty.now) }
{
    match ty {
        Ty::Int(_) | Ty::Clock => true,
        Ty::Array(..) | Ty::Struct(_) => false,
    }
}

/// Puts the leaves of a type after others. Linear in their number. The error comes only when out of memory.
#[cycle(leaf_types)]
pub fn push_leaves(types: &mut Vec<Ty>, ty: &Ty) -> Result<(), AllocError>
    ensures { OnOk result (map type_of types.new.items ≡ map type_of types.old.items ++ leaves (type_of ty.now)) }
{
    match ty {
        Ty::Int(width) => types.push(Ty::Int(*width))?,
        Ty::Clock => types.push(Ty::Clock)?,
        Ty::Array(length, element) => push_element_leaves(types, *length, element)?,
        Ty::Struct(list) => push_field_leaves(types, &list.fields)?,
    }
    Ok(())
}

// Puts the leaves of so many elements after others.
#[cycle(leaf_types)]
fn push_element_leaves(types: &mut Vec<Ty>, length: u32, element: &Ty) -> Result<(), AllocError>
    ensures { OnOk result (map type_of types.new.items ≡ map type_of types.old.items ++ list_copies length (leaves (type_of element.now))) }
{
    let mut left = length;
    while left > 0 {
        left -= 1;
        push_leaves(types, element)?;
    }
    Ok(())
}

// Puts the leaves of fields after others.
#[cycle(leaf_types)]
fn push_field_leaves(types: &mut Vec<Ty>, fields: &[Field]) -> Result<(), AllocError>
    ensures { OnOk result (map type_of types.new.items ≡ map type_of types.old.items ++ leaves_of_fields (fields_of (map field_of fields.now))) }
{
    for field in fields {
        push_leaves(types, &field.ty)?;
    }
    Ok(())
}
