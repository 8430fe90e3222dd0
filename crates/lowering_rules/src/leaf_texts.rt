//! The names of leaves.
ghost use Rattle.std.specs.Prelude.{◌≡◌, ◌++◌, ◌∷◌, map, decimal, IfOk, OnOk};
ghost use Rattle.hw_model.specs.TypeViews.{type_of, field_of, fields_of};
ghost use Rattle.aggregate_laws.specs.Aggregates.{leaf_names, element_names, field_names};

use hw_model::types::{Field, Ty};
use io_edge::byte_text::Text;
use itoa::Buffer;
use std::alloc::{AllocError, Global};

/// Puts the names of the leaves of what has a name and a type after others: each level adds `_` and the field or the number of the
/// element. Linear in the names' bytes. The error comes only when out of memory.
#[cycle(leaf_names)]
pub fn push_leaf_names(
    alloc: Global,
    names: &mut Vec<Text>,
    name: &[u8],
    ty: &Ty,
) -> Result<(), AllocError>
    ensures { OnOk result (names.new.items ≡ names.old.items ++ leaf_names name.now (type_of ty.now)) }
{
    match ty {
        Ty::Int(_) | Ty::Clock => names.push(Text::of(alloc, name)?)?,
        Ty::Array(length, element) => push_element_names(alloc, names, name, *length, element)?,
        Ty::Struct(list) => push_field_names(alloc, names, name, &list.fields)?,
    }
    Ok(())
}

// Puts the names of the leaves of so many elements of what has a name after others, from the highest element down.
#[cycle(leaf_names)]
fn push_element_names(
    alloc: Global,
    names: &mut Vec<Text>,
    name: &[u8],
    length: u32,
    element: &Ty,
) -> Result<(), AllocError>
    ensures { OnOk result (names.new.items ≡ names.old.items ++ element_names (λ inner. leaf_names inner (type_of element.now)) name.now length) }
{
    let mut left = length;
    while left > 0 {
        left -= 1;
        let inner = numbered_name(alloc, name, left)?;
        push_leaf_names(alloc, names, inner.as_bytes(), element)?;
    }
    Ok(())
}

// Puts the names of the leaves of the fields of what has a name after others.
#[cycle(leaf_names)]
fn push_field_names(
    alloc: Global,
    names: &mut Vec<Text>,
    name: &[u8],
    fields: &[Field],
) -> Result<(), AllocError>
    ensures { OnOk result (names.new.items ≡ names.old.items ++ field_names name.now (fields_of (map field_of fields.now))) }
{
    for field in fields {
        let inner = joined_name(alloc, name, field.name.as_bytes())?;
        push_leaf_names(alloc, names, inner.as_bytes(), &field.ty)?;
    }
    Ok(())
}

// A name, `_` and a part's name.
#[tactic(auto, using(std::proofs::Common::append_assoc))]
fn joined_name(alloc: Global, name: &[u8], part: &[u8]) -> Result<Text, AllocError>
    ensures { IfOk result (λ text. text ≡ name.now ++ 95 ∷ part.now) }
{
    let mut text = Text::of(alloc, name)?;
    text.push(b'_')?;
    text.push_bytes(part)?;
    Ok(text)
}

// A name, `_` and a number.
fn numbered_name(alloc: Global, name: &[u8], number: u32) -> Result<Text, AllocError>
    ensures { IfOk result (λ text. text ≡ name.now ++ 95 ∷ decimal number) }
{
    let mut buffer = Buffer::new();
    let digits = buffer.format(number).as_bytes();
    joined_name(alloc, name, digits)
}
