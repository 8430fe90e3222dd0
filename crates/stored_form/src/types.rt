//! Whether types can be read: how deep they are nested.
ghost use Rattle.std.specs.Prelude.{◌↔◌, map, IsTrue};
ghost use Rattle.hw_model.specs.TypeViews.{type_of, field_of, fields_of};
ghost use Rattle.stored_form.specs.Bytes.{Each};
ghost use Rattle.stored_form.specs.Limits.{IsType, AreFields, IsAnyType};
ghost use Rattle.stored_form.specs.Fields.{IsField};

use crate::bytes::{are_bytes, is_count};
use hw_model::types::{Field, Ty};
use mlir_syntax::type_text::MOST_OPEN;

/// Whether types can be read where nothing is open.
pub(crate) fn are_types(types: &[Ty]) -> bool
    ensures { IsTrue result ↔ Each IsAnyType (map type_of types.now) }
{
    for ty in types {
        if !is_any_type(ty) {
            return false;
        }
    }
    true
}

/// Whether a type can be read where nothing is open.
pub(crate) fn is_any_type(ty: &Ty) -> bool
    ensures { IsTrue result ↔ IsAnyType (type_of ty.now) }
{
    is_type(ty, MOST_OPEN)
}

/// Whether a type can be read where so many more aggregates may be opened.
#[cycle(fits)]
pub(crate) fn is_type(ty: &Ty, room: u32) -> bool
    ensures { IsTrue result ↔ IsType (type_of ty.now) room }
{
    match ty {
        Ty::Int(width) => {
            is_count(*width);
            true
        }
        Ty::Clock => true,
        Ty::Array(length, element) => {
            is_count(*length);
            room > 0 && is_type(element, room - 1)
        }
        Ty::Struct(list) => room > 0 && are_fields(&list.fields, room - 1),
    }
}

/// Whether fields can be read where so many more aggregates may be opened.
#[cycle(fits)]
fn are_fields(fields: &[Field], room: u32) -> bool
    ensures { IsTrue result ↔ AreFields (fields_of (map field_of fields.now)) room }
{
    for field in fields {
        if !is_field(field, room) {
            return false;
        }
    }
    true
}

/// Whether a field can be read where so many more aggregates may be opened.
#[cycle(fits)]
fn is_field(field: &Field, room: u32) -> bool
    ensures { IsTrue result ↔ IsField room (field_of field.now) }
{
    are_bytes(field.name.as_bytes());
    is_type(&field.ty, room)
}
