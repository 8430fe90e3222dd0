//! Types, as they are printed.
ghost use Rattle.std.specs.Prelude.{◌≡◌, ◌++◌, map, codes, OnOk};
ghost use Rattle.hw_model.specs.TypeViews.{type_of, field_of, fields_of, fields_in};
ghost use Rattle.mlir_printer.specs.Strings.{name_bytes};
ghost use Rattle.mlir_printer.specs.Commas.{commas};
ghost use Rattle.mlir_printer.specs.Types.{type_bytes, fields_from};

use crate::commas::push_comma;
use crate::numbers::push_count;
use crate::strings::push_name;
use hw_model::types::{Field, FieldList, Ty};
use io_edge::byte_text::Text;
use std::alloc::AllocError;

/// Adds a type.
#[cycle(types)]
pub fn push_type(out: &mut Text, ty: &Ty) -> Result<(), AllocError>
    ensures { OnOk result (out.new ≡ out.old ++ type_bytes (type_of ty.now)) }
{
    match ty {
        Ty::Int(width) => {
            out.push(b'i')?;
            push_count(out, *width)?;
        }
        Ty::Clock => out.push_bytes(b"!seq.clock")?,
        Ty::Array(length, element) => {
            out.push_bytes(b"!hw.array<")?;
            push_count(out, *length)?;
            out.push_bytes(b"x")?;
            push_type(out, element)?;
            out.push_bytes(b">")?;
        }
        Ty::Struct(list) => push_struct(out, list)?,
    }
    Ok(())
}

// Adds a struct's type.
#[cycle(types)]
fn push_struct(out: &mut Text, list: &FieldList) -> Result<(), AllocError>
    ensures { OnOk result (out.new ≡ out.old ++ (codes "!hw.struct<" ++ (fields_from 0 (fields_in list.now) ++ codes ">"))) }
{
    out.push_bytes(b"!hw.struct<")?;
    push_fields(out, &list.fields)?;
    out.push_bytes(b">")?;
    Ok(())
}

// Adds fields with commas between them.
#[cycle(types)]
fn push_fields(out: &mut Text, fields: &[Field]) -> Result<(), AllocError>
    ensures { OnOk result (out.new ≡ out.old ++ fields_from 0 (fields_of (map field_of fields.now))) }
{
    for (i, field) in fields.iter().enumerate() {
        push_comma(out, i)?;
        push_field(out, field)?;
    }
    Ok(())
}

// Adds a field.
#[cycle(types)]
fn push_field(out: &mut Text, field: &Field) -> Result<(), AllocError>
    ensures { OnOk result (out.new ≡ out.old ++ (name_bytes (field_of field.now).name ++ (codes ": " ++ type_bytes (field_of field.now).type))) }
{
    push_name(out, field.name.as_bytes())?;
    out.push_bytes(b": ")?;
    push_type(out, &field.ty)?;
    Ok(())
}

/// Adds types with commas between them.
pub fn push_types(out: &mut Text, types: &[Ty]) -> Result<(), AllocError>
    ensures { OnOk result (out.new ≡ out.old ++ commas type_bytes (map type_of types.now)) }
{
    for (i, ty) in types.iter().enumerate() {
        push_comma(out, i)?;
        push_type(out, ty)?;
    }
    Ok(())
}
