//! Attributes and dictionaries, as they are printed.
ghost use Rattle.std.specs.Prelude.{◌≡◌, ◌++◌, map, OnOk};
ghost use Rattle.hw_model.specs.TypeViews.{type_of};
ghost use Rattle.hw_model.specs.KindViews.{integer_of};
ghost use Rattle.ir_store.specs.DictionaryViews.{attribute_of, attributes_of, entry_of};
ghost use Rattle.mlir_printer.specs.Attributes.{attribute_bytes, attributes_from, value_bytes, entry_bytes, typed_bytes};

use crate::commas::push_comma;
use crate::numbers::{push_integer, truth_text};
use crate::strings::{push_name, push_string, push_symbol};
use crate::types::push_type;
use hw_model::kinds::Integer;
use hw_model::types::Ty;
use io_edge::byte_text::Text;
use ir_store::dictionary::{Attribute, Entry};
use std::alloc::AllocError;

/// Adds an integer and its type.
#[tactic(auto, unfolding(crate::specs::Attributes::typed_bytes))]
pub fn push_typed(out: &mut Text, value: Integer, ty: &Ty) -> Result<(), AllocError>
    ensures { OnOk result (out.new ≡ out.old ++ typed_bytes (integer_of value) (type_of ty.now)) }
{
    push_integer(out, value)?;
    out.push_bytes(b" : ")?;
    push_type(out, ty)?;
    Ok(())
}

// Adds an attribute.
#[cycle(attributes)]
fn push_attribute(out: &mut Text, attribute: &Attribute) -> Result<(), AllocError>
    ensures { OnOk result (out.new ≡ out.old ++ attribute_bytes (attribute_of attribute.now)) }
{
    match attribute {
        Attribute::Unit => {}
        Attribute::String(text) => push_string(out, text.as_bytes())?,
        Attribute::Symbol(name) => push_symbol(out, name.as_bytes())?,
        Attribute::Bool(truth) => out.push_bytes(truth_text(*truth))?,
        Attribute::Integer(value, ty) => push_typed(out, *value, ty)?,
        Attribute::Array(list) => {
            out.push_bytes(b"[")?;
            push_attributes(out, &list.attributes)?;
            out.push_bytes(b"]")?;
        }
    }
    Ok(())
}

// Adds attributes with commas between them.
#[cycle(attributes)]
fn push_attributes(out: &mut Text, attributes: &[Attribute]) -> Result<(), AllocError>
    ensures { OnOk result (out.new ≡ out.old ++ attributes_from 0 (attributes_of (map attribute_of attributes.now))) }
{
    for (i, attribute) in attributes.iter().enumerate() {
        push_comma(out, i)?;
        push_attribute(out, attribute)?;
    }
    Ok(())
}

// Adds ` = V`, or nothing for a unit.
fn push_value(out: &mut Text, value: &Attribute) -> Result<(), AllocError>
    ensures { OnOk result (out.new ≡ out.old ++ value_bytes (attribute_of value.now)) }
{
    if let Attribute::Unit = value {
        return Ok(());
    }
    out.push_bytes(b" = ")?;
    push_attribute(out, value)?;
    Ok(())
}

/// Adds an entry of a dictionary.
#[tactic(auto, unfolding(crate::specs::Attributes::entry_bytes))]
pub fn push_entry(out: &mut Text, entry: &Entry) -> Result<(), AllocError>
    ensures { OnOk result (out.new ≡ out.old ++ entry_bytes (entry_of entry.now)) }
{
    push_name(out, entry.key.as_bytes())?;
    push_value(out, &entry.value)?;
    Ok(())
}
