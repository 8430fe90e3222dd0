//! Whether attributes can be read: which may stand where, how large integers are, how deep lists are nested.
ghost use Rattle.std.specs.Prelude.{◌↔◌, map, IsTrue};
ghost use Rattle.ir_store.specs.DictionaryViews.{attribute_of, attributes_of};
ghost use Rattle.stored_form.specs.Limits.{IsAttribute, AreAttributes, IsValue};

use crate::bytes::are_bytes;
use crate::types::is_type;
use ir_store::dictionary::Attribute;
use mlir_syntax::attribute_text::is_stored;
use mlir_syntax::type_text::MOST_OPEN;

/// Whether an attribute may be the value of a key, `of_string` saying whether the key's values are strings.
pub(crate) fn is_value(of_string: bool, value: &Attribute) -> bool
    ensures { IsTrue result ↔ IsValue of_string (attribute_of value.now) }
{
    match value {
        Attribute::Unit => !of_string,
        Attribute::String(text) => {
            are_bytes(text.as_bytes());
            true
        }
        Attribute::Symbol(_) | Attribute::Bool(_) | Attribute::Integer(..) | Attribute::Array(_) =>
            { !of_string && is_attribute(value, MOST_OPEN) }
    }
}

/// Whether an attribute can be read within lists, where so many more of them may be opened.
#[cycle(attribute)]
fn is_attribute(attribute: &Attribute, room: u32) -> bool
    ensures { IsTrue result ↔ IsAttribute (attribute_of attribute.now) room }
{
    match attribute {
        Attribute::Unit => false,
        Attribute::String(text) | Attribute::Symbol(text) => {
            are_bytes(text.as_bytes());
            true
        }
        Attribute::Bool(_) => true,
        Attribute::Integer(value, ty) => is_stored(*value) && is_type(ty, room),
        Attribute::Array(list) => room > 0 && are_attributes(&list.attributes, room - 1),
    }
}

/// Whether attributes can be read within lists, where so many more of them may be opened.
#[cycle(attribute)]
fn are_attributes(attributes: &[Attribute], room: u32) -> bool
    ensures { IsTrue result ↔ AreAttributes (attributes_of (map attribute_of attributes.now)) room }
{
    for attribute in attributes {
        if !is_attribute(attribute, room) {
            return false;
        }
    }
    true
}
