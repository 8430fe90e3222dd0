//! The own names of registers and wires.
ghost use Rattle.std.specs.Prelude.{◌≡◌, IfOk};
ghost use Rattle.std.specs.Option.{option_map};
ghost use Rattle.ir_store.specs.DictionaryViews.{attribute_of, entries_in};
ghost use Rattle.mlir_reader.specs.Resolving.{text_in, given_name, unless_digits, first_name, own_name_of};
ghost use Rattle.mlir_operations.specs.Views.{names_of};

use io_edge::byte_text::Text;
use ir_store::dictionary::{Attribute, Dictionary};
use mlir_lexer::classes::{Digit, run_of};
use mlir_operations::syntax::ResultNames;
use opcode::listed::Listed;
use std::alloc::{AllocError, Global};
use stored_form::dictionaries::{has_name, is_name_entry};

/// The own name of a register or a wire: that of its dictionary, or else that of its result unless it is digits alone;
/// other operations have none.
pub fn own_name(
    alloc: Global,
    name: Listed,
    results: &ResultNames<'_>,
    dictionary: &Dictionary,
) -> Result<Text, AllocError>
    ensures { IfOk result (λ own. own ≡ own_name_of name (names_of results.now) (entries_in dictionary.now)) }
{
    if !has_name(name) {
        return Ok(Text::new(alloc));
    }
    match given_name(dictionary) {
        Some(given) => Text::of(alloc, given),
        None => Text::of(alloc, first_name(results)),
    }
}

// The name that a dictionary gives.
fn given_name(dictionary: &Dictionary) -> Option<&[u8]>
    ensures { option_map (λ name. name.now) result ≡ given_name (entries_in dictionary.now) }
{
    for entry in &dictionary.entries {
        if is_name_entry(entry) {
            return Some(text_in(&entry.value));
        }
    }
    None
}

// The text of an attribute that is one.
fn text_in(value: &Attribute) -> &[u8]
    ensures { result.now ≡ text_in (attribute_of value.now) }
{
    match value {
        Attribute::String(text) => text.as_bytes(),
        _ => &[],
    }
}

// The name of the first result, unless it is digits alone.
fn first_name<'s>(results: &ResultNames<'s>) -> &'s [u8]
    ensures { result.now ≡ first_name (names_of results.now) }
{
    match results {
        ResultNames::Unnamed => &[],
        ResultNames::Names(first, _) => unless_digits(first),
        ResultNames::Pack(name, _) => unless_digits(name),
    }
}

// A value's name as a name of its own: digits alone are none.
fn unless_digits(name: &[u8]) -> &[u8]
    ensures { result.now ≡ unless_digits name.now }
{
    if run_of::<Digit>(name) == name.len() {
        &[]
    } else {
        name
    }
}
