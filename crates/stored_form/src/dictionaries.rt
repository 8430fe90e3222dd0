//! Whether dictionaries are kept in one form: entries by their keys, without those that say nothing.
ghost use Rattle.std.specs.Prelude.{◌≡◌, ◌↔◌, false, map, IsTrue};
ghost use Rattle.ir_store.specs.DictionaryViews.{attribute_of, entry_of, entries_in};
ghost use Rattle.mlir_syntax.specs.AttributeHeads.{keys_of};
ghost use Rattle.stored_form.specs.Bytes.{Each};
ghost use Rattle.stored_form.specs.Limits.{IsEntry};
ghost use Rattle.stored_form.specs.Dictionaries.{has_name, string_keys, is_empty_text, is_empty_hint, is_name_entry, is_dropped, AreInOrder, IsKeptDictionary};
ghost use Rattle.stored_form.specs.Followed.{IsFollowed};

use crate::attributes::is_value;
use crate::bytes::are_bytes;
use ir_store::dictionary::{Attribute, Dictionary, Entry};
use mlir_syntax::dictionary_text::StringKeys;
use opcode::listed::Listed;

/// Whether the dictionary of an operation of a name, or of a module, is kept so.
pub(crate) fn is_kept_dictionary(name: Listed, dictionary: &Dictionary) -> bool
    ensures { IsTrue result ↔ IsKeptDictionary name (string_keys name) (entries_in dictionary.now) }
{
    let entries = &dictionary.entries;
    are_in_order(entries) && (are_kept(name, entries) && are_entries(string_keys(name), entries))
}

/// Whether entries stand by the bytes of their keys, each key once.
fn are_in_order(entries: &[Entry]) -> bool
    ensures { IsTrue result ↔ AreInOrder (map entry_of entries.now) }
{
    let mut rest = entries;
    while let Some((first, others)) = rest.split_first() {
        if !is_followed(first, others) {
            return false;
        }
        rest = others;
    }
    true
}

/// Whether the key of an entry is below the key of the first of others, where there is one.
fn is_followed(first: &Entry, others: &[Entry]) -> bool
    ensures { IsTrue result ↔ IsFollowed (entry_of first.now) (map entry_of others.now) }
{
    match others.first() {
        Some(second) => first.key.cmp(&second.key).is_lt(),
        None => true,
    }
}

/// Whether each entry is one that is kept of an operation of a name.
fn are_kept(name: Listed, entries: &[Entry]) -> bool
    ensures { IsTrue result ↔ Each (λ e. is_dropped name e ≡ false) (map entry_of entries.now) }
{
    for entry in entries {
        if is_dropped(name, entry) {
            return false;
        }
    }
    true
}

/// Whether each entry can be read, where the values of some keys are strings.
fn are_entries(strings: StringKeys, entries: &[Entry]) -> bool
    ensures { IsTrue result ↔ Each (IsEntry (keys_of strings)) (map entry_of entries.now) }
{
    for entry in entries {
        if !is_entry(strings, entry) {
            return false;
        }
    }
    true
}

/// Whether an entry can be read, where the values of some keys are strings.
fn is_entry(strings: StringKeys, entry: &Entry) -> bool
    ensures { IsTrue result ↔ IsEntry (keys_of strings) (entry_of entry.now) }
{
    let key = entry.key.as_bytes();
    are_bytes(key);
    is_value(strings.has(key), &entry.value)
}

/// The keys whose values are strings in the dictionary of an operation of a name: a hint everywhere, the name of a
/// register or a wire.
pub fn string_keys(name: Listed) -> StringKeys
    ensures { keys_of result ≡ string_keys name }
{
    match name {
        Listed::HwWire | Listed::SeqCompreg | Listed::SeqCompregCe | Listed::SeqFirreg => {
            StringKeys::HintAndName
        }
        _ => StringKeys::Hint,
    }
}

/// Whether an entry of an operation of a name is not kept: an empty hint, and the name of what has one of its own. A module
/// counts as an operation without one.
pub fn is_dropped(name: Listed, entry: &Entry) -> bool
    ensures { result ≡ is_dropped name (entry_of entry.now) }
{
    is_empty_hint(entry) || (has_name(name) && is_name_entry(entry))
}

/// Whether an entry is a name.
pub fn is_name_entry(entry: &Entry) -> bool
    ensures { result ≡ is_name_entry (entry_of entry.now) }
{
    b"name".as_slice() == entry.key.as_bytes()
}

/// Whether an operation of a name has a name of its own.
pub fn has_name(name: Listed) -> bool
    ensures { result ≡ has_name name }
{
    match name {
        Listed::HwWire | Listed::SeqCompreg | Listed::SeqCompregCe | Listed::SeqFirreg => true,
        _ => false,
    }
}

// Whether an entry is an empty hint.
fn is_empty_hint(entry: &Entry) -> bool
    ensures { result ≡ is_empty_hint (entry_of entry.now) }
{
    b"sv.namehint".as_slice() == entry.key.as_bytes() && is_empty_text(&entry.value)
}

// Whether an attribute is the empty string.
fn is_empty_text(value: &Attribute) -> bool
    ensures { result ≡ is_empty_text (attribute_of value.now) }
{
    match value {
        Attribute::String(text) => text.is_empty(),
        _ => false,
    }
}
