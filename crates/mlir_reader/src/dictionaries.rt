//! What is kept of the dictionary that a text gives, and the names that it holds.
ghost use Rattle.std.specs.Prelude.{◌≡◌, map, IfOk};
ghost use Rattle.ir_store.specs.DictionaryViews.{entry_of, entries_in};
ghost use Rattle.mlir_reader.specs.Resolving.{without, kept_entries, sort_entries};
ghost use Rattle.stored_form.specs.Dictionaries.{is_dropped};

use ir_store::dictionary::{Dictionary, Entry};
use opcode::listed::Listed;
use std::alloc::{AllocError, Global};
use stored_form::dictionaries::is_dropped;

// The entries of a dictionary that are kept, in their order.
fn entries_without(
    alloc: Global,
    name: Listed,
    dictionary: Dictionary,
) -> Result<Vec<Entry>, AllocError>
    ensures { IfOk result (λ kept. map entry_of kept.items ≡ without (is_dropped name) (entries_in dictionary)) }
{
    let mut kept = Vec::with_capacity(alloc, dictionary.entries.len())?;
    for entry in dictionary.entries {
        if !is_dropped(name, &entry) {
            kept.push(entry)?;
        }
    }
    Ok(kept)
}

// Entries by the bytes of their keys.
fn sort_entries(entries: Vec<Entry>) -> Result<Vec<Entry>, AllocError>
    ensures { IfOk result (λ by_key. map entry_of by_key.items ≡ sort_entries (map entry_of entries.items)) }
{
    let mut entries = entries;
    entries.sort_by(|a, b| a.key.cmp(&b.key))?;
    Ok(entries)
}

/// The entries that are kept of the dictionary of an operation, by their keys: no empty hint, and no name of what has one
/// of its own. A module counts as an operation without one.
pub fn kept_entries(
    alloc: Global,
    name: Listed,
    dictionary: Dictionary,
) -> Result<Dictionary, AllocError>
    ensures { IfOk result (λ kept. entries_in kept ≡ kept_entries name (entries_in dictionary)) }
{
    if dictionary.entries.is_empty() {
        return Ok(dictionary);
    }
    let entries = sort_entries(entries_without(alloc, name, dictionary)?)?;
    Ok(Dictionary { entries })
}
