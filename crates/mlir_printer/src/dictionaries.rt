//! Dictionaries, as they are printed.
ghost use Rattle.std.specs.Prelude.{◌≡◌, ◌++◌, ◌+◌, ◌^◌, ◌<◌, ◌≤◌, map, length, codes, OnOk};
ghost use Rattle.std.specs.Ordering.{nat_cmp, is_lt};
ghost use Rattle.std.specs.Cmp.Lexicographic.{slice_cmp};
ghost use Rattle.ir_store.specs.DictionaryViews.{entry_of};
ghost use Rattle.mlir_printer.specs.Commas.{items_from};
ghost use Rattle.mlir_printer.specs.Attributes.{entry_bytes, dictionary_bytes, slot_of_name};
ghost use Rattle.mlir_printer.specs.Texts.{name_entry, named_entries, names_itself, entries_shown};

use crate::attributes::push_entry;
use crate::commas::push_comma;
use crate::strings::{push_name, push_string};
use io_edge::byte_text::Text;
use ir_store::dictionary::Entry;
use std::alloc::AllocError;
use std::cmp::Ordering;

// Adds entries with commas between them, of which the first has this number.
fn push_entries(out: &mut Text, first: usize, entries: &[Entry]) -> Result<(), AllocError>
    requires { first + length entries.now < 2 ^ 64 }
    ensures { OnOk result (out.new ≡ out.old ++ items_from entry_bytes first (map entry_of entries.now)) }
{
    for (i, entry) in entries.iter().enumerate() {
        push_comma(out, first + i)?;
        push_entry(out, entry)?;
    }
    Ok(())
}

/// Adds a dictionary with something before it, or nothing where it has no entry.
#[tactic(auto, unfolding(crate::specs::Attributes::dictionary_bytes))]
pub fn push_dictionary(out: &mut Text, prefix: &[u8], entries: &[Entry]) -> Result<(), AllocError>
    ensures { OnOk result (out.new ≡ out.old ++ dictionary_bytes prefix.now (map entry_of entries.now)) }
{
    if entries.is_empty() {
        return Ok(());
    }
    out.push_bytes(prefix)?;
    out.push_bytes(b"{")?;
    push_entries(out, 0, entries)?;
    out.push_bytes(b"}")?;
    Ok(())
}

// Whether a key is less than `name`.
fn is_before_name(key: &[u8]) -> bool
    ensures { result ≡ is_lt (slice_cmp nat_cmp key.now (codes "name")) }
{
    match key.cmp(b"name".as_slice()) {
        Ordering::Less => true,
        Ordering::Equal | Ordering::Greater => false,
    }
}

// How many entries have keys that are less than `name`.
fn slot_of_name(entries: &[Entry]) -> usize
    ensures slot { result ≡ slot_of_name (map entry_of entries.now) }
    ensures within { result ≤ length entries.now }
{
    for (i, entry) in entries.iter().enumerate() {
        if !is_before_name(entry.key.as_bytes()) {
            return i;
        }
    }
    entries.len()
}

// Adds the entry that gives an operation its name.
#[tactic(auto, unfolding(crate::specs::Attributes::entry_bytes))]
fn push_name_entry(out: &mut Text, name: &[u8]) -> Result<(), AllocError>
    ensures { OnOk result (out.new ≡ out.old ++ entry_bytes (name_entry name.now)) }
{
    push_name(out, b"name")?;
    out.push_bytes(b" = ")?;
    push_string(out, name)?;
    Ok(())
}

// Adds a dictionary with the entry that gives an operation its name among the others.
fn push_with_name(out: &mut Text, name: &[u8], entries: &[Entry]) -> Result<(), AllocError>
    ensures { OnOk result (out.new ≡ out.old ++ dictionary_bytes (codes " ") (named_entries name.now (map entry_of entries.now))) }
{
    let slot = slot_of_name(entries);
    out.push_bytes(b" {")?;
    push_entries(out, 0, &entries[..slot])?;
    push_comma(out, slot)?;
    push_name_entry(out, name)?;
    push_entries(out, slot + 1, &entries[slot..])?;
    out.push_bytes(b"}")?;
    Ok(())
}

// Whether an operation has no own name, or its value is called so.
fn names_itself(own: &[u8], printed: &[u8]) -> bool
    ensures { result ≡ names_itself own.now printed.now }
{
    match own {
        [] => true,
        _ => own == printed,
    }
}

/// Adds an operation's dictionary, with its name among the entries where it has one and its value
/// is called otherwise.
pub fn push_named_dictionary(
    out: &mut Text,
    own: &[u8],
    printed: &[u8],
    entries: &[Entry],
) -> Result<(), AllocError>
    ensures { OnOk result (out.new ≡ out.old ++ dictionary_bytes (codes " ") (entries_shown own.now printed.now (map entry_of entries.now))) }
{
    if names_itself(own, printed) {
        push_dictionary(out, b" ", entries)?;
    } else {
        push_with_name(out, own, entries)?;
    }
    Ok(())
}
