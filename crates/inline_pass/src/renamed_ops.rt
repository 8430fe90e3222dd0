//! Operations in an instance, named anew.
ghost use Rattle.std.specs.Prelude.{◌≡◌, map, IfOk};
ghost use Rattle.hw_model.specs.KindViews.{kind_of};
ghost use Rattle.ir_store.specs.Bodies.{read_parts};
ghost use Rattle.ir_store.specs.DictionaryViews.{attribute_of, entry_of, entries_in};
ghost use Rattle.ir_store.specs.OperationViews.{new_parts};
ghost use Rattle.inline_pass.specs.MovedOps.{renamed_parts};
ghost use Rattle.inline_pass.specs.Renaming.{joined_name, renamed_kind, renamed_value, renamed_entry};

use hw_model::kinds::OpKind;
use io_edge::byte_text::Text;
use ir_store::body::Op;
use ir_store::dictionary::{Attribute, Dictionary, Entry};
use ir_store::operation::NewOp;
use smallvec::SmallVec;
use std::alloc::{AllocError, Global};

/// The operation in an instance of this name, with the operands that it has.
pub(crate) fn renamed_op(alloc: Global, instance: &[u8], op: &Op<'_>) -> Result<NewOp, AllocError>
    ensures parts { IfOk result (λ copy. new_parts copy ≡ renamed_parts instance.now (read_parts op.now)) }
    ensures operands { IfOk result (λ copy. copy.operands.items ≡ op.now.operands.now) }
{
    Ok(NewOp {
        kind: renamed_kind(alloc, instance, op.kind)?,
        operands: SmallVec::from_slice(alloc, op.operands)?,
        types: op.types.try_clone(alloc)?,
        results: op.results.try_clone(alloc)?,
        named: op.named,
        name: joined_name(alloc, instance, op.name.as_bytes())?,
        dictionary: renamed_dictionary(alloc, instance, op.dictionary)?,
        bin: op.bin,
        location: op.location,
    })
}

/// A name in an instance of this name; what has no name gets none.
fn joined_name(alloc: Global, instance: &[u8], name: &[u8]) -> Result<Text, AllocError>
    ensures { IfOk result (λ text. text ≡ joined_name instance.now name.now) }
{
    if name.is_empty() {
        return Ok(Text::new(alloc));
    }
    let mut text = Text::of(alloc, instance)?;
    text.push(b'_')?;
    text.push_bytes(name)?;
    Ok(text)
}

/// The kind of an operation in an instance of this name.
fn renamed_kind(alloc: Global, instance: &[u8], kind: &OpKind) -> Result<OpKind, AllocError>
    ensures { IfOk result (λ copy. kind_of copy ≡ renamed_kind instance.now (kind_of kind.now)) }
{
    let OpKind::Instance(inner) = kind else {
        return kind.try_clone(alloc);
    };
    let mut copy = inner.try_clone(alloc)?;
    copy.name = joined_name(alloc, instance, inner.name.as_bytes())?;
    Ok(OpKind::Instance(Box::new(alloc, copy)?))
}

/// A dictionary in an instance of this name.
fn renamed_dictionary(
    alloc: Global,
    instance: &[u8],
    dictionary: &Dictionary,
) -> Result<Dictionary, AllocError>
    ensures { IfOk result (λ copy. entries_in copy ≡ map (renamed_entry instance.now) (entries_in dictionary.now)) }
{
    let mut entries = Vec::new(alloc);
    for entry in &dictionary.entries {
        entries.push(renamed_entry(alloc, instance, entry)?)?;
    }
    Ok(Dictionary { entries })
}

/// An entry in an instance of this name: a name hint is named anew.
fn renamed_entry(alloc: Global, instance: &[u8], entry: &Entry) -> Result<Entry, AllocError>
    ensures { IfOk result (λ copy. entry_of copy ≡ renamed_entry instance.now (entry_of entry.now)) }
{
    if entry.key.as_bytes() != b"sv.namehint".as_slice() {
        return entry.try_clone(alloc);
    }
    Ok(Entry {
        key: entry.key.try_clone(alloc)?,
        value: renamed_value(alloc, instance, &entry.value)?,
    })
}

/// The value of a name hint in an instance of this name.
fn renamed_value(alloc: Global, instance: &[u8], value: &Attribute) -> Result<Attribute, AllocError>
    ensures { IfOk result (λ copy. attribute_of copy ≡ renamed_value instance.now (attribute_of value.now)) }
{
    match value {
        Attribute::String(name) => Ok(Attribute::String(joined_name(
            alloc,
            instance,
            name.as_bytes(),
        )?)),
        _ => value.try_clone(alloc),
    }
}
