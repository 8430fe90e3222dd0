//! The operations of a body as checks go over them: each with its id and the types that it settles for its results.
ghost use Rattle.std.specs.Prelude.{◌≡◌, [], map, IfOk};
ghost use Rattle.ir_store.specs.Bodies.{ops_of, read_op};

use crate::settled_types::Settled;
use ir_store::body::{Body, Op};
use ir_store::operation::OpId;
use std::alloc::{AllocError, Global};

/// An operation of a body, with its id, and the types that it settles for its results.
#[derive(Drop)]
pub(crate) struct Entry<'b> {
    pub(crate) id: OpId,
    pub(crate) op: Op<'b>,
    pub(crate) settled: Settled<'b>,
}

impl<'b> Entry<'b> {
    ghost use Rattle.op_verifier.specs.Entries.{op_in, types_beside, settled_for};

    /// The entry of an operation.
    pub(crate) fn new(alloc: Global, id: OpId, op: Op<'b>) -> Result<Entry<'b>, AllocError>
        ensures op { IfOk result (λ e. op_in e ≡ read_op id op.entry) }
        ensures settled { IfOk result (λ e. types_beside e ≡ settled_for (read_op id op.entry)) }
    {
        let settled = Settled::of(alloc, &op)?;
        Ok(Entry { id, op, settled })
    }

    /// No entries, in the memory of `room`, with room for so many.
    fn none(room: Vec<Entry<'b>>, count: usize) -> Result<Vec<Entry<'b>>, AllocError>
        ensures items { IfOk result (λ es. es.items ≡ []) }
    {
        let mut entries = room;
        entries.clear();
        entries.reserve(count)?;
        Ok(entries)
    }

    /// The entries of a body's operations, in text order, in the memory of `room`.
    pub(crate) fn all(
        alloc: Global,
        room: Vec<Entry<'b>>,
        body: &'b Body,
    ) -> Result<Vec<Entry<'b>>, AllocError>
        ensures ops { IfOk result (λ es. map op_in es.items ≡ ops_of body.now) }
        ensures settled { IfOk result (λ es. map types_beside es.items ≡ map settled_for (ops_of body.now)) }
    {
        let mut entries = Entry::none(room, body.op_count())?;
        for id in body.ops() {
            entries.push(Entry::new(alloc, id, body.op(id))?)?;
        }
        Ok(entries)
    }
}
