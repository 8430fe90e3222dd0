//! A body's operations by their positions in text order.
ghost use Rattle.std.specs.Prelude.{◌≡◌, ◌<◌, length, map, slice_get, Some};
ghost use Rattle.ir_store.specs.Bodies.{ids_of, ops_of, op_id};
ghost use Rattle.ir_store.specs.Numbered.{ops_by_position};
ghost use Rattle.body_index.specs.OpIndexes.{op_view};
ghost use Rattle.body_index.specs.PositionTables.{ArePositions};

use crate::position_table::{ids_in, positions_of};
use ir_store::body::{Body, Op};
use ir_store::operation::OpId;
use std::alloc::{AllocError, Global};

/// A body, its operations by their positions. Contracts see it by its body.
#[derive(Drop)]
pub struct OpIndex<'b> {
    // the body
    body: &'b Body,
    // the ids in text order
    ids: Vec<OpId>,
    // the position of each id by its number
    positions: Vec<u32>,
    ghost all: { ids.items ≡ map op_id (ids_of body.now) },
    ghost known: { ArePositions (ids_of body.now) positions.items },
}

impl<'b> OpIndex<'b> {
    ghost use Rattle.std.specs.Prelude.{◌≡◌, ◌<◌, length, IfOk, Some, slice_get};
    ghost use Rattle.ir_store.specs.Bodies.{ids_of, ops_of};
    ghost use Rattle.ir_store.specs.Numbered.{position_of, ops_by_position};
    ghost use Rattle.body_index.specs.OpIndexes.{op_view};

    /// The operations of a body. One of 2^32 operations or more wants more memory than there is.
    pub fn of(alloc: Global, body: &'b Body) -> Result<OpIndex<'b>, AllocError>
        ensures { IfOk result (λ index. index.body.now ≡ body.now) }
    {
        let ids = ids_in(alloc, body)?;
        let positions = positions_of(alloc, ids.as_slice())?;
        Ok(OpIndex {
            body,
            ids,
            positions,
        })
    }

    /// How many operations there are.
    pub fn count(&self) -> usize
        ensures { result ≡ length (ops_by_position (ops_of self.now.body.now)) }
    {
        self.ids.len()
    }

    /// The operation at a position.
    pub fn op_at(&self, position: usize) -> Op<'b>
        requires { position < length (ops_by_position (ops_of self.now.body.now)) }
        ensures { slice_get (ops_by_position (ops_of self.now.body.now)) position ≡ Some (op_view self.now.body.now result) }
    {
        op_at(self.body, self.ids.as_slice(), position)
    }

    /// The id of the operation at a position.
    pub fn id_at(&self, position: usize) -> OpId
        requires { position < length (ops_by_position (ops_of self.now.body.now)) }
        ensures { position_of (ids_of self.now.body.now) result.index ≡ position }
    {
        self.ids[position]
    }

    /// The position of the operation of an id; of one that is not there, the number of operations.
    pub fn position(&self, id: OpId) -> usize
        ensures { result ≡ position_of (ids_of self.now.body.now) id.index }
    {
        match self.entry(id) {
            Some(position) => (position as usize).min(self.ids.len()),
            None => self.ids.len(),
        }
    }

    // What the table has for an id.
    fn entry(&self, id: OpId) -> Option<u32>
        ensures { result ≡ slice_get self.now.positions.items id.index }
    {
        self.positions.get(id.number() as usize).copied()
    }
}

/// The operation at a position, `ids` being those of all.
pub fn op_at<'b>(body: &'b Body, ids: &[OpId], position: usize) -> Op<'b>
    requires all { ids.now ≡ map op_id (ids_of body.now) }
    requires within { position < length ids.now }
    ensures { slice_get (ops_by_position (ops_of body.now)) position ≡ Some (op_view body.now result) }
{
    body.op(ids[position])
}
