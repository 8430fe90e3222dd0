//! A module's ports and operations, by which the values of its body are found.
ghost use Rattle.std.specs.Prelude.{◌≡◌, ℕ, ◌+◌, ◌^◌, ◌<◌, cond, nat_eq, map, slice_index_or, IfOk, OnOk};
ghost use Rattle.ir_store.specs.BodyOps.{ids_in};
ghost use Rattle.ir_store.specs.Bodies.{ops_of};
ghost use Rattle.op_verifier.specs.Tables.{IsTable};
ghost use Rattle.op_verifier.specs.Entries.{op_in, AreSettled};

use crate::entries::Entry;
use ir_store::body::Body;
use ir_store::design::Port;
use std::alloc::{AllocError, Global};

/// The ports of a module, its operations in text order, and the position of each id's operation.
#[derive(Drop)]
pub(crate) struct BodyView<'b> {
    pub(crate) ports: &'b [Port],
    pub(crate) entries: Vec<Entry<'b>>,
    pub(crate) positions: Vec<usize>,
    ghost table: { IsTable positions.items (ids_in (map op_in entries.items)) },
}

impl<'b> BodyView<'b> {
    ghost use Rattle.op_verifier.specs.BodyViews.{ops_viewed};

    /// The view of no ports and no operations. It takes no memory.
    pub(crate) fn empty(alloc: Global) -> BodyView<'b> {
        BodyView {
            ports: &[],
            entries: Vec::new(alloc),
            positions: Vec::new(alloc),
        }
    }

    /// The view of a module's ports and body. The memory of `room` is used again.
    pub(crate) fn again(
        alloc: Global,
        room: BodyView<'b>,
        ports: &'b [Port],
        body: &'b Body,
    ) -> Result<BodyView<'b>, AllocError>
        ensures ops { IfOk result (λ v. ops_viewed v ≡ ops_of body.now) }
        ensures ports { IfOk result (λ v. v.ports.now ≡ ports.now) }
        ensures settled { IfOk result (λ v. AreSettled v.entries.items) }
    {
        let BodyView {
            ports: _,
            entries,
            positions: table,
        } = room;
        let entries = Entry::all(alloc, entries, body)?;
        let positions = positions(table, &entries)?;
        Ok(BodyView {
            ports,
            entries,
            positions,
        })
    }
}

/// The position of each id's operation, by the number of the id, in the memory of `room`.
fn positions(room: Vec<usize>, entries: &[Entry<'_>]) -> Result<Vec<usize>, AllocError>
    ensures { IfOk result (λ table. IsTable table.items (ids_in (map op_in entries.now))) }
{
    let mut table = room;
    table.clear();
    let mut position = entries.len();
    while position > 0 {
        position -= 1;
        let number = entries[position].id.number() as usize;
        note(&mut table, number, position, entries.len())?;
    }
    Ok(table)
}

/// Notes a position under a number; numbers that are new below it have the position `none`.
fn note(
    table: &mut Vec<usize>,
    number: usize,
    position: usize,
    none: usize,
) -> Result<(), AllocError>
    requires { number + 1 < 2 ^ 64 }
    ensures { OnOk result ((q : ℕ) → slice_index_or table.new.items q none ≡ cond (nat_eq number q) position (slice_index_or table.old.items q none)) }
{
    if table.len() <= number {
        table.resize(number + 1, none)?;
    }
    table[number] = position;
    Ok(())
}
