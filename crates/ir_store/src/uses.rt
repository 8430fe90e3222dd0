//! The positions where a value of a body is used.
ghost use Rattle.std.specs.Prelude.{◌≡◌, [], slice_index_or};
ghost use Rattle.ir_store.specs.ChainedValues.{cells_of};
ghost use Rattle.linked_lists.specs.Chains.{times_at};

use crate::operands::OperandTable;
use crate::operation::{UsePosition, Value};
use linked_lists::links::Link;

/// The positions that name a value: a walk along the chain of its cells.
#[derive(Drop)]
pub struct Uses<'b> {
    value: Value,
    operands: &'b OperandTable,
    links: &'b [Link],
    at: Option<u32>,
    ghost here: { times_at at (cells_of value operands.now.cells) ≡ 1 },
}

impl<'b> Uses<'b> {
    ghost use Rattle.std.specs.Prelude.{◌&&◌, ◌<◌, length, Some};
    ghost use Rattle.ir_store.specs.declared.operation.UsePosition.{UsePosition};
    ghost use Rattle.linked_lists.specs.Chains.{once_if};
    ghost use Rattle.linked_lists.specs.Links.{is_live_at};
    ghost use Rattle.ir_store.specs.ChainedValues.{has_value};
    ghost use Rattle.ir_store.specs.Uses.{use_times, with_use, positions_of};
    ghost use Rattle.ir_store.specs.UsesLeft.{uses_left, cells_left};

    /// The positions that name `value` among the operands of the operations that are live by `links`.
    pub(crate) fn among(value: Value, operands: &'b OperandTable, links: &'b [Link]) -> Uses<'b>
        ensures cells { uses_left result ≡ positions_of links.now operands.now.owners operands.now.blocks (cells_of value operands.now.cells) }
        ensures times { (p : UsePosition) → use_times p (uses_left result) ≡ once_if (is_live_at links.now p.op.index && has_value value (slice_index_or operands.now.lists p.op.index []) p.at) }
    {
        let at = operands.first(value);
        Uses {
            value,
            operands,
            links,
            at,
        }
    }

    /// Passes the cell that comes next, and gives its position, where it is an operand of a live operation.
    fn pass(&mut self, cell: u32) -> Option<UsePosition>
        requires { self.old.at ≡ Some cell }
        ensures left { uses_left self.old ≡ with_use result (uses_left self.new) }
        ensures fewer { length (cells_left self.new) < length (cells_left self.old) }
    {
        let position = self.operands.use_of(cell, self.links);
        self.at = self.operands.next(self.value, cell);
        position
    }
}

impl<'b> Iterator for Uses<'b> {
    ghost use Rattle.std.specs.Iterator.{YieldsFirst, item_count};
    ghost use Rattle.ir_store.specs.UsesLeft.{uses_left};

    type Item = UsePosition;

    ghost next_gives = { YieldsFirst uses_left };

    ghost remaining = { item_count uses_left };

    fn next(&mut self) -> Option<UsePosition> {
        while let Some(cell) = self.at {
            if let Some(position) = self.pass(cell) {
                return Some(position);
            }
        }
        None
    }
}
