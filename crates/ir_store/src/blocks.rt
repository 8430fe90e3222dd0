//! Blocks of cells: lists of operands lie in them.
ghost use Rattle.std.specs.Prelude.{◌≡◌, ℕ, ◌+◌, ◌≤◌, ◌^◌, [], length};
ghost use Rattle.std.specs.Vec.{vec_capacity};
ghost use Rattle.ir_store.specs.Blocks.{AreBlocks, position_within, block_list, block_at, lists_in, total, cell_room};

use crate::cells::Cells;
use crate::operation::{OpId, UsePosition, Value};

/// Where the operands of an operation stand: so many cells from one on.
#[derive(Clone, Copy)]
pub struct Block {
    pub(crate) start: u32,
    pub(crate) len: u32,
}

/// The position of a cell in a block, where it is one of the block's cells.
pub(crate) fn position_within(owner: u32, block: Block, cell: u32) -> Option<UsePosition>
    ensures { result ≡ position_within owner block cell }
{
    if block.start <= cell && cell - block.start < block.len {
        let op = OpId { index: owner };
        return Some(UsePosition {
            op,
            at: cell - block.start,
        });
    }
    None
}

/// The values of a block.
pub(crate) fn block_values(values: &[Value], block: Block) -> &[Value]
    requires { block.start + block.len ≤ length values.now }
    ensures { result.now ≡ block_list values.now block }
{
    let start = block.start as usize;
    &values[start..start + block.len as usize]
}

/// Puts each block that `from` has into the cells, where there are none, one after another.
pub(crate) fn refill_blocks(cells: &mut Cells, blocks: &mut [Block], from: &[Value])
    requires empty { cells.old.values.items ≡ [] }
    requires within { (i : ℕ) → (block_at blocks.old i).start + (block_at blocks.old i).len ≤ length from.now }
    requires room { total blocks.old ≤ cell_room cells.old }
    requires few { length blocks.old ≤ 2 ^ 32 }
    ensures count { length blocks.new ≡ length blocks.old }
    ensures lists { lists_in cells.new.values.items blocks.new ≡ lists_in from.now blocks.old }
    ensures blocks { AreBlocks cells.new.values.items cells.new.owners.items blocks.new (total blocks.old) }
    ensures cells { length cells.new.values.items ≡ total blocks.old }
    ensures room { cell_room cells.new + total blocks.old ≡ cell_room cells.old }
{
    for i in 0..blocks.len() {
        let block = blocks[i];
        let start = cells.end();
        cells.push_all(block_values(from, block), i as u32);
        blocks[i].start = start;
    }
}

/// Keeps the values of a list in place of what was kept, where there is room for them.
pub(crate) fn keep(spare: &mut Vec<Value>, list: &[Value])
    requires { length list.now ≤ vec_capacity spare.old }
    ensures items { spare.new.items ≡ list.now }
    ensures capacity { vec_capacity spare.new ≡ vec_capacity spare.old }
{
    spare.truncate(0);
    for value in list {
        spare.push_reserved(*value);
    }
}
