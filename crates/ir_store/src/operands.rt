//! The operands of all operations of a body, each operation's in a block of cells.
use crate::blocks::{Block, block_values, keep, refill_blocks};
use crate::cells::Cells;
use crate::operation::Value;
use std::alloc::{AllocError, Global};
use std::marker::Model;

/// Lists of operands, fewer than 2^32 in all. Each list has a block of cells, and a cell tells which list it was put in
/// for; what lies between blocks is free, and is used again once all blocks are moved together. Contracts see the lists,
/// for how many more lists and operands there is room, and how the lists lie in the cells.
#[derive(Drop)]
pub struct OperandTable {
    pub(crate) cells: Cells,
    pub(crate) blocks: Vec<Block>,
    pub(crate) live: usize,
    pub(crate) spare: Vec<Value>,
}

impl Model for OperandTable {
    ghost use Rattle.std.specs.Prelude.{◌+◌, ◌-◌, ◌≤◌, ◌^◌, length, min};
    ghost use Rattle.std.specs.Vec.{vec_len, vec_capacity};
    ghost use Rattle.ir_store.specs.Blocks.{OperandLists, AreBlocks, lists_in, cell_room};

    ghost Value = { OperandLists };

    ghost view = { λ t. record { lists = lists_in t.cells.values.items t.blocks.items; list_room = vec_capacity t.blocks - vec_len t.blocks; room = min (cell_room t.cells + length t.cells.values.items) (vec_capacity t.spare) - t.live; tail = min (cell_room t.cells) (vec_capacity t.spare - length t.cells.values.items); cells = t.cells.values; owners = t.cells.owners.items; blocks = t.blocks.items; spare = t.spare.items } };

    ghost invariant = { λ t. AreBlocks t.cells.values.items t.cells.owners.items t.blocks.items t.live × ((length t.cells.values.items ≤ vec_capacity t.spare) × (length t.blocks.items ≤ 2 ^ 32)) };
}

impl OperandTable {
    ghost use Rattle.std.specs.Prelude.{◌≡◌, ℕ, ◌+◌, ◌≤◌, ◌<◌, ◌^◌, [], length, slice_index_or, IfOk, IsOk, OnOk};
    ghost use Rattle.ir_store.specs.Blocks.{block_at, lists_in};

    /// No lists. It takes no memory.
    pub fn new(alloc: Global) -> OperandTable
        ensures { result.lists ≡ [] }
    {
        OperandTable {
            cells: Cells::new(alloc),
            blocks: Vec::new(alloc),
            live: 0,
            spare: Vec::new(alloc),
        }
    }

    /// Equal lists with memory of their own.
    pub fn try_clone(&self, alloc: Global) -> Result<OperandTable, AllocError>
        ensures { IfOk result (λ copy. copy.lists ≡ self.now.lists) }
    {
        let cells = self.cells.try_clone(alloc)?;
        let blocks = Vec::from_slice(alloc, self.blocks.as_slice())?;
        let spare = Vec::with_capacity(alloc, cells.end() as usize)?;
        Ok(OperandTable {
            cells,
            blocks,
            live: self.live,
            spare,
        })
    }

    /// For how many lists there is room, those that are there among them.
    pub fn list_capacity(&self) -> usize
        ensures { result ≡ length self.now.lists + self.now.list_room }
    {
        self.blocks.capacity()
    }

    /// For how many more operands there is room, what lies free between lists among it.
    pub fn room(&self) -> usize
        ensures { result ≡ self.now.room }
    {
        let cells = self.cells.end() as usize + self.cells.room();
        cells.min(self.spare.capacity()) - self.live
    }

    /// For how many more operands there is room after the last cell.
    pub(crate) fn tail(&self) -> usize
        ensures tail { result ≡ self.now.tail }
        ensures room { result ≤ self.now.room }
    {
        let spare = self.spare.capacity() - self.cells.end() as usize;
        self.cells.room().min(spare)
    }

    /// Makes room for so many more lists and operands.
    pub fn reserve(&mut self, lists: usize, operands: usize) -> Result<(), AllocError>
        ensures lists { self.new.lists ≡ self.old.lists }
        ensures ok { OnOk result ((lists ≤ self.new.list_room) × (operands ≤ self.new.room)) }
        ensures list_room { self.old.list_room ≤ self.new.list_room }
        ensures room { self.old.room ≤ self.new.room }
        ensures succeeds { lists ≤ self.old.list_room → operands ≤ self.old.room → IsOk result }
    {
        self.reserve_lists(lists)?;
        self.reserve_operands(operands)
    }

    /// Makes room for so many more lists.
    fn reserve_lists(&mut self, lists: usize) -> Result<(), AllocError>
        ensures lists { self.new.lists ≡ self.old.lists }
        ensures ok { OnOk result (lists ≤ self.new.list_room) }
        ensures list_room { self.old.list_room ≤ self.new.list_room }
        ensures room { self.old.room ≡ self.new.room }
        ensures succeeds { lists ≤ self.old.list_room → IsOk result }
    {
        self.blocks.reserve(lists)
    }

    /// Makes room for so many more operands. Where as many cells are free as are not, they are used, so that no memory
    /// is taken; so each call is constant on average in the number of operands.
    pub fn reserve_operands(&mut self, operands: usize) -> Result<(), AllocError>
        ensures lists { self.new.lists ≡ self.old.lists }
        ensures ok { OnOk result (operands ≤ self.new.room) }
        ensures list_room { self.new.list_room ≡ self.old.list_room }
        ensures room { self.old.room ≤ self.new.room }
        ensures succeeds { operands ≤ self.old.room → IsOk result }
    {
        let fits = operands <= self.room();
        if operands <= self.tail() || (fits && self.is_half_free()) {
            return Ok(());
        }
        let grown = self.grow(operands);
        if fits { Ok(()) } else { grown }
    }

    /// Makes room for one more operand in list `i`, and where memory is there for it, so that the list may be moved.
    pub fn reserve_insert(&mut self, i: usize) -> Result<(), AllocError>
        ensures lists { self.new.lists ≡ self.old.lists }
        ensures ok { OnOk result (1 ≤ self.new.room) }
        ensures list_room { self.new.list_room ≡ self.old.list_room }
        ensures room { self.old.room ≤ self.new.room }
        ensures succeeds { 1 ≤ self.old.room → IsOk result }
    {
        let count = self.get(i).len();
        let grown = self.reserve_operands(count + 1);
        if self.room() >= 1 { Ok(()) } else { grown }
    }

    /// Whether no more cells are used than are free between lists.
    fn is_half_free(&self) -> bool {
        let cells = self.cells.end() as usize;
        self.live <= cells - self.live
    }

    /// Takes memory for so many more operands. Linear in the number of cells.
    fn grow(&mut self, operands: usize) -> Result<(), AllocError>
        ensures lists { self.new.lists ≡ self.old.lists }
        ensures ok { OnOk result (operands ≤ self.new.room) }
        ensures list_room { self.new.list_room ≡ self.old.list_room }
        ensures room { self.old.room ≤ self.new.room }
    {
        let alloc = *self.blocks.allocator();
        self.compact();
        self.take_memory(alloc, operands)
    }

    /// Takes memory for so many more cells.
    fn take_memory(&mut self, alloc: Global, operands: usize) -> Result<(), AllocError>
        ensures lists { self.new.lists ≡ self.old.lists }
        ensures ok { OnOk result (operands ≤ self.new.room) }
        ensures list_room { self.new.list_room ≡ self.old.list_room }
        ensures room { self.old.room ≤ self.new.room }
    {
        self.cells.reserve(alloc, operands)?;
        let cells = self.cells.end() as usize + operands;
        self.spare.truncate(0);
        self.spare.reserve(cells)
    }

    /// Makes room for so many operands after the last cell, where there is room for them.
    pub(crate) fn make_tail(&mut self, count: usize)
        requires { count ≤ self.old.room }
        ensures lists { self.new.lists ≡ self.old.lists }
        ensures list_room { self.new.list_room ≡ self.old.list_room }
        ensures room { self.new.room ≡ self.old.room }
        ensures tail { count ≤ self.new.tail }
    {
        if self.tail() < count {
            self.compact();
        }
    }

    /// Moves all lists together. Linear in the number of cells.
    pub(crate) fn compact(&mut self)
        ensures lists { self.new.lists ≡ self.old.lists }
        ensures list_room { self.new.list_room ≡ self.old.list_room }
        ensures room { self.new.room ≡ self.old.room }
        ensures tail { self.new.tail ≡ self.new.room }
    {
        self.keep_all();
        self.refill();
    }

    /// Keeps the values of all cells.
    pub(crate) fn keep_all(&mut self)
        ensures lists { self.new.lists ≡ self.old.lists }
        ensures list_room { self.new.list_room ≡ self.old.list_room }
        ensures room { self.new.room ≡ self.old.room }
        ensures tail { self.new.tail ≡ self.old.tail }
        ensures blocks { self.new.blocks ≡ self.old.blocks }
        ensures spare { self.new.spare ≡ self.old.cells.items }
        ensures kept { lists_in self.new.spare self.new.blocks ≡ self.old.lists }
        ensures within { (j : ℕ) → (block_at self.new.blocks j).start + (block_at self.new.blocks j).len ≤ length self.new.spare }
    {
        keep(&mut self.spare, self.cells.values.as_slice());
    }

    /// Keeps the values of list `i`.
    pub(crate) fn keep(&mut self, i: usize)
        requires { i < length self.old.lists }
        ensures lists { self.new.lists ≡ self.old.lists }
        ensures list_room { self.new.list_room ≡ self.old.list_room }
        ensures room { self.new.room ≡ self.old.room }
        ensures tail { self.new.tail ≡ self.old.tail }
        ensures spare { self.new.spare ≡ slice_index_or self.old.lists i [] }
    {
        let block = self.blocks[i];
        keep(
            &mut self.spare,
            block_values(self.cells.values.as_slice(), block),
        );
    }

    /// Puts all lists into the cells again, one after another, each from what is kept of it.
    pub(crate) fn refill(&mut self)
        requires kept { lists_in self.old.spare self.old.blocks ≡ self.old.lists }
        requires within { (j : ℕ) → (block_at self.old.blocks j).start + (block_at self.old.blocks j).len ≤ length self.old.spare }
        ensures lists { self.new.lists ≡ self.old.lists }
        ensures list_room { self.new.list_room ≡ self.old.list_room }
        ensures room { self.new.room ≡ self.old.room }
        ensures tail { self.new.tail ≡ self.new.room }
        ensures spare { self.new.spare ≡ self.old.spare }
    {
        self.cells.clear();
        refill_blocks(&mut self.cells, &mut self.blocks, self.spare.as_slice());
    }

    /// List `i`, or none where there is no such list.
    pub fn get(&self, i: usize) -> &[Value]
        ensures list { result.now ≡ slice_index_or self.now.lists i [] }
        ensures small { length result.now < 2 ^ 32 }
    {
        block_values(self.cells.values.as_slice(), self.block(i))
    }

    /// The block of list `i`.
    pub(crate) fn block(&self, i: usize) -> Block
        ensures { result ≡ block_at self.now.blocks i }
    {
        match self.blocks.get(i) {
            Some(block) => *block,
            None => Block { start: 0, len: 0 },
        }
    }
}
