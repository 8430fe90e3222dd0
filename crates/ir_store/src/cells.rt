//! Cells for operands: each has a value, in the chain of its value's head, and the list that it was put in for.
ghost use Rattle.std.specs.Prelude.{◌≡◌, length};

use crate::chained_values::ChainedValues;
use crate::operation::{OpId, Value};
use linked_lists::links::NONE;
use std::alloc::{AllocError, Global};

/// What a cell has that no list has: a result of no operation, so that few look for it.
const HOLE: Value = Value::Result(OpId { index: NONE }, 0);

/// Values in order, those that may be equal linked in chains, each with the number of the list that it was put in for.
#[derive(Drop)]
pub struct Cells {
    pub(crate) values: ChainedValues,
    pub(crate) owners: Vec<u32>,
    ghost same: { length owners.items ≡ length values.items },
}

impl Cells {
    ghost use Rattle.std.specs.Prelude.{◌≡◌, ℕ, ◌+◌, ◌-◌, ◌<◌, ◌≤◌, ◌^◌, [], ◌∷◌, ◌++◌, min, replicate, insert, length, slice_set, slice_index_or, IfOk, IsOk, OnOk};
    ghost use Rattle.ir_store.specs.declared.operation.Value.TheVariants.{Undefined};
    ghost use Rattle.ir_store.specs.Blocks.{cell_room};

    /// No cells. It takes no memory.
    pub fn new(alloc: Global) -> Cells
        ensures { result.values.items ≡ [] }
    {
        Cells {
            values: ChainedValues::new(alloc),
            owners: Vec::new(alloc),
        }
    }

    /// Equal cells with memory of their own.
    pub fn try_clone(&self, alloc: Global) -> Result<Cells, AllocError>
        ensures values { IfOk result (λ copy. copy.values.items ≡ self.now.values.items) }
        ensures owners { IfOk result (λ copy. copy.owners.items ≡ self.now.owners.items) }
    {
        let old = self.values.as_slice();
        Ok(Cells {
            values: ChainedValues::copy_of(alloc, old, old.len())?,
            owners: Vec::from_slice(alloc, self.owners.as_slice())?,
        })
    }

    /// How many cells there are.
    pub fn end(&self) -> u32
        ensures { result ≡ length self.now.values.items }
    {
        self.values.as_slice().len() as u32
    }

    /// For how many more cells there is room.
    pub fn room(&self) -> usize
        ensures { result ≡ cell_room self.now }
    {
        let owners = self.owners.capacity() - self.owners.len();
        self.values.room().min(owners)
    }

    /// Makes room for so many more cells. The cells stay.
    pub fn reserve(&mut self, alloc: Global, more: usize) -> Result<(), AllocError>
        ensures values { self.new.values.items ≡ self.old.values.items }
        ensures owners { self.new.owners.items ≡ self.old.owners.items }
        ensures ok { OnOk result (more ≤ cell_room self.new) }
        ensures room { cell_room self.old ≤ cell_room self.new }
        ensures succeeds { more ≤ cell_room self.old → IsOk result }
    {
        self.owners.reserve(more)?;
        self.values.reserve(alloc, more)
    }

    /// Puts a value after the others, where there is room for it, in constant time.
    pub fn push(&mut self, value: Value, owner: u32)
        requires { 1 ≤ cell_room self.old }
        ensures values { self.new.values.items ≡ self.old.values.items ++ value ∷ [] }
        ensures owners { self.new.owners.items ≡ self.old.owners.items ++ owner ∷ [] }
        ensures room { cell_room self.new + 1 ≡ cell_room self.old }
    {
        self.values.push(value);
        self.owners.push_reserved(owner);
    }

    /// Puts values after the others, where there is room for them, in constant time each.
    pub fn push_all(&mut self, list: &[Value], owner: u32)
        requires { length list.now ≤ cell_room self.old }
        ensures values { self.new.values.items ≡ self.old.values.items ++ list.now }
        ensures owners { self.new.owners.items ≡ self.old.owners.items ++ replicate (length list.now) owner }
        ensures room { cell_room self.new + length list.now ≡ cell_room self.old }
    {
        for value in list {
            self.push(*value, owner);
        }
    }

    /// Puts values after the others, another one among them, where there is room for them, in constant time each.
    pub fn push_with(&mut self, list: &[Value], at: usize, value: Value, owner: u32)
        requires position { at ≤ length list.now }
        requires room { length list.now + 1 ≤ cell_room self.old }
        ensures values { self.new.values.items ≡ self.old.values.items ++ insert list.now at value }
        ensures owners { self.new.owners.items ≡ self.old.owners.items ++ replicate (length list.now + 1) owner }
        ensures room { cell_room self.new + (length list.now + 1) ≡ cell_room self.old }
    {
        self.push_all(&list[..at], owner);
        self.push(value, owner);
        self.push_all(&list[at..], owner);
    }

    /// Puts a value in the place of that of a cell, in constant time.
    pub fn set(&mut self, cell: usize, value: Value)
        requires { cell < length self.old.values.items }
        ensures values { self.new.values.items ≡ slice_set self.old.values.items cell value }
        ensures owners { self.new.owners ≡ self.old.owners }
        ensures room { self.new.values.room ≡ self.old.values.room }
    {
        self.values.set(cell, value);
    }

    /// Takes the values of so many cells from one on away, in constant time each.
    pub fn wipe(&mut self, start: usize, count: usize)
        requires { start + count ≤ length self.old.values.items }
        ensures count { length self.new.values.items ≡ length self.old.values.items }
        ensures others { (c : ℕ) → (start ≤ c → c < start + count → ⊥) → slice_index_or self.new.values.items c Undefined ≡ slice_index_or self.old.values.items c Undefined }
        ensures owners { self.new.owners ≡ self.old.owners }
        ensures room { self.new.values.room ≡ self.old.values.room }
    {
        for cell in start..start + count {
            self.set(cell, HOLE);
        }
    }

    /// Takes the value of a cell out: each of those up to `last` moves down by one, in constant time each.
    pub fn close_gap(&mut self, first: usize, last: usize)
        requires { (first ≤ last) × (last < length self.old.values.items) }
        ensures count { length self.new.values.items ≡ length self.old.values.items }
        ensures moved { (c : ℕ) → first ≤ c → c < last → slice_index_or self.new.values.items c Undefined ≡ slice_index_or self.old.values.items (c + 1) Undefined }
        ensures others { (c : ℕ) → (first ≤ c → c ≤ last → ⊥) → slice_index_or self.new.values.items c Undefined ≡ slice_index_or self.old.values.items c Undefined }
        ensures owners { self.new.owners ≡ self.old.owners }
        ensures room { self.new.values.room ≡ self.old.values.room }
    {
        for cell in first..last {
            let value = self.values.as_slice()[cell + 1];
            self.set(cell, value);
        }
        self.set(last, HOLE);
    }

    /// Takes all cells out. Linear in their number.
    pub fn clear(&mut self)
        ensures values { self.new.values.items ≡ [] }
        ensures room { cell_room self.new ≡ cell_room self.old + length self.old.values.items }
    {
        self.values.clear();
        self.owners.truncate(0);
    }
}
