//! Values in order, those that may be equal linked in chains.
ghost use Rattle.std.specs.Prelude.{◌≡◌, ◌<◌, ◌≤◌, ◌+◌, length};
ghost use Rattle.ir_store.specs.ChainedValues.{value_number, head_of};

use crate::operation::{Value, is_same};
use linked_lists::chains::Chains;
use std::alloc::{AllocError, Global};
use std::marker::Model;

/// The most values that there can be.
const MOST: usize = u32::MAX as usize;

/// Values in order. The position of each, its cell, is in the chain of the head that follows from the value, so equal
/// values are in one chain. Contracts see the values, the cells of each head, and for how many more there is room.
#[derive(Drop)]
pub struct ChainedValues {
    values: Vec<Value>,
    chains: Chains,
}

impl Model for ChainedValues {
    ghost use Rattle.std.specs.Prelude.{◌-◌, ◌^◌, length, min};
    ghost use Rattle.std.specs.Vec.{vec_capacity};
    ghost use Rattle.ir_store.specs.ChainedValues.{ValueChains, AreIndexed};

    ghost Value = { ValueChains };

    ghost view = { λ t. record { items = t.values.items; chains = t.chains.chains; room = min (vec_capacity t.values) (min (min t.chains.room (2 ^ 32 - 1)) (length t.chains.chains)) - length t.values.items } };

    ghost invariant = { λ t. AreIndexed t.values.items t.chains };
}

/// The number from which a value's head follows.
fn number_of(value: Value) -> usize
    ensures { result ≡ value_number value }
{
    match value {
        Value::Port(n) => n as usize * 2_246_822_519 + 374_761_393,
        Value::Result(id, _) => id.index as usize,
        Value::Undefined => 668_265_263,
    }
}

/// The head of a value among so many.
#[tactic(auto, unfolding(crate::specs::ChainedValues::head_of))]
fn head_of(value: Value, heads: usize) -> usize
    requires { 0 < heads }
    ensures head { result ≡ head_of heads value }
    ensures within { result < heads }
{
    number_of(value) % heads
}

impl ChainedValues {
    ghost use Rattle.std.specs.Prelude.{◌≡◌, ℕ, ◌<◌, ◌≤◌, ◌+◌, ◌-◌, ◌^◌, true, false, map, List, [], ◌∷◌, ◌++◌, length, min, take, slice_set, slice_index_or, Contains, IfOk, IfSome, IsOk, OnOk};
    ghost use Rattle.linked_lists.specs.Ids.{times};
    ghost use Rattle.ir_store.specs.BodyOps.{same_value, replace_value};
    ghost use Rattle.linked_lists.specs.Chains.{cell_or_none, once_if, has_head, cut};
    ghost use Rattle.ir_store.specs.ChainedValues.{has_value, cells_with, cells_of, rest_at, chain_near, head_at, head_of};

    /// No values. It takes no memory.
    pub fn new(alloc: Global) -> ChainedValues
        ensures items { result.items ≡ [] }
    {
        ChainedValues {
            values: Vec::new(alloc),
            chains: Chains::new(alloc),
        }
    }

    /// No values, with room for so many.
    pub fn with_room(alloc: Global, room: usize) -> Result<ChainedValues, AllocError>
        ensures items { IfOk result (λ t. t.items ≡ []) }
        ensures room { IfOk result (λ t. min room u32.MAX ≤ t.room) }
    {
        let values = Vec::with_capacity(alloc, room)?;
        let chains = Chains::with_room(alloc, room, room)?;
        Ok(ChainedValues { values, chains })
    }

    /// The values.
    pub fn as_slice(&self) -> &[Value]
        ensures items { result.now ≡ self.now.items }
        ensures few { length result.now < 2 ^ 32 }
    {
        self.values.as_slice()
    }

    /// For how many more values there is room.
    pub fn room(&self) -> usize
        ensures { result ≡ self.now.room }
    {
        let cells = self.chains.room().min(self.chains.head_count());
        self.values.capacity().min(cells.min(MOST)) - self.values.len()
    }

    /// Makes room for so many more values, twice as many as there are at least where memory is taken. The values stay.
    pub fn reserve(&mut self, alloc: Global, more: usize) -> Result<(), AllocError>
        ensures items { self.new.items ≡ self.old.items }
        ensures ok { OnOk result (more ≤ self.new.room) }
        ensures room { self.old.room ≤ self.new.room }
        ensures succeeds { more ≤ self.old.room → IsOk result }
    {
        if more <= self.room() {
            return Ok(());
        }
        let len = self.values.len();
        if MOST - len < more {
            return Err(AllocError);
        }
        let room = (len + more).max(len.saturating_mul(2)).min(MOST);
        *self = ChainedValues::copy_of(alloc, self.values.as_slice(), room)?;
        Ok(())
    }

    /// Equal values with memory of their own, with room for so many in all.
    pub fn copy_of(
        alloc: Global,
        values: &[Value],
        room: usize,
    ) -> Result<ChainedValues, AllocError>
        requires { (length values.now ≤ room) × (room < 2 ^ 32) }
        ensures items { IfOk result (λ t. t.items ≡ values.now) }
        ensures room { IfOk result (λ t. room ≤ t.room + length values.now) }
    {
        let mut copy = ChainedValues::with_room(alloc, room)?;
        for value in values {
            copy.push(*value);
        }
        Ok(copy)
    }

    /// The first cell that has a value, where one has it. Linear in the cells before it in the chain of the value's head.
    pub fn first(&self, value: Value) -> Option<u32>
        ensures first { result ≡ cell_or_none (cells_of value self.now) }
        ensures each { (cell : ℕ) → times cell (cells_of value self.now) ≡ once_if (has_value value self.now.items cell) }
    {
        let heads = self.chains.head_count();
        if heads == 0 {
            return None;
        }
        let head = head_of(value, heads);
        self.seek(value, head, self.chains.first(head))
    }

    /// The cell after this one that has the same value, where there is one. Linear in the cells between them in the chain.
    pub fn next(&self, value: Value, cell: u32) -> Option<u32>
        requires { Contains (cells_of value self.now) cell }
        ensures next { (xs ys : List ℕ) → cells_of value self.now ≡ xs ++ cell ∷ ys → result ≡ cell_or_none ys }
        ensures each { (other : ℕ) → times other (cells_of value self.now) ≡ once_if (has_value value self.now.items other) }
    {
        let head = head_of(value, self.chains.head_count());
        self.seek(value, head, self.chains.next(cell))
    }

    /// The first cell of the chain of a value's head, where it has one, in constant time.
    pub fn first_near(&self, value: Value) -> Option<u32>
        ensures first { result ≡ cell_or_none (chain_near value self.now) }
        ensures members { (cell : ℕ) → times cell (chain_near value self.now) ≡ once_if (has_head (head_at (length self.now.chains) self.now.items cell) (head_of (length self.now.chains) value)) }
    {
        let heads = self.chains.head_count();
        if heads == 0 {
            return None;
        }
        self.chains.first(head_of(value, heads))
    }

    /// The cell after this one in its chain, where there is one, in constant time.
    pub fn next_near(&self, cell: u32) -> Option<u32>
        ensures { (s : ℕ) (xs ys : List ℕ) → slice_index_or self.now.chains s [] ≡ xs ++ cell ∷ ys → result ≡ cell_or_none ys }
    {
        self.chains.next(cell)
    }

    /// The first cell that has a value, from a cell of a head's chain on.
    fn seek(&self, value: Value, head: usize, from: Option<u32>) -> Option<u32>
        requires { IfSome from (λ c. Contains (slice_index_or self.now.chains head []) c) }
        ensures { result ≡ cell_or_none (cells_with value self.now.items (rest_at from (slice_index_or self.now.chains head []))) }
    {
        let mut at = from;
        while let Some(cell) = at {
            if self.has(cell, value) {
                return Some(cell);
            }
            at = self.chains.next(cell);
        }
        None
    }

    /// Whether a cell has a value.
    fn has(&self, cell: u32, value: Value) -> bool
        ensures { result ≡ has_value value self.now.items cell }
    {
        match self.values.get(cell as usize) {
            Some(other) => is_same(value, *other),
            None => false,
        }
    }

    /// Puts a value after the others, where there is room for it, in constant time.
    pub fn push(&mut self, value: Value)
        requires { 1 ≤ self.old.room }
        ensures items { self.new.items ≡ self.old.items ++ value ∷ [] }
        ensures room { self.new.room + 1 ≡ self.old.room }
    {
        let cell = self.values.len() as u32;
        self.chains
            .put_first(head_of(value, self.chains.head_count()), cell);
        self.values.push_reserved(value);
    }

    /// Puts a value in the place of that of a cell, in constant time.
    pub fn set(&mut self, cell: usize, value: Value)
        requires { cell < length self.old.items }
        ensures items { self.new.items ≡ slice_set self.old.items cell value }
        ensures room { self.new.room ≡ self.old.room }
        ensures gone { (v : Value) → has_value v self.old.items cell ≡ true → same_value v value ≡ false → cells_of v self.new ≡ cut cell (cells_of v self.old) }
        ensures each { (v : Value) (other : ℕ) → times other (cells_of v self.new) ≡ once_if (has_value v self.new.items other) }
    {
        let heads = self.chains.head_count();
        self.chains
            .take_out(head_of(self.values[cell], heads), cell as u32);
        self.chains.put_first(head_of(value, heads), cell as u32);
        self.values[cell] = value;
    }

    /// Takes all values out. Linear in their number.
    pub fn clear(&mut self)
        ensures items { self.new.items ≡ [] }
        ensures room { self.new.room ≡ self.old.room + length self.old.items }
    {
        for _ in 0..self.values.len() {
            self.pop();
        }
    }

    /// Takes the last value out, in constant time.
    pub fn pop(&mut self)
        requires { 0 < length self.old.items }
        ensures items { self.new.items ≡ take (length self.old.items - 1) self.old.items }
        ensures room { self.new.room ≡ self.old.room + 1 }
    {
        let cell = self.values.len() - 1;
        let head = head_of(self.values[cell], self.chains.head_count());
        self.chains.take_out(head, cell as u32);
        self.values.truncate(cell);
    }

    /// Puts `to` in the place of each `from`. Linear in the chain of the head of `from`.
    pub fn replace(&mut self, from: Value, to: Value)
        ensures items { self.new.items ≡ map (replace_value from to) self.old.items }
        ensures room { self.new.room ≡ self.old.room }
    {
        if is_same(from, to) {
            return;
        }
        let mut at = self.first(from);
        while let Some(cell) = at {
            at = self.next(from, cell);
            self.set(cell as usize, to);
        }
    }
}
