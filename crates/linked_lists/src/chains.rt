//! Cells by numbers, linked in chains.
ghost use Rattle.std.specs.Prelude.{◌≡◌};
ghost use Rattle.linked_lists.specs.Chains.{cell_unless_none};

use crate::links::{Link, NONE, link_in, link_out, next_of, prev_of, unless_none};
use std::alloc::{AllocError, Global};
use std::marker::Model;

/// The most cells that there can be.
const MOST: usize = u32::MAX as usize;

/// Cells and heads, both by numbers from 0 on; each cell is in the chain of one head or in none. Contracts see the cells
/// of each head in order, how many cells were put in yet, and for how many there is room.
#[derive(Drop)]
pub struct Chains {
    links: Vec<Link>,
    heads: Vec<u32>,
}

impl Model for Chains {
    ghost use Rattle.std.specs.Prelude.{length, min, ◌-◌, ◌^◌};
    ghost use Rattle.std.specs.Vec.{vec_capacity};
    ghost use Rattle.linked_lists.specs.Chains.{ChainTable, HasChains, chains_in};

    ghost Value = { ChainTable };

    ghost view = { λ c. record { chains = chains_in c.links.items c.heads.items; cells = length c.links.items; room = min (vec_capacity c.links) (2 ^ 32 - 1) } };

    ghost invariant = { λ c. HasChains c.links.items c.heads.items };
}

impl Chains {
    ghost use Rattle.std.specs.Prelude.{◌≡◌, ℕ, ◌<◌, ◌≤◌, ◌+◌, List, [], ◌∷◌, ◌++◌, max, min, length, replicate, slice_index_or, slice_set, Contains, IfOk};
    ghost use Rattle.linked_lists.specs.Chains.{IsAlone, cut, cell_or_none};

    /// No heads and no cells. It takes no memory.
    pub fn new(alloc: Global) -> Chains
        ensures chains { result.chains ≡ [] }
        ensures cells { result.cells ≡ 0 }
    {
        Chains {
            links: Vec::new(alloc),
            heads: Vec::new(alloc),
        }
    }

    /// The chains of so many heads, all empty, with room for so many cells.
    pub fn with_room(alloc: Global, heads: usize, cells: usize) -> Result<Chains, AllocError>
        ensures chains { IfOk result (λ c. c.chains ≡ replicate heads []) }
        ensures cells { IfOk result (λ c. c.cells ≡ 0) }
        ensures room { IfOk result (λ c. min cells u32.MAX ≤ c.room) }
    {
        let links = Vec::with_capacity(alloc, cells)?;
        let heads = vec![in alloc; NONE; heads]?;
        Ok(Chains { links, heads })
    }

    /// How many heads there are.
    pub fn head_count(&self) -> usize
        ensures { result ≡ length self.now.chains }
    {
        self.heads.len()
    }

    /// For how many cells there is room, those that were put in yet among them.
    pub fn room(&self) -> usize
        ensures { result ≡ self.now.room }
    {
        self.links.capacity().min(MOST)
    }

    /// The first cell of a head, where it has one, in constant time.
    pub fn first(&self, head: usize) -> Option<u32>
        ensures { result ≡ cell_or_none (slice_index_or self.now.chains head []) }
    {
        match self.heads.get(head) {
            Some(first) => some_cell(*first),
            None => None,
        }
    }

    /// The cell after this one in its chain, where there is one, in constant time.
    pub fn next(&self, cell: u32) -> Option<u32>
        ensures { (s : ℕ) (xs ys : List ℕ) → slice_index_or self.now.chains s [] ≡ xs ++ cell ∷ ys → result ≡ cell_or_none ys }
    {
        some_cell(next_of(self.links.as_slice(), cell))
    }

    /// Puts a cell that is in no chain before the others of a head, in constant time.
    pub fn put_first(&mut self, head: usize, cell: u32)
        requires head { head < length self.old.chains }
        requires cell { cell ≤ self.old.cells }
        requires room { cell < self.old.room }
        requires alone { IsAlone cell self.old.chains }
        ensures chains { self.new.chains ≡ slice_set self.old.chains head (cell ∷ slice_index_or self.old.chains head []) }
        ensures cells { self.new.cells ≡ max self.old.cells (cell + 1) }
        ensures room { self.new.room ≡ self.old.room }
    {
        link_in(&mut self.links, cell, NONE, self.heads[head]);
        self.heads[head] = cell;
    }

    /// Takes a cell out of the chain of its head, in constant time.
    pub fn take_out(&mut self, head: usize, cell: u32)
        requires { Contains (slice_index_or self.old.chains head []) cell }
        ensures chains { self.new.chains ≡ slice_set self.old.chains head (cut cell (slice_index_or self.old.chains head [])) }
        ensures cells { self.new.cells ≡ self.old.cells }
        ensures room { self.new.room ≡ self.old.room }
    {
        let prev = prev_of(self.links.as_slice(), cell);
        let next = next_of(self.links.as_slice(), cell);
        link_out(&mut self.links, cell, prev, next, NONE);
        self.heads[head] = unless_none(prev, self.heads[head], next);
    }
}

/// The cell, unless it is none.
fn some_cell(cell: u32) -> Option<u32>
    ensures { result ≡ cell_unless_none cell }
{
    if cell == NONE { None } else { Some(cell) }
}
