//! The ids of a body: the live ones linked in text order, and those that are free.
ghost use Rattle.std.specs.Prelude.{◌≡◌, ℕ, ◌-◌, ◌<◌, ◌≤◌, ◌^◌, ◌++◌, false, length};
ghost use Rattle.linked_lists.specs.Ids.{times};
ghost use Rattle.linked_lists.specs.Links.{none, walk, last_of, IsLinked, IsLinked-prop, is_live_at};

use crate::operation::OpId;
use linked_lists::links::{Link, NONE, is_live, link_in, link_out, next_of, prev_of, unless_none};
use std::alloc::{AllocError, Global};

/// The numbers from 0 on, as many as there are, each once: the live ids, linked in text order, and those that are free,
/// linked as well.
#[derive(Drop)]
pub struct Order {
    links: Vec<Link>,
    live: usize,
    first: u32,
    last: u32,
    free: u32,
    ghost few: { length links.items < 2 ^ 32 },
    ghost within: { live ≤ length links.items },
    ghost linked: { IsLinked links.items none (walk links.items live first) none } by { IsLinked-prop links.items none (walk links.items live first) none },
    ghost end: { last ≡ last_of none (walk links.items live first) },
    ghost once: { (v : ℕ) → times v (walk links.items live first ++ walk links.items (length links.items - live) free) ≤ 1 },
    ghost below: { (v : ℕ) → length links.items ≤ v → times v (walk links.items live first ++ walk links.items (length links.items - live) free) ≡ 0 },
    ghost marks: { (v : ℕ) → times v (walk links.items live first) ≡ 0 → is_live_at links.items v ≡ false },
}

impl Order {
    ghost use Rattle.std.specs.Prelude.{◌≡◌, suc, ◌+◌, ◌<◌, ◌≤◌, ◌^◌, [], ◌↔◌, max, length, map, take, drop, insert, remove, Contains, Some, IfSome, IfOk, IsOk, IsTrue, OnOk};
    ghost use Rattle.std.specs.Vec.{vec_capacity};
    ghost use Rattle.linked_lists.specs.Ids.{times};
    ghost use Rattle.ir_store.specs.BodyOps.{position_before};
    ghost use Rattle.linked_lists.specs.Links.{none, next_at, first_of, last_of};
    ghost use Rattle.ir_store.specs.Bodies.{op_id, first_id};
    ghost use Rattle.ir_store.specs.Numbered.{position_of};
    ghost use Rattle.ir_store.specs.Orders.{live_ids, free_ids};

    /// No ids. It takes no memory.
    pub fn new(alloc: Global) -> Order
        ensures live { live_ids result ≡ [] }
        ensures count { length result.links.items ≡ 0 }
    {
        Order {
            links: Vec::new(alloc),
            live: 0,
            first: NONE,
            last: NONE,
            free: NONE,
        }
    }

    /// Equal ids with memory of their own.
    pub fn try_clone(&self, alloc: Global) -> Result<Order, AllocError>
        ensures count { IfOk result (λ copy. length copy.links.items ≡ length self.now.links.items) }
        ensures live { IfOk result (λ copy. live_ids copy ≡ live_ids self.now) }
    {
        Ok(Order {
            links: Vec::from_slice(alloc, self.links.as_slice())?,
            live: self.live,
            first: self.first,
            last: self.last,
            free: self.free,
        })
    }

    /// The links, by ids.
    pub fn links(&self) -> &[Link]
        ensures { result.now ≡ self.now.links.items }
    {
        self.links.as_slice()
    }

    /// The first of the live ids, where there is one.
    pub fn first(&self) -> u32
        ensures { result ≡ self.now.first }
    {
        self.first
    }

    /// How many ids are live.
    pub fn count(&self) -> usize
        ensures { result ≡ self.now.live }
    {
        self.live
    }

    /// How many ids are free.
    #[inline]
    pub fn free(&self) -> usize
        ensures { result ≡ free_ids self.now }
    {
        self.links.len() - self.live
    }

    /// How many ids have room.
    pub fn capacity(&self) -> usize
        ensures { result ≡ vec_capacity self.now.links }
    {
        self.links.capacity()
    }

    /// Whether an id is live, in constant time.
    pub fn contains(&self, id: u32) -> bool
        ensures { IsTrue result ↔ Contains (live_ids self.now) id }
    {
        is_live(self.links.as_slice(), id)
    }

    /// The id after a live one, where there is one, in constant time.
    pub fn after(&self, id: OpId) -> Option<OpId>
        requires { Contains (live_ids self.now) id.index }
        ensures { result ≡ first_id (map op_id (drop (suc (position_of (live_ids self.now) id.index)) (live_ids self.now))) }
    {
        let next = next_of(self.links.as_slice(), id.index);
        if next == NONE {
            None
        } else {
            Some(OpId { index: next })
        }
    }

    /// Makes room for so many more live ids.
    #[inline(always)]
    pub fn reserve(&mut self, more: usize) -> Result<(), AllocError>
        ensures count { length self.new.links.items ≡ length self.old.links.items }
        ensures ids { live_ids self.new ≡ live_ids self.old }
        ensures live { self.new.live ≡ self.old.live }
        ensures ok { OnOk result (self.old.live + more ≤ vec_capacity self.new.links) }
        ensures capacity { vec_capacity self.old.links ≤ vec_capacity self.new.links }
        ensures succeeds { self.old.live + more ≤ vec_capacity self.old.links → IsOk result }
    {
        let wanted = more.saturating_sub(self.free());
        self.links.reserve(wanted)
    }

    /// Takes a free id, or else a new one, and puts it in before another, or at the end, in constant time.
    pub fn add(&mut self, before: Option<OpId>) -> u32
        requires there { IfSome before (λ b. Contains (live_ids self.old) b.index) }
        requires small { self.old.live + 1 < 2 ^ 32 }
        requires room { self.old.live < vec_capacity self.old.links }
        ensures ids { live_ids self.new ≡ insert (live_ids self.old) (position_before before (live_ids self.old)) result }
        ensures live { self.new.live ≡ self.old.live + 1 }
        ensures fresh { times result (live_ids self.old) ≡ 0 }
        ensures next { free_ids self.old ≡ 0 → result ≡ self.old.live }
        ensures within { result ≤ length self.old.links.items }
        ensures count { length self.new.links.items ≡ max (length self.old.links.items) (result + 1) }
        ensures known { 0 < free_ids self.old → result < length self.old.links.items }
        ensures capacity { vec_capacity self.old.links ≤ vec_capacity self.new.links }
    {
        let (prev, next) = self.neighbours(before);
        let (id, free) = self.next_id();
        link_in(&mut self.links, id, prev, next);
        self.first = unless_none(prev, self.first, id);
        self.last = unless_none(next, self.last, id);
        self.free = free;
        self.live += 1;
        id
    }

    /// Frees a live id, in constant time.
    pub fn remove(&mut self, id: OpId)
        requires { Contains (live_ids self.old) id.index }
        ensures ids { live_ids self.new ≡ remove (live_ids self.old) (position_before (Some id) (live_ids self.old)) }
        ensures live { self.new.live + 1 ≡ self.old.live }
        ensures count { length self.new.links.items ≡ length self.old.links.items }
        ensures capacity { vec_capacity self.new.links ≡ vec_capacity self.old.links }
    {
        let id = id.index;
        let prev = prev_of(self.links.as_slice(), id);
        let next = next_of(self.links.as_slice(), id);
        link_out(&mut self.links, id, prev, next, self.free);
        self.first = unless_none(prev, self.first, next);
        self.last = unless_none(next, self.last, prev);
        self.free = id;
        self.live -= 1;
    }

    /// Between which ids one goes that is put in before another, or at the end.
    fn neighbours(&self, before: Option<OpId>) -> (u32, u32)
        requires { IfSome before (λ b. Contains (live_ids self.now) b.index) }
        ensures prev { result.0 ≡ last_of none (take (position_before before (live_ids self.now)) (live_ids self.now)) }
        ensures next { result.1 ≡ first_of (drop (position_before before (live_ids self.now)) (live_ids self.now)) none }
    {
        match before {
            None => (self.last, NONE),
            Some(other) => (prev_of(self.links.as_slice(), other.index), other.index),
        }
    }

    /// The id that is taken next, and the first of those that are free then.
    fn next_id(&self) -> (u32, u32)
        requires { self.now.live + 1 < 2 ^ 32 }
        ensures fresh { free_ids self.now ≡ 0 → result.0 ≡ self.now.live }
        ensures known { 0 < free_ids self.now → (result.0 ≡ self.now.free) × (result.1 ≡ next_at self.now.links.items self.now.free) }
    {
        if self.live < self.links.len() {
            (self.free, next_of(self.links.as_slice(), self.free))
        } else {
            (self.live as u32, NONE)
        }
    }
}
