//! The table that workers share, and their calls.

ghost use Rattle.std.specs.Prelude.{◌≡◌, ℕ, ◌+◌, ◌^◌, ◌<◌, ◌≤◌, true, false, [], ◌∷◌, length, map, drop, slice_get, slice_index, slice_index_or, Some, None};
ghost use Rattle.sched_core.specs.State.{leaves, callees_of};
ghost use Rattle.sched_core.specs.Runs.{AreCallees};
ghost use Rattle.shared_schedule.specs.Views.{callees_in};
ghost use Rattle.shared_schedule.specs.Rule.{slots_of, edge_slot};
ghost use Rattle.shared_schedule.specs.Working.{AreCallersOf};

use crate::pieces::Pieces;
use crate::plan::Plan;
use crate::plays::{
    Cut, Draw, Gather, GiveBegun, GiveEdge, GiveOver, LendBare, LendBody, LendCopy, Look, Tell,
};
use crate::rule::Kept;
use crate::slot::Slot;
use crate::view::View;
use atomic_table::{Seat, Table};
use std::alloc::Global;

/// The schedule of a plan, which workers share. Each worker steps with a seat of its own. Between any two steps of any
/// workers the table shows a sound state of the schedule.
pub struct Shared<P: Pieces> {
    pub table: Table<Slot<P::Body>, View<P>, Plan<P>, Kept<P>, Global>,
    pub plan: Plan<P>,
    pub(crate) leaf_modules: Vec<u32>,
    pub(crate) first_slots: Vec<usize>,
    pub(crate) callers: Vec<Vec<(u32, u32)>>,
    pub ghost key: { table.shared.key ≡ plan },
    pub ghost words: { table.shared.table_id.words ≡ length (callees_in plan) + 1 },
    pub ghost slots: { table.shared.table_id.slots ≡ slots_of (callees_in plan) },
    pub ghost lists: { AreCallees (callees_in plan) },
    pub ghost few: { slots_of (callees_in plan) < 2 ^ 64 },
    pub ghost leaves_are: { leaf_modules.items ≡ leaves (callees_in plan) },
    pub ghost positions: { length first_slots.items ≡ length (callees_in plan) + 1 },
    pub ghost firsts: { (c : ℕ) → c ≤ length (callees_in plan) → slice_index first_slots.items c ≡ edge_slot (callees_in plan) c 0 },
    pub ghost rows: { length callers.items ≡ length (callees_in plan) },
    pub ghost callers_are: { (m : ℕ) → m < length (callees_in plan) → AreCallersOf (callees_in plan) m (slice_index_or (map (λ row. row.items) callers.items) m []) },
}

impl<P: Pieces> Shared<P> {
    ghost use Rattle.std.specs.Prelude.{Option, IfSome};
    ghost use Rattle.sched_core.specs.State.{IsEdge, callee};
    ghost use Rattle.shared_schedule.specs.declared.view.Hold.TheVariants.{Due, Begun, Over};
    ghost use Rattle.shared_schedule.specs.Views.{last_move, has_edge, new_view, both_views};
    ghost use Rattle.shared_schedule.specs.Plays.{drawn, moved, cleared, reported, lent_edge, split_view};
    ghost use Rattle.shared_schedule.specs.Seats.{IsIdle, HasCopy, IsFinished, Agrees};

    // the leaf of this number
    fn leaf_at(&self, number: u64) -> Option<u32>
        ensures { result ≡ slice_get (leaves (callees_in self.now.plan)) number }
    {
        self.leaf_modules.get(number as usize).copied()
    }

    /// Draws the next leaf module, which the worker then owes; none where there is none left.
    pub fn claim_leaf(&self, seat: &mut Seat<Slot<P::Body>, View<P>>) -> Option<u32>
        requires idle { IsIdle self.now.table.shared.table_id self.now.plan seat.old }
        requires more { seat.old.me.0.passed ≡ false }
        ensures idle { IsIdle self.now.table.shared.table_id self.now.plan seat.new }
        ensures id { seat.new.id ≡ seat.old.id }
        ensures drawn { seat.new.me.0 ≡ drawn seat.old.me.0 result }
        ensures new { IfSome result (λ m. last_move seat.old.me.0.moves m ≡ None) }
        ensures within { IfSome result (λ m. m < length (callees_in self.now.plan)) }
    {
        let number = self.table.shared.fetch_add::<Draw<P>>(seat, 0, 1);
        self.leaf_at(number)
    }

    /// Takes the body of a module that the worker owes.
    pub fn take_body(&self, seat: &mut Seat<Slot<P::Body>, View<P>>, m: u32) -> P::Body
        requires idle { IsIdle self.now.table.shared.table_id self.now.plan seat.old }
        requires within { m < length (callees_in self.now.plan) }
        requires due { last_move seat.old.me.0.moves m ≡ Some Due }
        ensures idle { IsIdle self.now.table.shared.table_id self.now.plan seat.new }
        ensures id { seat.new.id ≡ seat.old.id }
        ensures begun { seat.new.me.0 ≡ moved seat.old.me.0 m Begun }
        ensures first { P.first self.now.plan.pieces m result }
    {
        self.table.shared.load::<LendBody<P>>(seat, m as usize + 1);
        let slot = self.table.shared.exchange(seat, m as usize, Slot::Away);
        self.table.shared.load::<GiveBegun<P>>(seat, 0);
        let Slot::Stored(body) = slot else {
            unreachable!()
        };
        body
    }

    /// Puts what stays of the body of a module that the worker has taken, whose edges it has emptied.
    pub fn put_done(&self, seat: &mut Seat<Slot<P::Body>, View<P>>, m: u32, body: P::Body)
        requires idle { IsIdle self.now.table.shared.table_id self.now.plan seat.old }
        requires within { m < length (callees_in self.now.plan) }
        requires begun { last_move seat.old.me.0.moves m ≡ Some Begun }
        requires emptied { (i : ℕ) → IsEdge (callees_in self.now.plan) m i → has_edge seat.old.me.0.emptied m i ≡ true }
        requires finished { P.finished self.now.plan.pieces m body }
        ensures idle { IsIdle self.now.table.shared.table_id self.now.plan seat.new }
        ensures id { seat.new.id ≡ seat.old.id }
        ensures over { seat.new.me.0 ≡ moved seat.old.me.0 m Over }
    {
        self.table.shared.load::<LendBody<P>>(seat, m as usize + 1);
        let slot = self
            .table
            .shared
            .exchange(seat, m as usize, Slot::Made(body));
        self.table.shared.load::<GiveOver<P>>(seat, 0);
        let Slot::Away = slot else { unreachable!() };
    }

    /// Changes nothing, and tells what the lists of the worker's view say of each other.
    pub fn look(&self, seat: &mut Seat<Slot<P::Body>, View<P>>)
        requires idle { IsIdle self.now.table.shared.table_id self.now.plan seat.old }
        ensures idle { IsIdle self.now.table.shared.table_id self.now.plan seat.new }
        ensures id { seat.new.id ≡ seat.old.id }
        ensures same { seat.new.me.0 ≡ seat.old.me.0 }
        ensures agrees { Agrees (callees_in self.now.plan) seat.new.me.0 }
    {
        self.table.shared.load::<Look<P>>(seat, 0);
    }

    // the number of the slot of an edge
    fn slot_of(&self, c: u32, i: u32) -> usize
        requires { IsEdge (callees_in self.now.plan) c i }
        ensures { result ≡ edge_slot (callees_in self.now.plan) c i }
    {
        self.first_slots[c as usize] + i as usize
    }

    /// Takes what stands on an edge of a module that the worker has taken.
    pub fn take_edge(
        &self,
        seat: &mut Seat<Slot<P::Body>, View<P>>,
        c: u32,
        i: u32,
    ) -> Option<P::Body>
        requires idle { IsIdle self.now.table.shared.table_id self.now.plan seat.old }
        requires edge { IsEdge (callees_in self.now.plan) c i }
        requires begun { last_move seat.old.me.0.moves c ≡ Some Begun }
        requires full { has_edge seat.old.me.0.emptied c i ≡ false }
        ensures idle { IsIdle self.now.table.shared.table_id self.now.plan seat.new }
        ensures id { seat.new.id ≡ seat.old.id }
        ensures cleared { seat.new.me.0 ≡ cleared seat.old.me.0 c i }
        ensures copied { P.copied self.now.plan.pieces (callee (callees_in self.now.plan) c i) result }
    {
        let at = self.slot_of(c, i);
        self.table
            .shared
            .compare_exchange::<LendCopy<P>>(seat, c as usize + 1, i as u64, i as u64);
        let slot = self.table.shared.exchange(seat, at, Slot::Cleared);
        self.table.shared.load::<GiveEdge<P>>(seat, 0);
        let Slot::Copied(copy) = slot else {
            unreachable!()
        };
        copy
    }

    /// Puts a copy of the body that was made for a module that the worker did, or none, on a caller's edge, whose slot then is
    /// out with the worker until it reports the edge.
    pub fn put_edge(
        &self,
        seat: &mut Seat<Slot<P::Body>, View<P>>,
        c: u32,
        i: u32,
        copy: Option<P::Body>,
    )
        requires idle { IsIdle self.now.table.shared.table_id self.now.plan seat.old }
        requires edge { IsEdge (callees_in self.now.plan) c i }
        requires over { last_move seat.old.me.0.moves (callee (callees_in self.now.plan) c i) ≡ Some Over }
        requires bare { has_edge seat.old.me.0.told c i ≡ false }
        ensures copy { HasCopy self.now.table.shared.table_id self.now.plan seat.new c i copy }
        ensures id { seat.new.id ≡ seat.old.id }
        ensures lent { seat.new.me.0 ≡ lent_edge seat.old.me.0 c i }
    {
        let at = self.slot_of(c, i);
        self.table
            .shared
            .compare_exchange::<LendBare<P>>(seat, c as usize + 1, i as u64, i as u64);
        let slot = self.table.shared.exchange(seat, at, Slot::Copied(copy));
        let Slot::Bare = slot else { unreachable!() };
    }

    /// Reports an edge on which the worker has put a copy. Answers whether it was the caller's last one: then the worker
    /// owes the caller.
    pub fn report(&self, seat: &mut Seat<Slot<P::Body>, View<P>>, c: u32, i: u32) -> bool
        requires copy { (copy : Option P.Body) × HasCopy self.now.table.shared.table_id self.now.plan seat.old c i copy × P.copied self.now.plan.pieces (callee (callees_in self.now.plan) c i) copy }
        requires edge { IsEdge (callees_in self.now.plan) c i }
        requires over { last_move seat.old.me.0.moves (callee (callees_in self.now.plan) c i) ≡ Some Over }
        requires bare { has_edge seat.old.me.0.told c i ≡ false }
        ensures idle { IsIdle self.now.table.shared.table_id self.now.plan seat.new }
        ensures id { seat.new.id ≡ seat.old.id }
        ensures reported { seat.new.me.0 ≡ reported seat.old.me.0 c i result }
    {
        self.table
            .shared
            .fetch_sub::<Tell<P>>(seat, c as usize + 1, 1)
            == 1
    }

    /// A seat for another worker, from the first worker's.
    pub fn split(&self, seat: &mut Seat<Slot<P::Body>, View<P>>) -> Seat<Slot<P::Body>, View<P>>
        requires idle { IsIdle self.now.table.shared.table_id self.now.plan seat.old }
        requires first { seat.old.id ≡ 0 }
        requires few { seat.old.me.0.splits < 63 }
        ensures idle { IsIdle self.now.table.shared.table_id self.now.plan seat.new }
        ensures id { seat.new.id ≡ seat.old.id }
        ensures split { seat.new.me.0 ≡ split_view seat.old.me.0 }
        ensures other { IsIdle self.now.table.shared.table_id self.now.plan result }
        ensures new { result.me.0 ≡ new_view (Some self.now.plan) }
    {
        self.table.shared.split_seat::<Cut>(seat)
    }

    /// Joins the seat of a finished worker into another's.
    pub fn join(&self, seat: &mut Seat<Slot<P::Body>, View<P>>, other: Seat<Slot<P::Body>, View<P>>)
        requires idle { IsIdle self.now.table.shared.table_id self.now.plan seat.old }
        requires other { IsIdle self.now.table.shared.table_id self.now.plan other }
        requires finished { IsFinished (callees_in self.now.plan) other.me.0 }
        ensures idle { IsIdle self.now.table.shared.table_id self.now.plan seat.new }
        ensures id { seat.new.id ≡ seat.old.id }
        ensures both { seat.new.me.0 ≡ both_views seat.old.me.0 other.me.0 }
    {
        self.table.shared.join_seat::<Gather>(seat, other);
    }

    /// How many callees the module has.
    pub(crate) fn edge_count(&self, m: u32) -> usize
        requires { m < length (callees_in self.now.plan) }
        ensures { result ≡ length (callees_of (callees_in self.now.plan) m) }
    {
        self.plan.callees[m as usize].len()
    }

    /// How many edges there are from the module.
    pub(crate) fn caller_count(&self, m: u32) -> usize
        requires { m < length (callees_in self.now.plan) }
        ensures { result ≡ length (slice_index_or (map (λ row. row.items) self.now.callers.items) m []) }
    {
        self.callers[m as usize].len()
    }

    /// An edge from the module.
    pub(crate) fn caller(&self, m: u32, k: usize) -> (u32, u32)
        requires within { m < length (callees_in self.now.plan) }
        requires position { k < length (slice_index_or (map (λ row. row.items) self.now.callers.items) m []) }
        ensures { drop k (slice_index_or (map (λ row. row.items) self.now.callers.items) m []) ≡ result ∷ drop (k + 1) (slice_index_or (map (λ row. row.items) self.now.callers.items) m []) }
    {
        self.callers[m as usize][k]
    }

    /// Lets the schedule go, with all that lies in its slots.
    pub(crate) fn discard(self)
    where
        P: Drop,
        P::Body: Drop,
    {
        let Shared {
            table,
            plan,
            leaf_modules,
            first_slots,
            callers,
        } = self;
        drop(table);
        drop(plan);
        drop((leaf_modules, first_slots, callers));
    }
}
