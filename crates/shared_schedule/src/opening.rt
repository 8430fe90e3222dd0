//! Opening a schedule, and closing it.

ghost use Rattle.std.specs.Prelude.{◌≡◌, ℕ, ◌+◌, ◌<◌, ◌≤◌, true, false, [], ◌∷◌, ◌++◌, length, map, Some, IfOk, IsOkAnd, slice_get, slice_index_or};
ghost use mathlib.Core.Option.{some};
ghost use lib.ListN.{get_elem?};
ghost use Rattle.std.specs.Slots.{slots_items, slots_len, slots_filled};
ghost use Rattle.std.specs.Slots.Ownership.{Filled};
ghost use Rattle.sched_core.specs.State.{leaves};
ghost use Rattle.sched_core.specs.Runs.{AreCallees};
ghost use Rattle.shared_schedule.specs.declared.slot.Slot.TheVariants.{Made};
ghost use Rattle.shared_schedule.specs.Views.{callees_in, new_view, done_times};
ghost use Rattle.shared_schedule.specs.Seats.{IsIdle, IsFinished};

use crate::making;
use crate::pieces::Pieces;
use crate::plan::Plan;
use crate::shared::Shared;
use crate::slot::Slot;
use crate::view::View;
use atomic_table::{Closed, Refused, Seat, Table};
use sched_core::leaf_modules;
use std::alloc::{AllocError, Global};

impl<P: Pieces + Drop> Shared<P>
where
    P::Body: Drop,
{
    /// A schedule of modules with these callees and first bodies, and the first worker's seat.
    pub fn new(
        alloc: Global,
        pieces: P,
        callees: Vec<Vec<u32>>,
        bodies: Vec<P::Body>,
    ) -> Result<(Shared<P>, Seat<Slot<P::Body>, View<P>>), AllocError>
        requires callees { AreCallees (map (λ row. row.items) callees.items) }
        requires bodies { length bodies.items ≡ length callees.items }
        requires first { (m : ℕ) (b : P.Body) → slice_get bodies.items m ≡ Some b → P.first pieces m b }
        ensures idle { IfOk result (λ r. IsIdle r.0.table.shared.table_id r.0.plan r.1) }
        ensures seat { IfOk result (λ r. (r.1.id ≡ 0) × (r.1.me.0 ≡ new_view (Some r.0.plan))) }
        ensures plan { IfOk result (λ r. (r.0.plan.pieces ≡ pieces) × (callees_in r.0.plan ≡ map (λ row. row.items) callees.items)) }
    {
        let leaf_modules = leaf_modules(alloc, callees.as_slice())?;
        let first_slots = making::first_slots(alloc, callees.as_slice())?;
        let callers = making::callers(alloc, callees.as_slice())?;
        let words = making::first_words(alloc, callees.as_slice())?;
        let edges = making::edge_count(first_slots.as_slice(), callees.len());
        let stored = making::stored_bodies(alloc, bodies)?;
        let slots = making::with_bare(stored, edges)?;
        let plan = Plan { pieces, callees };
        match Table::new(alloc, words.as_slice(), slots, &plan) {
            Ok((table, seat)) => Ok((
                Shared {
                    table,
                    plan,
                    leaf_modules,
                    first_slots,
                    callers,
                },
                seat,
            )),
            Err(_refused) => Err(AllocError),
        }
    }

    /// The finished bodies, where one worker has gathered all others, has finished and drawn past the leaves. Each module was
    /// then over once, with one of them.
    pub fn into_bodies(
        self,
        alloc: Global,
        seat: Seat<Slot<P::Body>, View<P>>,
    ) -> Result<Vec<P::Body>, AllocError>
        requires idle { IsIdle self.table.shared.table_id self.plan seat }
        requires first { seat.id ≡ 0 }
        requires all { seat.me.0.shares ≡ seat.me.0.splits + 1 }
        requires passed { seat.me.0.passed ≡ true }
        requires finished { IsFinished (callees_in self.plan) seat.me.0 }
        ensures len { IfOk result (λ v. length v.items ≡ length (callees_in self.plan)) }
        ensures once { IfOk result (λ _. (m : ℕ) → m < length (callees_in self.plan) → done_times seat.me.0.moves m ≡ 1) }
        ensures finished { IfOk result (λ v. (m : ℕ) (b : P.Body) → slice_get v.items m ≡ Some b → P.finished self.plan.pieces m b) }
    {
        let modules = self.plan.callees.len();
        let Shared {
            table,
            plan,
            leaf_modules,
            first_slots,
            callers,
        } = self;
        let mut closed = table.close_with(seat);
        let bodies = made_bodies(&mut closed, alloc, modules);
        drop_rest(closed, modules);
        drop((plan, leaf_modules, first_slots, callers));
        bodies
    }
}

// one more finished body
fn push_made<B: Drop>(
    bodies: Result<Vec<B>, AllocError>,
    slot: Slot<B>,
) -> Result<Vec<B>, AllocError>
    requires { (b : B) × (slot ≡ Made b) }
    ensures { IfOk result (λ v. IsOkAnd bodies (λ old. (b : B) × (slot ≡ Made b) × (v.items ≡ old.items ++ b ∷ []))) }
{
    let mut bodies = bodies?;
    let Slot::Made(body) = slot else {
        unreachable!()
    };
    bodies.push(body)?;
    Ok(bodies)
}

// the finished bodies of the first slots
fn made_bodies<B: Drop>(
    closed: &mut Closed<Slot<B>, Global>,
    alloc: Global,
    modules: usize,
) -> Result<Vec<B>, AllocError>
    requires within { modules ≤ slots_len closed.old.slots }
    requires filled { Filled (slots_filled closed.old.slots) 0 (slots_len closed.old.slots) }
    requires made { (m : ℕ) → m < modules → (b : B) × (get_elem? (slots_items closed.old.slots) m ≡ some (Made b)) }
    ensures len { IfOk result (λ v. length v.items ≡ modules) }
    ensures bodies { IfOk result (λ v. (m : ℕ) (b : B) → slice_get v.items m ≡ Some b → (m < modules) × (get_elem? (slots_items closed.old.slots) m ≡ some (Made b))) }
    ensures slots { slots_len closed.new.slots ≡ slots_len closed.old.slots }
    ensures filled { Filled (slots_filled closed.new.slots) modules (slots_len closed.new.slots) }
    ensures empty { (k : ℕ) → k < modules → slice_index_or (slots_filled closed.new.slots) k false ≡ false }
{
    let mut bodies = Ok(Vec::new(alloc));
    for m in 0..modules {
        bodies = push_made(bodies, closed.take(m));
    }
    bodies
}

// drops what the other slots hold
fn drop_rest<B: Drop>(mut closed: Closed<Slot<B>, Global>, modules: usize)
    requires within { modules ≤ slots_len closed.slots }
    requires filled { Filled (slots_filled closed.slots) modules (slots_len closed.slots) }
    requires empty { (k : ℕ) → k < modules → slice_index_or (slots_filled closed.slots) k false ≡ false }
{
    for k in modules..closed.slot_count() {
        drop(closed.take(k));
    }
    closed.free();
}
