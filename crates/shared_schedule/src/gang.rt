//! Workers in threads, and the whole run.

ghost use Rattle.std.specs.Prelude.{◌≡◌, ℕ, ◌+◌, ◌-◌, ◌<◌, ◌≤◌, ◌++◌, true, [], Some, length, map, slice_get, IfOk, OnOk};
ghost use Rattle.std.specs.Thread.{IsSync};
ghost use Rattle.sched_core.specs.Runs.{AreCallees};
ghost use Rattle.shared_schedule.specs.Views.{callees_in};
ghost use Rattle.shared_schedule.specs.Seats.{IsIdle, IsFinished};
ghost use Rattle.shared_schedule.specs.Working.{IsReady, IsDone};
ghost use Rattle.shared_schedule.specs.Visits.{HasVisited, VisitsEach};

use crate::gate::Gate;
use crate::pieces::Pieces;
use crate::shared::Shared;
use crate::slot::Slot;
use crate::view::View;
use crate::work::Work;
use crate::worker::worker;
use atomic_table::Seat;
use std::alloc::{AllocError, Global};
use std::thread::{Threads, join};

// the first worker, and so many in all; each has room for all modules before it starts
fn gang<R: Threads + Sync, P: Pieces + Sync, W: Work<P> + Sync, G: Gate + Send + Drop>(
    rt: &R,
    alloc: Global,
    shared: &Shared<P>,
    mut seat: Seat<Slot<P::Body>, View<P>>,
    work: &W,
    mut gate: G,
    workers: u32,
) -> Result<(Seat<Slot<P::Body>, View<P>>, G), AllocError>
where
    P::Body: Send + Drop,
    requires ready { IsReady shared.now.table.shared.table_id shared.now.plan seat }
    requires first { seat.id ≡ 0 }
    requires some { 1 ≤ workers }
    requires few { seat.me.0.splits + workers ≤ 64 }
    requires lists { P.lists shared.now.plan.pieces (callees_in shared.now.plan) }
    ensures done { IfOk result (λ r. IsDone shared.now.table.shared.table_id shared.now.plan seat r.0 (workers - 1)) }
    ensures visited { IfOk result (λ r. HasVisited (length (callees_in shared.now.plan)) seat.me.0 r.0.me.0 (G.told gate) (G.told r.1)) }
{
    let queue = Vec::with_capacity(alloc, shared.plan.callees.len())?;
    if workers == 1 {
        return worker(shared, alloc, seat, work, gate, queue);
    }
    let other = shared.split(&mut seat);
    let another = gate.another();
    let (mine, theirs) = join(
        rt,
        move || -> Result<(Seat<Slot<P::Body>, View<P>>, G), AllocError>
            requires { IsSync R.row × IsReady shared.now.table.shared.table_id shared.now.plan seat × (seat.id ≡ 0) × (1 ≤ workers - 1) × (seat.me.0.splits + (workers - 1) ≤ 64) × P.lists shared.now.plan.pieces (callees_in shared.now.plan) }
            ensures done { IfOk result (λ r. IsDone shared.entry.now.table.shared.table_id shared.entry.now.plan seat r.0 (workers - 2)) }
            ensures visited { IfOk result (λ r. HasVisited (length (callees_in shared.entry.now.plan)) seat.me.0 r.0.me.0 (G.told gate) (G.told r.1)) }
        { gang(rt, alloc, shared, seat, work, gate, workers - 1) },
        move || -> Result<(Seat<Slot<P::Body>, View<P>>, G), AllocError>
            requires { IsReady shared.now.table.shared.table_id shared.now.plan other × (queue.items ≡ []) × P.lists shared.now.plan.pieces (callees_in shared.now.plan) }
            ensures done { IfOk result (λ r. IsDone shared.entry.now.table.shared.table_id shared.entry.now.plan other r.0 0) }
            ensures visited { IfOk result (λ r. HasVisited (length (callees_in shared.entry.now.plan)) other.me.0 r.0.me.0 (G.told another) (G.told r.1)) }
        { worker(shared, alloc, other, work, another, queue) },
    );
    let (mine, mut gate) = mine?;
    let (theirs, others) = theirs?;
    gate.gather(others);
    Ok((gather(shared, mine, theirs), gate))
}

// the first worker, and another that it gathers
fn gather<P: Pieces>(
    shared: &Shared<P>,
    mut seat: Seat<Slot<P::Body>, View<P>>,
    other: Seat<Slot<P::Body>, View<P>>,
) -> Seat<Slot<P::Body>, View<P>>
    requires idle { IsIdle shared.now.table.shared.table_id shared.now.plan seat }
    requires passed { seat.me.0.passed ≡ true }
    requires finished { IsFinished (callees_in shared.now.plan) seat.me.0 }
    requires other { IsIdle shared.now.table.shared.table_id shared.now.plan other }
    requires other_finished { IsFinished (callees_in shared.now.plan) other.me.0 }
    ensures idle { IsIdle shared.now.table.shared.table_id shared.now.plan result }
    ensures id { result.id ≡ seat.id }
    ensures passed { result.me.0.passed ≡ true }
    ensures finished { IsFinished (callees_in shared.now.plan) result.me.0 }
    ensures splits { result.me.0.splits ≡ seat.me.0.splits }
    ensures shares { result.me.0.shares ≡ seat.me.0.shares + other.me.0.shares }
    ensures moves { result.me.0.moves ≡ seat.me.0.moves ++ other.me.0.moves }
{
    shared.join(&mut seat, other);
    seat
}

/// Works each module once, after its callees, with so many workers, each but the first in a thread of its own: with one
/// worker no thread is started. The gate is told of each module once, just before it is worked, by a handle of its worker.
/// The result has each module's finished body. The only error comes when out of memory.
pub fn run_modules<
    R: Threads + Sync,
    P: Pieces + Sync + Drop,
    W: Work<P> + Sync,
    G: Gate + Send + Drop,
>(
    rt: &R,
    alloc: Global,
    pieces: P,
    callees: Vec<Vec<u32>>,
    bodies: Vec<P::Body>,
    workers: u32,
    work: &W,
    gate: &mut G,
) -> Result<Vec<P::Body>, AllocError>
where
    P::Body: Send + Drop,
    requires callees { AreCallees (map (λ row. row.items) callees.items) }
    requires bodies { length bodies.items ≡ length callees.items }
    requires first { (m : ℕ) (b : P.Body) → slice_get bodies.items m ≡ Some b → P.first pieces m b }
    requires lists { P.lists pieces (map (λ row. row.items) callees.items) }
    requires workers { (1 ≤ workers) × (workers ≤ 64) }
    ensures len { IfOk result (λ v. length v.items ≡ length callees.items) }
    ensures finished { IfOk result (λ v. (m : ℕ) (b : P.Body) → slice_get v.items m ≡ Some b → P.finished pieces m b) }
    ensures visits { OnOk result (VisitsEach (length callees.items) (G.told gate.old) (G.told gate.new)) }
{
    let (shared, seat) = Shared::new(alloc, pieces, callees, bodies)?;
    let own = gate.another();
    match gang(rt, alloc, &shared, seat, work, own, workers) {
        Ok((seat, own)) => {
            gate.gather(own);
            shared.into_bodies(alloc, seat)
        }
        Err(fail) => {
            shared.discard();
            Err(fail)
        }
    }
}
