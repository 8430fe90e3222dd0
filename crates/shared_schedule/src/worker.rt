//! A worker's loop.

ghost use Rattle.std.specs.Prelude.{◌≡◌, ℕ, ◌+◌, ◌<◌, false, cond, [], ◌∷◌, ◌++◌, List, Some, length, map, slice_index_or, IfOk, OnOk};
ghost use Rattle.sched_core.specs.State.{IsEdge, callees_of};
ghost use Rattle.shared_schedule.specs.declared.view.Hold.TheVariants.{Begun};
ghost use Rattle.shared_schedule.specs.Views.{callees_in, last_move, done_times, has_edge};
ghost use Rattle.shared_schedule.specs.Seats.{IsIdle};
ghost use Rattle.shared_schedule.specs.Copies.{AreReceived, AreCopies};
ghost use Rattle.shared_schedule.specs.Working.{IsBetween, IsTelling, GoesOn, IsEmptied, IsReady, IsDone, open_modules};
ghost use Rattle.shared_schedule.specs.Visits.{HasVisited};

use crate::gate::Gate;
use crate::pieces::Pieces;
use crate::shared::Shared;
use crate::slot::Slot;
use crate::view::View;
use crate::work::Work;
use atomic_table::Seat;
use sched_core::push_if;
use std::alloc::{AllocError, Global};

// takes what stands on the edges of a module that the worker has taken
fn take_edges<P: Pieces>(
    shared: &Shared<P>,
    alloc: Global,
    seat: &mut Seat<Slot<P::Body>, View<P>>,
    m: u32,
) -> Result<Vec<Option<P::Body>>, AllocError>
where
    P::Body: Drop,
    requires idle { IsIdle shared.now.table.shared.table_id shared.now.plan seat.old }
    requires within { m < length (callees_in shared.now.plan) }
    requires begun { last_move seat.old.me.0.moves m ≡ Some Begun }
    requires full { (i : ℕ) → IsEdge (callees_in shared.now.plan) m i → has_edge seat.old.me.0.emptied m i ≡ false }
    ensures idle { OnOk result (IsIdle shared.now.table.shared.table_id shared.now.plan seat.new) }
    ensures id { OnOk result (seat.new.id ≡ seat.old.id) }
    ensures emptied { OnOk result (IsEmptied (callees_in shared.now.plan) m seat.old.me.0 seat.new.me.0) }
    ensures received { IfOk result (λ v. AreReceived (P.copied shared.now.plan.pieces) (callees_of (callees_in shared.now.plan) m) v.items) }
{
    let mut received = Vec::new(alloc);
    for i in 0..shared.edge_count(m) {
        let at = i as u32;
        received.push(shared.take_edge(seat, m, at))?;
    }
    Ok(received)
}

// what goes to the callers of a module
fn copies_of<P: Pieces, W: Work<P>>(
    shared: &Shared<P>,
    alloc: Global,
    work: &W,
    m: u32,
    body: &P::Body,
) -> Result<Vec<Option<P::Body>>, AllocError>
where
    P::Body: Drop,
    requires within { m < length (callees_in shared.now.plan) }
    requires lists { P.lists shared.now.plan.pieces (callees_in shared.now.plan) }
    requires made { P.made shared.now.plan.pieces m body.now }
    ensures { IfOk result (λ v. AreCopies (P.copied shared.now.plan.pieces m) (length (slice_index_or (map (λ row. row.items) shared.now.callers.items) m [])) v.items) }
{
    let mut copies = Vec::new(alloc);
    for _caller in 0..shared.caller_count(m) {
        copies.push(work.copy(alloc, &shared.plan, m, body)?)?;
    }
    Ok(copies)
}

// reports an edge whose callee the worker did; the caller goes into the queue where it was the last
fn tell<P: Pieces>(
    shared: &Shared<P>,
    seat: &mut Seat<Slot<P::Body>, View<P>>,
    queue: &mut Vec<u32>,
    m: u32,
    edge: (u32, u32),
    copy: Option<P::Body>,
) -> Result<(), AllocError>
    requires idle { IsIdle shared.now.table.shared.table_id shared.now.plan seat.old }
    requires telling { (rest : List (ℕ × ℕ)) × IsTelling (callees_in shared.now.plan) seat.old.me.0 queue.old.items m (edge ∷ rest) }
    requires copied { P.copied shared.now.plan.pieces m copy }
    ensures idle { OnOk result (IsIdle shared.now.table.shared.table_id shared.now.plan seat.new) }
    ensures id { OnOk result (seat.new.id ≡ seat.old.id) }
    ensures told { OnOk result ((rest : List (ℕ × ℕ)) → IsTelling (callees_in shared.now.plan) seat.old.me.0 queue.old.items m (edge ∷ rest) → IsTelling (callees_in shared.now.plan) seat.new.me.0 queue.new.items m rest) }
    ensures on { OnOk result (GoesOn seat.old.me.0 seat.new.me.0) }
    ensures done { OnOk result ((k : ℕ) → done_times seat.new.me.0.moves k ≡ done_times seat.old.me.0.moves k) }
{
    shared.look(seat);
    let (c, i) = edge;
    shared.put_edge(seat, c, i, copy);
    let last = shared.report(seat, c, i);
    push_if(queue, c, last)
}

// one of the copies
fn next_copy<B>(copies: &mut Vec<Option<B>>) -> Option<B>
    requires { 0 < length copies.old.items }
    ensures { copies.old.items ≡ copies.new.items ++ result ∷ [] }
{
    let Some(copy) = copies.pop() else {
        unreachable!()
    };
    copy
}

// puts a copy on each edge of a module that the worker did, and reports it
fn tell_callers<P: Pieces>(
    shared: &Shared<P>,
    seat: &mut Seat<Slot<P::Body>, View<P>>,
    queue: &mut Vec<u32>,
    m: u32,
    mut copies: Vec<Option<P::Body>>,
) -> Result<(), AllocError>
where
    P::Body: Drop,
    requires idle { IsIdle shared.now.table.shared.table_id shared.now.plan seat.old }
    requires within { m < length (callees_in shared.now.plan) }
    requires telling { IsTelling (callees_in shared.now.plan) seat.old.me.0 queue.old.items m (slice_index_or (map (λ row. row.items) shared.now.callers.items) m []) }
    requires copies { AreCopies (P.copied shared.now.plan.pieces m) (length (slice_index_or (map (λ row. row.items) shared.now.callers.items) m [])) copies.items }
    ensures idle { OnOk result (IsIdle shared.now.table.shared.table_id shared.now.plan seat.new) }
    ensures id { OnOk result (seat.new.id ≡ seat.old.id) }
    ensures between { OnOk result (IsBetween (callees_in shared.now.plan) seat.new.me.0 queue.new.items) }
    ensures on { OnOk result (GoesOn seat.old.me.0 seat.new.me.0) }
    ensures done { OnOk result ((k : ℕ) → done_times seat.new.me.0.moves k ≡ done_times seat.old.me.0.moves k) }
{
    for k in 0..shared.caller_count(m) {
        let edge = shared.caller(m, k);
        let copy = next_copy(&mut copies);
        tell(shared, seat, queue, m, edge, copy)?;
    }
    Ok(())
}

// works one module of the queue, which was taken out of it, once the gate was told of it
fn work_module<P: Pieces, W: Work<P>, G: Gate>(
    shared: &Shared<P>,
    alloc: Global,
    seat: &mut Seat<Slot<P::Body>, View<P>>,
    work: &W,
    gate: &mut G,
    queue: &mut Vec<u32>,
    m: u32,
) -> Result<(), AllocError>
where
    P::Body: Drop,
    requires idle { IsIdle shared.now.table.shared.table_id shared.now.plan seat.old }
    requires between { IsBetween (callees_in shared.now.plan) seat.old.me.0 (queue.old.items ++ m ∷ []) }
    requires lists { P.lists shared.now.plan.pieces (callees_in shared.now.plan) }
    ensures idle { OnOk result (IsIdle shared.now.table.shared.table_id shared.now.plan seat.new) }
    ensures id { OnOk result (seat.new.id ≡ seat.old.id) }
    ensures between { OnOk result (IsBetween (callees_in shared.now.plan) seat.new.me.0 queue.new.items) }
    ensures on { OnOk result (GoesOn seat.old.me.0 seat.new.me.0) }
    ensures less { OnOk result (open_modules (callees_in shared.now.plan) seat.new.me.0 < open_modules (callees_in shared.now.plan) seat.old.me.0) }
    ensures visited { OnOk result (HasVisited (length (callees_in shared.now.plan)) seat.old.me.0 seat.new.me.0 (G.told gate.old) (G.told gate.new)) }
{
    shared.look(seat);
    let body = shared.take_body(seat, m);
    let received = take_edges(shared, alloc, seat, m)?;
    gate.enter(m);
    let body = work.work(alloc, &shared.plan, m, body, received, &*gate)?;
    let copies = copies_of(shared, alloc, work, m, &body)?;
    let body = work.keep(alloc, &shared.plan, m, body)?;
    shared.put_done(seat, m, body);
    tell_callers(shared, seat, queue, m, copies)
}

// works the modules of the queue, and those that come to be owed meanwhile
fn work_queue<P: Pieces, W: Work<P>, G: Gate>(
    shared: &Shared<P>,
    alloc: Global,
    seat: &mut Seat<Slot<P::Body>, View<P>>,
    work: &W,
    gate: &mut G,
    queue: &mut Vec<u32>,
) -> Result<(), AllocError>
where
    P::Body: Drop,
    requires idle { IsIdle shared.now.table.shared.table_id shared.now.plan seat.old }
    requires between { IsBetween (callees_in shared.now.plan) seat.old.me.0 queue.old.items }
    requires lists { P.lists shared.now.plan.pieces (callees_in shared.now.plan) }
    ensures idle { OnOk result (IsIdle shared.now.table.shared.table_id shared.now.plan seat.new) }
    ensures id { OnOk result (seat.new.id ≡ seat.old.id) }
    ensures between { OnOk result (IsBetween (callees_in shared.now.plan) seat.new.me.0 []) }
    ensures queue { OnOk result (queue.new.items ≡ []) }
    ensures on { OnOk result (GoesOn seat.old.me.0 seat.new.me.0) }
    ensures visited { OnOk result (HasVisited (length (callees_in shared.now.plan)) seat.old.me.0 seat.new.me.0 (G.told gate.old) (G.told gate.new)) }
{
    while let Some(m) = queue.pop() {
        work_module(shared, alloc, seat, work, gate, queue, m)?;
    }
    Ok(())
}

/// Draws leaves until there is none left, and works them and all that comes to be owed by it.
pub(crate) fn worker<P: Pieces, W: Work<P>, G: Gate + Drop>(
    shared: &Shared<P>,
    alloc: Global,
    mut seat: Seat<Slot<P::Body>, View<P>>,
    work: &W,
    mut gate: G,
    mut queue: Vec<u32>,
) -> Result<(Seat<Slot<P::Body>, View<P>>, G), AllocError>
where
    P::Body: Drop,
    requires ready { IsReady shared.now.table.shared.table_id shared.now.plan seat }
    requires empty { queue.items ≡ [] }
    requires lists { P.lists shared.now.plan.pieces (callees_in shared.now.plan) }
    ensures done { IfOk result (λ r. IsDone shared.now.table.shared.table_id shared.now.plan seat r.0 0) }
    ensures visited { IfOk result (λ r. HasVisited (length (callees_in shared.now.plan)) seat.me.0 r.0.me.0 (G.told gate) (G.told r.1)) }
{
    while let Some(m) = shared.claim_leaf(&mut seat) {
        queue.push(m)?;
        work_queue(shared, alloc, &mut seat, work, &mut gate, &mut queue)?;
    }
    Ok((seat, gate))
}
