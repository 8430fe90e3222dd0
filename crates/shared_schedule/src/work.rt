//! What a worker does with a module.

ghost use Rattle.std.specs.Prelude.{◌<◌, length, IfOk};
ghost use Rattle.sched_core.specs.State.{callees_of};
ghost use Rattle.shared_schedule.specs.Views.{callees_in};
ghost use Rattle.shared_schedule.specs.Copies.{AreReceived};
ghost use Rattle.shared_schedule.specs.Visits.{HasEntered};

use crate::gate::Gate;
use crate::pieces::Pieces;
use crate::plan::Plan;
use std::alloc::{AllocError, Global};

/// What workers do with each module.
pub trait Work<P: Pieces> {
    /// Makes the body of module `m` from its first one and what came from its callees, in the order of its list.
    /// The gate was told of the module just before. The only error comes when out of memory.
    fn work<G: Gate>(
        &self,
        alloc: Global,
        plan: &Plan<P>,
        m: u32,
        body: P::Body,
        received: Vec<Option<P::Body>>,
        gate: &G,
    ) -> Result<P::Body, AllocError>
        requires within { m < length (callees_in plan.now) }
        requires lists { P.lists plan.now.pieces (callees_in plan.now) }
        requires first { P.first plan.now.pieces m body }
        requires entered { HasEntered (G.told gate.now) m }
        requires received { AreReceived (P.copied plan.now.pieces) (callees_of (callees_in plan.now) m) received.items }
        ensures { IfOk result (λ b. P.made plan.now.pieces m b) };

    /// Makes what goes to a caller of module `m`, whose body is made. The only error comes when out of memory.
    fn copy(
        &self,
        alloc: Global,
        plan: &Plan<P>,
        m: u32,
        body: &P::Body,
    ) -> Result<Option<P::Body>, AllocError>
        requires lists { P.lists plan.now.pieces (callees_in plan.now) }
        requires made { P.made plan.now.pieces m body.now }
        ensures { IfOk result (λ copy. P.copied plan.now.pieces m copy) };

    /// What stays of the body that was made for module `m`, once a copy is made for each of its callers. The only error comes
    /// when out of memory.
    fn keep(
        &self,
        alloc: Global,
        plan: &Plan<P>,
        m: u32,
        body: P::Body,
    ) -> Result<P::Body, AllocError>
        requires within { m < length (callees_in plan.now) }
        requires lists { P.lists plan.now.pieces (callees_in plan.now) }
        requires made { P.made plan.now.pieces m body }
        ensures { IfOk result (λ b. P.finished plan.now.pieces m b) };
}
