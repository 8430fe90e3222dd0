//! The work of `hw-flatten-modules` on the bodies of a design.
ghost use Rattle.std.specs.Prelude.{◌<◌, length, IfOk};
ghost use Rattle.std.specs.Arc.{arc_value};
ghost use Rattle.sched_core.specs.State.{callees_of};
ghost use Rattle.shared_schedule.specs.Views.{callees_in};
ghost use Rattle.shared_schedule.specs.Copies.{AreReceived};
ghost use Rattle.ir_store.specs.Designs.{design_of, modules_of};
ghost use Rattle.inline_pass.specs.OneBody.{IsOwnBody, IsFlatBody};
ghost use Rattle.pass_manager.specs.Flats.{AreListsOf, IsFlatCopy, IsKeptBody};

use crate::owners::free_body;
use inline_pass::received::flatten_received;
use ir_store::body::Body;
use ir_store::design::Design;
use shared_schedule::{Gate, Pieces, Plan, Work};
use std::alloc::{AllocError, Global};
use std::snapshot::Snapshot;
use std::sync::Arc;

/// The bodies of a design, which are made flat. A flat body has owners: it goes to the callers of its module without a copy. Of a
/// private module nothing else stays, so its flat body lives until the last caller has put it in.
#[derive(Drop)]
pub(crate) struct FlatBodies<'d> {
    /// The modules, with empty bodies.
    pub(crate) headers: &'d Design,
    /// The design before the pass, for clauses alone.
    pub(crate) before: Snapshot<Design>,
}

impl Pieces for FlatBodies<'_> {
    ghost use Rattle.std.specs.Arc.{arc_value};
    ghost use Rattle.ir_store.specs.Designs.{design_of, modules_of};
    ghost use Rattle.inline_pass.specs.OneBody.{IsOwnBody, IsFlatBody};
    ghost use Rattle.pass_manager.specs.Flats.{AreListsOf, IsFlatCopy, IsKeptBody};

    type Body = Arc<Body>;

    ghost lists = { λ pieces callees. AreListsOf (design_of pieces.before.value) (modules_of pieces.headers.now) callees };

    ghost first = { λ pieces m body. IsOwnBody (design_of pieces.before.value) m (arc_value body) };

    ghost made = { λ pieces m body. IsFlatBody (design_of pieces.before.value) m (arc_value body) };

    ghost finished = { λ pieces m body. IsKeptBody (design_of pieces.before.value) m (arc_value body) };

    ghost copied = { λ pieces m copy. IsFlatCopy (design_of pieces.before.value) m copy };
}

/// What a worker does with a module: it puts the flat bodies of private modules where the body instances these.
/// Linear in the body, in the flat bodies that are put in, and in the uses of the results of the instances.
#[derive(Drop)]
pub(crate) struct FlatWork;

impl<'d> Work<FlatBodies<'d>> for FlatWork {
    fn work<G: Gate>(
        &self,
        alloc: Global,
        plan: &Plan<FlatBodies<'d>>,
        m: u32,
        body: Arc<Body>,
        received: Vec<Option<Arc<Body>>>,
        _gate: &G,
    ) -> Result<Arc<Body>, AllocError>
        requires within { m < length (callees_in plan.now) }
        requires lists { AreListsOf (design_of plan.now.pieces.before.value) (modules_of plan.now.pieces.headers.now) (callees_in plan.now) }
        requires first { IsOwnBody (design_of plan.now.pieces.before.value) m (arc_value body) }
        requires received { AreReceived (IsFlatCopy (design_of plan.now.pieces.before.value)) (callees_of (callees_in plan.now) m) received.items }
        ensures { IfOk result (λ b. IsFlatBody (design_of plan.now.pieces.before.value) m (arc_value b)) }
    {
        let mut body = free_body(alloc, body)?;
        let numbers = plan.callees[m as usize].as_slice();
        flatten_received(
            alloc,
            &mut body,
            plan.pieces.headers,
            numbers,
            received.as_slice(),
        )?;
        Ok(Arc::new(alloc, body)?)
    }

    fn copy(
        &self,
        _alloc: Global,
        plan: &Plan<FlatBodies<'d>>,
        m: u32,
        body: &Arc<Body>,
    ) -> Result<Option<Arc<Body>>, AllocError>
        requires lists { AreListsOf (design_of plan.now.pieces.before.value) (modules_of plan.now.pieces.headers.now) (callees_in plan.now) }
        requires made { IsFlatBody (design_of plan.now.pieces.before.value) m (arc_value body.now) }
        ensures { IfOk result (λ copy. IsFlatCopy (design_of plan.now.pieces.before.value) m copy) }
    {
        Ok(Some(Arc::try_clone(body)?))
    }

    fn keep(
        &self,
        alloc: Global,
        plan: &Plan<FlatBodies<'d>>,
        m: u32,
        body: Arc<Body>,
    ) -> Result<Arc<Body>, AllocError>
        requires within { m < length (callees_in plan.now) }
        requires lists { AreListsOf (design_of plan.now.pieces.before.value) (modules_of plan.now.pieces.headers.now) (callees_in plan.now) }
        requires made { IsFlatBody (design_of plan.now.pieces.before.value) m (arc_value body) }
        ensures { IfOk result (λ b. IsKeptBody (design_of plan.now.pieces.before.value) m (arc_value b)) }
    {
        if plan.pieces.headers.module(m).private {
            let empty = Body::new(alloc);
            return Ok(Arc::new(alloc, empty)?);
        }
        Ok(body)
    }
}
