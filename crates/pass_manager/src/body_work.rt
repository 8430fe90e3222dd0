//! The work of a pass on the bodies of a design.
ghost use Rattle.std.specs.Prelude.{◌≡◌, None, IfOk};
ghost use Rattle.std.specs.Arc.{arc_value};
ghost use Rattle.pass_manager.specs.Works.{IsFirst, IsMade};

use crate::body_pass::BodyPass;
use crate::owners::free_body;
use ir_store::body::Body;
use shared_schedule::{Gate, Pieces, Plan, Work};
use std::alloc::{AllocError, Global};
use std::marker::PhantomData;
use std::snapshot::Snapshot;
use std::sync::Arc;

/// The bodies of a design, of which a pass makes others. Each lies behind an owner, so that the slots of the schedule, of which there
/// is one for each module and one for each instance, are a few words each.
#[derive(Drop)]
pub(crate) struct Bodies<P> {
    /// The bodies before the pass, for clauses alone.
    pub(crate) before: Snapshot<Vec<Body>>,
    pub(crate) pass: PhantomData<P>,
}

impl<P: BodyPass> Pieces for Bodies<P> {
    ghost use Rattle.std.specs.Prelude.{◌≡◌, None, ⊤};
    ghost use Rattle.std.specs.Arc.{arc_value};
    ghost use Rattle.pass_manager.specs.Works.{IsFirst, IsMade};

    type Body = Arc<Body>;

    ghost lists = { λ _ _. ⊤ };

    ghost first = { λ pieces m body. IsFirst pieces.before.value.items m (arc_value body) };

    ghost made = { λ pieces m body. IsMade P.makes pieces.before.value.items m (arc_value body) };

    ghost finished = { λ pieces m body. IsMade P.makes pieces.before.value.items m (arc_value body) };

    ghost copied = { λ pieces m copy. copy ≡ None };
}

/// What a worker does with a module: it has the pass work on the body.
#[derive(Drop)]
pub(crate) struct BodyWork;

impl<P: BodyPass> Work<Bodies<P>> for BodyWork {
    fn work<G: Gate>(
        &self,
        alloc: Global,
        plan: &Plan<Bodies<P>>,
        m: u32,
        body: Arc<Body>,
        _received: Vec<Option<Arc<Body>>>,
        _gate: &G,
    ) -> Result<Arc<Body>, AllocError>
        requires first { IsFirst plan.now.pieces.before.value.items m (arc_value body) }
        ensures { IfOk result (λ b. IsMade P.makes plan.now.pieces.before.value.items m (arc_value b)) }
    {
        let mut body = free_body(alloc, body)?;
        P::run(alloc, &mut body)?;
        Ok(Arc::new(alloc, body)?)
    }

    fn copy(
        &self,
        _alloc: Global,
        _plan: &Plan<Bodies<P>>,
        _m: u32,
        _body: &Arc<Body>,
    ) -> Result<Option<Arc<Body>>, AllocError>
        ensures { IfOk result (λ copy. copy ≡ None) }
    {
        Ok(None)
    }

    fn keep(
        &self,
        _alloc: Global,
        plan: &Plan<Bodies<P>>,
        m: u32,
        body: Arc<Body>,
    ) -> Result<Arc<Body>, AllocError>
        requires made { IsMade P.makes plan.now.pieces.before.value.items m (arc_value body) }
        ensures { IfOk result (λ b. IsMade P.makes plan.now.pieces.before.value.items m (arc_value b)) }
    {
        Ok(body)
    }
}
