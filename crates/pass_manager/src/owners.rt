//! Bodies with owners in several threads.
ghost use Rattle.std.specs.Prelude.{◌≡◌, map, IfOk};
ghost use Rattle.std.specs.Arc.{arc_value};
ghost use Rattle.ir_store.specs.Bodies.{ops_of};
ghost use Rattle.inline_pass.specs.Received.{ops_in};

use ir_store::body::Body;
use std::alloc::{AllocError, Global};
use std::sync::Arc;

/// Gives each body an owner.
pub(crate) fn owned_bodies(alloc: Global, bodies: Vec<Body>) -> Result<Vec<Arc<Body>>, AllocError>
    ensures { IfOk result (λ owned. map arc_value owned.items ≡ bodies.items) }
{
    let mut owned = Vec::new(alloc);
    for body in bodies {
        owned.push(Arc::new(alloc, body)?)?;
    }
    Ok(owned)
}

/// The bodies without owners, each the same or an equal one.
pub(crate) fn free_bodies(alloc: Global, owned: Vec<Arc<Body>>) -> Result<Vec<Body>, AllocError>
    ensures { IfOk result (λ bodies. map ops_of bodies.items ≡ map ops_in owned.items) }
{
    let mut bodies = Vec::new(alloc);
    for body in owned {
        bodies.push(free_body(alloc, body)?)?;
    }
    Ok(bodies)
}

/// The body of its only owner, or an equal one where there are others.
pub(crate) fn free_body(alloc: Global, owned: Arc<Body>) -> Result<Body, AllocError>
    ensures { IfOk result (λ body. ops_of body ≡ ops_in owned) }
{
    match Arc::try_unwrap(owned) {
        Ok(body) => Ok(body),
        Err(shared) => (*shared).try_clone(alloc),
    }
}
