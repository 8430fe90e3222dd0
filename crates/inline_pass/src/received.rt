//! Bodies of private modules that came from elsewhere, put where one body instances these modules.
ghost use Rattle.std.specs.Prelude.{◌≡◌, ℕ, length, IfOk, OnOk};
ghost use Rattle.ir_store.specs.Designs.{modules_of};
ghost use Rattle.hw_model.specs.Design as model;
ghost use Rattle.inline_pass.specs.Received.{held, held_with, AreHeld, received_look};
ghost use Rattle.inline_pass.specs.OneBody.{IsOneBody, IsFlatBody};

use crate::callees::{Callee, Callees};
use crate::inlining::inline_into;
use ir_store::body::Body;
use ir_store::design::Design;
use std::alloc::{AllocError, Global};
use std::collections::HashMap;
use std::sync::Arc;

/// Bodies of modules, by the numbers of these.
#[derive(Drop)]
pub(crate) struct Received<'d> {
    headers: &'d Design,
    bodies: HashMap<u32, Arc<Body>>,
}

impl Callees for Received<'_> {
    ghost look = { λ r. received_look (modules_of r.headers.now) (held r.bodies) };

    fn callee<'c>(&'c self, symbol: &[u8]) -> Option<Callee<'c>> {
        let number = self.headers.find(symbol)?;
        let body = self.bodies.get(&number)?;
        let header = self.headers.module(number);
        if header.private {
            Some(Callee { header, body })
        } else {
            None
        }
    }
}

/// Has each instance of a private module in a body become the body of that module. The modules that it instances have
/// these numbers, and their flat bodies have been received, in the same order; of the design only what is no body counts.
/// On an error, which comes when out of memory, the body is as it then was.
pub fn flatten_received(
    alloc: Global,
    body: &mut Body,
    headers: &Design,
    numbers: &[u32],
    received: &[Option<Arc<Body>>],
) -> Result<(), AllocError>
    requires { (d : model.Design) × (k : ℕ) × IsOneBody d k (modules_of headers.now) numbers.now received.now body.old }
    ensures { OnOk result ((d : model.Design) (k : ℕ) → IsOneBody d k (modules_of headers.now) numbers.now received.now body.old → IsFlatBody d k body.new) }
{
    let bodies = by_number(alloc, numbers, received)?;
    let callees = Received { headers, bodies };
    inline_into(alloc, body, &callees)
}

/// The bodies that were received, by the numbers of their modules.
fn by_number(
    alloc: Global,
    numbers: &[u32],
    received: &[Option<Arc<Body>>],
) -> Result<HashMap<u32, Arc<Body>>, AllocError>
    requires { length received.now ≡ length numbers.now }
    ensures { IfOk result (λ bodies. AreHeld numbers.now received.now (length numbers.now) (held bodies)) }
{
    let mut bodies = HashMap::new(alloc);
    for i in 0..numbers.len() {
        note_body(&mut bodies, numbers[i], &received[i])?;
    }
    Ok(bodies)
}

/// Notes a body under a number, if there is one.
fn note_body(
    bodies: &mut HashMap<u32, Arc<Body>>,
    number: u32,
    received: &Option<Arc<Body>>,
) -> Result<(), AllocError>
    ensures { OnOk result ((q : ℕ) → held bodies.new q ≡ held_with number received.now (held bodies.old) q) }
{
    if let Some(body) = received {
        bodies.insert(number, Arc::try_clone(body)?)?;
    }
    Ok(())
}
