//! The bodies of a design, taken out for a pass and put back.
ghost use Rattle.std.specs.Prelude.{◌≡◌, length, map, IfOk, OnOk};
ghost use Rattle.ir_store.specs.Bodies.{ops_of};
ghost use Rattle.ir_store.specs.Designs.{modules_of};
ghost use Rattle.pass_manager.specs.Works.{with_bodies, without_bodies};

use ir_store::body::Body;
use ir_store::design::Design;
use std::alloc::{AllocError, Global};

/// Takes the bodies of all modules, which have empty ones afterwards.
pub(crate) fn take_bodies(alloc: Global, design: &mut Design) -> Result<Vec<Body>, AllocError>
    ensures bodies { IfOk result (λ bodies. map ops_of bodies.items ≡ map (λ one. one.ops) (modules_of design.old)) }
    ensures modules { OnOk result (modules_of design.new ≡ without_bodies (modules_of design.old)) }
{
    let mut bodies = Vec::with_capacity(alloc, design.module_count() as usize)?;
    for number in 0..design.module_count() {
        bodies.push(design.take_body(number))?;
    }
    Ok(bodies)
}

/// Gives each module a body, in order.
pub(crate) fn put_bodies(design: &mut Design, bodies: Vec<Body>)
    requires { length bodies.items ≡ length (modules_of design.old) }
    ensures { modules_of design.new ≡ with_bodies (map ops_of bodies.items) (modules_of design.old) }
{
    let mut number = 0;
    for body in bodies {
        design.put_body(number, body);
        number += 1;
    }
}
