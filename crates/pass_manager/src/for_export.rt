//! What becomes of a design before it is written as Verilog.
ghost use Rattle.std.specs.Prelude.{◌≡◌, ℕ, length, slice_get, Some, IfOk, OnOk};
ghost use Rattle.ir_store.specs.declared.body.Body.{Body};
ghost use Rattle.ir_store.specs.Designs.{design_of};
ghost use Rattle.acceptance_laws.specs.Keeps.{IsFit};
ghost use Rattle.cse_pass.specs.UnusedAggregates.{IsWithoutUnusedAggregates};
ghost use Rattle.pass_manager.specs.Results.{AreModulesBy, IsForExport};
ghost use Rattle.pass_manager.specs.Works.{IsFirst, IsMade};

use crate::bodies::{put_bodies, take_bodies};
use aggregate_lower::lowering::lower_aggregates;
use cse_pass::unused_aggregates::trim_aggregates;
use ir_store::body::Body;
use ir_store::design::Design;
use op_verifier::Verified;
use std::alloc::{AllocError, Global};

/// The design of which nothing is refused, with its aggregates lowered to their leaves (CIRCT, HW dialect: `hw-lower-aggregates`), where
/// somebody uses them: of the others no text has anything. The error comes only when out of memory, and the design is dropped then.
pub fn lowered_for_export(alloc: Global, design: Verified) -> Result<Verified, AllocError>
    ensures { IfOk result (λ done. IsForExport (design_of design.design) (design_of done.design)) }
{
    let mut made = design.into_design();
    trim_design(alloc, &mut made)?;
    lower_aggregates(alloc, &mut made)?;
    Ok(Verified::new(made))
}

// Has operations go that make aggregates for nobody. On an error the design may be thrown away.
fn trim_design(alloc: Global, design: &mut Design) -> Result<(), AllocError>
    requires { IsFit (design_of design.old) }
    ensures { OnOk result (AreModulesBy IsWithoutUnusedAggregates (design_of design.old) (design_of design.new)) }
{
    let bodies = take_bodies(alloc, design)?;
    let trimmed = trimmed_bodies(alloc, bodies)?;
    put_bodies(design, trimmed);
    Ok(())
}

// Bodies without operations that make aggregates for nobody.
fn trimmed_bodies(alloc: Global, bodies: Vec<Body>) -> Result<Vec<Body>, AllocError>
    requires { (i : ℕ) (b : Body) → slice_get bodies.items i ≡ Some b → IsFirst bodies.items i b }
    ensures count { IfOk result (λ trimmed. length trimmed.items ≡ length bodies.items) }
    ensures made { IfOk result (λ trimmed. (i : ℕ) (b : Body) → slice_get trimmed.items i ≡ Some b → IsMade IsWithoutUnusedAggregates bodies.items i b) }
{
    let mut trimmed = Vec::with_capacity(alloc, bodies.len())?;
    for body in bodies {
        let mut left = body;
        trim_aggregates(alloc, &mut left)?;
        trimmed.push(left)?;
    }
    Ok(trimmed)
}
