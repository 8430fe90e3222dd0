//! Generated designs.
ghost use Rattle.std.specs.Prelude.{◌≡◌, ◌≤◌, map, IfOk};
ghost use Rattle.ir_store.specs.Designs.{design_of, numbered_module};
ghost use Rattle.op_verifier.specs.Answered.{modules_verified};
ghost use Rattle.generator.specs.Generated.{generated};

use crate::draws::Draws;
use crate::modules::generated_module;
use ir_store::design::Design;
use op_verifier::{Verified, VerifyFail, verify};
use std::alloc::{AllocError, Global};

/// The design of `n` modules that is generated from a seed, of which nothing is refused. The error comes only when out of
/// memory.
pub fn generate(alloc: Global, seed: u32, n: u32) -> Result<Verified, AllocError>
    requires some { 1 ≤ n }
    requires few { n ≤ 10000 }
    ensures { IfOk result (λ v. map numbered_module (modules_verified v) ≡ generated seed n) }
{
    let design = build_design(alloc, seed, n)?;
    match verify(alloc, design) {
        Ok(verified) => Ok(verified),
        Err(VerifyFail::NoMemory) => Err(AllocError),
        Err(VerifyFail::Refused(_)) => unreachable!(),
    }
}

/// The design, not yet verified.
fn build_design(alloc: Global, seed: u32, n: u32) -> Result<Design, AllocError>
    requires { n ≤ 10000 }
    ensures { IfOk result (λ design. design_of design ≡ generated seed n) }
{
    let mut design = Design::new(alloc);
    let mut draws = Draws::new(seed);
    for k in 0..n {
        let _ = design.add_module(generated_module(alloc, n, k, &mut draws)?)?;
    }
    Ok(design)
}
