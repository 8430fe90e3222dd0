//! The run of a module of a design.
ghost use Rattle.std.specs.Prelude.{◌≡◌, IfOk, IfErr};
ghost use Rattle.ir_store.specs.Designs.{design_of};
ghost use Rattle.miter_blast.specs.Pairs.{IsFoundAt};
ghost use Rattle.cycle_sim.specs.Simulations.{IsSimulation, IsRefusedSimulation, failure};

use crate::fail::{SimFail, SimRefusal};
use crate::flat_run::copy_run;
use io_edge::byte_text::Text;
use miter_blast::flat_copy;
use op_verifier::Verified;
use std::alloc::Global;
use step_file::fail::StepFail;

/// The lines of the run of the module of a symbol: from the content that a step file says, with the inputs that it says, a line
/// for each step, which has the literal of each leaf of an output. The module is refused where it is not there; then the step
/// file, by its first line that is none. It works on a flat copy without aggregates. Linear in the copy and in its operations for
/// each step; a step takes no memory but for its line.
pub fn simulate(alloc: Global, design: &Verified, top: &[u8], steps: &[u8]) -> Result<Text, SimFail>
    ensures ok { IfOk result (IsSimulation (design_of design.now.design) top.now steps.now) }
    ensures err { IfErr result (IsRefusedSimulation (design_of design.now.design) top.now steps.now) }
{
    let Some(number) = find_in(design, top) else {
        return Err(SimFail::Refused(SimRefusal::NoModule));
    };
    let copy = flat_copy(alloc, design, number)?;
    match copy_run(alloc, &copy, steps) {
        Ok(text) => Ok(text),
        Err(fail) => Err(failure(fail)),
    }
}

// The number of the module of a symbol.
fn find_in(design: &Verified, symbol: &[u8]) -> Option<u32>
    ensures { IsFoundAt (design_of design.now.design) symbol.now result }
{
    design.design().find(symbol)
}

// Why a module is not run whose step file is not read.
fn failure(fail: StepFail) -> SimFail
    ensures { result ≡ failure fail }
{
    match fail {
        StepFail::Refused(refusal) => SimFail::Refused(SimRefusal::BadSteps(refusal)),
        StepFail::NoMemory => SimFail::NoMemory,
    }
}
