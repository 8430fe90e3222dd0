//! The verdict on a design.
ghost use Rattle.std.specs.Prelude.{◌≡◌, ◌<◌, length, Contains, IfOk, IfErr};
ghost use Rattle.ir_store.specs.Designs.{design_of, modules_of};
ghost use Rattle.design_cycles.specs.Positions.{ids_at};
ghost use Rattle.stored_form.specs.Canonical.{IsCanonical};
ghost use Rattle.op_verifier.specs.Verdict.{IsVerdict};
ghost use Rattle.op_verifier.specs.Answered.{modules_verified, Explains, IsRefusedModule, IsRefusedOp};

use crate::accepted::Verified;
use crate::faults::{first_fault, refused_at};
use crate::verify_fail::VerifyFail;
use design_cycles::{Hierarchy, OpSite, first_cycle, first_recursive, first_too_large};
use diag::cause::Cause;
use diag::refusal::Refusal;
use ir_store::design::Design;
use opcode::listed::Listed;
use std::alloc::{AllocError, Global};

/// Takes a design in canonical form of which nothing is refused. It is dropped where something is, and when out of memory.
/// What is read is in canonical form; who builds a design otherwise may ask `is_canonical` of `stored_form`.
pub fn verify(alloc: Global, design: Design) -> Result<Verified, VerifyFail>
    requires { IsCanonical (design_of design) }
    ensures ok { IfOk result (λ v. modules_verified v ≡ modules_of design) }
    ensures err { IfErr result (Explains (design_of design)) }
{
    match verdict(alloc, &design) {
        Ok(Some(refusal)) => Err(VerifyFail::Refused(refusal)),
        Ok(None) => Ok(Verified { design }),
        Err(_) => Err(VerifyFail::NoMemory),
    }
}

/// The first refusal of a design: by its headers and operations; by instances that are recursive; by weights; by cycles.
fn verdict(alloc: Global, design: &Design) -> Result<Option<Refusal>, AllocError>
    ensures { IfOk result (IsVerdict (design_of design.now)) }
{
    if let Some(refusal) = first_fault(alloc, design)? {
        return Ok(Some(refusal));
    }
    let hierarchy = Hierarchy::of(alloc, design)?;
    if let Some(position) = first_recursive(alloc, design, &hierarchy)? {
        return Ok(Some(refused_op(design, position, Cause::RecursiveInstance)));
    }
    if let Some(number) = first_too_large(alloc, design, &hierarchy)? {
        return Ok(Some(refused_module(design, number, Cause::TooLarge)));
    }
    if let Some(position) = first_cycle(alloc, design, &hierarchy)? {
        return Ok(Some(refused_op(design, position, Cause::CombinationalCycle)));
    }
    Ok(None)
}

/// The refusal of a module's header.
fn refused_module(design: &Design, number: u32, cause: Cause) -> Refusal
    requires { number < length (modules_of design.now) }
    ensures { IsRefusedModule (modules_of design.now) number cause result }
{
    refused_at(design.module(number).location, Listed::HwModule, cause)
}

/// The refusal of an operation.
fn refused_op(design: &Design, at: OpSite, cause: Cause) -> Refusal
    requires within { at.module < length (modules_of design.now) }
    requires live { Contains (ids_at (modules_of design.now) at.module) at.op.index }
    ensures { IsRefusedOp (modules_of design.now) at cause result }
{
    let op = design.module(at.module).body.op(at.op);
    refused_at(op.location, op.kind.listed(), cause)
}
