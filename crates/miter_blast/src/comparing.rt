//! The comparison of two modules, or why they are not compared.
ghost use Rattle.std.specs.Prelude.{IfOk, IfErr};
ghost use Rattle.ir_store.specs.Designs.{design_of};
ghost use Rattle.miter_blast.specs.Comparisons.{IsComparison, IsRefusedComparison};
ghost use Rattle.hw_model.specs.Types.{Name};
ghost use Rattle.miter_blast.specs.LightPairs.{IsLight};
ghost use Rattle.miter_blast.specs.Pairs.{HasPair, IsPair};

use crate::building::{built, price_of};
use crate::copies::flat_copy;
use crate::early::early_refusal;
use crate::fail::MiterFail;
use crate::miter::Miter;
use crate::pair::{Pair, at_module, module_in, pair_of};
use crate::widths::register_widths;
use diag::cause::Cause;
use op_verifier::Verified;
use std::alloc::Global;

/// How many gates a comparison may take.
pub(crate) const MOST_GATES: u64 = 1 << 28;

/// The comparison of the module `a` of one design with the module `b` of another (CIRCT: `circt-lec`): of copies of both,
/// flat and without aggregates. They are refused for the first of these causes: a module is not there, at the beginning of its
/// text; types of inputs in order, or of outputs, differ, at the second module; the widths of the leaves of their registers
/// differ, there; the comparison may take more than 2^28 gates, at the first module. The second design counts as file 1.
/// No gate is made before that is known; where registers differ, or outputs and registers alone are too many, no copy is made
/// either. Linear in the copies and their gates.
pub fn miter(
    alloc: Global,
    left: &Verified,
    a: &[u8],
    right: &Verified,
    b: &[u8],
) -> Result<Miter, MiterFail>
    ensures ok { IfOk result (IsComparison (design_of left.now.design) a.now (design_of right.now.design) b.now) }
    ensures refused { IfErr result (IsRefusedComparison (design_of left.now.design) a.now (design_of right.now.design) b.now) }
{
    let pair = match pair_of(alloc, left, a, right, b) {
        Ok(pair) => pair,
        Err(fail) => return Err(fail),
    };
    match early_refusal(alloc, left, right, pair)? {
        Some(refusal) => Err(MiterFail::Refused(refusal)),
        None => compared(alloc, left, right, pair),
    }
}

// The comparison of the modules of a pair whose registers have the same widths: of copies of both.
fn compared(
    alloc: Global,
    left: &Verified,
    right: &Verified,
    pair: Pair,
) -> Result<Miter, MiterFail>
    requires pair { HasPair (design_of left.now.design) (design_of right.now.design) pair.left pair.right }
    requires light { IsLight (design_of left.now.design) (design_of right.now.design) pair.left pair.right }
    ensures ok { (a b : Name) → IsPair (design_of left.now.design) a (design_of right.now.design) b pair.left pair.right → IfOk result (IsComparison (design_of left.now.design) a (design_of right.now.design) b) }
    ensures refused { (a b : Name) → IsPair (design_of left.now.design) a (design_of right.now.design) b pair.left pair.right → IfErr result (IsRefusedComparison (design_of left.now.design) a (design_of right.now.design) b) }
{
    let first = flat_copy(alloc, left, pair.left)?;
    let second = flat_copy(alloc, right, pair.right)?;
    if price_of(alloc, &first, &second)? > MOST_GATES {
        let location = module_in(left, pair.left).location;
        return Err(MiterFail::Refused(at_module(0, location, Cause::TooManyGates)));
    }
    let held = register_widths(alloc, module_in(&first, 0))?;
    match built(alloc, &first, &second, held) {
        Ok(miter) => Ok(miter),
        Err(_) => Err(MiterFail::NoMemory),
    }
}
