//! Proofs as whole texts.
ghost use Rattle.std.specs.Prelude.{◌≡◌, ◌≤◌, ◌^◌, Bool, List, length, IfOk, IfErr, OnOk, IsTrue, None, option_map};
ghost use Rattle.resolution_proof.specs.Formula.{satisfies};
ghost use Rattle.lrat_text.specs.ProofLine.{proof_lines};
ghost use Rattle.lrat_text.specs.Checking.{first_fault, proof_fault, start, IsAnswer};
ghost use Rattle.lrat_text.specs.Verified.{is_verified, IsUnverified};

use crate::dimacs_cnf::DimacsCnf;
use crate::fail::{CheckFail, CheckRefusal};
use crate::marks::Marks;
use crate::progress::Progress;
use crate::proof_line::ProofLine;
use crate::steps::check_line;
use diag::cause::Cause;
use std::alloc::{AllocError, Global};
use text_lines::lines::first_line;

/// The greatest number of bytes that a text may have.
pub(crate) const MOST_BYTES: usize = 1 << 26;

/// Checks a proof in the LRAT format over the formula.
#[tactic(auto, using(crate::proofs::Verifying::none_verified, crate::proofs::Verifying::none_satisfies, crate::proofs::Verifying::fault_unverified))]
pub fn check(alloc: Global, cnf: &DimacsCnf, proof: &[u8]) -> Result<(), CheckFail>
    ensures ok { OnOk result (proof_fault cnf.now proof.now ≡ None) }
    ensures refused { IfErr result (IsAnswer (proof_fault cnf.now proof.now)) }

    // It is right exactly where each line follows from those before it and the empty clause is a step.
    ensures verified { OnOk result (IsTrue (is_verified cnf.now proof.now)) }
    ensures unverified { IfErr result (IsUnverified cnf.now proof.now) }

    // No assignment satisfies the formula.
    ensures unsatisfiable { OnOk result ((bits : List Bool) → ¬ IsTrue (satisfies bits cnf.now)) }
{
    match first_refusal(alloc, cnf, proof)? {
        Some(refusal) => Err(CheckFail::Refused(refusal)),
        None => Ok(()),
    }
}

/// The first fault of a text.
#[tactic(auto, unfolding(crate::specs::Checking::proof_fault))]
fn first_refusal(
    alloc: Global,
    cnf: &DimacsCnf,
    proof: &[u8],
) -> Result<Option<CheckRefusal>, AllocError>
    ensures { IfOk result (λ r. option_map (λ f. (f.line, f.cause)) r ≡ proof_fault cnf.now proof.now) }
{
    if MOST_BYTES < proof.len() {
        return Ok(Some(CheckRefusal {
            line: 1,
            cause: Cause::TooLong,
        }));
    }
    check_lines(alloc, cnf, proof)
}

/// The first fault of the lines.
#[tactic(auto, using(text_lines::proofs::Splitting::no_lines))]
fn check_lines(
    alloc: Global,
    cnf: &DimacsCnf,
    proof: &[u8],
) -> Result<Option<CheckRefusal>, AllocError>
    requires { length proof.now ≤ 2 ^ 26 }
    ensures { IfOk result (λ r. option_map (λ f. (f.line, f.cause)) r ≡ first_fault cnf.now.variables (start cnf.now) 1 (proof_lines proof.now)) }
{
    let mut progress = Progress::new(alloc, cnf)?;
    let mut marks = Marks::new(alloc);
    let mut read = ProofLine::new(alloc);
    let mut line = 1;
    let mut rest = proof;
    while !rest.is_empty() {
        let (first, others) = first_line(rest);
        read.read(first)?;
        marks.restart(line);
        if let Some(cause) = check_line(cnf.variables, &mut progress, &mut marks, &read)? {
            return Ok(Some(CheckRefusal { line, cause }));
        }
        line += 1;
        rest = others;
    }
    if progress.done {
        return Ok(None);
    }
    Ok(Some(CheckRefusal {
        line,
        cause: Cause::NoEmptyClause,
    }))
}
