//! Verdicts.
ghost use Rattle.std.specs.Prelude.{◌≤◌, IfOk, IfErr};
ghost use Rattle.cdcl_proof.specs.Answer.{Answers};
ghost use Rattle.ir_store.specs.Designs.{design_of};
ghost use Rattle.miter_blast.specs.Comparisons.{IsRefusedComparison};
ghost use Rattle.lec_tool.specs.Verdicts.{IsVerdict, IsDecision, IsFoundOf};

use cdcl_proof::solve::{Answer, solve, solve_guided};
use miter_blast::comparing::miter;
use miter_blast::fail::MiterFail;
use miter_blast::input::Input;
use miter_blast::miter::Miter;
use miter_blast::{formulas_are_differences, unsatisfiable_formulas_agree};
use op_verifier::Verified;
use printing_laws::what_is_canonical_is_printable;
use resolution_proof::cnf::Cnf;
use resolution_proof::log::Log;
use std::alloc::{AllocError, Global};
use sweep_guide::sweep::Sweep;

/// What is found of two modules.
#[derive(Drop)]
pub enum Verdict {
    /// They agree: this log refutes that they differ.
    Same(Log),
    /// They differ in a step with these inputs from this content.
    Differ(Input),
    /// So many clauses were learnt without an answer.
    Unknown(Log),
}

/// A verdict, with the comparison whose formula it is about.
#[derive(Drop)]
pub struct Decision {
    /// The comparison.
    pub comparison: Miter,
    /// What is found of it.
    pub verdict: Verdict,
}

/// The verdict on the module `a` of one design and the module `b` of another (CIRCT: `circt-lec`): whether they give the same
/// outputs, and leave the same content, in each step from each content, where each register whose asynchronous reset is 1
/// takes its value first. It learns at most `budget` clauses, and before that 1,000 at most, where it may learn more: a search
/// alone, which is dropped where it finds nothing. Modules are refused as in [`miter`].
pub fn lec(
    alloc: Global,
    left: &Verified,
    a: &[u8],
    right: &Verified,
    b: &[u8],
    budget: u64,
) -> Result<Verdict, MiterFail>
    requires { 1 ≤ budget }
    ensures verdict { IfOk result (IsVerdict (design_of left.now.design) a.now (design_of right.now.design) b.now budget) }
    ensures refused { IfErr result (IsRefusedComparison (design_of left.now.design) a.now (design_of right.now.design) b.now) }
{
    match decide(alloc, left, a, right, b, budget) {
        Ok(decision) => Ok(decision.verdict),
        Err(fail) => Err(fail),
    }
}

/// The same verdict, with the comparison whose formula it is about: the log refutes that formula, or has all its steps over it.
pub fn decide(
    alloc: Global,
    left: &Verified,
    a: &[u8],
    right: &Verified,
    b: &[u8],
    budget: u64,
) -> Result<Decision, MiterFail>
    requires { 1 ≤ budget }
    ensures decision { IfOk result (λ made. IsDecision (design_of left.now.design) a.now (design_of right.now.design) b.now budget made.comparison.formula made.verdict) }
    ensures refused { IfErr result (IsRefusedComparison (design_of left.now.design) a.now (design_of right.now.design) b.now) }
{
    what_is_canonical_is_printable();
    formulas_are_differences();
    unsatisfiable_formulas_agree();
    let comparison = miter(alloc, left, a, right, b)?;
    match verdict_on(alloc, &comparison, budget) {
        Ok(verdict) => Ok(Decision {
            comparison,
            verdict,
        }),
        Err(_) => Err(MiterFail::NoMemory),
    }
}

// What is found of a comparison.
fn verdict_on(alloc: Global, comparison: &Miter, budget: u64) -> Result<Verdict, AllocError>
    requires { 1 ≤ budget }
    ensures { IfOk result (IsFoundOf comparison.now budget) }
{
    match answer_to(alloc, comparison.cnf(), budget)? {
        Answer::Refuted(log) => Ok(Verdict::Same(log)),
        Answer::Satisfied(assignment) => {
            Ok(Verdict::Differ(comparison.input_of(alloc, &assignment)?))
        }
        Answer::Spent(log) => Ok(Verdict::Unknown(log)),
    }
}

// How many clauses a search alone may learn before it is begun anew after a sweep.
const ALONE: u64 = 1000;

// What is found of a formula: by a search alone where that is short, else by one after a sweep over the formula's gates.
fn answer_to(alloc: Global, cnf: &Cnf, budget: u64) -> Result<Answer, AllocError>
    requires { 1 ≤ budget }
    ensures { IfOk result (Answers cnf.now budget) }
{
    if budget <= ALONE {
        let short = solve(alloc, cnf, budget)?;
        return Ok(short);
    }
    match solve(alloc, cnf, ALONE)? {
        Answer::Refuted(log) => Ok(Answer::Refuted(log)),
        Answer::Satisfied(assignment) => Ok(Answer::Satisfied(assignment)),
        Answer::Spent(_) => swept(alloc, cnf, budget),
    }
}

// What a search finds of a formula after a sweep over its gates.
fn swept(alloc: Global, cnf: &Cnf, budget: u64) -> Result<Answer, AllocError>
    requires { 1 ≤ budget }
    ensures { IfOk result (Answers cnf.now budget) }
{
    let mut sweep = Sweep::new(alloc, cnf)?;
    let answer = solve_guided(alloc, cnf, &mut sweep, budget)?;
    Ok(answer)
}
