//! Lines of proofs, checked one by one.
ghost use Rattle.std.specs.Prelude.{◌≡◌, ◌+◌, [], IfOk, OnOk, Some, None, if◌then◌else◌};
ghost use Rattle.lrat_text.specs.Checking.{line_fault, after_line, are_there, without_all, step_fault};
ghost use Rattle.lrat_text.specs.Marks.{Shows, IsBelow};
ghost use Rattle.lrat_text.specs.Stored.{state_of, store_of};
ghost use Rattle.lrat_text.specs.Reads.{line_in};
ghost use Rattle.diag.specs.declared.cause.Cause.TheVariants.{UnknownClause};

use crate::clauses::Clauses;
use crate::hints::{are_known, hints_fault, mark_negations};
use crate::marks::Marks;
use crate::progress::Progress;
use crate::proof_line::{Form, ProofLine};
use diag::cause::Cause;
use resolution_proof::clause::is_within_variables;
use resolution_proof::literal::Literal;
use std::alloc::AllocError;

/// Checks a line. Its fault, if there is one; else the progress goes on.
pub(crate) fn check_line(
    variables: u64,
    progress: &mut Progress,
    marks: &mut Marks,
    line: &ProofLine,
) -> Result<Option<Cause>, AllocError>
    requires none { Shows marks.old [] }
    requires below { IsBelow (marks.old.stamp + 1) marks.old }
    ensures fault { IfOk result (λ fault. fault ≡ line_fault variables (state_of progress.old) (line_in line.now)) }
    ensures after { IfOk result (λ fault. fault ≡ None → state_of progress.new ≡ after_line (state_of progress.old) (line_in line.now)) }
    ensures stamp { marks.new.stamp ≡ marks.old.stamp }
    ensures left { OnOk result (IsBelow (marks.old.stamp + 1) marks.new) }
{
    match line.form {
        Form::Blank => Ok(None),
        Form::Bad => Ok(Some(Cause::BadProofLine)),
        Form::Deletes => Ok(delete(&mut progress.clauses, &line.numbers)),
        Form::Adds(number) => {
            let fault = step_fault(variables, progress, marks, number, line)?;
            if fault.is_none() {
                progress.clauses.put(number, &line.clause)?;
                progress.last = number;
                progress.done = progress.done || line.clause.is_empty();
            }
            Ok(fault)
        }
    }
}

/// The fault of a step.
fn step_fault(
    variables: u64,
    progress: &Progress,
    marks: &mut Marks,
    number: u64,
    line: &ProofLine,
) -> Result<Option<Cause>, AllocError>
    requires none { Shows marks.old [] }
    requires below { IsBelow (marks.old.stamp + 1) marks.old }
    ensures fault { IfOk result (λ fault. fault ≡ step_fault variables (state_of progress.now) number line.now.clause.items line.now.numbers.items) }
    ensures stamp { marks.new.stamp ≡ marks.old.stamp }
    ensures left { OnOk result (IsBelow (marks.old.stamp + 1) marks.new) }
{
    if number <= progress.last || !is_within_variables(&line.clause, variables) {
        return Ok(Some(Cause::BadProofLine));
    }
    if mark_negations(marks, &line.clause)? {
        return Ok(Some(Cause::BadProofLine));
    }
    if !are_known(&progress.clauses, &line.numbers) {
        return Ok(Some(Cause::UnknownClause));
    }
    hints_fault(marks, &progress.clauses, &line.numbers)
}

/// Deletes the clauses, up to one that is not there. Its fault, if there is one.
fn delete(clauses: &mut Clauses, numbers: &[Literal]) -> Option<Cause>
    ensures fault { result ≡ (if are_there (store_of clauses.old) numbers.now then None else Some UnknownClause) }
    ensures after { result ≡ None → store_of clauses.new ≡ without_all (store_of clauses.old) numbers.now }
{
    let mut rest = numbers;
    while let Some((number, others)) = rest.split_first() {
        if !clauses.is_there(number.variable) {
            return Some(Cause::UnknownClause);
        }
        clauses.remove(number.variable);
        rest = others;
    }
    None
}
