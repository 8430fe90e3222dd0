//! Steps by reverse unit propagation along their hints.
ghost use Rattle.std.specs.Prelude.{◌≡◌, ◌+◌, List, [], IfOk, OnOk, Some, None, false, if◌then◌else◌};
ghost use Rattle.resolution_proof.specs.declared.literal.Literal.{Literal};
ghost use Rattle.lrat_text.specs.Hints.{has_negative, are_known, hints_fault};
ghost use Rattle.lrat_text.specs.Checking.{clashes, negations};
ghost use Rattle.diag.specs.declared.cause.Cause.TheVariants.{HintOutsideProfile};
ghost use Rattle.lrat_text.specs.Stored.{store_of};
ghost use Rattle.lrat_text.specs.Marks.{Shows, IsBelow, is_left, is_marked, judged_by};

use crate::clauses::Clauses;
use crate::judged::Judged;
use crate::marks::Marks;
use diag::cause::Cause;
use resolution_proof::literal::Literal;
use std::alloc::AllocError;

/// What the clause is where the marked literals are true.
pub(crate) fn judge(marks: &Marks, clause: &[Literal]) -> Judged
    ensures { result ≡ judged_by (is_marked marks.now) None clause.now }
{
    let mut left = None;
    let mut rest = clause;
    while let Some((literal, others)) = rest.split_first() {
        if !marks.is_true(literal.negation()) {
            if !is_left(marks, left, *literal) {
                return Judged::Neither;
            }
            left = Some(*literal);
        }
        rest = others;
    }
    match left {
        None => Judged::Conflict,
        Some(one) => Judged::Forces(one),
    }
}

/// Whether the literal is the one that is left, or, where none is, may be it: it is not true.
fn is_left(marks: &Marks, left: Option<Literal>, literal: Literal) -> bool
    ensures { result ≡ is_left (is_marked marks.now) left literal }
{
    match left {
        None => !marks.is_true(literal),
        Some(one) => one == literal,
    }
}

/// Makes the negation of each literal of the clause true, up to one of which the negation stands before. Whether there is
/// one. No literal is true before.
pub(crate) fn mark_negations(marks: &mut Marks, clause: &[Literal]) -> Result<bool, AllocError>
    requires none { Shows marks.old [] }
    requires below { IsBelow (marks.old.stamp + 1) marks.old }
    ensures clash { IfOk result (λ clash. clash ≡ clashes clause.now) }
    ensures shows { IfOk result (λ clash. clash ≡ false → Shows marks.new (negations [] clause.now)) }
    ensures stamp { marks.new.stamp ≡ marks.old.stamp }
    ensures below { OnOk result (IsBelow (marks.old.stamp + 1) marks.new) }
{
    let mut rest = clause;
    while let Some((literal, others)) = rest.split_first() {
        if marks.is_true(*literal) {
            return Ok(true);
        }
        marks.make_true(literal.negation())?;
        rest = others;
    }
    Ok(false)
}

/// Whether one of the numbers has a minus sign.
fn has_negative(numbers: &[Literal]) -> bool
    ensures { result ≡ has_negative numbers.now }
{
    numbers.iter().any(|n| !n.positive)
}

/// Whether each hint without a minus sign names a clause that is there.
pub(crate) fn are_known(clauses: &Clauses, hints: &[Literal]) -> bool
    ensures { result ≡ are_known (store_of clauses.now) hints.now }
{
    hints
        .iter()
        .all(|hint| !hint.positive || clauses.is_there(hint.variable))
}

/// Follows the hints from the marked literals on: each is a unit, whose literal becomes true, up to the first that is
/// false. The fault, if there is one.
pub(crate) fn hints_fault(
    marks: &mut Marks,
    clauses: &Clauses,
    hints: &[Literal],
) -> Result<Option<Cause>, AllocError>
    requires { IsBelow (marks.old.stamp + 1) marks.old }
    ensures fault { IfOk result (λ fault. (set : List Literal) → Shows marks.old set → fault ≡ hints_fault (store_of clauses.now) set hints.now) }
    ensures stamp { marks.new.stamp ≡ marks.old.stamp }
    ensures below { OnOk result (IsBelow (marks.old.stamp + 1) marks.new) }
{
    let mut rest = hints;
    while let Some((hint, others)) = rest.split_first() {
        if !hint.positive {
            return Ok(Some(Cause::HintOutsideProfile));
        }
        match judge(marks, clauses.clause(hint.variable)) {
            Judged::Conflict => return Ok(fault_behind(others)),
            Judged::Forces(literal) => marks.make_true(literal)?,
            Judged::Neither => return Ok(Some(Cause::StepDoesNotFollow)),
        }
        rest = others;
    }
    Ok(Some(Cause::StepDoesNotFollow))
}

/// The fault of hints that follow a conflict.
fn fault_behind(hints: &[Literal]) -> Option<Cause>
    ensures { result ≡ (if has_negative hints.now then Some HintOutsideProfile else None) }
{
    if has_negative(hints) {
        Some(Cause::HintOutsideProfile)
    } else {
        None
    }
}
