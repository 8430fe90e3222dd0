// Replaying a log: each step's chain of resolutions, checked with no memory.
ghost use Rattle.std.specs.Prelude.{◌≡◌, ◌++◌, true, IsTrue};
ghost use Rattle.resolution_proof.specs.Literal.{holds, is_once};
ghost use Rattle.resolution_proof.specs.Clause.{is_subset};
ghost use Rattle.resolution_proof.specs.Replay.{learnt_clauses, is_number, clause_at, opposes, fits, is_chain, chain_end, derives, replay, Follows, survives, covers};

use crate::clause::{Clause, has_literal, has_variable};
use crate::cnf::Cnf;
use crate::literal::Literal;
use crate::log::{Hint, Log, Step};

/// Whether each step of the log comes from the formula's clauses and the earlier steps' by the chain of
/// resolutions that its hints name. It takes no memory.
pub fn replays(cnf: &Cnf, log: &Log) -> bool
    ensures exact { result ≡ replay cnf.now log.now }

    // Each step's clause is true wherever the formula is.
    ensures follows { IsTrue result → Follows cnf.now log.now }
{
    let given = cnf.clauses();
    let steps = log.as_slice();
    for (i, step) in steps.iter().enumerate() {
        if !is_derived(
            given,
            &steps[..i],
            step.hints.as_slice(),
            step.clause.as_slice(),
        ) {
            return false;
        }
    }
    true
}

fn is_derived(given: &[Clause], steps: &[Step], hints: &[Hint], clause: &[Literal]) -> bool
    ensures { result ≡ derives (given.now ++ learnt_clauses steps.now) hints.now clause.now }
{
    let Some((first, rest)) = hints.split_first() else {
        return false;
    };
    if !is_clause_number(given, steps, first.clause) {
        return false;
    }
    let start = clause_of(given, steps, first.clause);
    is_resolution_chain(given, steps, start, rest)
        && (is_covered(given, steps, start, rest, clause)
            && is_given(given, steps, start, rest, clause))
}

/// Whether the number is that of a clause of the formula or of one of the steps.
pub(crate) fn is_clause_number(given: &[Clause], steps: &[Step], number: u64) -> bool
    ensures { result ≡ is_number (given.now ++ learnt_clauses steps.now) number }
{
    let given_count = given.len() as u64;
    1 <= number && (number <= given_count || number - given_count <= steps.len() as u64)
}

/// The literals of the clause of that number.
pub(crate) fn clause_of<'a>(given: &'a [Clause], steps: &'a [Step], number: u64) -> &'a [Literal]
    ensures literals { result.now ≡ clause_at (given.now ++ learnt_clauses steps.now) number }
    ensures once { is_once result.now ≡ true }
{
    let index = number.saturating_sub(1) as usize;
    if index < given.len() {
        given[index].as_slice()
    } else if index - given.len() < steps.len() {
        steps[index - given.len()].clause.as_slice()
    } else {
        &[]
    }
}

fn is_resolution_chain(given: &[Clause], steps: &[Step], start: &[Literal], hints: &[Hint]) -> bool
    ensures { result ≡ is_chain (given.now ++ learnt_clauses steps.now) start.now hints.now }
{
    for (i, hint) in hints.iter().enumerate() {
        if !is_fitting(given, steps, start, &hints[..i], *hint) {
            return false;
        }
    }
    true
}

fn is_fitting(
    given: &[Clause],
    steps: &[Step],
    start: &[Literal],
    hints: &[Hint],
    hint: Hint,
) -> bool
    ensures { result
        ≡ fits (given.now ++ learnt_clauses steps.now) (chain_end (given.now ++ learnt_clauses steps.now) start.now hints.now) hint }
{
    let clause = clause_of(given, steps, hint.clause);
    is_clause_number(given, steps, hint.clause)
        && (has_variable(clause, hint.pivot)
            && is_opposed(given, steps, start, hints, clause, hint.pivot))
}

/// Whether the clause's literals of the pivot, and no others, are opposite to literals that the chain gives.
fn is_opposed(
    given: &[Clause],
    steps: &[Step],
    start: &[Literal],
    hints: &[Hint],
    clause: &[Literal],
    pivot: u64,
) -> bool
    ensures { result ≡ opposes pivot (chain_end (given.now ++ learnt_clauses steps.now) start.now hints.now) clause.now }
{
    clause.iter().all(|l| (l.variable == pivot)
        == is_in_chain(given, steps, start, hints, l.negation()))
}

/// Whether the chain gives each literal of the clause.
fn is_given(
    given: &[Clause],
    steps: &[Step],
    start: &[Literal],
    hints: &[Hint],
    clause: &[Literal],
) -> bool
    ensures { result ≡ is_subset clause.now (chain_end (given.now ++ learnt_clauses steps.now) start.now hints.now) }
{
    clause
        .iter()
        .all(|l| is_in_chain(given, steps, start, hints, *l))
}

/// Whether the chain from `start` gives a clause with the literal. Only the last clause with the literal counts,
/// and no resolution on its variable may come after it.
fn is_in_chain(
    given: &[Clause],
    steps: &[Step],
    start: &[Literal],
    hints: &[Hint],
    literal: Literal,
) -> bool
    ensures { result ≡ holds (chain_end (given.now ++ learnt_clauses steps.now) start.now hints.now) literal }
{
    let mut rest = hints;
    while let Some((last, earlier)) = rest.split_last() {
        if literal.variable == last.pivot {
            return false;
        }
        if has_literal(clause_of(given, steps, last.clause), literal) {
            return true;
        }
        rest = earlier;
    }
    has_literal(start, literal)
}

/// Whether no resolution of the hints takes the literal away.
fn is_kept(hints: &[Hint], literal: Literal) -> bool
    ensures { result ≡ survives hints.now literal }
{
    hints.iter().all(|h| literal.variable != h.pivot)
}

/// Whether each literal that the chain leaves is one of the clause.
fn is_covered(
    given: &[Clause],
    steps: &[Step],
    start: &[Literal],
    hints: &[Hint],
    clause: &[Literal],
) -> bool
    ensures { result ≡ is_subset (chain_end (given.now ++ learnt_clauses steps.now) start.now hints.now) clause.now }
{
    if !is_part_covered(start, hints, clause) {
        return false;
    }
    let mut rest = hints;
    while let Some((first, later)) = rest.split_first() {
        if !is_part_covered(clause_of(given, steps, first.clause), rest, clause) {
            return false;
        }
        rest = later;
    }
    true
}

/// Whether each literal of the part that the hints leave is one of the clause.
fn is_part_covered(part: &[Literal], hints: &[Hint], clause: &[Literal]) -> bool
    ensures { result ≡ covers hints.now clause.now part.now }
{
    part.iter()
        .all(|l| !is_kept(hints, *l) || has_literal(clause, *l))
}
