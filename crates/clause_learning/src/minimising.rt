// Literals taken off a learnt clause.
ghost use Rattle.std.specs.Prelude.{ℕ, ◌≡◌, ◌<◌, ◌≤◌, ◌+◌, ◌-◌, true, length, drop, IfOk, Some};
ghost use Rattle.std.specs.List.{list_all};
ghost use Rattle.resolution_proof.specs.Formula.{are_clauses};
ghost use Rattle.clause_learning.specs.Trail.{IsSound, literals};
ghost use Rattle.clause_learning.specs.Learning.{is_seen_literal, count_seen};
ghost use Rattle.clause_learning.specs.Resolving.{HasPivotsFrom, IsResolving};

use crate::marked::Marked;
use crate::resolving::clause_of;
use crate::trail::Trail;
use resolution_proof::clause::Clause;
use resolution_proof::literal::Literal;
use resolution_proof::log::Hint;
use std::alloc::{AllocError, Global};

/// Takes literals off the clause of the marks by self-subsumption (Sörensson and Biere, Minimizing learned clauses,
/// 2009): one of an entry before `floor` whose reason has, besides it, only literals that are negated by marked
/// entries. From the newest to the oldest, so that no reason holds the variable of an earlier pivot.
pub(crate) fn minimise(
    alloc: Global,
    clauses: &[Clause],
    trail: &Trail,
    seen: &mut Marked,
    hints: &mut Vec<Hint>,
    floor: usize,
) -> Result<(), AllocError>
    requires clauses { are_clauses trail.now.variables clauses.now ≡ true }
    requires seen { length seen.old ≡ trail.now.variables }
    requires sound { IsSound trail.now.variables clauses.now trail.now.entries }
    requires floor { floor ≤ length trail.now.entries }
    requires resolving { IsResolving clauses.now trail.now.entries hints.old.items seen.old }
    requires pivots { HasPivotsFrom trail.now.entries floor hints.old.items }
    ensures resolving { IfOk result (λ _. IsResolving clauses.now trail.now.entries hints.new.items seen.new) }
    ensures count { IfOk result (λ _. count_seen seen.new (drop floor trail.now.entries) ≡ count_seen seen.old (drop floor trail.now.entries)) }
    ensures len { IfOk result (λ _. length seen.new ≡ length seen.old) }
{
    let mut places = places_below(alloc, trail, seen, floor)?;
    let mut last = floor;
    while let Some(place) = places.pop() {
        if place < last {
            last = place;
            subsume(clauses, trail, seen, hints, place)?;
        }
    }
    Ok(())
}

/// The positions of the marked entries before `floor`, in order: only how good the clause becomes depends on them.
fn places_below(
    alloc: Global,
    trail: &Trail,
    seen: &Marked,
    floor: usize,
) -> Result<Vec<usize>, AllocError> {
    let mut places = Vec::new(alloc);
    for variable in seen.list() {
        if let Some(place) = place_below(trail, seen, *variable, floor) {
            places.push(place)?;
        }
    }
    places.sort()?;
    Ok(places)
}

/// The position of the variable's entry, if it is marked and stands before `floor`.
fn place_below(trail: &Trail, seen: &Marked, variable: u64, floor: usize) -> Option<usize> {
    if variable == 0 || variable > trail.variables() || !seen.is_marked(variable) {
        return None;
    }
    match trail.place(variable) {
        Some(place) if place < floor => Some(place),
        _ => None,
    }
}

/// Takes the literal of the entry at the position off the clause of the marks, if its reason adds none.
fn subsume(
    clauses: &[Clause],
    trail: &Trail,
    seen: &mut Marked,
    hints: &mut Vec<Hint>,
    position: usize,
) -> Result<(), AllocError>
    requires clauses { are_clauses trail.now.variables clauses.now ≡ true }
    requires seen { length seen.old ≡ trail.now.variables }
    requires sound { IsSound trail.now.variables clauses.now trail.now.entries }
    requires position { position < length trail.now.entries }
    requires resolving { IsResolving clauses.now trail.now.entries hints.old.items seen.old }
    requires pivots { HasPivotsFrom trail.now.entries (position + 1) hints.old.items }
    ensures resolving { IfOk result (λ _. IsResolving clauses.now trail.now.entries hints.new.items seen.new) }
    ensures pivots { IfOk result (λ _. HasPivotsFrom trail.now.entries position hints.new.items) }
    ensures count { IfOk result (λ _. (floor : ℕ) → position < floor → count_seen seen.new (drop floor trail.now.entries) ≡ count_seen seen.old (drop floor trail.now.entries)) }
    ensures len { IfOk result (λ _. length seen.new ≡ length seen.old) }
{
    let entry = trail.entry(position);
    let pivot = entry.literal.variable;
    if !seen.is_marked(pivot) {
        return Ok(());
    }
    match entry.reason {
        Some(number) => {
            if !are_marked(seen, clause_of(clauses, number)) {
                return Ok(());
            }
            hints.push(Hint {
                clause: number,
                pivot,
            })?;
            seen.unmark(pivot);
            Ok(())
        }
        None => Ok(()),
    }
}

/// Whether each variable of the clause is marked.
fn are_marked(seen: &Marked, clause: &[Literal]) -> bool
    ensures { result ≡ list_all (is_seen_literal seen.now) clause.now }
{
    clause.iter().all(|l| seen.is_marked(l.variable))
}
