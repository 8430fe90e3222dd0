// Resolutions of a conflict with the reasons of its literals.
ghost use Rattle.std.specs.Prelude.{ℕ, ◌≡◌, ◌<◌, ◌≤◌, ◌+◌, ◌-◌, true, [], length, take, drop, IfOk, Some, slice_set};
ghost use Rattle.resolution_proof.specs.Clause.{is_within};
ghost use Rattle.resolution_proof.specs.Formula.{are_clauses};
ghost use Rattle.resolution_proof.specs.Replay.{clause_at};
ghost use Rattle.resolution_proof.specs.Literal.{mentions};
ghost use Rattle.clause_learning.specs.Trail.{IsSound, literals, entry_at, NoDecision};
ghost use Rattle.clause_learning.specs.Learning.{is_seen, is_seen_entry, count_seen};
ghost use Rattle.clause_learning.specs.Propagation.{IsConflict};
ghost use Rattle.clause_learning.specs.Resolving.{AddsMarks, HasPivotsFrom, IsResolving, IsAnalysis, IsLevel, Resolves};

use crate::marked::Marked;
use crate::trail::Trail;
use resolution_proof::clause::Clause;
use resolution_proof::literal::Literal;
use resolution_proof::log::Hint;
use std::alloc::{AllocError, Global};

/// The part of the trail in which literals are resolved: the entries from `floor` on, of whose literals `keep` stay.
#[derive(Clone, Copy)]
pub(crate) struct Level {
    pub(crate) floor: usize,
    pub(crate) keep: usize,
}

/// Resolves the false clause with the reasons of its literals, newest first, until `keep` literals of the
/// level are left. The marks then tell the variables of the resolvent.
pub(crate) fn resolve_down(
    alloc: Global,
    clauses: &[Clause],
    trail: &Trail,
    seen: &mut Marked,
    conflict: u64,
    level: Level,
) -> Result<Vec<Hint>, AllocError>
    requires clauses { are_clauses trail.now.variables clauses.now ≡ true }
    requires seen { length seen.old ≡ trail.now.variables }
    requires sound { IsSound trail.now.variables clauses.now trail.now.entries }
    requires conflict { IsConflict clauses.now (literals trail.now.entries) conflict }
    requires implied { NoDecision trail.now.entries (level.floor + level.keep) (length trail.now.entries) }
    requires level { IsLevel clauses.now (literals (take level.floor trail.now.entries)) level.keep }
    ensures resolving { IfOk result (λ h. IsResolving clauses.now trail.now.entries h.items seen.new) }
    ensures pivots { 0 < level.keep → IfOk result (λ h. HasPivotsFrom trail.now.entries level.floor h.items) }
    ensures count { IfOk result (λ _. count_seen seen.new (drop level.floor trail.now.entries) ≡ level.keep) }
    ensures len { IfOk result (λ _. length seen.new ≡ length seen.old) }
{
    let mut hints = Vec::new(alloc);
    hints.push(Hint {
        clause: conflict,
        pivot: 0,
    })?;
    let mut count = mark_conflict(clauses, trail, seen, conflict, level.floor);
    let mut position = trail.len();
    while count > level.keep {
        position -= 1;
        count = resolve_entry(clauses, trail, seen, &mut hints, position, level, count)?;
    }
    Ok(hints)
}

/// Resolves the false clause with the reasons of all its literals of the newest level but the decision's.
pub(crate) fn resolve_level(
    alloc: Global,
    clauses: &[Clause],
    trail: &Trail,
    seen: &mut Marked,
    conflict: u64,
    floor: usize,
) -> Result<Vec<Hint>, AllocError>
    requires clauses { are_clauses trail.now.variables clauses.now ≡ true }
    requires seen { length seen.old ≡ trail.now.variables }
    requires sound { IsSound trail.now.variables clauses.now trail.now.entries }
    requires conflict { IsConflict clauses.now (literals trail.now.entries) conflict }
    requires floor { floor < length trail.now.entries }
    requires implied { NoDecision trail.now.entries (floor + 1) (length trail.now.entries) }
    requires level { IsLevel clauses.now (literals (take floor trail.now.entries)) 1 }
    ensures resolving { IfOk result (λ h. IsResolving clauses.now trail.now.entries h.items seen.new) }
    ensures pivots { IfOk result (λ h. HasPivotsFrom trail.now.entries floor h.items) }
    ensures count { IfOk result (λ _. count_seen seen.new (drop floor trail.now.entries) ≡ 1) }
    ensures len { IfOk result (λ _. length seen.new ≡ length seen.old) }
{
    let level = Level { floor, keep: 1 };
    let mut hints = Vec::new(alloc);
    hints.push(Hint {
        clause: conflict,
        pivot: 0,
    })?;
    let mut count = mark_conflict(clauses, trail, seen, conflict, floor);
    let mut position = trail.len();
    while position > floor + 1 {
        position -= 1;
        count = resolve_entry(clauses, trail, seen, &mut hints, position, level, count)?;
    }
    Ok(hints)
}

/// Resolves the clause of the marks with the reasons of its literals before `floor`, newest first.
pub(crate) fn resolve_below(
    clauses: &[Clause],
    trail: &Trail,
    seen: &mut Marked,
    hints: &mut Vec<Hint>,
    floor: usize,
) -> Result<(), AllocError>
    requires clauses { are_clauses trail.now.variables clauses.now ≡ true }
    requires seen { length seen.old ≡ trail.now.variables }
    requires sound { IsSound trail.now.variables clauses.now trail.now.entries }
    requires floor { floor ≤ length trail.now.entries }
    requires resolving { IsResolving clauses.now trail.now.entries hints.old.items seen.old }
    requires pivots { HasPivotsFrom trail.now.entries floor hints.old.items }
    ensures resolving { IfOk result (λ _. IsResolving clauses.now trail.now.entries hints.new.items seen.new) }
    ensures count { IfOk result (λ _. count_seen seen.new (drop floor trail.now.entries) ≡ count_seen seen.old (drop floor trail.now.entries)) }
    ensures len { IfOk result (λ _. length seen.new ≡ length seen.old) }
{
    let mut position = floor;
    while position > 0 {
        position -= 1;
        resolve_reason(clauses, trail, seen, hints, position)?;
    }
    Ok(())
}

/// Resolves the clause of the marks with the reason of the entry at the position, if it is marked and has one.
fn resolve_reason(
    clauses: &[Clause],
    trail: &Trail,
    seen: &mut Marked,
    hints: &mut Vec<Hint>,
    position: usize,
) -> Result<(), AllocError>
    requires clauses { are_clauses trail.now.variables clauses.now ≡ true }
    requires seen { length seen.old ≡ trail.now.variables }
    requires sound { IsSound trail.now.variables clauses.now trail.now.entries }
    requires position { position < length trail.now.entries }
    requires resolving { IsResolving clauses.now trail.now.entries hints.old.items seen.old }
    requires pivots { HasPivotsFrom trail.now.entries (position + 1) hints.old.items }
    ensures resolving { IfOk result (λ _. IsResolving clauses.now trail.now.entries hints.new.items seen.new) }
    ensures pivots { IfOk result (λ _. HasPivotsFrom trail.now.entries position hints.new.items) }
    ensures count { IfOk result (λ _. (floor : ℕ) → position < floor → count_seen seen.new (drop floor trail.now.entries) ≡ count_seen seen.old (drop floor trail.now.entries)) }
    ensures len { IfOk result (λ _. length seen.new ≡ length seen.old) }
{
    let entry = trail.entry(position);
    let pivot = entry.literal.variable;
    if !seen.is_marked(pivot) {
        return Ok(());
    }
    match entry.reason {
        Some(number) => {
            hints.push(Hint {
                clause: number,
                pivot,
            })?;
            seen.unmark(pivot);
            mark_clause(
                trail,
                seen,
                clause_of(clauses, number),
                pivot,
                trail.len(),
                0,
            );
            Ok(())
        }
        None => Ok(()),
    }
}

/// The literals of the clause of the number.
pub(crate) fn clause_of(clauses: &[Clause], number: u64) -> &[Literal]
    ensures { result.now ≡ clause_at clauses.now number }
{
    let index = number.saturating_sub(1) as usize;
    if index < clauses.len() {
        clauses[index].as_slice()
    } else {
        &[]
    }
}

/// Marks the variables of the false clause alone.
fn mark_conflict(
    clauses: &[Clause],
    trail: &Trail,
    seen: &mut Marked,
    conflict: u64,
    floor: usize,
) -> usize
    requires clauses { are_clauses trail.now.variables clauses.now ≡ true }
    requires seen { length seen.old ≡ trail.now.variables }
    ensures count { result ≡ count_seen seen.new (drop floor trail.now.entries) }
    ensures len { length seen.new ≡ length seen.old }
    ensures marks { (v : ℕ) → 1 ≤ v → is_seen seen.new v ≡ mentions (clause_at clauses.now conflict) v }
{
    seen.clear();
    mark_clause(trail, seen, clause_of(clauses, conflict), 0, floor, 0)
}

/// Resolves with the reason of the entry at the position, if it is marked. The result is how many marked entries of
/// the level are left.
fn resolve_entry(
    clauses: &[Clause],
    trail: &Trail,
    seen: &mut Marked,
    hints: &mut Vec<Hint>,
    position: usize,
    level: Level,
    count: usize,
) -> Result<usize, AllocError>
    requires clauses { are_clauses trail.now.variables clauses.now ≡ true }
    requires sound { IsSound trail.now.variables clauses.now trail.now.entries }
    requires implied { NoDecision trail.now.entries (level.floor + level.keep) (length trail.now.entries) }
    requires position { position < length trail.now.entries }
    requires floor { level.floor + level.keep ≤ position }
    requires analysis { IsAnalysis trail.now.variables clauses.now trail.now.entries level.floor level.keep (position + 1) count hints.old.items seen.old }
    requires level { IsLevel clauses.now (literals (take level.floor trail.now.entries)) level.keep }
    ensures analysis { IfOk result (λ n. IsAnalysis trail.now.variables clauses.now trail.now.entries level.floor level.keep position n hints.new.items seen.new) }
{
    let entry = trail.entry(position);
    if !seen.is_marked(entry.literal.variable) {
        return Ok(count);
    }
    match entry.reason {
        Some(reason) => {
            hints.push(Hint {
                clause: reason,
                pivot: entry.literal.variable,
            })?;
            Ok(resolve_at(clauses, trail, seen, position, reason, level.floor, count))
        }
        None => Ok(count),
    }
}

/// Marks what a resolution with the reason of the marked entry at the position gives.
fn resolve_at(
    clauses: &[Clause],
    trail: &Trail,
    seen: &mut Marked,
    position: usize,
    reason: u64,
    floor: usize,
    count: usize,
) -> usize
    requires clauses { are_clauses trail.now.variables clauses.now ≡ true }
    requires seen { length seen.old ≡ trail.now.variables }
    requires sound { IsSound trail.now.variables clauses.now trail.now.entries }
    requires position { position < length trail.now.entries }
    requires floor { floor ≤ position }
    requires reason { (entry_at trail.now.entries position).reason ≡ Some reason }
    requires marked { is_seen_entry seen.old (entry_at trail.now.entries position) ≡ true }
    requires count { count ≡ count_seen seen.old (drop floor trail.now.entries) }
    ensures count { result ≡ count_seen seen.new (drop floor trail.now.entries) }
    ensures len { length seen.new ≡ length seen.old }
    ensures marks { Resolves (entry_at trail.now.entries position).literal.variable (clause_at clauses.now reason) seen.old seen.new }
{
    let pivot = trail.entry(position).literal.variable;
    seen.unmark(pivot);
    mark_clause(
        trail,
        seen,
        clause_of(clauses, reason),
        pivot,
        floor,
        count - 1,
    )
}

/// Marks the variables of the clause but for the pivot. The result is how many entries from `floor` on are marked,
/// as `count` is before.
fn mark_clause(
    trail: &Trail,
    seen: &mut Marked,
    clause: &[Literal],
    pivot: u64,
    floor: usize,
    count: usize,
) -> usize
    requires seen { length seen.old ≡ trail.now.variables }
    requires within { is_within trail.now.variables clause.now ≡ true }
    requires count { count ≡ count_seen seen.old (drop floor trail.now.entries) }
    ensures count { result ≡ count_seen seen.new (drop floor trail.now.entries) }
    ensures len { length seen.new ≡ length seen.old }
    ensures marks { AddsMarks seen.old seen.new pivot clause.now }
{
    let mut count = count;
    for literal in clause {
        if literal.variable != pivot {
            count = mark(trail, seen, literal.variable, floor, count);
        }
    }
    count
}

/// Marks a variable, and counts it where its entry is at `floor` or after it.
fn mark(trail: &Trail, seen: &mut Marked, variable: u64, floor: usize, count: usize) -> usize
    requires positive { 1 ≤ variable }
    requires among { variable ≤ trail.now.variables }
    requires seen { length seen.old ≡ trail.now.variables }
    requires count { count ≡ count_seen seen.old (drop floor trail.now.entries) }
    ensures count { result ≡ count_seen seen.new (drop floor trail.now.entries) }
    ensures marked { seen.new ≡ slice_set seen.old (variable - 1) true }
{
    if seen.is_marked(variable) {
        return count;
    }
    seen.mark(variable);
    if trail.is_at_least(variable, floor) {
        count + 1
    } else {
        count
    }
}
