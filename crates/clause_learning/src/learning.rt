// Conflict analysis: the learnt clause of a conflict, by resolution back to the first unique implication point.
ghost use Rattle.std.specs.Prelude.{◌≡◌, ◌<◌, ◌+◌, ◌-◌, true, [], length, drop, IfOk, IsNone};
ghost use Rattle.resolution_proof.specs.Formula.{are_clauses};
ghost use Rattle.resolution_proof.specs.Replay.{derives};
ghost use Rattle.resolution_proof.specs.Regular.{is_regular};
ghost use Rattle.clause_learning.specs.Trail.{IsSound, literals, entry_at, NoDecision};
ghost use Rattle.clause_learning.specs.Learning.{count_seen};
ghost use Rattle.clause_learning.specs.Propagation.{IsConflict};
ghost use Rattle.clause_learning.specs.Resolving.{IsResolving, IsLearntClause};

use crate::marked::Marked;
use crate::marked_clause::{Finished, finish};
use crate::minimising::minimise;
use crate::resolving::{Level, resolve_below, resolve_down, resolve_level};
use crate::trail::Trail;
use resolution_proof::clause::Clause;
use resolution_proof::log::{Hint, HintList, Step};
use std::alloc::{AllocError, Global};

/// A learnt clause, and the position of the trail to which the search goes back.
#[derive(Drop)]
pub struct LearntClause {
    pub step: Step,
    pub position: usize,
}

/// What of a conflict's literals is left once their reasons are resolved with.
#[derive(Clone, Copy)]
pub enum Depth {
    /// One literal of the newest level, the first one that is alone there, and literals of earlier levels that no
    /// reason takes off.
    FirstPoint,
    /// Decisions alone.
    Decisions,
}

/// The learnt clause of a conflict: it has one literal of the newest level, which begins at `floor`.
pub fn learn(
    alloc: Global,
    clauses: &[Clause],
    trail: &Trail,
    seen: &mut Marked,
    conflict: u64,
    floor: usize,
    depth: Depth,
) -> Result<LearntClause, AllocError>
    requires clauses { are_clauses trail.now.variables clauses.now ≡ true }
    requires seen { length seen.old ≡ trail.now.variables }
    requires sound { IsSound trail.now.variables clauses.now trail.now.entries }
    requires conflict { IsConflict clauses.now (literals trail.now.entries) conflict }
    requires floor { floor < length trail.now.entries }
    requires decision { IsNone (entry_at trail.now.entries floor).reason }
    requires newest { NoDecision trail.now.entries (floor + 1) (length trail.now.entries) }
    ensures learnt { IfOk result (λ l. IsLearntClause trail.now.variables clauses.now trail.now.entries l.step l.position) }
    ensures len { IfOk result (λ _. length seen.new ≡ length seen.old) }
{
    let hints = resolve(alloc, clauses, trail, seen, conflict, floor, depth)?;
    let Finished { literals, start } = finish(alloc, trail, seen, floor)?;
    let position = trail.decision_from(start, floor);
    Ok(LearntClause {
        step: Step {
            clause: Clause::from_distinct(literals),
            hints: HintList::from_vec(hints),
        },
        position,
    })
}

/// The resolutions of a conflict. The marks then tell the variables of the clause that they give.
fn resolve(
    alloc: Global,
    clauses: &[Clause],
    trail: &Trail,
    seen: &mut Marked,
    conflict: u64,
    floor: usize,
    depth: Depth,
) -> Result<Vec<Hint>, AllocError>
    requires clauses { are_clauses trail.now.variables clauses.now ≡ true }
    requires seen { length seen.old ≡ trail.now.variables }
    requires sound { IsSound trail.now.variables clauses.now trail.now.entries }
    requires conflict { IsConflict clauses.now (literals trail.now.entries) conflict }
    requires floor { floor < length trail.now.entries }
    requires decision { IsNone (entry_at trail.now.entries floor).reason }
    requires newest { NoDecision trail.now.entries (floor + 1) (length trail.now.entries) }
    ensures resolving { IfOk result (λ h. IsResolving clauses.now trail.now.entries h.items seen.new) }
    ensures count { IfOk result (λ _. count_seen seen.new (drop floor trail.now.entries) ≡ 1) }
    ensures len { IfOk result (λ _. length seen.new ≡ length seen.old) }
{
    match depth {
        Depth::FirstPoint => resolve_to_point(alloc, clauses, trail, seen, conflict, floor),
        Depth::Decisions => resolve_to_decisions(alloc, clauses, trail, seen, conflict, floor),
    }
}

/// The resolutions that leave one literal of the newest level.
fn resolve_to_point(
    alloc: Global,
    clauses: &[Clause],
    trail: &Trail,
    seen: &mut Marked,
    conflict: u64,
    floor: usize,
) -> Result<Vec<Hint>, AllocError>
    requires clauses { are_clauses trail.now.variables clauses.now ≡ true }
    requires seen { length seen.old ≡ trail.now.variables }
    requires sound { IsSound trail.now.variables clauses.now trail.now.entries }
    requires conflict { IsConflict clauses.now (literals trail.now.entries) conflict }
    requires floor { floor < length trail.now.entries }
    requires decision { IsNone (entry_at trail.now.entries floor).reason }
    requires newest { NoDecision trail.now.entries (floor + 1) (length trail.now.entries) }
    ensures resolving { IfOk result (λ h. IsResolving clauses.now trail.now.entries h.items seen.new) }
    ensures count { IfOk result (λ _. count_seen seen.new (drop floor trail.now.entries) ≡ 1) }
    ensures len { IfOk result (λ _. length seen.new ≡ length seen.old) }
{
    let mut hints = resolve_down(
        alloc,
        clauses,
        trail,
        seen,
        conflict,
        Level { floor, keep: 1 },
    )?;
    minimise(alloc, clauses, trail, seen, &mut hints, floor)?;
    Ok(hints)
}

/// The resolutions that leave decisions alone. It costs a walk over the trail.
fn resolve_to_decisions(
    alloc: Global,
    clauses: &[Clause],
    trail: &Trail,
    seen: &mut Marked,
    conflict: u64,
    floor: usize,
) -> Result<Vec<Hint>, AllocError>
    requires clauses { are_clauses trail.now.variables clauses.now ≡ true }
    requires seen { length seen.old ≡ trail.now.variables }
    requires sound { IsSound trail.now.variables clauses.now trail.now.entries }
    requires conflict { IsConflict clauses.now (literals trail.now.entries) conflict }
    requires floor { floor < length trail.now.entries }
    requires decision { IsNone (entry_at trail.now.entries floor).reason }
    requires newest { NoDecision trail.now.entries (floor + 1) (length trail.now.entries) }
    ensures resolving { IfOk result (λ h. IsResolving clauses.now trail.now.entries h.items seen.new) }
    ensures count { IfOk result (λ _. count_seen seen.new (drop floor trail.now.entries) ≡ 1) }
    ensures len { IfOk result (λ _. length seen.new ≡ length seen.old) }
{
    let mut hints = resolve_level(alloc, clauses, trail, seen, conflict, floor)?;
    resolve_below(clauses, trail, seen, &mut hints, floor)?;
    Ok(hints)
}

/// The last step: with no decision on the trail a conflict gives the empty clause.
pub fn refute(
    alloc: Global,
    clauses: &[Clause],
    trail: &Trail,
    seen: &mut Marked,
    conflict: u64,
) -> Result<Step, AllocError>
    requires clauses { are_clauses trail.now.variables clauses.now ≡ true }
    requires seen { length seen.old ≡ trail.now.variables }
    requires sound { IsSound trail.now.variables clauses.now trail.now.entries }
    requires conflict { IsConflict clauses.now (literals trail.now.entries) conflict }
    requires decisions { NoDecision trail.now.entries 0 (length trail.now.entries) }
    ensures empty { IfOk result (λ s. s.clause ≡ []) }
    ensures derived { IfOk result (λ s. derives clauses.now s.hints [] ≡ true) }
    ensures regular { IfOk result (λ s. is_regular clauses.now s.hints ≡ true) }
    ensures len { IfOk result (λ _. length seen.new ≡ length seen.old) }
{
    let hints = resolve_down(
        alloc,
        clauses,
        trail,
        seen,
        conflict,
        Level { floor: 0, keep: 0 },
    )?;
    Ok(Step {
        clause: Clause::empty(alloc),
        hints: HintList::from_vec(hints),
    })
}
