// The clause that marks tell.
ghost use Rattle.std.specs.Prelude.{◌≡◌, ◌<◌, ◌≤◌, ◌+◌, ◌-◌, ◌^◌, ◌⊎◌, length, take, drop, IfOk, Some};
ghost use Rattle.clause_learning.specs.Trail.{AreApart, literals};
ghost use Rattle.clause_learning.specs.Learning.{count_seen};
ghost use Rattle.clause_learning.specs.Gathering.{Gathers, IsFinished};

use crate::marked::Marked;
use crate::trail::Trail;
use resolution_proof::literal::Literal;
use std::alloc::{AllocError, Global};

/// A clause's literals, and the position after the newest of their entries but for the last literal's.
pub(crate) struct Finished {
    pub(crate) literals: Vec<Literal>,
    pub(crate) start: usize,
}

/// Takes all marks off, and makes the clause that they tell, whose one literal of the newest level comes last.
pub(crate) fn finish(
    alloc: Global,
    trail: &Trail,
    seen: &mut Marked,
    floor: usize,
) -> Result<Finished, AllocError>
    requires seen { length seen.old ≡ trail.now.variables }
    requires count { count_seen seen.old (drop floor trail.now.entries) ≡ 1 }
    ensures finished { IfOk result (λ f. IsFinished seen.old trail.now.entries floor f.literals.items f.start) }
    ensures len { IfOk result (λ _. length seen.new ≡ length seen.old) }
    ensures apart { AreApart trail.now.variables trail.now.entries }
{
    let after = trail.position_after_marked(seen, trail.len());
    let literal = trail.entry(after - 1).literal;
    seen.unmark(literal.variable);
    let Gathered { literals, start } = gather(alloc, trail, seen)?;
    let mut literals = literals;
    literals.push(literal.negation())?;
    Ok(Finished { literals, start })
}

/// The negations of marked entries, and the position after the newest of these entries.
struct Gathered {
    literals: Vec<Literal>,
    start: usize,
}

/// Takes all marks off, and makes a clause of the negations of their entries.
fn gather(alloc: Global, trail: &Trail, seen: &mut Marked) -> Result<Gathered, AllocError>
    requires apart { AreApart trail.now.variables trail.now.entries }
    requires seen { length seen.old ≡ trail.now.variables }
    ensures gathers { IfOk result (λ g. Gathers seen.old trail.now.entries g.literals.items g.start) }
    ensures len { IfOk result (λ _. length seen.new ≡ length seen.old) }
{
    let mut literals = Vec::new(alloc);
    let mut start = 0;
    while let Some(variable) = seen.take() {
        let Some(place) = trail.place(variable) else {
            continue;
        };
        literals.push(trail.entry(place).literal.negation())?;
        start = later(start, place);
    }
    Ok(Gathered { literals, start })
}

/// The position after the place, or `start` where that is later.
fn later(start: usize, place: usize) -> usize
    requires { place < 2 ^ 63 }
    ensures start { start ≤ result }
    ensures place { place < result }
    ensures which { (result ≡ start) ⊎ (result ≡ place + 1) }
{
    if place < start { start } else { place + 1 }
}
