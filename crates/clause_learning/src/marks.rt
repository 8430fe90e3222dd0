// Positions of the trail up to which propagation was complete.
ghost use Rattle.std.specs.Prelude.{◌≡◌, ◌<◌, ◌≤◌, ◌-◌, true, length, slice_index_or};
ghost use Rattle.resolution_proof.specs.Clause.{is_within};
ghost use Rattle.clause_learning.specs.Trail.{is_after};
ghost use Rattle.clause_learning.specs.Watching.{literal_at};

use crate::packed::PackedLiteral;
use crate::trail::Trail;

/// How many of the marks are at most the position.
pub(crate) fn marks_up_to(marks: &[usize], position: usize) -> usize
    ensures within { result ≤ length marks.now }
    ensures last { 0 < result → slice_index_or marks.now (result - 1) 0 ≤ position }
{
    let mut count = marks.len();
    while count > 0 && marks[count - 1] > position {
        count -= 1;
    }
    count
}

/// The last of the first marks, or 0 where there is none.
pub(crate) fn mark_before(marks: &[usize], count: usize) -> usize
    requires { count ≤ length marks.now }
    ensures none { count ≡ 0 → result ≡ 0 }
    ensures last { 0 < count → result ≡ slice_index_or marks.now (count - 1) 0 }
{
    if count > 0 { marks[count - 1] } else { 0 }
}

/// How many of the marks stand before the entry of the stored clause's second literal or at it.
pub(crate) fn marks_kept(trail: &Trail, marks: &[usize], stored_clause: &[PackedLiteral]) -> usize
    requires { is_within trail.now.variables stored_clause.now ≡ true }
    ensures within { result ≤ length marks.now }
    ensures last { 0 < result → 1 < length stored_clause.now → is_after trail.now.entries (slice_index_or marks.now (result - 1) 0) (literal_at stored_clause.now 1).variable ≡ true }
{
    if stored_clause.len() > 1 {
        marks_before(trail, marks, stored_clause[1].literal().variable)
    } else {
        marks.len()
    }
}

/// How many of the marks stand before the entry of the variable or at it.
fn marks_before(trail: &Trail, marks: &[usize], variable: u64) -> usize
    requires positive { 1 ≤ variable }
    requires among { variable ≤ trail.now.variables }
    ensures within { result ≤ length marks.now }
    ensures last { 0 < result → is_after trail.now.entries (slice_index_or marks.now (result - 1) 0) variable ≡ true }
{
    let mut count = marks.len();
    while count > 0 && !trail.is_at_least(variable, marks[count - 1]) {
        count -= 1;
    }
    count
}
