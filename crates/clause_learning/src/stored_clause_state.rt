// What a stored clause of literals is under the trail.
ghost use Rattle.std.specs.Prelude.{List, ◌⊎◌, ◌≡◌, ◌<◌, ◌≤◌, ◌-◌, true, length};
ghost use Rattle.resolution_proof.specs.declared.literal.Literal.{Literal};
ghost use Rattle.resolution_proof.specs.Literal.{negation, holds};
ghost use Rattle.resolution_proof.specs.Clause.{is_within};
ghost use Rattle.clause_learning.specs.Trail.{literals};
ghost use Rattle.clause_learning.specs.Watching.{literal_at, IsStored, slot_of};
ghost use Rattle.clause_learning.specs.Watcher.{IsStoredClauseState};

use crate::packed::PackedLiteral;
use crate::stored_clause::StoredClause;
use crate::trail::Trail;
use resolution_proof::literal::Literal;

/// What a stored clause is under the trail, when one of its two watched literals is false.
#[derive(Clone, Copy)]
pub(crate) enum StoredClauseState {
    /// The other watched literal is true.
    Satisfied,
    /// The literal at this position is not false.
    Open(usize),
    /// All literals but this one, which is open, are false.
    Implied(Literal),
    /// All literals are false.
    False,
}

/// The position of the literal that the list of the slot watches, of the first two.
pub(crate) fn watched_position(stored_clause: &[PackedLiteral], slot: usize) -> usize
    requires { 1 ≤ length stored_clause.now }
    ensures low { result < 2 }
    ensures watched { (slot_of (literal_at stored_clause.now 0) ≡ slot) ⊎ (slot_of (literal_at stored_clause.now 1) ≡ slot) → slot_of (literal_at stored_clause.now result) ≡ slot }
{
    if stored_clause[0].slot() == slot {
        0
    } else {
        1
    }
}

/// What the stored clause is, of which the watched literal at the position is false.
pub(crate) fn read_stored_clause(
    trail: &Trail,
    stored_clause: &[PackedLiteral],
    position: usize,
) -> StoredClauseState
    requires within { is_within trail.now.variables stored_clause.now ≡ true }
    requires long { 2 ≤ length stored_clause.now }
    requires position { position < 2 }
    requires watched { holds (literals trail.now.entries) (negation (literal_at stored_clause.now position)) ≡ true }
    ensures { IsStoredClauseState (literals trail.now.entries) stored_clause.now result }
{
    let other = stored_clause[1 - position].literal();
    if trail.is_true(other) {
        return StoredClauseState::Satisfied;
    }
    for k in 2..stored_clause.len() {
        let literal = stored_clause[k].literal();
        if !trail.is_true(literal.negation()) {
            return StoredClauseState::Open(k);
        }
    }
    if trail.is_true(other.negation()) {
        StoredClauseState::False
    } else {
        StoredClauseState::Implied(other)
    }
}

/// Puts the last two literals first, the last one foremost.
pub(crate) fn bring_last(stored_clause: &mut StoredClause)
    requires { 0 < length stored_clause.old }
    ensures same { (clause : List Literal) → IsStored clause stored_clause.old → IsStored clause stored_clause.new }
    ensures first { literal_at stored_clause.new 0 ≡ literal_at stored_clause.old (length stored_clause.old - 1) }
{
    let len = stored_clause.as_slice().len();
    if len > 2 {
        stored_clause.swap(0, len - 1);
        stored_clause.swap(1, len - 2);
    } else if len > 1 {
        stored_clause.swap(0, 1);
    }
}
