// What a clause is under the literals of a trail.
ghost use Rattle.std.specs.Prelude.{◌≡◌, true};
ghost use Rattle.resolution_proof.specs.Clause.{is_within};
ghost use Rattle.clause_learning.specs.Trail.{literals};
ghost use Rattle.clause_learning.specs.Propagation.{IsState};

use crate::trail::Trail;
use resolution_proof::literal::Literal;

/// What a clause is under a trail.
#[derive(Clone, Copy)]
pub(crate) enum State {
    /// It is true, or two of its literals are open.
    Closed,
    /// All its literals but this open one are false.
    Open(Literal),
    /// All its literals are false.
    False,
}

/// What the clause is under the literals of the trail.
pub(crate) fn state_of(trail: &Trail, clause: &[Literal]) -> State
    requires { is_within trail.now.variables clause.now ≡ true }
    ensures { IsState (literals trail.now.entries) clause.now result }
{
    let mut single: Option<Literal> = None;
    for literal in clause {
        match trail.value(*literal) {
            Some(true) => return State::Closed,
            Some(false) => {}
            None => {
                if single.is_some() {
                    return State::Closed;
                }
                single = Some(*literal);
            }
        }
    }
    match single {
        Some(literal) => State::Open(literal),
        None => State::False,
    }
}
