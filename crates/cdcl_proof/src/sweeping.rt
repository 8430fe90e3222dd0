// Pairs of literals that a guide proposes, tried one after another.
ghost use Rattle.std.specs.Prelude.{◌≡◌, ◌≤◌, ◌<◌, ◌+◌, ◌-◌, IfOk, IfSome, IsNone, true, length};
ghost use Rattle.resolution_proof.specs.Fresh.{is_closed};
ghost use Rattle.clause_learning.specs.Trail.{literals, entry_at};
ghost use Rattle.cdcl_proof.specs.Search.{IsSearching, AllWait};
ghost use Rattle.cdcl_proof.specs.Sweeping.{IsOpen, CanMove, IsTried, IsSwept};

use crate::guide::{Guide, Outcome, Pair};
use crate::solve::Search;
use clause_learning::learning::Depth;
use clause_learning::trail::Trail;
use resolution_proof::literal::Literal;
use std::alloc::{AllocError, Global};

/// How many conflicts the trial of a pair may cost.
const SHARE: u64 = 1000;

/// How a sweep ended.
#[derive(Clone, Copy)]
pub(crate) enum Swept {
    /// With some clauses left to learn.
    Open,
    /// With the number of a clause that is false, where no decision is left to take back.
    Conflict(u64),
    /// With the budget's number of clauses learnt.
    Spent,
}

/// How the trial of a pair ended.
#[derive(Clone, Copy)]
pub(crate) enum Trial {
    /// With this outcome, and some clauses left to learn.
    Ended(Outcome),
    /// With the number of a clause that is false, where no decision is left to take back.
    Conflict(u64),
    /// With the budget's number of clauses learnt.
    Spent,
}

/// What a trial does next.
#[derive(Clone, Copy)]
pub(crate) enum Move {
    Assume(Literal),
    End(Outcome),
}

/// How far a conflict of a trial is resolved: down to decisions, where there are no more than the pair's two.
fn depth_of(trail: &Trail, floor: usize) -> Depth
    requires floor { floor < length trail.now.entries }
    requires decision { IsNone (entry_at trail.now.entries floor).reason }
{
    let first = trail.decision_from(0, floor);
    if first == floor || trail.decision_from(first + 1, floor) == floor {
        Depth::Decisions
    } else {
        Depth::FirstPoint
    }
}

impl Search<'_> {
    /// Tries the guide's pairs, one after another.
    pub(crate) fn sweep<G: Guide>(
        &mut self,
        alloc: Global,
        guide: &mut G,
        budget: u64,
    ) -> Result<Swept, AllocError>
        requires searching { IsSearching self.old }
        requires waiting { AllWait self.old }
        requires budget { length self.old.chains.items < budget }
        ensures searching { IfOk result (λ _. IsSearching self.new) }
        ensures waiting { IfOk result (λ _. AllWait self.new) }
        ensures formula { IfOk result (λ _. self.new.cnf.now ≡ self.old.cnf.now) }
        ensures swept { IfOk result (IsSwept budget self.new) }
    {
        let mut fuel = self
            .watched
            .variables()
            .saturating_mul(4)
            .saturating_add(64);
        while fuel > 0 {
            fuel -= 1;
            let Some(pair) = guide.next_pair()? else {
                return Ok(Swept::Open);
            };
            self.back_to_root()?;
            match self.trial(alloc, pair, guide.near(), budget)? {
                Trial::Ended(outcome) => guide.tell(outcome, &self.watched)?,
                Trial::Conflict(conflict) => return Ok(Swept::Conflict(conflict)),
                Trial::Spent => return Ok(Swept::Spent),
            }
        }
        Ok(Swept::Open)
    }

    /// Tries whether the pair's first literal implies its second: assumes the first and the negation of the second, and
    /// decides on near variables until a conflict shows that both cannot be, or nothing is left to decide.
    fn trial(
        &mut self,
        alloc: Global,
        pair: Pair,
        near: &[u64],
        budget: u64,
    ) -> Result<Trial, AllocError>
        requires searching { IsSearching self.old }
        requires waiting { AllWait self.old }
        requires budget { length self.old.chains.items < budget }
        ensures searching { IfOk result (λ _. IsSearching self.new) }
        ensures waiting { IfOk result (λ _. AllWait self.new) }
        ensures formula { IfOk result (λ _. self.new.cnf.now ≡ self.old.cnf.now) }
        ensures tried { IfOk result (IsTried budget self.new) }
    {
        let mut share = SHARE;
        loop {
            match self.propagate()? {
                Some(conflict) => match self.last_decision() {
                    Some(floor) => {
                        let depth = depth_of(self.watched.trail(), floor);
                        self.resolve_conflict(alloc, conflict, floor, depth)?;
                        if self.chains.len() as u64 == budget {
                            return Ok(Trial::Spent);
                        }
                        if share == 0 {
                            return Ok(Trial::Ended(Outcome::GaveUp));
                        }
                        share -= 1;
                    }
                    None => return Ok(Trial::Conflict(conflict)),
                },
                None => match self.next_move(pair, near) {
                    Move::Assume(literal) => self.assume(literal),
                    Move::End(outcome) => return Ok(Trial::Ended(outcome)),
                },
            }
        }
    }

    /// Assumes the literal.
    fn assume(&mut self, literal: Literal)
        requires searching { IsSearching self.old }
        requires waiting { AllWait self.old }
        requires closed { is_closed (literals self.old.watched.entries) self.old.watched.clauses ≡ true }
        requires open { IsOpen self.old.watched.variables (literals self.old.watched.entries) literal }
        ensures searching { IsSearching self.new }
        ensures waiting { AllWait self.new }
        ensures formula { self.new.cnf.now ≡ self.old.cnf.now }
        ensures chains { self.new.chains ≡ self.old.chains }
        ensures longer { length self.new.watched.entries ≡ length self.old.watched.entries + 1 }
        ensures room { length self.new.watched.entries ≤ self.new.watched.variables }
    {
        self.watched.assume(literal);
    }

    /// What a trial does where nothing is left to propagate. It costs a walk over the near variables.
    fn next_move(&self, pair: Pair, near: &[u64]) -> Move
        ensures { CanMove self.now.watched.variables (literals self.now.watched.entries) result }
    {
        if self.watched.is_true(pair.first.negation()) || self.watched.is_true(pair.second) {
            return Move::End(Outcome::Proved);
        }
        if self.watched.is_open(pair.first) {
            return Move::Assume(pair.first);
        }
        let denied = pair.second.negation();
        if self.watched.is_open(denied) {
            return Move::Assume(denied);
        }
        match self.highest(near) {
            Some(literal) => Move::Assume(literal),
            None => Move::End(Outcome::Refuted),
        }
    }

    /// A literal of the unassigned variable of the highest activity among those, with its saved phase.
    fn highest(&self, variables: &[u64]) -> Option<Literal>
        ensures { IfSome result (IsOpen self.now.watched.variables (literals self.now.watched.entries)) }
    {
        let mut best = None;
        for variable in variables {
            best = self.higher(best, *variable);
        }
        best
    }

    /// The literal of the variable, if it has no value and more activity than the best one so far.
    fn higher(&self, best: Option<Literal>, variable: u64) -> Option<Literal>
        requires { IfSome best (IsOpen self.now.watched.variables (literals self.now.watched.entries)) }
        ensures { IfSome result (IsOpen self.now.watched.variables (literals self.now.watched.entries)) }
    {
        let literal = Literal {
            variable,
            positive: self.phase(variable),
        };
        if !self.watched.is_open(literal) {
            return best;
        }
        match best {
            Some(other) if self.order.activity(variable) <= self.order.activity(other.variable) =>
                best,
            _ => Some(literal),
        }
    }
}
