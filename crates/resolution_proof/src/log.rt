// Logs of a solver: learnt clauses, each with the resolutions that give it.

use crate::clause::Clause;
use crate::items::Items;

/// One clause of a chain of resolutions: the number of a clause, and the variable on which it is resolved with
/// the clause that the chain has given so far. Clauses are numbered from 1, the formula's first and then the
/// steps'. The first hint of a step begins the chain: its pivot is 0 and is not used.
#[derive(Clone, Copy, PartialEq, Eq)]
pub struct Hint {
    pub clause: u64,
    pub pivot: u64,
}

/// The hints of a step, in the order of the resolutions.
pub type HintList = Items<Hint>;

/// A clause with the chain of resolutions that gives it.
#[derive(Drop)]
pub struct Step {
    pub clause: Clause,
    pub hints: HintList,
}

/// The steps of a solver in order.
pub type Log = Items<Step>;
