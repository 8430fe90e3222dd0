//! What a worker knows of a schedule. No value of these types is made: they are for the proofs alone.

use crate::plan::Plan;
use std::collections::LinkedList;

/// What a worker has to do with a module.
pub enum Hold {
    /// It is to work it.
    Due,
    /// It has taken its body.
    Begun,
    /// It has put its finished body.
    Over,
}

/// Which slot is out with a worker.
pub enum TableSlot {
    Nowhere,
    /// The slot of a module.
    Body(u32),
    /// The slot of an edge: its caller, and its position in the caller's list of callees.
    Edge(u32, u32),
}

/// What a worker knows: lists that only grow, the newest entry first.
pub struct View<P> {
    /// What the schedule is about; none once the worker has gone.
    pub plan: Option<Plan<P>>,
    /// The modules that it came to owe, took and did.
    pub moves: LinkedList<(u32, Hold)>,
    /// The edges that it emptied.
    pub emptied: LinkedList<(u32, u32)>,
    /// The edges that it reported.
    pub told: LinkedList<(u32, u32)>,
    /// Whether it has drawn past the leaves.
    pub passed: bool,
    /// How often it has split.
    pub splits: u32,
    /// How many workers it is, those counted that it has gathered.
    pub shares: u32,
    /// The slot that is out with it.
    pub out: TableSlot,
}
