// Propagation by watched literals, and clauses learnt from conflicts.
#![tactic(auto)]

pub mod learning;
pub mod marked;
mod marked_clause;
mod marks;
mod minimising;
mod packed;
mod propagation;
mod resolving;
mod stored_clause;
mod stored_clause_state;
mod table;
pub mod trail;
pub mod watched;
mod watcher;
