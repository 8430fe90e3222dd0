// Formulas in conjunctive normal form, assignments, and proofs by resolution that can be replayed.
#![tactic(auto)]

pub mod assignment;
pub mod clause;
pub mod cnf;
pub mod items;
pub mod literal;
pub mod log;
pub mod replay;
