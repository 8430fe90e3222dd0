//! Circuits of two-input and gates, built gate by gate, and the clauses that say the same (Tseitin, 1968).
#![tactic(auto)]

pub mod circuit;
pub mod clauses;
pub mod laws;
pub mod signal;
