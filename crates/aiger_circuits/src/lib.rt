//! The tree of a circuit of two-input gates, and how it is written (AIGER 1.9, ASCII).
#![tactic(auto)]

pub mod laws;
pub mod write;
