//! What texts in the AIGER format mean (AIGER 1.9, ASCII): the tree of a text, what its literals stand for, steps and runs,
//! and which texts there are.
#![tactic(auto)]

pub mod fault;
pub mod laws;
pub mod tree;
