//! The opcodes of the operations that this project reads, with their names.
#![tactic(auto)]

pub mod listed;
