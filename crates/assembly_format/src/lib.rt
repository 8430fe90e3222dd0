//! The assembly formats of operations: which pieces stand after an operation's name.
#![tactic(auto)]

pub mod elements;
pub mod formats;
