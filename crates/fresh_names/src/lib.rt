//! Names that are taken, and free ones.
#![tactic(auto)]

pub mod laws;
pub mod taken_names;
