//! Steps of a flat module without aggregates, over one table of words.
#![tactic(auto)]

pub mod laws;
pub mod made;
pub mod plan;
pub mod registers;
pub mod run_laws;
mod start;
pub mod steps;
pub mod tables;
