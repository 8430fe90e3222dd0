//! Runs of modules, printed.
//!
//! `specs/Simulations.antt` says what is printed of a run, and what is refused.
#![tactic(auto)]

pub mod fail;
mod flat_run;
mod lines;
pub mod simulation;

pub use simulation::simulate;
