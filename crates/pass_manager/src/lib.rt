//! Passes over a design: what a list of them makes of it.
#![tactic(auto)]

mod bodies;
pub mod body_pass;
mod body_work;
mod callees;
mod flat_work;
mod flattening;
pub mod for_export;
pub mod gate;
mod laws;
mod owners;
mod public_modules;
pub mod run;

pub use aggregate_lower::lowering_keeps;
pub use laws::{exports_follow, passes_keep, result_once, results_follow};
