//! The program: what it does for its words, its files and its sinks.
//!
//! [`run::run_circt`] is the whole program over any files and sinks.
#![tactic(auto)]

mod accepting;
mod aiger_causes;
mod checking;
mod comparing;
mod delivery;
mod exporting;
mod generation;
mod importing;
mod inputs;
mod made;
mod outcome;
mod pieces;
mod report;
pub mod run;
mod simulating;
pub mod status;
mod summary;
mod translation;

pub use pass_manager::gate::{Gate, Open};
pub use report::stop;
