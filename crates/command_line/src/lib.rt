//! The words of the command line: made regular, read by `clap`, and answered as an invocation.
#![tactic(auto)]

mod arguments;
mod commands;
pub mod comparison;
pub mod invocation;
pub mod normalise;
mod numbers;
mod passes;
pub mod recipe;
pub mod translations;
pub mod usage;
mod values;
pub mod workers;
mod works;
