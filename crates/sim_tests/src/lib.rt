//! Tests of step files and of runs, by the public calls of their crates.
#![tactic(auto)]

#[cfg(test)]
mod lines;
#[cfg(test)]
mod simulations;
#[cfg(test)]
mod step_files;
