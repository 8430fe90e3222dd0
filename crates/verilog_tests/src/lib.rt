//! Tests of Verilog texts that are run, and of legal names, by the public calls of their crates.
#![tactic(auto)]

#[cfg(test)]
mod expressions;
#[cfg(test)]
mod legal_names;
#[cfg(test)]
mod second_events;
#[cfg(test)]
mod text_runs;
