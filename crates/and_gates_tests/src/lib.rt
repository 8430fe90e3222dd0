//! Tests of the gates of modules whose clocks rise at every step, by the public calls of `and_gates`.
#![tactic(auto)]

#[cfg(test)]
mod steps;
