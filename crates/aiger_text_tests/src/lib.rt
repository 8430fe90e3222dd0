//! Tests of imported designs.
#![tactic(auto)]

#[cfg(test)]
mod texts;
