//! Flat modules with their nets in order.
#![tactic(auto)]

pub mod laws;
