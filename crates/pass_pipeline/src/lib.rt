//! Pipelines of passes as text.
#![tactic(auto)]

pub mod laws;
pub mod pass;
pub mod pipeline;
mod step;
mod token;
