//! Refusals: where a text or a design is refused, at which operation, why, and the line that says so.
#![tactic(auto)]

pub mod cause;
pub mod line;
pub mod refusal;
