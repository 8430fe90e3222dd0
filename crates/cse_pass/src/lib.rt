//! Elimination of common subexpressions: equal pure operations of a body are merged, and those without uses go.
#![tactic(auto)]

mod along;
pub mod cse;
mod equal_constants;
mod equal_ops;
mod groups;
mod hashes;
mod laws;
mod levels;
mod merges;
mod trims;
pub mod unused_aggregates;

pub use laws::{cse_follows, cse_leaves_none, cse_once};
