//! The canonical form of a body: patterns of the table of folds are tried at each operation, until none matches.
#![tactic(auto)]

pub mod canonicalize;
mod laws;
mod marks;
mod reach_laws;
mod runs;
mod visits;

pub use laws::{canonical_bodies_are_folded, canonical_bodies_once, folds_follow};
pub use reach_laws::patterns_stay_quiet;
