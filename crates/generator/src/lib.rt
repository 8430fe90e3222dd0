//! Designs of any size that are generated from a seed.
//!
//! `specs/Generated.antt` has the definition: module by module, with numbers that are drawn (`specs/Draws.antt`).
#![tactic(auto)]

mod bodies;
mod designs;
mod draws;
mod laws;
mod modules;
mod operations;
mod symbols;

pub use designs::generate;
pub use laws::generated_designs_are_accepted;
