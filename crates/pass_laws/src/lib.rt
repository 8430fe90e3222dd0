//! What every pass keeps of a design, and how what passes keep composes.
#![tactic(auto)]

mod laws;

pub use laws::{edits_keep_shape, identity_keeps, laws_compose, steady_designs_compose};
