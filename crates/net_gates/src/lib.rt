//! The gates of flattened modules, and the miter of two of them.
#![tactic(auto)]

pub mod laws;
