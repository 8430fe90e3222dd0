//! A plain interpreter of designs: it computes nets, steps and runs by the definitions of `hw_model`, with no sharing and no
//! order of its own. Tests of faster parts take their values from it.
#![tactic(auto)]

pub mod design;
mod joins;
pub mod machine;
pub mod modules;
pub mod nets;
pub mod registers;
