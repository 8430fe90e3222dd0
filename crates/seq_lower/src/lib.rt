//! Registers with enables and synchronous resets lowered to plain registers, muxes deciding what they load.
#![tactic(auto)]

mod edits;
mod laws;
mod new_ops;
pub mod registers;

pub use laws::{lowering_follows, lowering_leaves_none};
