//! The design that a text in the AIGER format says, and what is known of it.
//!
//! `specs/Built.antt` has the definition: one module with constants, and then the operations of latches, gates and outputs, in order.
#![tactic(auto)]

pub mod accepted;
pub mod laws;
