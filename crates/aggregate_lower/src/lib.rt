//! Aggregates lowered: each value of an aggregate type becomes its leaves (CIRCT, HW dialect: `hw-lower-aggregates`).
//!
//! `specs/Lowering.antt` says what becomes of a design.
#![tactic(auto)]

mod aggregates;
mod laws;
pub mod lowering;
mod made;
mod places;

pub use laws::lowering_keeps;
