//! Lowered designs are accepted: each aggregate value becomes its leaves, and the design stays accepted and printable.
//!
//! That a design follows from the one whose aggregates are lowered is a law of `aggregate_laws`; here stands that it is fit
//! as `acceptance_laws` says it (`specs/Names.antt` has what is asked of the names of leaves).
#![tactic(auto)]

mod laws;

pub use laws::{
    joins_are_taken_out, lowered_designs_are_accepted, lowered_designs_are_fit,
    operations_are_regular, registers_become_leaves, resets_come_from_leaves,
};
