//! The law of lowering aggregates: each aggregate value becomes its leaves.
//!
//! A design follows from a valid one where each module has the leaves of the other's values (`specs/Lowered.antt`), and so
//! does the design that rules make of it (`specs/Rules.antt`), by which each operation becomes a block of operations. What
//! each kind of operation becomes stands in `specs/OperationRules.antt`, `specs/Choices.antt` and
//! `specs/Bitcasts.antt`; the rules for all operations stand in `specs/Aggregates.antt`.
#![tactic(auto)]

mod laws;

pub use laws::{
    aggregates_preserve, anchors_split, bitcasts_split, elements_split, fields_split, joins_split,
    leaves_split, lowering_preserves, rules_preserve,
};
