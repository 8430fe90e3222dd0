//! What a design of the hw, comb and seq dialects means.
//!
//! `specs/` has the definitions: types, kinds of operations, designs, the value of each operation, the flattened module
//! and where its nets' values come from, machines, steps and runs, weights, and sound designs. The laws on them are the
//! clauses of functions that do nothing.
//!
//! [`types`] and [`kinds`] are what a program keeps of types and kinds, [`registers`] the operands of registers; contracts see
//! them by their views. [`families`] says what an operation has in common with others.
#![tactic(auto)]

pub mod families;
pub mod integer_values;
pub mod kinds;
mod laws;
pub mod registers;
mod same_kinds;
pub mod types;

pub use laws::{
    agreeing_modules_run_alike, heights_are_acyclic, locations_decide_nothing, one_map_settles,
    opcodes_tell_kinds, resets_follow_inputs, same_behaviour, weights_follow_bodies,
    widths_fit_types,
};
