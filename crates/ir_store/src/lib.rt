//! Designs and the bodies of their modules, as a program keeps and changes them.
//!
//! A body is a list of operations in text order. Each has an id that stays while the body changes; contracts see a body
//! by `ops_of`, the list of its operations with their ids, and by `numbered`, the list that definitions speak of, in
//! which an operand names an operation by its position.
#![tactic(auto)]

mod blocks;
pub mod body;
mod cells;
mod chained_values;
pub mod design;
pub mod dictionary;
pub mod ids;
mod laws;
mod operand_lists;
mod operand_uses;
mod operands;
pub mod operation;
pub mod ops;
mod order;
pub mod short_list;
pub mod uses;

pub use laws::{
    additions_by_position, erasures_by_position, ids_are_distinct, operands_by_position,
    replacements_by_position,
};
