//! The rules by which operations are lowered to those of the leaves of their values (CIRCT, HW dialect: `hw-lower-aggregates`).
//!
//! Here are the leaves of ports, with their names, for each operation by which rule it is lowered, where its leaves stand, and what it becomes.
#![tactic(auto)]

pub mod arguments;
mod bitcast_rules;
pub mod blocks;
mod choice_rules;
mod forms;
pub mod instances;
mod laws;
pub mod leaf_table;
mod leaf_texts;
pub mod leaf_types;
mod leafwise_rules;
mod literal_numbers;
mod made_ops;
mod pieces;
pub mod port_leaves;
mod register_operands;
mod shapes;
mod struct_parts;
mod written_types;

pub use laws::{lowering_follows, ports_are_split};
