//! The operations of a body by their positions in text order, and the positions of ids.
#![tactic(auto)]

pub mod op_index;
pub mod position_table;
