//! Expressions of Verilog for the values of a design's body.
#![tactic(auto)]

pub mod expr;
pub mod extending;
mod form;
mod height_table;
mod info;
mod laws;
mod marks;
mod nesting;
mod node;
mod places;
pub mod scope;
mod template;
pub mod value_names;
pub mod wires;

pub use nesting::hint_in;
