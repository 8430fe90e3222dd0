//! A plain interpreter of Verilog texts, for tests: it reads a text and runs the modules in it (IEEE 1364-2005).
#![tactic(auto)]

mod cursor;
mod expressions;
pub mod fault;
pub mod machine;
mod registers;
mod shapes;
pub mod text;
pub mod tokens;
pub mod tree;
mod values;
