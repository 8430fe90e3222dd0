//! What a Verilog text means: the text that is read, and what its modules do.
#![tactic(auto)]

mod laws;
mod literals;

pub use laws::one_tree;
pub use literals::{high_of, push_decimal, push_hex, push_literal};
