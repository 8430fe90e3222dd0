//! Names made legal in Verilog: their bytes, no reserved word, none twice.
#![tactic(auto)]

mod cleaning;
pub mod laws;
pub mod names;
mod reserved;
