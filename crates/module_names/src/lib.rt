//! The names of the ports and the registers of a flat module, as its Verilog has them.
#![tactic(auto)]

mod names;

pub use names::all_names;
