//! How a design is written as Verilog, as the option `--lowering-options` says.
#![tactic(auto)]

pub mod lowering;
