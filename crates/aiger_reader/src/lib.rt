//! Texts in the AIGER format (ASCII, version 1.9), read in one pass over their lines.
#![tactic(auto)]

mod components;
mod cycles;
pub mod drivers;
pub mod fail;
mod fields;
mod header;
mod needs;
pub mod read_aiger;
mod reading;
mod rows;
mod symbols;
pub mod text;
mod undefined;
