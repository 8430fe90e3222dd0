//! The text of a design in the AIGER format (AIGER 1.9, ASCII: A. Biere, The AIGER And-Inverter Graph (AIG) Format, report FMV
//! 07/1, and AIGER 1.9, report FMV 11/2, JKU Linz).
//!
//! `export_aiger` gives the text of the only public module of a design, or tells why there is none.
#![tactic(auto)]

mod bit_names;
pub mod export_aiger;
pub mod fail;
mod laws;
mod public_modules;
mod refusals;
mod step_text;

pub use laws::{exported_texts_run, exports_are_one};
