//! Texts in the AIGER format as designs.
//!
//! `import_aiger` reads a text and gives the design that it says, verified.
#![tactic(auto)]

mod bodies;
mod designs;
pub mod import_text;
mod names;
mod operands;
mod operations;
mod places;
mod ports;
