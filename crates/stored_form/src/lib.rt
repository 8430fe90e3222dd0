//! The canonical form of a design: how each thing that can be said in several ways is kept, and within which limits.
//! The library has the definitions (`specs/`), which the reader meets, the verifier asks for and the printer rests on, and
//! decides them for designs in code.
#![tactic(auto)]

mod attributes;
mod bytes;
pub mod constants;
pub mod dictionaries;
mod kinds;
mod literals;
mod modules;
pub mod names;
mod operations;
mod result_types;
mod types;

pub use modules::is_canonical;
