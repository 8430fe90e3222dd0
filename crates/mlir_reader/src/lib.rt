//! MLIR text to a design, or the first thing in it that is refused.
#![tactic(auto)]

mod body_text;
pub mod definitions;
mod dictionaries;
pub mod draft;
mod file_text;
mod kinds;
pub mod laws;
mod module_text;
pub mod names;
mod own_names;
pub mod read;
mod resolving;
mod results;
mod sizes;
