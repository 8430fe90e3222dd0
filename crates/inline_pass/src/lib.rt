//! Passes on the modules of a design: `hw-flatten-modules`, by which each instance of a private module becomes the body
//! of that module, and `symbol-dce`, by which private modules that no public one reaches by instances are taken out.
#![tactic(auto)]

mod body_changes;
pub mod callees;
pub mod dead_modules;
pub mod flattening;
mod forwarding;
pub mod inlining;
mod laws;
mod makers;
mod moved_ops;
mod passing;
pub mod received;
mod renamed_ops;

pub use laws::{dead_modules_go_once, flattening_keeps, symbol_dce_keeps};
