//! Bodies in code as passes read and edit them: how edits by ids are edits of the operations by positions, and what is read at an
//! operation and of those that made its operands.
#![tactic(auto)]

pub mod constants;
pub mod edits;
pub mod in_place;
mod laws;
pub mod made_parts;
pub mod nested;
pub mod numbers;
pub mod operand_choices;
pub mod operands;
pub mod purity;
pub mod reading;
pub mod site;
pub mod spliced;
pub mod splices;
pub mod wires;

pub use laws::{erasures, operand_changes, replacements};
