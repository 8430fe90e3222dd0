//! Step files: the content of a module's registers and the inputs of its steps, as texts.
#![tactic(auto)]

pub mod fail;
mod literal;
mod rows;
pub mod step_file;
