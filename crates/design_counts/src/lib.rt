//! How much there is in a design: operations, public modules, registers.
#![tactic(auto)]

mod operations;
mod registers;

pub use operations::{operation_count, public_count};
pub use registers::public_register_count;
