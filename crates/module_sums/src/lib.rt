//! What is summed over a module and all that it instances, without a copy of any.
#![tactic(auto)]

mod below;
mod leaf_runs;
mod registers;

pub use below::modules_below;
pub use leaf_runs::type_runs;
pub use registers::register_runs;
