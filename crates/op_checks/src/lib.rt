//! Why an operation is refused by itself: its operands, types and results, by cases on its kind.
#![tactic(auto)]

pub mod count_checks;
pub mod limit_checks;
pub mod literal_checks;
pub mod operand_checks;
pub mod own_checks;
mod own_laws;
pub mod result_checks;
pub mod type_checks;
pub mod type_lists;
pub mod type_parts;

pub use own_laws::operations_fit;
