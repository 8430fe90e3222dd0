//! What an MLIR text says of operations, token by token: operands, elements of assembly formats, instances, operations and
//! headers of modules, with no name resolved.
#![tactic(auto)]

pub mod element_text;
pub mod instance_text;
pub mod operand_text;
pub mod operation_names;
pub mod operation_text;
pub mod port_text;
pub mod syntax;
mod type_elements;
