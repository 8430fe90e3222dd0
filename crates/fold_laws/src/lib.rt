//! Folds of operations: what each pattern of their table makes of a body, and that a design keeps what it does.
#![tactic(auto)]

mod laws;

pub use laws::{
    constants_join_and_go_last, each_pattern_folds, nested_operations_join, operands_go,
    operands_stand, operations_become_constants, parts_stand, unused_operations_go,
};
