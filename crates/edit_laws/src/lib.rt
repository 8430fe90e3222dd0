//! Edits of a module's body that keep a design valid and what its modules do.
//!
//! An edit says where each operation of a body goes and what stands in the new body for a value of the old one
//! (`specs/Edit.antt`), that it makes no cycle (`specs/Falls.antt`) and keeps types (`specs/Follows.antt`). Where each
//! value that it changes has the word of what stands for it, each module of the design does what it did, at any depth of
//! instances. Five edits are there to be used (`specs/Laws.antt`, `specs/Registers.antt`): an operation is changed in
//! position, taken out with a value in the place of its result, put in, or taken out where nothing names it; and a register
//! may load in another way. A module that nothing instances may go as well.
#![tactic(auto)]

mod laws;

pub use laws::{
    edits_are_lighter, edits_keep_resets, edits_preserve, erase_dead_op_preserves,
    erase_op_preserves, following_composes, insert_op_preserves, remove_module_preserves,
    replace_op_preserves, replace_register_preserves,
};
