//! The tokens of an MLIR text (MLIR language reference, lexical conventions), which borrow it.
#![tactic(auto)]

pub mod classes;
pub mod contents;
pub mod prefixes;
pub mod strings;
pub mod token;
pub mod tokens;
