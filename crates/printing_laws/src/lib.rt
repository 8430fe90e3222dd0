//! What a design must have to be printed as MLIR text and read again as itself.
#![tactic(auto)]

mod laws;

pub use laws::what_is_canonical_is_printable;
