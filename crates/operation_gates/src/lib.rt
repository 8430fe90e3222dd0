//! Gate lists of operations on integers: which gates each kind of operation becomes, over the words of its operands.
#![tactic(auto)]

pub mod known_words;
pub mod laws;
pub mod operations;
pub mod pair_gate_lists;
pub mod parts;
pub mod signal_word;
