//! What an MLIR text says, token by token: words, numbers, types, attributes and constants.
#![tactic(auto)]

pub mod attribute_text;
pub mod dictionary_text;
pub mod fail;
pub mod head;
pub mod literal_text;
pub mod numerals;
pub mod reader;
pub mod type_text;
pub mod word_text;
