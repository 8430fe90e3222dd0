//! The values of operations, computed by the definitions of `hw_model` on words of any number of bits, for tests.
#![tactic(auto)]

mod arrays;
pub mod bit_string;
mod integers;
pub mod operands;
pub mod refusal;
mod structs;
pub mod values;
pub mod word_parts;
