//! Gate lists over words of signals, the most significant first: what hardware's arithmetic makes of words.
#![tactic(auto)]

pub mod bitwise;
pub mod divisions;
pub mod laws;
pub mod products;
pub mod shifts;
pub mod sums;
