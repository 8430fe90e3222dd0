//! Texts as lines, and lines as words.
#![tactic(auto)]

pub mod lines;
pub mod words;
