//! Tests of circuits and of rows of gates over words, by the public calls of their crates.
#![tactic(auto)]

#[cfg(test)]
mod circuits;
#[cfg(test)]
mod formulas;
#[cfg(test)]
mod operations;
#[cfg(test)]
mod pairs;
#[cfg(test)]
mod single_words;
#[cfg(test)]
mod three_bits;
