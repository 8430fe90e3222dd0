//! Tests of error messages, tokens and the reader, by the public calls of their crates. What is refused of texts and what is
//! printed is checked by the crate `circt_examples`.
#![tactic(auto)]

#[cfg(test)]
mod designs;
#[cfg(test)]
mod drafts;
#[cfg(test)]
mod lines;
#[cfg(test)]
mod names;
#[cfg(test)]
mod readers;
#[cfg(test)]
mod tokens;
