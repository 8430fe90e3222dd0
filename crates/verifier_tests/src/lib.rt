//! Tests of the verifier and of the search for cycles on designs that no text gives, with each public call. What
//! is refused of texts is checked by the crate `circt_examples`.
#![tactic(auto)]

#[cfg(test)]
mod canonical;
#[cfg(test)]
mod designs;
#[cfg(test)]
mod one_operation;
#[cfg(test)]
mod ports;
#[cfg(test)]
mod searches;
#[cfg(test)]
mod verdicts;
