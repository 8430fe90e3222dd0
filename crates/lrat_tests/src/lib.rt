//! Tests of formulas and proofs as texts, by their public calls.
#![tactic(auto)]

#[cfg(test)]
mod formulas;
#[cfg(test)]
mod proofs;
#[cfg(test)]
mod written;
