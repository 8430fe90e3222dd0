//! Tests of generated designs: their text, and one of the greatest size.
#![tactic(auto)]

#[cfg(test)]
mod sizes;
#[cfg(test)]
mod texts;
