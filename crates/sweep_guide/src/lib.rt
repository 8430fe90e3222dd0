//! A guide for formulas of circuits: it proposes signals that may be alike.
#![tactic(auto)]

mod circuit;
mod classes;
mod cone;
pub mod sweep;
mod words;
