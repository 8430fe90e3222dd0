//! Formulas in the DIMACS CNF format and proofs in the LRAT format: read, checked and written.
#![tactic(auto)]

pub mod check;
mod clauses;
pub mod dimacs_cnf;
pub mod fail;
mod hints;
mod judged;
mod marks;
mod progress;
mod proof_line;
pub mod read_cnf;
mod reading;
mod steps;
mod word;
pub mod write;
