//! Graphs whose nodes are numbers: each node has a list of the nodes that it leads to, in the place of its number.
//!
//! `specs/` has what a list leads to, which nodes are reached, and orders in which each node stands after what it needs;
//! `proofs/` has the lemmas on marks that searches share, and what an order says of cycles.
#![tactic(auto)]

mod graph;
mod order;

pub use graph::{NodeList, is_marked, is_open, mark_all, reached_from};
pub use order::{Order, all_numbers, callees_first, empty_lists, likely_order};
