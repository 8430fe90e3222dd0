//! Doubly linked lists in one vector of links.
//!
//! What stands in a list is a number, the position of its link. [`links`] has one list, whose ends its user keeps; [`chains`] has
//! many, each with a head, and each number in one of them or in none.
#![tactic(auto)]

pub mod chains;
pub mod links;
