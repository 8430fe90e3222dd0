//! The verdict on two modules: that they agree, where they differ, or that the search was given up (CIRCT: `circt-lec`).
#![tactic(auto)]

pub mod names;
pub mod verdict;

pub use miter_blast::fail::MiterFail;
pub use miter_blast::input::Input;
