//! Lists of numbers as runs: so many times one number, then so many times another one.
#![tactic(auto)]

mod runs;

pub use runs::{Run, RunList, copies, one_run, push_list, push_run, same_runs, total_of};
