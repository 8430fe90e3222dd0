// A solver for clause lists whose every learnt clause is proved.
#![tactic(auto)]

pub mod guide;
mod order;
mod restarts;
pub mod solve;
mod sweeping;
