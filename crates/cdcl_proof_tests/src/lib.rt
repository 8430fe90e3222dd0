//! Tests of the solver and of its propagation, by their public calls.
#![tactic(auto)]

#[cfg(test)]
mod formulas;
#[cfg(test)]
mod guided;
#[cfg(test)]
mod replaying;
#[cfg(test)]
mod solving;
#[cfg(test)]
mod watching;
