//! Tests of commands that take two files, on files and sinks in memory: what `lec` says of two modules, `check` of a formula and a proof, and `sim`
//! of a module and steps, what they refuse, which files are whole after a fault, and that no fault changes anything else.
#![tactic(auto)]

#[cfg(test)]
mod beside;
#[cfg(test)]
mod checks;
#[cfg(test)]
mod equivalence;
#[cfg(test)]
mod faults;
#[cfg(test)]
mod parts;
#[cfg(test)]
mod proof_files;
#[cfg(test)]
mod refused;
#[cfg(test)]
mod register_pairs;
#[cfg(test)]
mod runs;
#[cfg(test)]
mod simulations;
