//! Tests of the values of operations, the interpreter of designs and the store, by the public calls of their crates.
#![tactic(auto)]

#[cfg(test)]
mod bodies;
#[cfg(test)]
mod body_changes;
#[cfg(test)]
mod designs;
#[cfg(test)]
mod kinds;
#[cfg(test)]
mod register_designs;
#[cfg(test)]
mod rooms;
#[cfg(test)]
mod runs;
#[cfg(test)]
mod short_lists;
#[cfg(test)]
mod use_changes;
#[cfg(test)]
mod value_rows;
#[cfg(test)]
mod values;
