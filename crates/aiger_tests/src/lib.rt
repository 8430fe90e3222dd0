//! Tests of texts in the AIGER format: which are read, where others are refused, and how circuits are written.
#![tactic(auto)]

#[cfg(test)]
mod cases;
#[cfg(test)]
mod cycles;
#[cfg(test)]
mod large;
#[cfg(test)]
mod lines;
#[cfg(test)]
mod literals;
#[cfg(test)]
mod read;
#[cfg(test)]
mod written;
