//! Tests of the texts of designs in the AIGER format, by the public call of `aiger_export`.
#![tactic(auto)]

#[cfg(test)]
mod again;
#[cfg(test)]
mod designs;
#[cfg(test)]
mod refused;
#[cfg(test)]
mod texts;
