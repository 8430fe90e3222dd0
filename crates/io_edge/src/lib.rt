//! The program's edge: bytes as one value, files that are read by name, and sinks that take bytes.
//!
//! Code above this crate is generic over [`file_access::Files`] and [`sinks::Sink`]. Those in
//! memory tell what they hold; those over the system tell only how many faults they met.
#![tactic(auto)]

pub mod byte_text;
pub mod file_access;
pub mod memory_files;
pub mod memory_sink;
pub mod real_files;
pub mod real_sink;
pub mod sinks;
