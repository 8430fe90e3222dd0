//! What a text says.
use crate::drivers::Drivers;
use aiger_laws::tree::{AndGate, Latch};

/// What a text says, in its order, and what gives each variable its bit.
#[derive(Drop)]
pub struct AigerText {
    /// The literals of inputs.
    pub inputs: Vec<u32>,
    /// The latches.
    pub latches: Vec<Latch>,
    /// The literals of outputs.
    pub outputs: Vec<u32>,
    /// The gates.
    pub gates: Vec<AndGate>,
    /// What gives each variable its bit.
    pub drivers: Drivers,
}
