//! The parts of a tree that have more than one literal.

/// A latch: the literal that it defines, and the one whose bit it takes at each step.
#[derive(Clone, Copy, Debug, PartialEq, Eq)]
pub struct Latch {
    /// The literal that is the latch.
    pub literal: u32,
    /// The literal whose bit comes next.
    pub next: u32,
}

/// An and-gate: the literal that it defines, and its operands.
#[derive(Clone, Copy, Debug, PartialEq, Eq)]
pub struct AndGate {
    /// The literal that is the gate.
    pub literal: u32,
    /// The first operand.
    pub left: u32,
    /// The second operand.
    pub right: u32,
}
