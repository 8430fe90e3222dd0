//! Circuits: inputs and gates.
ghost use Rattle.std.specs.Prelude.{◌≡◌, suc, ◌+◌, [], IfOk, IfSome};
ghost use Rattle.gates.specs.Build.{and_pins, and_pin, joined, and, or, exclusive, choice, full, majority};
ghost use Rattle.gates.specs.Circuits.{Circuit, Runs};

use crate::signal::{Gate, Pin, Signal, Sum};
use indexmap::IndexSet;
use std::alloc::{AllocError, Global};
use std::marker::Model;

/// A circuit of and gates. Its inputs are the first variables, and each gate has the next one. No gate stands twice.
#[derive(Drop)]
pub struct Gates {
    inputs: u32,
    gates: IndexSet<Gate>,
}

impl Model for Gates {
    ghost use Rattle.gates.specs.Circuits.{Circuit};

    ghost Value = { Circuit };

    ghost view = { λ c. record { inputs = c.inputs; gates = c.gates.keys } };
}

impl Gates {
    /// A circuit with that many inputs and no gate. It takes no memory.
    pub fn new(alloc: Global, inputs: u32) -> Gates
        ensures { result ≡ record { inputs = inputs; gates = [] } }
    {
        Gates {
            inputs,
            gates: IndexSet::new(alloc),
        }
    }

    /// The number of inputs.
    pub fn inputs(&self) -> u32
        ensures { result ≡ self.now.inputs }
    {
        self.inputs
    }

    /// The gates in the order of their variables, which follow those of the inputs.
    pub fn as_slice(&self) -> &[Gate]
        ensures { result.now ≡ self.now.gates }
    {
        self.gates.as_slice()
    }

    /// The and of two signals. A gate is added only where neither is known, their variables differ and no gate has
    /// them both.
    ///
    /// # Errors
    ///
    /// `AllocError` without memory, or without a variable below 2^32 for a new gate.
    pub fn and(&mut self, a: Signal, b: Signal) -> Result<Signal, AllocError>
        ensures { IfOk result (Runs (and a b) self.old self.new) }
    {
        match a {
            Signal::Fixed(true) => Ok(b),
            Signal::Fixed(false) => Ok(Signal::Fixed(false)),
            Signal::Wire(pin) => self.and_pin(pin, b),
        }
    }

    fn and_pin(&mut self, a: Pin, b: Signal) -> Result<Signal, AllocError>
        ensures { IfOk result (Runs (and_pin a b) self.old self.new) }
    {
        match b {
            Signal::Fixed(true) => Ok(Signal::Wire(a)),
            Signal::Fixed(false) => Ok(Signal::Fixed(false)),
            Signal::Wire(pin) => self.and_pins(a, pin),
        }
    }

    fn and_pins(&mut self, a: Pin, b: Pin) -> Result<Signal, AllocError>
        ensures { IfOk result (Runs (and_pins a b) self.old self.new) }
    {
        if a.variable < b.variable {
            self.insert_gate(Gate {
                first: a,
                second: b,
            })
        } else if b.variable < a.variable {
            self.insert_gate(Gate {
                first: b,
                second: a,
            })
        } else if a.positive == b.positive {
            Ok(Signal::Wire(a))
        } else {
            Ok(Signal::Fixed(false))
        }
    }

    /// The gate of the two pins, which may stand already.
    fn insert_gate(&mut self, gate: Gate) -> Result<Signal, AllocError>
        ensures { IfOk result (Runs (joined gate) self.old self.new) }
    {
        let (index, _) = self.gates.insert_full(gate)?;
        match variable_after(self.inputs, index) {
            Some(variable) => Ok(Signal::Wire(Pin {
                variable,
                positive: true,
            })),
            None => Err(AllocError),
        }
    }

    /// The or of two signals, by one gate at most.
    pub fn or(&mut self, a: Signal, b: Signal) -> Result<Signal, AllocError>
        ensures { IfOk result (Runs (or a b) self.old self.new) }
    {
        let neither = self.and(a.inverse(), b.inverse())?;
        Ok(neither.inverse())
    }

    /// The exclusive or of two signals, by three gates at most.
    pub fn exclusive(&mut self, a: Signal, b: Signal) -> Result<Signal, AllocError>
        ensures { IfOk result (Runs (exclusive a b) self.old self.new) }
    {
        let both = self.and(a, b)?;
        let neither = self.and(a.inverse(), b.inverse())?;
        self.and(both.inverse(), neither.inverse())
    }

    /// The signal `a` where the condition is 1, else `b`, by three gates at most.
    pub fn choice(&mut self, condition: Signal, a: Signal, b: Signal) -> Result<Signal, AllocError>
        ensures { IfOk result (Runs (choice condition a b) self.old self.new) }
    {
        let one = self.and(condition, a)?;
        let other = self.and(condition.inverse(), b)?;
        self.or(one, other)
    }

    /// The sum of three bits and its carry, by nine gates at most.
    pub fn full(&mut self, a: Signal, b: Signal, c: Signal) -> Result<Sum, AllocError>
        ensures { IfOk result (Runs (full a b c) self.old self.new) }
    {
        let unlike = self.exclusive(a, b)?;
        let sum = self.exclusive(unlike, c)?;
        let both = self.and(a, b)?;
        let one = self.and(unlike, c)?;
        let carry = self.or(both, one)?;
        Ok(Sum { sum, carry })
    }

    /// Whether two of three bits are 1, by four gates at most.
    pub fn majority(&mut self, a: Signal, b: Signal, c: Signal) -> Result<Signal, AllocError>
        ensures { IfOk result (Runs (majority a b c) self.old self.new) }
    {
        let both = self.and(a, b)?;
        let some = self.or(a, b)?;
        let one = self.and(some, c)?;
        self.or(both, one)
    }
}

/// The variable of the gate at the index, after that many inputs. `None` where it is not below 2^32.
fn variable_after(inputs: u32, index: usize) -> Option<u32>
    ensures { IfSome result (λ v. v ≡ inputs + suc index) }
{
    let position = u32::try_from(index).ok()?;
    u32::try_from(u64::from(inputs) + u64::from(position) + 1).ok()
}
