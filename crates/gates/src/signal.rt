//! Signals: what carries a bit in a circuit.
ghost use Rattle.std.specs.Prelude.{◌≡◌};
ghost use Rattle.gates.specs.Signals.{opposite, inverse};

/// A variable (`positive`) or its complement. Variables are numbered from 1.
#[derive(Clone, Copy, Debug, PartialEq, Eq, Hash)]
pub struct Pin {
    pub variable: u32,
    pub positive: bool,
}

/// A bit that is known, or one that a variable or its complement carries.
#[derive(Clone, Copy, Debug, PartialEq, Eq)]
pub enum Signal {
    Fixed(bool),
    Wire(Pin),
}

/// An and of two pins, as in the AIGER format for circuits of such gates.
#[derive(Clone, Copy, PartialEq, Eq, Hash)]
pub struct Gate {
    pub first: Pin,
    pub second: Pin,
}

/// What a full adder gives.
#[derive(Clone, Copy)]
pub struct Sum {
    pub sum: Signal,
    pub carry: Signal,
}

impl Pin {
    /// The same variable with the other sign.
    pub fn opposite(self) -> Pin
        ensures { result ≡ opposite self }
    {
        Pin {
            variable: self.variable,
            positive: !self.positive,
        }
    }
}

impl Signal {
    /// The signal of the other bit. It takes no gate.
    pub fn inverse(self) -> Signal
        ensures { result ≡ inverse self }
    {
        match self {
            Signal::Fixed(bit) => Signal::Fixed(!bit),
            Signal::Wire(pin) => Signal::Wire(pin.opposite()),
        }
    }
}
