//! Classes of signals that were alike, up to sign, for each input so far.
use std::alloc::{AllocError, Global};

/// A variable and what is known of its bits.
#[derive(Clone, Copy)]
struct Signal {
    /// A hash of its bits, each inverted if the first of them is 1.
    signature: u64,
    /// Whether its first bit is 1.
    is_inverted: bool,
    /// Whether it is in a class of its own, whatever its bits.
    is_alone: bool,
    /// The least variable of its class, or 0 where that is the signal which is always 0.
    leader: u64,
}

/// The signals of variables, and the hash of as many bits that are all 0.
#[derive(Drop)]
pub(crate) struct Classes {
    signals: Vec<Signal>,
    zero: u64,
}

impl Classes {
    /// Signals of which no bit is known but the first, which the words begin with.
    pub(crate) fn new(alloc: Global, words: &[u64]) -> Result<Classes, AllocError> {
        let mut signals = Vec::new(alloc);
        for word in words {
            signals.push(Signal {
                signature: 0,
                is_inverted: *word & 1 == 1,
                is_alone: false,
                leader: 0,
            })?;
        }
        Ok(Classes { signals, zero: 0 })
    }

    /// Adds 64 bits for each signal.
    pub(crate) fn add(&mut self, words: &[u64]) {
        self.zero = mix(self.zero, 0);
        for (signal, word) in self.signals.iter_mut().zip(words) {
            let word = if signal.is_inverted { !*word } else { *word };
            signal.signature = mix(signal.signature, word);
        }
    }

    /// Finds the classes anew. It costs a sort of all signals.
    pub(crate) fn divide(&mut self, alloc: Global) -> Result<(), AllocError> {
        let mut order = Vec::new(alloc);
        order.push((self.zero, 0u64))?;
        let mut variable = 0u64;
        for signal in &self.signals {
            variable = variable.saturating_add(1);
            if !signal.is_alone {
                order.push((signal.signature, variable))?;
            }
        }
        order.sort()?;
        self.lead(&order);
        Ok(())
    }

    /// Gives each signal of the order its leader: the first one of the same signature.
    fn lead(&mut self, order: &[(u64, u64)]) {
        let mut class = None;
        let mut leader = 0;
        for (signature, variable) in order {
            if class != Some(*signature) {
                class = Some(*signature);
                leader = *variable;
            }
            self.set_leader(*variable, leader);
        }
    }

    fn set_leader(&mut self, variable: u64, leader: u64) {
        let index = variable.wrapping_sub(1) as usize;
        if index < self.signals.len() {
            self.signals[index].leader = leader;
        }
    }

    /// Puts the signal into a class of its own.
    pub(crate) fn set_alone(&mut self, variable: u64) {
        let index = variable.wrapping_sub(1) as usize;
        if index < self.signals.len() {
            self.signals[index].is_alone = true;
            self.signals[index].leader = variable;
        }
    }

    /// The least variable of the signal's class, or 0 where that is the signal which is always 0.
    pub(crate) fn leader(&self, variable: u64) -> u64 {
        let index = variable.wrapping_sub(1) as usize;
        match self.signals.get(index) {
            Some(signal) => signal.leader,
            None => variable,
        }
    }

    /// Whether the signal's first bit is 1.
    pub(crate) fn is_inverted(&self, variable: u64) -> bool {
        let index = variable.wrapping_sub(1) as usize;
        match self.signals.get(index) {
            Some(signal) => signal.is_inverted,
            None => false,
        }
    }
}

/// The hash with a word more.
fn mix(hash: u64, word: u64) -> u64 {
    let product = (hash ^ word)
        .wrapping_add(0x632B_E59B_D9B4_E019)
        .wrapping_mul(0x9E37_79B9_7F4A_7C15);
    product ^ product.wrapping_shr(29)
}
