//! Words of bits: what the signals of a circuit are for 64 inputs at once.
use crate::circuit::Circuit;
use clause_learning::watched::Watched;
use resolution_proof::literal::Literal;
use std::alloc::{AllocError, Global};

/// A source of bits (Marsaglia, Xorshift RNGs, 2003).
#[derive(Drop)]
pub(crate) struct Bits {
    state: u64,
}

impl Bits {
    /// The source begins at the same state each time.
    pub(crate) fn new() -> Bits {
        Bits {
            state: 0x9E37_79B9_7F4A_7C15,
        }
    }

    /// The next 64 bits.
    fn next_word(&mut self) -> u64 {
        let mut word = self.state;
        word ^= word.wrapping_shl(13);
        word ^= word.wrapping_shr(7);
        word ^= word.wrapping_shl(17);
        self.state = word;
        word
    }

    /// Bits of which one in eight is 1, but for the first, which is 0.
    fn few(&mut self) -> u64 {
        (self.next_word() & self.next_word() & self.next_word()).wrapping_shl(1)
    }
}

/// A word for each variable, from random ones for the inputs.
pub(crate) fn random_words(
    alloc: Global,
    circuit: &Circuit,
    bits: &mut Bits,
) -> Result<Vec<u64>, AllocError> {
    let mut words = Vec::new(alloc);
    for _ in 0..circuit.variables() {
        words.push(bits.next_word())?;
    }
    evaluate(circuit, &mut words);
    Ok(words)
}

/// A word for each variable: its first bit is for inputs of the values that hold, each other one for inputs near them.
pub(crate) fn words_near(
    alloc: Global,
    circuit: &Circuit,
    bits: &mut Bits,
    values: &Watched,
) -> Result<Vec<u64>, AllocError> {
    let mut words = Vec::new(alloc);
    for index in 0..circuit.variables() {
        let literal = Literal {
            variable: (index as u64).saturating_add(1),
            positive: true,
        };
        let word = if values.is_true(literal) { u64::MAX } else { 0 };
        words.push(word ^ bits.few())?;
    }
    evaluate(circuit, &mut words);
    Ok(words)
}

/// Gives each gate's variable its word, from those of lesser variables.
fn evaluate(circuit: &Circuit, words: &mut [u64]) {
    for index in 0..words.len() {
        if let Some(gate) = circuit.gate((index as u64).saturating_add(1)) {
            let word = word_of(words, gate.first) & word_of(words, gate.second);
            words[index] = word;
        }
    }
}

fn word_of(words: &[u64], literal: Literal) -> u64 {
    let index = literal.variable.wrapping_sub(1) as usize;
    let word = words.get(index).copied().unwrap_or(0);
    if literal.positive { word } else { !word }
}
