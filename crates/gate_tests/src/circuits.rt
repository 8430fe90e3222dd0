//! Words of inputs, and the bits of a circuit under an assignment.
use gates::circuit::Gates;
use gates::signal::{Pin, Signal};
use std::alloc::{AllocError, Global};

/// The word of so many inputs from a variable on, whose least significant bit is that variable.
pub(crate) fn inputs(alloc: Global, first: u32, width: u32) -> Result<Vec<Signal>, AllocError> {
    let mut word = Vec::new(alloc);
    let mut variable = first.wrapping_add(width);
    for _ in 0..width {
        variable = variable.wrapping_sub(1);
        word.push(Signal::Wire(Pin {
            variable,
            positive: true,
        }))?;
    }
    Ok(word)
}

/// The word of known bits that has a number.
pub(crate) fn known(alloc: Global, number: i64, width: u32) -> Result<Vec<Signal>, AllocError> {
    let mut word = Vec::new(alloc);
    let mut position = width;
    for _ in 0..width {
        position = position.wrapping_sub(1);
        word.push(Signal::Fixed(number.wrapping_shr(position) % 2 != 0))?;
    }
    Ok(word)
}

/// Adds the bits of a number, from its least significant bit on.
fn push_bits(values: &mut Vec<bool>, number: i64, width: u32) -> Result<(), AllocError> {
    for position in 0..width {
        values.push(number.wrapping_shr(position) % 2 != 0)?;
    }
    Ok(())
}

/// The bits of numbers of one width, one after another.
fn bits_of(alloc: Global, numbers: &[i64], width: u32) -> Result<Vec<bool>, AllocError> {
    let mut values = Vec::new(alloc);
    for number in numbers {
        push_bits(&mut values, *number, width)?;
    }
    Ok(values)
}

/// The bits of all variables, the inputs' from numbers of one width, each from its least significant bit on.
pub(crate) fn evaluate(
    alloc: Global,
    gates: &Gates,
    numbers: &[i64],
    width: u32,
) -> Result<Vec<bool>, AllocError> {
    let mut values = bits_of(alloc, numbers, width)?;
    for gate in gates.as_slice() {
        let bit = pin_bit(&values, gate.first) && pin_bit(&values, gate.second);
        values.push(bit)?;
    }
    Ok(values)
}

fn pin_bit(values: &[bool], pin: Pin) -> bool {
    match values.get(pin.variable.wrapping_sub(1) as usize) {
        Some(bit) => *bit == pin.positive,
        None => false,
    }
}

/// The bit that a signal carries.
fn signal_bit(values: &[bool], signal: Signal) -> bool {
    match signal {
        Signal::Fixed(bit) => bit,
        Signal::Wire(pin) => pin_bit(values, pin),
    }
}

/// The number that a word carries.
pub(crate) fn number_of(values: &[bool], word: &[Signal]) -> i64 {
    let mut number = 0i64;
    for signal in word {
        let bit = if signal_bit(values, *signal) { 1 } else { 0 };
        number = number.wrapping_mul(2).wrapping_add(bit);
    }
    number
}
