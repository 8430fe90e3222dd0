//! The text of a circuit.
ghost use Rattle.std.specs.Prelude.{◌≡◌, ◌≤◌, ◌<◌, ◌+◌, ◌-◌, ◌*◌, ◌^◌, ◌++◌, ◌∷◌, [], length, map, codes, decimal, OnOk, IfOk};
ghost use Rattle.aiger_circuits.specs.CircuitTrees.{pin_literal, signal_literal, literals_from, latches_from, gates_from, circuit_tree};
ghost use Rattle.aiger_circuits.specs.CircuitTexts.{more_numbers, literal_line, latch_line, gate_line, symbol_lines, header_line, ended_lines, tree_text};
ghost use Rattle.aiger_circuits.specs.Written.{symbols_of};

use gates::circuit::Gates;
use gates::signal::{Gate, Pin, Signal};
use io_edge::byte_text::Text;
use itoa::Buffer;
use std::alloc::{AllocError, Global};

/// The names of the bits of a circuit.
#[derive(Clone, Copy)]
pub struct BitNames<'a> {
    /// Those of its inputs.
    pub inputs: &'a [Text],
    /// Those of its latches.
    pub latches: &'a [Text],
    /// Those of its outputs.
    pub outputs: &'a [Text],
}

/// The text of a circuit in the AIGER format: its first inputs are those of the text, the others are latches, each of which takes
/// the bit of its signal of `nexts` at each step. The error comes only when out of memory. Linear in the text.
pub fn write_circuit(
    alloc: Global,
    circuit: &Gates,
    outputs: &[Signal],
    nexts: &[Signal],
    names: BitNames<'_>,
) -> Result<Text, AllocError>
    requires { length nexts.now ≤ circuit.now.inputs }
    ensures { IfOk result (λ text. text ≡ tree_text (circuit_tree (circuit.now.inputs - length nexts.now) outputs.now nexts.now circuit.now.gates) (symbols_of names.entry)) }
{
    let inputs = u64::from(circuit.inputs()) - nexts.len() as u64;
    let gates = circuit.as_slice().len() as u64;
    let mut text = Text::new(alloc);
    push_header(
        &mut text,
        u64::from(circuit.inputs()) + gates,
        inputs,
        nexts.len() as u64,
        outputs.len() as u64,
        gates,
    )?;
    push_inputs(&mut text, inputs)?;
    push_latches(&mut text, inputs + 1, nexts)?;
    push_outputs(&mut text, outputs)?;
    push_gates(
        &mut text,
        u64::from(circuit.inputs()) + 1,
        circuit.as_slice(),
    )?;
    push_symbols(&mut text, b'i', names.inputs)?;
    push_symbols(&mut text, b'l', names.latches)?;
    push_symbols(&mut text, b'o', names.outputs)?;
    Ok(text)
}

/// Adds the first line, of these numbers.
fn push_header(
    text: &mut Text,
    most: u64,
    inputs: u64,
    latches: u64,
    outputs: u64,
    gates: u64,
) -> Result<(), AllocError>
    ensures { OnOk result (text.new ≡ text.old ++ ended_lines ((codes "aag" ++ more_numbers (most ∷ inputs ∷ latches ∷ outputs ∷ gates ∷ [])) ∷ [])) }
{
    text.push_bytes(b"aag")?;
    push_next(text, most)?;
    push_next(text, inputs)?;
    push_next(text, latches)?;
    push_next(text, outputs)?;
    push_next(text, gates)?;
    text.push(b'\n')
}

/// Adds a number.
fn push_number(text: &mut Text, number: u64) -> Result<(), AllocError>
    ensures { OnOk result (text.new ≡ text.old ++ decimal number) }
{
    let mut buffer = Buffer::new();
    text.push_bytes(buffer.format(number).as_bytes())
}

/// Adds a blank and a number.
fn push_next(text: &mut Text, number: u64) -> Result<(), AllocError>
    ensures { OnOk result (text.new ≡ text.old ++ (32 ∷ decimal number)) }
{
    text.push(b' ')?;
    push_number(text, number)
}

/// Adds a line of one number.
fn push_one(text: &mut Text, number: u64) -> Result<(), AllocError>
    ensures { OnOk result (text.new ≡ text.old ++ ended_lines (literal_line number ∷ [])) }
{
    push_number(text, number)?;
    text.push(b'\n')
}

/// Adds the lines of so many inputs.
fn push_inputs(text: &mut Text, count: u64) -> Result<(), AllocError>
    requires { count < 2 ^ 32 }
    ensures { OnOk result (text.new ≡ text.old ++ ended_lines (map literal_line (literals_from 1 count))) }
{
    for number in 0..count {
        push_one(text, 2 * (number + 1))?;
    }
    Ok(())
}

/// Adds the lines of latches of variables from one on.
fn push_latches(text: &mut Text, first: u64, nexts: &[Signal]) -> Result<(), AllocError>
    requires { first ≤ 2 ^ 32 }
    ensures { OnOk result (text.new ≡ text.old ++ ended_lines (map latch_line (latches_from first nexts.now))) }
{
    for i in 0..nexts.len() {
        let literal = 2 * (first + i as u64);
        push_number(text, literal)?;
        push_next(text, signal_literal(nexts[i]))?;
        push_next(text, literal)?;
        text.push(b'\n')?;
    }
    Ok(())
}

/// Adds the lines of outputs.
fn push_outputs(text: &mut Text, outputs: &[Signal]) -> Result<(), AllocError>
    ensures { OnOk result (text.new ≡ text.old ++ ended_lines (map literal_line (map signal_literal outputs.now))) }
{
    for output in outputs {
        push_one(text, signal_literal(*output))?;
    }
    Ok(())
}

/// Adds the lines of gates of variables from one on.
fn push_gates(text: &mut Text, first: u64, gates: &[Gate]) -> Result<(), AllocError>
    requires { first ≤ 2 ^ 32 }
    ensures { OnOk result (text.new ≡ text.old ++ ended_lines (map gate_line (gates_from first gates.now))) }
{
    for i in 0..gates.len() {
        push_number(text, 2 * (first + i as u64))?;
        push_next(text, pin_literal(gates[i].second))?;
        push_next(text, pin_literal(gates[i].first))?;
        text.push(b'\n')?;
    }
    Ok(())
}

/// Adds the lines of names.
fn push_symbols(text: &mut Text, letter: u8, names: &[Text]) -> Result<(), AllocError>
    ensures { OnOk result (text.new ≡ text.old ++ ended_lines (symbol_lines letter 0 names.now)) }
{
    for i in 0..names.len() {
        text.push(letter)?;
        push_number(text, i as u64)?;
        text.push(b' ')?;
        text.push_bytes(names[i].as_bytes())?;
        text.push(b'\n')?;
    }
    Ok(())
}

/// The literal of a pin.
fn pin_literal(pin: Pin) -> u64
    ensures { result ≡ pin_literal pin }
{
    2 * u64::from(pin.variable) + u64::from(!pin.positive)
}

/// The literal of a signal.
fn signal_literal(signal: Signal) -> u64
    ensures { result ≡ signal_literal signal }
{
    match signal {
        Signal::Fixed(bit) => u64::from(bit),
        Signal::Wire(pin) => pin_literal(pin),
    }
}
