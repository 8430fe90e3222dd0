//! Literals that no line defines.
ghost use Rattle.std.specs.Prelude.{◌≡◌, ◌<◌, ◌+◌, ◌^◌, ◌||◌, length};
ghost use Rattle.aiger_laws.specs.Grammar.{first_from, or_later, undefined_line};
ghost use Rattle.aiger_reader.specs.Kept.{drivers_of, Knows, tree_of};
ghost use Rattle.aiger_reader.specs.Searched.{lacks};
ghost use Rattle.aiger_reader.specs.Told.{line_count};

use crate::drivers::Drivers;
use crate::text::AigerText;
use aiger_laws::tree::{AndGate, Latch};

/// The first line that uses a literal which no line defines.
pub(crate) fn undefined_line(text: &AigerText) -> Option<u32>
    requires knows { Knows text.now }
    requires few { line_count (tree_of text.now) < 2 ^ 31 }
    ensures { result ≡ undefined_line (tree_of text.now) }
{
    let latch_line = 2 + text.inputs.len() as u32;
    let output_line = latch_line + text.latches.len() as u32;
    let gate_line = output_line + text.outputs.len() as u32;
    or_later(
        undefined_latch(&text.drivers, latch_line, &text.latches),
        or_later(
            undefined_output(&text.drivers, output_line, &text.outputs),
            undefined_gate(&text.drivers, gate_line, &text.gates),
        ),
    )
}

/// The first of two numbers that is there.
fn or_later(first: Option<u32>, later: Option<u32>) -> Option<u32>
    ensures { result ≡ or_later first later }
{
    match first {
        Some(line) => Some(line),
        None => later,
    }
}

/// Whether the literal is of a variable that is not defined.
fn is_undefined(drivers: &Drivers, literal: u32) -> bool
    ensures { result ≡ lacks (drivers_of drivers.now) literal }
{
    literal / 2 != 0 && !drivers.is_driven(literal / 2)
}

/// The line of the first latch whose next literal is not defined, where the first latch has the line `first`.
fn undefined_latch(drivers: &Drivers, first: u32, latches: &[Latch]) -> Option<u32>
    requires { first + length latches.now < 2 ^ 32 }
    ensures { result ≡ first_from (λ l. lacks (drivers_of drivers.now) l.next) first latches.now }
{
    let mut line = first;
    let mut rest = latches;
    while let Some((latch, others)) = rest.split_first() {
        if is_undefined(drivers, latch.next) {
            return Some(line);
        }
        line += 1;
        rest = others;
    }
    None
}

/// The line of the first output that is not defined, where the first output has the line `first`.
fn undefined_output(drivers: &Drivers, first: u32, outputs: &[u32]) -> Option<u32>
    requires { first + length outputs.now < 2 ^ 32 }
    ensures { result ≡ first_from (lacks (drivers_of drivers.now)) first outputs.now }
{
    let mut line = first;
    let mut rest = outputs;
    while let Some((output, others)) = rest.split_first() {
        if is_undefined(drivers, *output) {
            return Some(line);
        }
        line += 1;
        rest = others;
    }
    None
}

/// The line of the first gate with an operand that is not defined, where the first gate has the line `first`.
fn undefined_gate(drivers: &Drivers, first: u32, gates: &[AndGate]) -> Option<u32>
    requires { first + length gates.now < 2 ^ 32 }
    ensures { result ≡ first_from (λ g. lacks (drivers_of drivers.now) g.left || lacks (drivers_of drivers.now) g.right) first gates.now }
{
    let mut line = first;
    let mut rest = gates;
    while let Some((gate, others)) = rest.split_first() {
        if is_undefined(drivers, gate.left) || is_undefined(drivers, gate.right) {
            return Some(line);
        }
        line += 1;
        rest = others;
    }
    None
}
