//! Lines of numbers.
ghost use Rattle.std.specs.Prelude.{◌≡◌, option_map, option_copied};
ghost use Rattle.aiger_laws.specs.Fields.{fields};
ghost use Rattle.aiger_laws.specs.Rows.{one_number, latch_of, gate_of, gate_by, is_reset};
ghost use Rattle.aiger_reader.specs.Saturated.{saturated, fields_left, saturated_latch, saturated_gate, ends_latch};
ghost use Rattle.aiger_reader.specs.Headers.{latch_in, gate_in};

use crate::fields::{next_field, number};
use crate::header::both;

/// The only number of a line.
#[tactic(auto, using(crate::proofs::SaturatedRows::one_more))]
pub(crate) fn one_number(line: &[u8]) -> Option<u64>
    ensures { result ≡ option_map saturated (one_number (fields line.now)) }
{
    let (field, rest) = next_field(line);
    match rest {
        Some(_more) => None,
        None => number(field),
    }
}

/// The latch of a line: its literal and the next one.
pub(crate) fn latch_of(line: &[u8]) -> Option<(u64, u64)>
    ensures { option_map latch_in result ≡ option_map saturated_latch (latch_of (fields line.now)) }
{
    let (literal, rest) = next_field(line);
    let (next, rest) = next_field(rest?);
    if ends_latch(literal, rest) {
        both(number(literal), number(next))
    } else {
        None
    }
}

/// Whether the line ends, or says how the latch begins and then ends.
#[tactic(auto, using(crate::proofs::SaturatedRows::ends_more))]
fn ends_latch(literal: &[u8], rest: Option<&[u8]>) -> bool
    ensures { result ≡ ends_latch literal.now (fields_left (option_copied rest.entry)) }
{
    let Some(line) = rest else {
        return true;
    };
    let (field, others) = next_field(line);
    match others {
        Some(_more) => false,
        None => is_reset(literal, field),
    }
}

/// Whether a field says how a latch begins: with 0, with 1 or, as its own literal says, with either.
fn is_reset(literal: &[u8], field: &[u8]) -> bool
    ensures { result ≡ is_reset literal.now field.now }
{
    field == b"0".as_slice() || (field == b"1".as_slice() || field == literal)
}

/// The gate of three numbers, if they are there.
fn gate_by(first: Option<(u64, u64)>, right: Option<u64>) -> Option<((u64, u64), u64)>
    ensures { option_map gate_in result ≡ gate_by first right }
{
    match (first, right) {
        (Some(first), Some(right)) => Some((first, right)),
        _ => None,
    }
}

/// The gate of a line: its literal and its two operands.
#[tactic(auto, using(crate::proofs::SaturatedRows::gate_more))]
pub(crate) fn gate_of(line: &[u8]) -> Option<((u64, u64), u64)>
    ensures { option_map gate_in result ≡ option_map saturated_gate (gate_of (fields line.now)) }
{
    let (literal, rest) = next_field(line);
    let (left, rest) = next_field(rest?);
    let (right, rest) = next_field(rest?);
    match rest {
        Some(_more) => None,
        None => gate_by(both(number(literal), number(left)), number(right)),
    }
}
