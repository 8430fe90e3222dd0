//! The first line.
ghost use Rattle.std.specs.Prelude.{◌≡◌, ◌+◌, ◌≤◌, nat_le, true, option_map, option_copied, IfSome};
ghost use Rattle.aiger_laws.specs.Fields.{fields};
ghost use Rattle.aiger_laws.specs.Rows.{are_zeros, both, counts, header_of, if_ample, is_ample};
ghost use Rattle.aiger_reader.specs.Saturated.{fields_left, outputs_saturated};
ghost use Rattle.aiger_reader.specs.Headers.{header_in};

use crate::fields::{next_field, number};

/// What the first line says: the greatest variable, and how many lines of each sort follow.
#[derive(Clone, Copy)]
pub(crate) struct Header {
    pub(crate) most: u64,
    pub(crate) inputs: u64,
    pub(crate) latches: u64,
    pub(crate) outputs: u64,
    pub(crate) gates: u64,
}

/// The header that the first line says, if it says one. A number of outputs above 2^32 is told as 2^32.
#[tactic(auto, using(crate::proofs::SaturatedRows::header_saturated), unfolding(aiger_laws::specs::Rows::header_of))]
pub(crate) fn header_of(line: &[u8]) -> Option<Header>
    ensures told { option_map header_in result ≡ option_map outputs_saturated (header_of (fields line.now)) }
    ensures ample { IfSome result (λ h. is_ample (header_in h) ≡ true) }
{
    let (mark, rest) = next_field(line);
    let (most, rest) = next_field(rest?);
    let (inputs, rest) = next_field(rest?);
    let (latches, rest) = next_field(rest?);
    let (outputs, rest) = next_field(rest?);
    let (gates, rest) = next_field(rest?);
    if mark == b"aag".as_slice() && are_zeros(rest) {
        if_ample(counts(
            both(number(most), number(inputs)),
            both(number(latches), number(outputs)),
            number(gates),
        ))
    } else {
        None
    }
}

/// Both numbers, if they are there.
pub(crate) fn both(first: Option<u64>, second: Option<u64>) -> Option<(u64, u64)>
    ensures { result ≡ both first second }
{
    match (first, second) {
        (Some(first), Some(second)) => Some((first, second)),
        _ => None,
    }
}

/// The header of these numbers, if they are there.
fn counts(
    first: Option<(u64, u64)>,
    second: Option<(u64, u64)>,
    gates: Option<u64>,
) -> Option<Header>
    ensures { option_map header_in result ≡ counts first second gates }
{
    match (first, second, gates) {
        (Some((most, inputs)), Some((latches, outputs)), Some(gates)) => Some(Header {
            most,
            inputs,
            latches,
            outputs,
            gates,
        }),
        _ => None,
    }
}

/// The header, where its numbers fit.
fn if_ample(header: Option<Header>) -> Option<Header>
    ensures exact { option_map header_in result ≡ if_ample (option_map header_in header) }
    ensures ample { IfSome result (λ h. is_ample (header_in h) ≡ true) }
{
    let header = header?;
    if header.most < 1 << 31 && is_within(header) {
        Some(header)
    } else {
        None
    }
}

/// Whether there are as many variables as literals are defined.
fn is_within(header: Header) -> bool
    ensures { result ≡ nat_le (header.inputs + header.latches + header.gates) header.most }
{
    header.inputs as u128 + header.latches as u128 + header.gates as u128 <= header.most as u128
}

/// Whether further fields of a header are at most four, each 0.
#[tactic(auto, using(crate::proofs::Zeros::zero_at, crate::proofs::Zeros::zero_refused, crate::proofs::Zeros::no_more_zeros))]
fn are_zeros(mut rest: Option<&[u8]>) -> bool
    ensures { result ≡ are_zeros (fields_left (option_copied rest.entry)) }
{
    for looked_at in 0..4_usize {
        let Some(line) = rest else {
            return true;
        };
        let (field, others) = next_field(line);
        if field != b"0".as_slice() {
            return false;
        }
        rest = others;
    }
    rest.is_none()
}
