//! The fields of a line, and numbers in them.
ghost use Rattle.std.specs.Prelude.{◌≡◌, ◌≤◌, ◌<◌, ◌^◌, ◌∷◌, length, true, option_map, option_copied};
ghost use Rattle.aiger_laws.specs.Fields.{fields, numeral, is_digit, has_leading_zero, with_digit};
ghost use Rattle.aiger_reader.specs.Saturated.{saturated, fields_left, field_length};

/// Numbers are told up to this one; a greater one is told as this one.
const GREATEST: u64 = 1 << 32;

/// The first field of a line, and what stands behind its blank, if there is one.
#[tactic(auto, using(crate::proofs::Splitting::field_split, crate::proofs::Splitting::field_whole, std::proofs::lemmas::List::take_rest))]
pub(crate) fn next_field(line: &[u8]) -> (&[u8], Option<&[u8]>)
    ensures { fields line.now ≡ result.0.now ∷ fields_left (option_copied result.1) }
{
    let length = field_length(line);
    if length < line.len() {
        (&line[..length], Some(&line[length + 1..]))
    } else {
        (line, None)
    }
}

/// How many bytes stand before the first blank, or in all.
fn field_length(line: &[u8]) -> usize
    ensures exact { result ≡ field_length line.now }
    ensures within { result ≤ length line.now }
{
    for (i, byte) in line.iter().enumerate() {
        if *byte == b' ' {
            return i;
        }
    }
    line.len()
}

/// The number that a field writes, if it writes one.
#[tactic(auto, unfolding(aiger_laws::specs::Fields::numeral))]
pub(crate) fn number(field: &[u8]) -> Option<u64>
    ensures { result ≡ option_map saturated (numeral field.now) }
{
    if field.is_empty() || has_leading_zero(field) {
        return None;
    }
    let mut value = 0;
    let mut rest = field;
    while let Some((digit, others)) = rest.split_first() {
        if !is_digit(*digit) {
            return None;
        }
        value = with_more(value, *digit);
        rest = others;
    }
    Some(value)
}

/// The number with one more digit.
fn with_more(value: u64, digit: u8) -> u64
    requires value { value ≤ 2 ^ 32 }
    requires digit { is_digit digit ≡ true }
    ensures exact { result ≡ saturated (with_digit value digit) }
    ensures within { result ≤ 2 ^ 32 }
{
    let more = value * 10 + (digit - b'0') as u64;
    if more < GREATEST { more } else { GREATEST }
}

fn is_digit(byte: u8) -> bool
    ensures { result ≡ is_digit byte }
{
    b'0' <= byte && byte <= b'9'
}

/// Whether a zero stands before further bytes.
fn has_leading_zero(field: &[u8]) -> bool
    ensures { result ≡ has_leading_zero field.now }
{
    match field.split_first() {
        Some((first, others)) => !others.is_empty() && *first == b'0',
        None => false,
    }
}
