//! Literals of a step file.
ghost use Rattle.std.specs.Prelude.{◌≡◌, ◌≤◌, ◌<◌, ◌+◌, ◌^◌, if◌then◌else◌, length, IfSome, Some, None};
ghost use Rattle.verilog_model.specs.Tokens.{is_digit};
ghost use Rattle.verilog_model.specs.Numerals.{hex_digit};
ghost use Rattle.step_file.specs.Literals.{width_length, is_literal, word_in};
ghost use Rattle.step_file.specs.Digits.{with_decimal, width_by, width_from, is_hex_byte, digit_bits, more_bits, more_low, with_digit, no_value, value_by, value_from, short_by, short_at, short_of};

use bits_core::Bits;

/// The bits of the literal that a word writes, where it has so many.
#[tactic(auto, using(crate::proofs::ReadLiterals::word_kept))]
pub(crate) fn word_in(width: u32, word: &[u8]) -> Option<Bits>
    requires some { 1 ≤ width }
    requires most { width ≤ 128 }
    requires short { length word.now ≤ 2 ^ 26 }
    ensures { result ≡ word_in width word.now }
{
    let literal = literal_of(word)?;
    if literal.width == u64::from(width) {
        Some(Bits::truncate(width, literal.value))
    } else {
        None
    }
}

/// Whether the word is a literal.
#[tactic(auto, using(crate::proofs::ReadLiterals::literal_kept))]
pub(crate) fn is_literal(word: &[u8]) -> bool
    requires { length word.now ≤ 2 ^ 26 }
    ensures { result ≡ is_literal word.now }
{
    literal_of(word).is_some()
}

/// A literal as far as it is kept: its width up to 2^32, and its value where that has at most 128 bits.
#[derive(Clone, Copy)]
struct ShortLiteral {
    width: u64,
    value: u128,
}

/// The literal that a word writes.
#[tactic(auto, using(std::proofs::lemmas::List::take_rest), unfolding(crate::specs::Digits::short_of))]
fn literal_of(word: &[u8]) -> Option<ShortLiteral>
    requires { length word.now ≤ 2 ^ 26 }
    ensures { result ≡ short_of word.now }
{
    let length = width_length(word);
    literal_at(&word[..length], &word[length..])
}

/// How many bytes stand before the first apostrophe, or in all.
fn width_length(word: &[u8]) -> usize
    ensures exact { result ≡ width_length word.now }
    ensures within { result ≤ length word.now }
{
    for (i, byte) in word.iter().enumerate() {
        if *byte == b'\'' {
            return i;
        }
    }
    word.len()
}

/// The literal of a width and of what stands behind it from its apostrophe on.
fn literal_at(width: &[u8], behind: &[u8]) -> Option<ShortLiteral>
    requires { length behind.now ≤ 2 ^ 26 }
    ensures { result ≡ short_at width.now behind.now }
{
    match behind {
        [_, base, digits @ ..] => {
            if *base == b'h' {
                literal_by(width, digits)
            } else {
                None
            }
        }
        _ => None,
    }
}

/// The literal of a width and of hexadecimal digits.
#[tactic(auto, unfolding(crate::specs::Digits::short_by))]
fn literal_by(width: &[u8], digits: &[u8]) -> Option<ShortLiteral>
    requires { length digits.now ≤ 2 ^ 26 }
    ensures { result ≡ short_by width.now digits.now }
{
    let width = width_of(width)?;
    let value = value_of(digits)?;
    if u64::from(value.bits) <= width {
        Some(ShortLiteral {
            width,
            value: value.low,
        })
    } else {
        None
    }
}

/// The number that a decimal numeral without a leading zero writes, up to 2^32.
fn width_of(numeral: &[u8]) -> Option<u64>
    ensures { result ≡ width_by numeral.now }
{
    let (first, _) = numeral.split_first()?;
    if *first == b'0' {
        None
    } else {
        width_from(numeral)
    }
}

/// The number that decimal digits write, up to 2^32.
fn width_from(digits: &[u8]) -> Option<u64>
    ensures { result ≡ width_from 0 digits.now }
{
    let mut width = 0;
    let mut rest = digits;
    while let Some((byte, others)) = rest.split_first() {
        if !is_digit(*byte) {
            return None;
        }
        width = with_decimal(width, *byte);
        rest = others;
    }
    Some(width)
}

fn is_digit(byte: u8) -> bool
    ensures { result ≡ is_digit byte }
{
    b'0' <= byte && byte <= b'9'
}

/// The width with one more decimal digit, up to 2^32.
fn with_decimal(width: u64, byte: u8) -> u64
    requires { width ≤ 2 ^ 32 }
    ensures exact { result ≡ with_decimal width byte }
    ensures most { result ≤ 2 ^ 32 }
{
    (width * 10 + u64::from(byte.saturating_sub(b'0'))).min(1 << 32)
}

/// A number as far as it is kept: of how many bits it is, and the number itself where it is below 2^128.
#[derive(Clone, Copy)]
struct Value {
    bits: u32,
    low: u128,
}

/// The number that one hexadecimal digit or more write.
fn value_of(numeral: &[u8]) -> Option<Value>
    requires { length numeral.now ≤ 2 ^ 26 }
    ensures { result ≡ value_by numeral.now }
{
    if numeral.is_empty() {
        None
    } else {
        value_from(numeral)
    }
}

/// The number that hexadecimal digits write.
fn value_from(digits: &[u8]) -> Option<Value>
    requires { length digits.now ≤ 2 ^ 26 }
    ensures { result ≡ value_from no_value digits.now }
{
    let mut value = Value { bits: 0, low: 0 };
    let mut rest = digits;
    while let Some((byte, others)) = rest.split_first() {
        match hex_digit(*byte) {
            Some(digit) => value = with_digit(value, digit),
            None => return None,
        }
        rest = others;
    }
    Some(value)
}

/// What a byte counts as a hexadecimal digit, if it is one.
fn hex_digit(byte: u8) -> Option<u8>
    ensures exact { result ≡ (if is_hex_byte byte then Some (hex_digit byte) else None) }
    ensures below { IfSome result (λ d. d < 16) }
{
    if is_digit(byte) {
        Some(byte - b'0')
    } else if b'A' <= byte && byte <= b'F' {
        Some(byte - 55)
    } else if b'a' <= byte && byte <= b'f' {
        Some(byte - 87)
    } else {
        None
    }
}

/// The number with one more hexadecimal digit.
fn with_digit(value: Value, digit: u8) -> Value
    requires digit { digit < 16 }
    requires room { value.bits + 4 < 2 ^ 32 }
    ensures exact { result ≡ with_digit value digit }
    ensures most { result.bits ≤ value.bits + 4 }
{
    Value {
        bits: more_bits(value.bits, digit),
        low: more_low(value.low, digit),
    }
}

/// Of how many bits a number is with one more digit.
fn more_bits(bits: u32, digit: u8) -> u32
    requires { bits + 4 < 2 ^ 32 }
    ensures exact { result ≡ more_bits bits digit }
    ensures most { result ≤ bits + 4 }
{
    if bits == 0 {
        digit_bits(digit)
    } else {
        bits + 4
    }
}

/// Of how many bits a digit is.
fn digit_bits(digit: u8) -> u32
    ensures exact { result ≡ digit_bits digit }
    ensures most { result ≤ 4 }
{
    match digit {
        0 => 0,
        1 => 1,
        2 | 3 => 2,
        4..=7 => 3,
        _ => 4,
    }
}

/// The number with one more digit, where it is kept.
fn more_low(low: u128, digit: u8) -> u128
    requires { digit < 16 }
    ensures { result ≡ more_low low digit }
{
    if low < 1 << 124 {
        low * 16 + u128::from(digit)
    } else {
        low
    }
}
