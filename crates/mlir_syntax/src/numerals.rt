//! Numbers in a text (MLIR language reference, "Common syntax": integer literals).
ghost use Rattle.std.specs.Prelude.{◌≡◌, ℕ, ◌+◌, ◌*◌, ◌≤◌, length, OnOk};
ghost use Rattle.hw_model.specs.KindViews.{integer_of};
ghost use Rattle.mlir_lexer.specs.Contents.{hex_value};
ghost use Rattle.mlir_syntax.specs.Numerals.{number_in, number_of, count_limit, number_limit, below, number_below, negative, signed, integer};
ghost use Rattle.mlir_syntax.specs.Views.{ReadsAs};

use crate::fail::ReadFail;
use crate::reader::Reader;
use diag::cause::Cause;
use diag::refusal::OpName;
use hw_model::kinds::Integer;
use mlir_lexer::classes::{Class, Digit};
use mlir_lexer::token::TokenKind;

impl<'s> Reader<'s> {
    /// An integer literal that is a width, a count or a position.
    ///
    /// Refuses what is no integer literal, and a number of 2^32 or more.
    #[tactic(auto, unfolding(crate::specs::Numerals::number_below, crate::specs::Numerals::below_limit))]
    pub fn count(&mut self, op: OpName) -> Result<u32, ReadFail>
        ensures gives { ReadsAs (λ n. n) result self.new (number_below count_limit op self.old) }
        ensures shorter { OnOk result (length self.new ≤ length self.old) }
    {
        let too_large = self.refusal_for(Cause::NumberTooLarge, op);
        let token = self.want(op, TokenKind::Integer)?;
        match count_of(number_of(token.text)) {
            Some(count) => Ok(count),
            None => Err(ReadFail::Refused(too_large)),
        }
    }

    /// An integer literal.
    ///
    /// Refuses what is no integer literal, and a number of 2^128 or more.
    #[tactic(auto, unfolding(crate::specs::Numerals::number_below, crate::specs::Numerals::below_limit))]
    pub fn number(&mut self, op: OpName) -> Result<u128, ReadFail>
        ensures gives { ReadsAs (λ n. n) result self.new (number_below number_limit op self.old) }
        ensures shorter { OnOk result (length self.new ≤ length self.old) }
    {
        let too_large = self.refusal_for(Cause::NumberTooLarge, op);
        let token = self.want(op, TokenKind::Integer)?;
        match number_of(token.text) {
            Some(number) => Ok(number),
            None => Err(ReadFail::Refused(too_large)),
        }
    }

    /// An integer literal, which may have a minus before it.
    ///
    /// Refuses what is none, and one whose distance from 0 is 2^128 or more.
    #[tactic(auto, unfolding(crate::specs::Numerals::integer))]
    pub fn integer(&mut self, op: OpName) -> Result<Integer, ReadFail>
        ensures gives { ReadsAs integer_of result self.new (integer op self.old) }
        ensures shorter { OnOk result (length self.new ≤ length self.old) }
    {
        if self.pass(TokenKind::Minus) {
            Ok(negative(self.number(op)?))
        } else {
            Ok(Integer::NonNegative(self.number(op)?))
        }
    }
}

/// The number of an integer literal; None exactly where it is 2^128 or more.
pub fn number_of(text: &[u8]) -> Option<u128>
    ensures { result ≡ below number_limit (number_of text.now) }
{
    match text {
        [_, b'x', digits @ ..] => number_in(16, digits),
        _ => number_in(10, text),
    }
}

/// The number that decimal digits stand for; None exactly where it is 2^32 or more.
pub fn decimal(digits: &[u8]) -> Option<u32>
    ensures { result ≡ below count_limit (number_in 10 0 digits.now) }
{
    count_of(number_in(10, digits))
}

// A number of which only those below 2^32 are taken.
fn count_of(number: Option<u128>) -> Option<u32>
    ensures { (n : ℕ) → number ≡ below number_limit n → result ≡ below count_limit n }
{
    match number {
        Some(count) if count < 1 << 32 => Some(count as u32),
        Some(_) | None => None,
    }
}

// The number that digits stand for in a base; None exactly where it is 2^128 or more.
fn number_in(base: u8, digits: &[u8]) -> Option<u128>
    requires { 1 ≤ base }
    ensures { result ≡ below number_limit (number_in base 0 digits.now) }
{
    let mut number: u128 = 0;
    for digit in digits {
        match with_digit(number, base, *digit) {
            Some(more) => number = more,
            None => return None,
        }
    }
    Some(number)
}

// A number with one more digit; None exactly where it is 2^128 or more.
fn with_digit(prefix: u128, base: u8, digit: u8) -> Option<u128>
    ensures { result ≡ below number_limit (prefix * base + hex_value digit) }
{
    if prefix < 1 << 64 {
        return Some(prefix * u128::from(base) + u128::from(hex_value(digit)));
    }
    match prefix.checked_mul(u128::from(base)) {
        Some(product) => product.checked_add(u128::from(hex_value(digit))),
        None => None,
    }
}

// The value of a hex digit; 0 for every other byte.
fn hex_value(byte: u8) -> u8
    ensures { result ≡ hex_value byte }
{
    if Digit::has(byte) {
        byte - b'0'
    } else if b'a' <= byte && byte <= b'f' {
        byte - b'a' + 10
    } else if b'A' <= byte && byte <= b'F' {
        byte - b'A' + 10
    } else {
        0
    }
}

// An integer with a minus before it.
fn negative(distance: u128) -> Integer
    ensures { integer_of result ≡ negative distance }
{
    if distance == 0 {
        Integer::NonNegative(0)
    } else {
        Integer::Negative(distance - 1)
    }
}

/// An integer by its distance from 0, with a minus before it or not.
pub fn signed(minus: bool, distance: u128) -> Integer
    ensures { integer_of result ≡ signed minus distance }
{
    if minus {
        negative(distance)
    } else {
        Integer::NonNegative(distance)
    }
}
