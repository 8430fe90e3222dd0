//! Words of 1 to 128 bits, as the integers of hardware: each operation is its arithmetic
//! definition, which `specs/Word.antt` states on lists of bits, the most significant first.
//!
//! No call takes memory. A caller keeps the widths equal where an operation asks for it; the
//! amount of a shift may have any width, and any value.
#![tactic(auto)]

ghost use Rattle.std.specs.Prelude.{◌≡◌, ◌+◌, ◌-◌, ◌*◌, ◌/◌, ◌%◌, ◌^◌, ◌<◌, ◌≤◌, ◌++◌, length, nat_abs, neg_ℤ, pos, if◌then◌else◌, SomeIff, true};
ghost use Rattle.bits_core.specs.Word.{number, bits, sign, signed, bits_of_ℤ, flag, extract, copies, add, sub, mul, quotient, rest, signed_quotient, signed_rest, and_words, or_words, xor_words, not_word, parity, shift_left, shift_right, shift_right_signed, same_word, order};

use std::cmp::Ordering;
use std::hash::{Hash, Hasher};
use std::marker::Model;

pub mod laws;

/// A word of 1 to 128 bits.
///
/// Contracts see it as the list of its bits, the most significant first.
#[derive(Clone, Copy, Debug)]
pub struct Bits {
    width: u32,
    value: u128,
}

impl Model for Bits {
    ghost use Rattle.std.specs.Prelude.{◌≤◌, ◌<◌, ◌^◌};
    ghost use Rattle.bits_core.specs.Word.{Word, bits};

    ghost Value = { Word };

    ghost use Rattle.bits_core.specs.Fields.{fields_of, fields_of-bits};

    ghost view = { λ b. bits b.width b.value };

    ghost invariant = { λ b. (1 ≤ b.width) × (b.width ≤ 128) × (b.value < 2 ^ b.width) };

    ghost inverse = { fields_of };

    ghost inverse_ok = { λ b fits. fields_of-bits b.width b.value fits.2 };
}

impl PartialEq for Bits {
    ghost use Rattle.bits_core.specs.SameWord.{same_word_laws};

    ghost eq = { same_word };

    ghost laws = { same_word_laws };

    fn eq(&self, other: &Bits) -> bool {
        self.width() == other.width() && self.value() == other.value()
    }
}

impl Eq for Bits {
    ghost use Rattle.bits_core.specs.SameWord.{same_word_equivalence};

    ghost laws = { same_word_equivalence };
}

impl Hash for Bits {
    ghost use Rattle.std.specs.Hash as fed;
    ghost use Rattle.bits_core.specs.SameWord.{same_word_decides};

    ghost hash_input = { λ x. fed.u32 (length x) ++ fed.u128 (number x) };

    ghost respects_eq = { (fed.same_Alike (λ x. fed.u32 (length x) ++ fed.u128 (number x)) same_word_decides).fed };

    fn hash<H: Hasher>(&self, state: &mut H) {
        self.width().hash(state);
        self.value().hash(state);
    }
}

impl From<bool> for Bits {
    ghost from_gives = { λ bit word. word ≡ flag bit };

    /// One bit.
    fn from(bit: bool) -> Bits {
        Bits::truncate(1, u128::from(bit))
    }
}

impl Bits {
    /// The word of `width` bits that stands for `value`, or `None` where `width` is not in
    /// 1..=128 or `value` needs more bits.
    pub fn new(width: u32, value: u128) -> Option<Bits>
        ensures { SomeIff result ((1 ≤ width) × (width ≤ 128) × (value < 2 ^ width)) (bits width value) }
    {
        if width == 0 || width > 128 || value > mask(width) {
            return None;
        }
        Some(Bits { width, value })
    }

    /// The low `width` bits of `value`.
    pub fn truncate(width: u32, value: u128) -> Bits
        requires least { 1 ≤ width }
        requires most { width ≤ 128 }
        ensures { result ≡ bits width value }
    {
        Bits {
            width,
            value: value & mask(width),
        }
    }

    /// The number of bits, in 1..=128.
    pub fn width(&self) -> u32
        ensures value { result ≡ length self.now }
        ensures least { 1 ≤ result }
        ensures most { result ≤ 128 }
    {
        self.width
    }

    /// The number that the word stands for, below 2 to the power of the width.
    pub fn value(&self) -> u128
        ensures value { result ≡ number self.now }
        ensures below { result < 2 ^ length self.now }
    {
        self.value
    }

    /// Whether the signed reading is below 0: the top bit.
    pub fn is_negative(&self) -> bool
        ensures { result ≡ sign self.now }
    {
        self.value() >> (self.width() - 1) == 1
    }

    /// How far the signed reading is from 0.
    pub fn magnitude(&self) -> u128
        ensures { result ≡ nat_abs (signed self.now) }
    {
        if self.is_negative() {
            mask(self.width()) - self.value() + 1
        } else {
            self.value()
        }
    }

    /// The sum, modulo 2 to the power of the width.
    pub fn add(&self, b: &Bits) -> Bits
        requires { length self.now ≡ length b.now }
        ensures { result ≡ add self.now b.now }
    {
        Bits::truncate(self.width(), self.value().wrapping_add(b.value()))
    }

    /// The difference, modulo 2 to the power of the width.
    pub fn sub(&self, b: &Bits) -> Bits
        requires { length self.now ≡ length b.now }
        ensures { result ≡ sub self.now b.now }
    {
        Bits::truncate(self.width(), self.value().wrapping_sub(b.value()))
    }

    /// The product, modulo 2 to the power of the width.
    pub fn mul(&self, b: &Bits) -> Bits
        requires { length self.now ≡ length b.now }
        ensures { result ≡ mul self.now b.now }
    {
        Bits::truncate(self.width(), self.value().wrapping_mul(b.value()))
    }

    /// And, bit by bit.
    pub fn and(&self, b: &Bits) -> Bits
        requires { length self.now ≡ length b.now }
        ensures { result ≡ and_words self.now b.now }
    {
        Bits::truncate(self.width(), self.value() & b.value())
    }

    /// Or, bit by bit.
    pub fn or(&self, b: &Bits) -> Bits
        requires { length self.now ≡ length b.now }
        ensures { result ≡ or_words self.now b.now }
    {
        Bits::truncate(self.width(), self.value() | b.value())
    }

    /// Exclusive or, bit by bit.
    pub fn xor(&self, b: &Bits) -> Bits
        requires { length self.now ≡ length b.now }
        ensures { result ≡ xor_words self.now b.now }
    {
        Bits::truncate(self.width(), self.value() ^ b.value())
    }

    /// The quotient of the numbers, and 0 where the divisor is 0.
    pub fn divu(&self, b: &Bits) -> Bits
        requires { length self.now ≡ length b.now }
        ensures { result ≡ quotient self.now b.now }
    {
        Bits::truncate(self.width(), quotient_of(self.value(), b.value()))
    }

    /// The rest of the quotient of the numbers, and `self` where the divisor is 0.
    pub fn modu(&self, b: &Bits) -> Bits
        requires { length self.now ≡ length b.now }
        ensures { result ≡ rest self.now b.now }
    {
        Bits::truncate(self.width(), rest_of(self.value(), b.value()))
    }

    /// The quotient of the signed readings, rounded to 0, and 0 where the divisor is 0. The least
    /// one by -1 wraps, to itself.
    pub fn divs(&self, b: &Bits) -> Bits
        requires { length self.now ≡ length b.now }
        ensures { result ≡ signed_quotient self.now b.now }
    {
        let magnitude = quotient_of(self.magnitude(), b.magnitude());
        signed_bits(
            self.width(),
            self.is_negative() != b.is_negative(),
            magnitude,
        )
    }

    /// The rest of the quotient of the signed readings, with the sign of `self`, and `self` where
    /// the divisor is 0.
    pub fn mods(&self, b: &Bits) -> Bits
        requires { length self.now ≡ length b.now }
        ensures { result ≡ signed_rest self.now b.now }
    {
        let magnitude = rest_of(self.magnitude(), b.magnitude());
        signed_bits(self.width(), self.is_negative(), magnitude)
    }

    /// `self` moved up by the number of `b`, with bits of 0 from below.
    pub fn shl(&self, b: &Bits) -> Bits
        ensures { result ≡ shift_left self.now (number b.now) }
    {
        let amount = b.value();
        let moved = if amount < u128::from(self.width()) {
            self.value() << amount
        } else {
            0
        };
        Bits::truncate(self.width(), moved)
    }

    /// `self` moved down by the number of `b`, with bits of 0 from above.
    pub fn shru(&self, b: &Bits) -> Bits
        ensures { result ≡ shift_right self.now (number b.now) }
    {
        let amount = b.value();
        let moved = if amount < u128::from(self.width()) {
            self.value() >> amount
        } else {
            0
        };
        Bits::truncate(self.width(), moved)
    }

    /// `self` moved down by the number of `b`, with copies of its top bit from above.
    pub fn shrs(&self, b: &Bits) -> Bits
        ensures { result ≡ shift_right_signed self.now (number b.now) }
    {
        if self.is_negative() {
            self.complement().shru(b).complement()
        } else {
            self.shru(b)
        }
    }

    /// The order of the signed readings, or of the numbers.
    pub fn cmp(&self, b: &Bits, signed: bool) -> Ordering
        requires { length self.now ≡ length b.now }
        ensures { result ≡ order signed self.now b.now }
    {
        if signed {
            self.signed_cmp(b)
        } else {
            self.value().cmp(&b.value())
        }
    }

    /// One bit: exclusive or of all bits.
    pub fn parity(&self) -> Bits
        ensures { result ≡ flag (parity self.now) }
    {
        Bits::from(self.value().count_ones() % 2 == 1)
    }

    /// The `width` bits from bit `low` on, bit 0 being the least significant.
    pub fn extract(&self, low: u32, width: u32) -> Bits
        requires some { 1 ≤ width }
        requires within { low + width ≤ length self.now }
        ensures { result ≡ extract low width self.now }
    {
        Bits::truncate(width, self.value >> low)
    }

    /// The bits of `self` and then those of `low`.
    pub fn concat(&self, low: &Bits) -> Bits
        requires { length self.now + length low.now ≤ 128 }
        ensures { result ≡ self.now ++ low.now }
    {
        let width = self.width() + low.width();
        Bits::truncate(width, (self.value() << low.width()) | low.value())
    }

    /// The bits of `self`, `count` times one after another.
    pub fn replicate(&self, count: u32) -> Bits
        requires some { 1 ≤ count }
        requires within { count * length self.now ≤ 128 }
        ensures { result ≡ copies count self.now }
    {
        let mut all = *self;
        for _ in 1..count {
            all = self.concat(&all);
        }
        all
    }

    fn signed_cmp(&self, b: &Bits) -> Ordering
        requires { length self.now ≡ length b.now }
        ensures { result ≡ order true self.now b.now }
    {
        match (self.is_negative(), b.is_negative()) {
            (true, false) => Ordering::Less,
            (false, true) => Ordering::Greater,
            _ => self.value().cmp(&b.value()),
        }
    }

    fn complement(&self) -> Bits
        ensures { result ≡ not_word self.now }
    {
        Bits::truncate(self.width(), mask(self.width()) - self.value())
    }
}

fn mask(width: u32) -> u128
    requires least { 1 ≤ width }
    requires most { width ≤ 128 }
    ensures { result ≡ 2 ^ width - 1 }
{
    u128::MAX >> (128 - width)
}

fn quotient_of(a: u128, b: u128) -> u128
    ensures { result ≡ a / b }
{
    if b == 0 { 0 } else { a / b }
}

fn rest_of(a: u128, b: u128) -> u128
    ensures { result ≡ a % b }
{
    if b == 0 { a } else { a % b }
}

// the low bits of `magnitude`, or of the number as far below 0
fn signed_bits(width: u32, negative: bool, magnitude: u128) -> Bits
    requires least { 1 ≤ width }
    requires most { width ≤ 128 }
    ensures { result ≡ bits_of_ℤ width (if negative then neg_ℤ (pos magnitude) else pos magnitude) }
{
    if negative {
        Bits::truncate(width, 0u128.wrapping_sub(magnitude))
    } else {
        Bits::truncate(width, magnitude)
    }
}
