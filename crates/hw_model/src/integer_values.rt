//! The values of operations on integers.
ghost use Rattle.std.specs.Prelude.{◌≡◌, ◌+◌, ◌/◌, ◌%◌, ◌≤◌, ◌∷◌, [], length, map, cond, true, false};
ghost use Rattle.wiring.specs.Lists.{total};
ghost use Rattle.bits_core.specs.Word.{number, bits, bits_of_ℤ, flag, copies, sub, less, signed_less, parity};
ghost use Rattle.bits_core.specs.Word.{extract as bits_from};
ghost use Rattle.hw_model.specs.Types.HwType.{int};
ghost use Rattle.hw_model.specs.KindViews.{kind_of, predicate_of, integer_of};
ghost use Rattle.hw_model.specs.FamilyViews.{family_of, variadic_of, division_of, shift_of};
ghost use Rattle.hw_model.specs.IntegerKinds.{TakesWords, AllHave, OfOne, OfTwo};
ghost use Rattle.hw_model.specs.Value.{op_value, variadic_value, with_operand, division_value, shift_value, concat_words, of_one, of_two, of_three, is_high, compare};

use crate::families::{Division, Family, Shift, Variadic};
use crate::kinds::{Integer, OpKind, Predicate};
use bits_core::Bits;
use std::cmp::Ordering;

/// The value of an operation on integers: the result of `width` bits of an operation of this kind
/// on these operands.
///
/// The kind is that of a `comb` operation or `hw.constant`, and the operands are as many and as
/// wide as it takes.
pub fn op_value(kind: &OpKind, width: u32, operands: &[Bits]) -> Bits
    requires least { 1 ≤ width }
    requires most { width ≤ 128 }
    requires words { TakesWords (kind_of kind.now) width operands.now }
    ensures { result ≡ op_value (kind_of kind.now) [] (int width) 0 operands.now }
{
    family_value(kind.family(), width, operands)
}

/// The value of an operation on integers, by its family. The kind of the family is as `op_value` asks.
pub fn family_value(family: Family<'_>, width: u32, operands: &[Bits]) -> Bits
    requires least { 1 ≤ width }
    requires most { width ≤ 128 }
    requires words { TakesWords (family_of family) width operands.now }
    ensures { result ≡ op_value (family_of family.entry) [] (int width) 0 operands.now }
{
    match family {
        Family::Variadic(op) => variadic_value(op, width, operands),
        Family::Sub => difference(operands),
        Family::Division(op) => division_value(op, operands),
        Family::Shift(op) => shift_value(op, operands),
        Family::Icmp(predicate) => icmp_value(predicate, operands),
        Family::Parity => one(operands).parity(),
        Family::Extract(low) => extract_value(low, width, operands),
        Family::Concat => concat_value(operands),
        Family::Replicate => replicate_value(width, operands),
        Family::Mux => mux_value(operands),
        Family::Constant(value) => constant(width, value),
        _ => unreachable!(),
    }
}

// The operands of an operation of any number of them are joined from the last one on.
fn variadic_value(op: Variadic, width: u32, operands: &[Bits]) -> Bits
    requires least { 1 ≤ width }
    requires most { width ≤ 128 }
    requires words { AllHave width operands.now }
    ensures { result ≡ variadic_value (variadic_of op) width operands.now }
{
    let mut all = value_of_none(op, width);
    let mut left = operands.len();
    while left > 0 {
        left -= 1;
        all = with_operand(op, &operands[left], &all);
    }
    all
}

// The value of no operands.
fn value_of_none(op: Variadic, width: u32) -> Bits
    requires least { 1 ≤ width }
    requires most { width ≤ 128 }
    ensures { result ≡ variadic_value (variadic_of op) width [] }
{
    match op {
        Variadic::Add | Variadic::Or | Variadic::Xor => Bits::truncate(width, 0),
        Variadic::Mul => Bits::truncate(width, 1),
        Variadic::And => Bits::truncate(width, u128::MAX),
    }
}

// The value with one more operand before the others, of which this is the value.
fn with_operand(op: Variadic, operand: &Bits, others: &Bits) -> Bits
    requires { length operand.now ≡ length others.now }
    ensures { result ≡ with_operand (variadic_of op) operand.now others.now }
{
    match op {
        Variadic::Add => operand.add(others),
        Variadic::Mul => operand.mul(others),
        Variadic::And => operand.and(others),
        Variadic::Or => operand.or(others),
        Variadic::Xor => operand.xor(others),
    }
}

fn division_value(op: Division, operands: &[Bits]) -> Bits
    requires { OfTwo (λ x y. length x ≡ length y) operands.now }
    ensures { result ≡ of_two (division_value (division_of op)) operands.now }
{
    let (a, b) = pair(operands);
    match op {
        Division::Divu => a.divu(&b),
        Division::Modu => a.modu(&b),
        Division::Divs => a.divs(&b),
        Division::Mods => a.mods(&b),
    }
}

fn shift_value(op: Shift, operands: &[Bits]) -> Bits
    requires { length operands.now ≡ 2 }
    ensures { result ≡ of_two (λ x y. shift_value (shift_of op) x (number y)) operands.now }
{
    let (a, b) = pair(operands);
    match op {
        Shift::Shl => a.shl(&b),
        Shift::Shru => a.shru(&b),
        Shift::Shrs => a.shrs(&b),
    }
}

// the words of one, two and three operands
fn one(operands: &[Bits]) -> Bits
    requires { length operands.now ≡ 1 }
    ensures { operands.now ≡ result ∷ [] }
{
    operands[0]
}

fn pair(operands: &[Bits]) -> (Bits, Bits)
    requires { length operands.now ≡ 2 }
    ensures { operands.now ≡ result.0 ∷ result.1 ∷ [] }
{
    (operands[0], operands[1])
}

fn triple(operands: &[Bits]) -> (Bits, Bits, Bits)
    requires { length operands.now ≡ 3 }
    ensures { operands.now ≡ result.0 ∷ result.1 ∷ result.2 ∷ [] }
{
    (operands[0], operands[1], operands[2])
}

fn difference(operands: &[Bits]) -> Bits
    requires { OfTwo (λ x y. length x ≡ length y) operands.now }
    ensures { result ≡ of_two sub operands.now }
{
    let (a, b) = pair(operands);
    a.sub(&b)
}

fn icmp_value(predicate: Predicate, operands: &[Bits]) -> Bits
    requires { OfTwo (λ x y. length x ≡ length y) operands.now }
    ensures { result ≡ of_two (λ x y. flag (compare (predicate_of predicate) x y)) operands.now }
{
    let (a, b) = pair(operands);
    Bits::from(compare(predicate, &a, &b))
}

fn compare(predicate: Predicate, a: &Bits, b: &Bits) -> bool
    requires { length a.now ≡ length b.now }
    ensures { result ≡ compare (predicate_of predicate) a.now b.now }
{
    match predicate {
        Predicate::Eq | Predicate::Ceq | Predicate::Weq => a == b,
        Predicate::Ne | Predicate::Cne | Predicate::Wne => a != b,
        Predicate::Slt => less(a, b, true),
        Predicate::Sle => !less(b, a, true),
        Predicate::Sgt => less(b, a, true),
        Predicate::Sge => !less(a, b, true),
        Predicate::Ult => less(a, b, false),
        Predicate::Ule => !less(b, a, false),
        Predicate::Ugt => less(b, a, false),
        Predicate::Uge => !less(a, b, false),
    }
}

// whether a is below b, as signed words or as numbers
fn less(a: &Bits, b: &Bits, signed: bool) -> bool
    requires { length a.now ≡ length b.now }
    ensures { result ≡ cond signed (signed_less a.now b.now) (less a.now b.now) }
{
    a.cmp(b, signed) == Ordering::Less
}

fn extract_value(low: u32, width: u32, operands: &[Bits]) -> Bits
    requires least { 1 ≤ width }
    requires within { OfOne (λ x. low + width ≤ length x) operands.now }
    ensures { result ≡ of_one (bits_from low width) operands.now }
{
    one(operands).extract(low, width)
}

fn replicate_value(width: u32, operands: &[Bits]) -> Bits
    requires least { 1 ≤ width }
    requires most { width ≤ 128 }
    requires whole { OfOne (λ x. width % length x ≡ 0) operands.now }
    ensures { result ≡ of_one (λ x. copies (width / length x) x) operands.now }
{
    let a = one(operands);
    a.replicate(width / a.width())
}

fn mux_value(operands: &[Bits]) -> Bits
    requires { length operands.now ≡ 3 }
    ensures { result ≡ of_three (λ c x y. cond (is_high c) x y) operands.now }
{
    let (condition, a, b) = triple(operands);
    if is_high(&condition) { a } else { b }
}

// whether the top bit is 1
fn is_high(word: &Bits) -> bool
    ensures { result ≡ is_high word.now }
{
    word.is_negative()
}

fn constant(width: u32, value: Integer) -> Bits
    requires least { 1 ≤ width }
    requires most { width ≤ 128 }
    ensures { result ≡ bits_of_ℤ width (integer_of value) }
{
    match value {
        Integer::NonNegative(n) => Bits::truncate(width, n),
        Integer::Negative(n) => Bits::truncate(width, u128::MAX - n),
    }
}

// the operands joined, the first most significant
fn concat_value(operands: &[Bits]) -> Bits
    requires some { 1 ≤ length operands.now }
    requires within { total (map length operands.now) ≤ 128 }
    ensures { result ≡ concat_words operands.now }
{
    let mut left = operands.len() - 1;
    let mut all = operands[left];
    while left > 0 {
        left -= 1;
        all = operands[left].concat(&all);
    }
    all
}
