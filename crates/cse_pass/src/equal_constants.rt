//! Constants that are one number.
ghost use Rattle.std.specs.Prelude.{◌≡◌, ◌&&◌, ◌%◌, ◌^◌, ℕ, min, map, not, nat_eq};
ghost use Rattle.bits_core.specs.Word.{number, bits, bits_of_ℤ};
ghost use Rattle.hw_model.specs.KindViews.{integer_of, literal_of, literals_of, literals_in};
ghost use Rattle.hw_model.specs.SameKind.{same_integer, same_literal, same_literals};
ghost use Rattle.hw_model.specs.SameType.{same_type};
ghost use Rattle.hw_model.specs.TypeViews.{type_of};
ghost use Rattle.cse_pass.specs.EqualOps.{value_number, value_literal, value_literals};

use hw_model::kinds::{Integer, Literal, LiteralList};
use hw_model::types::Ty;

/// Whether two constants of aggregate types are one, each number being read by its type. Linear in the parts.
pub fn are_same_parts(a: &LiteralList, b: &LiteralList) -> bool
    ensures { result ≡ same_literals (value_literals (literals_in a.now)) (value_literals (literals_in b.now)) }
{
    are_same_literals(&a.literals, &b.literals)
}

#[cycle(same_literal)]
fn are_same_literals(ks: &[Literal], ls: &[Literal]) -> bool
    ensures { result ≡ same_literals (value_literals (literals_of (map literal_of ks.now))) (value_literals (literals_of (map literal_of ls.now))) }
{
    if ks.len() != ls.len() {
        return false;
    }
    for (k, l) in ks.iter().zip(ls) {
        if !is_same_literal(k, l) {
            return false;
        }
    }
    true
}

#[cycle(same_literal)]
fn is_same_literal(a: &Literal, b: &Literal) -> bool
    ensures { result ≡ same_literal (value_literal (literal_of a.now)) (value_literal (literal_of b.now)) }
{
    match a {
        Literal::Leaf(value, ty) => match b {
            Literal::Leaf(other, other_ty) => is_same_leaf(*value, ty, *other, other_ty),
            Literal::Parts(_) => false,
        },
        Literal::Parts(list) => match b {
            Literal::Parts(other) => are_same_literals(&list.literals, &other.literals),
            Literal::Leaf(..) => false,
        },
    }
}

/// Whether two numbers of types are one.
fn is_same_leaf(y: Integer, t: &Ty, z: Integer, u: &Ty) -> bool
    ensures { result ≡ same_integer (value_number (type_of t.now) (integer_of y)) (value_number (type_of u.now) (integer_of z)) && same_type (type_of t.now) (type_of u.now) }
{
    t == u && is_same_number(t.width(), y, z)
}

/// Whether two integers have the same low bits, `width` of them, or more where that is 2^64 - 1.
pub fn is_same_number(width: u64, a: Integer, b: Integer) -> bool
    ensures { (w : ℕ) → width ≡ min w u64.MAX → result ≡ nat_eq (number (bits_of_ℤ w (integer_of a))) (number (bits_of_ℤ w (integer_of b))) }
{
    match (a, b) {
        (Integer::NonNegative(m), Integer::NonNegative(n)) => low(width, m) == low(width, n),
        (Integer::Negative(m), Integer::Negative(n)) => low(width, m) == low(width, n),
        (Integer::NonNegative(m), Integer::Negative(n)) => is_complement(width, m, n),
        (Integer::Negative(m), Integer::NonNegative(n)) => is_complement(width, n, m),
    }
}

/// Whether the low bits of two numbers, so many of them, are each other's complement.
fn is_complement(width: u64, m: u128, n: u128) -> bool
    ensures { (w : ℕ) → width ≡ min w u64.MAX → result ≡ nat_eq (number (bits w m)) (number (map not (bits w n))) }
{
    width <= 128 && low(width, m) == low(width, u128::MAX - n)
}

/// The low 128 bits of the number that the low bits of an integer stand for, `width` of them, or more where that is 2^64 - 1.
pub fn low_number(width: u64, value: Integer) -> u128
    ensures { (w : ℕ) → width ≡ min w u64.MAX → result ≡ number (bits_of_ℤ w (integer_of value)) % 2 ^ 128 }
{
    match value {
        Integer::NonNegative(n) => low(width, n),
        Integer::Negative(n) => low(width, u128::MAX - n),
    }
}

/// The low bits of a number, so many of them.
fn low(width: u64, n: u128) -> u128
    ensures { (w : ℕ) → width ≡ min w u64.MAX → result ≡ number (bits w n) }
{
    if width < 128 { n % (1 << width) } else { n }
}
