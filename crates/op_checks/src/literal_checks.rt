//! Constants of aggregate types against those types.
ghost use Rattle.std.specs.Prelude.{◌≡◌, ◌^◌, map, nat_le};
ghost use Rattle.hw_model.specs.Kinds.Literal.{parts};
ghost use Rattle.hw_model.specs.TypeViews.{type_of, field_of, fields_of};
ghost use Rattle.hw_model.specs.KindViews.{integer_of, literal_of, literals_of, literals_in};
ghost use Rattle.op_checks.specs.LiteralChecks.{is_out_of_range, is_outside_type, leaf_differs, leaf_fails, literal_count, literal_differs, any_literal_differs, literals_differ, is_miscounted, any_miscounted, are_miscounted, has_failing_leaf, any_failing_leaf};

use crate::type_checks::{is_int, is_outside};
use crate::type_parts::field_count;
use hw_model::kinds::{Integer, Literal, LiteralList};
use hw_model::types::{Field, Ty};

/// What is asked of a leaf.
#[derive(Clone, Copy)]
pub enum LeafTest {
    /// That its type is an integer's.
    Kind,
    /// That its type is within the limits.
    Width,
    /// That it is in the range of its type.
    Range,
}

/// Whether a number is at least 2 to the power of the exponent.
fn reaches(number: u128, exponent: u32) -> bool
    ensures { result ≡ nat_le (2 ^ exponent) number }
{
    exponent < 128 && 1u128 << exponent <= number
}

/// Whether an integer is below -2^(w - 1) or above 2^w - 1.
#[tactic(auto, unfolding(crate::specs::LiteralChecks::is_out_of_range))]
fn is_out_of_range(value: Integer, width: u32) -> bool
    ensures { result ≡ is_out_of_range (integer_of value) width }
{
    match value {
        Integer::NonNegative(number) => reaches(number, width),
        Integer::Negative(number) => reaches(number, width.saturating_sub(1)),
    }
}

/// Whether an integer is outside its type.
pub fn is_outside_type(value: Integer, ty: &Ty) -> bool
    ensures { result ≡ is_outside_type (integer_of value) (type_of ty.now) }
{
    match ty {
        Ty::Int(width) => is_out_of_range(value, *width),
        Ty::Clock | Ty::Array(..) | Ty::Struct(_) => false,
    }
}

/// Whether the type that a leaf writes differs from the one that is due.
fn leaf_differs(own: &Ty, ty: &Ty) -> bool
    ensures { result ≡ leaf_differs (type_of own.now) (type_of ty.now) }
{
    match ty {
        Ty::Int(_) => own != ty,
        Ty::Clock | Ty::Array(..) | Ty::Struct(_) => true,
    }
}

#[cycle(literal_differs)]
fn literal_differs(literal: &Literal, ty: &Ty) -> bool
    ensures { result ≡ literal_differs (literal_of literal.now) (type_of ty.now) }
{
    match literal {
        Literal::Leaf(_, own) => leaf_differs(own, ty),
        Literal::Parts(list) => parts_differ(list, ty),
    }
}

/// Whether the constants are no constant of the aggregate type, by their types and by their lists: each leaf is to be of
/// the integer type that is due, each list to stand where there are parts. How many there are is not asked.
#[cycle(literal_differs)]
pub fn parts_differ(list: &LiteralList, ty: &Ty) -> bool
    ensures { result ≡ literal_differs (parts (literals_in list.now)) (type_of ty.now) }
{
    match ty {
        Ty::Array(_, element) => any_literal_differs(&list.literals, element),
        Ty::Struct(fields) => literals_differ(&list.literals, &fields.fields),
        Ty::Int(_) | Ty::Clock => true,
    }
}

#[cycle(literal_differs)]
fn any_literal_differs(literals: &[Literal], ty: &Ty) -> bool
    ensures { result ≡ any_literal_differs (literals_of (map literal_of literals.now)) (type_of ty.now) }
{
    for literal in literals {
        if literal_differs(literal, ty) {
            return true;
        }
    }
    false
}

#[cycle(literal_differs)]
fn literals_differ(literals: &[Literal], fields: &[Field]) -> bool
    ensures { result ≡ literals_differ (literals_of (map literal_of literals.now)) (fields_of (map field_of fields.now)) }
{
    for (literal, field) in literals.iter().zip(fields) {
        if literal_differs(literal, &field.ty) {
            return true;
        }
    }
    false
}

#[cycle(is_miscounted)]
fn is_miscounted(literal: &Literal, ty: &Ty) -> bool
    ensures { result ≡ is_miscounted (literal_of literal.now) (type_of ty.now) }
{
    match literal {
        Literal::Leaf(..) => false,
        Literal::Parts(list) => are_parts_miscounted(list, ty),
    }
}

/// Whether a list of constants, or one within it, is shorter or longer than the array or the struct that it stands for.
#[cycle(is_miscounted)]
pub fn are_parts_miscounted(list: &LiteralList, ty: &Ty) -> bool
    ensures { result ≡ is_miscounted (parts (literals_in list.now)) (type_of ty.now) }
{
    match ty {
        Ty::Array(length, element) => {
            literal_count(&list.literals) != *length as usize
                || any_miscounted(&list.literals, element)
        }
        Ty::Struct(fields) => {
            literal_count(&list.literals) != field_count(&fields.fields)
                || are_miscounted(&list.literals, &fields.fields)
        }
        Ty::Int(_) | Ty::Clock => false,
    }
}

/// How many constants there are.
fn literal_count(literals: &[Literal]) -> usize
    ensures { result ≡ literal_count (literals_of (map literal_of literals.now)) }
{
    literals.len()
}

#[cycle(is_miscounted)]
fn any_miscounted(literals: &[Literal], ty: &Ty) -> bool
    ensures { result ≡ any_miscounted (literals_of (map literal_of literals.now)) (type_of ty.now) }
{
    for literal in literals {
        if is_miscounted(literal, ty) {
            return true;
        }
    }
    false
}

#[cycle(is_miscounted)]
fn are_miscounted(literals: &[Literal], fields: &[Field]) -> bool
    ensures { result ≡ are_miscounted (literals_of (map literal_of literals.now)) (fields_of (map field_of fields.now)) }
{
    for (literal, field) in literals.iter().zip(fields) {
        if is_miscounted(literal, &field.ty) {
            return true;
        }
    }
    false
}

/// Whether a leaf fails a test.
fn leaf_fails(test: LeafTest, value: Integer, ty: &Ty) -> bool
    ensures { result ≡ leaf_fails test (integer_of value) (type_of ty.now) }
{
    match test {
        LeafTest::Kind => !is_int(ty),
        LeafTest::Width => is_outside(ty),
        LeafTest::Range => is_outside_type(value, ty),
    }
}

#[cycle(has_failing_leaf)]
fn has_failing_leaf(test: LeafTest, literal: &Literal) -> bool
    ensures { result ≡ has_failing_leaf test (literal_of literal.now) }
{
    match literal {
        Literal::Leaf(value, ty) => leaf_fails(test, *value, ty),
        Literal::Parts(list) => any_failing_leaf(test, &list.literals),
    }
}

/// Whether a leaf of the constants fails a test.
#[cycle(has_failing_leaf)]
pub fn any_failing_leaf(test: LeafTest, literals: &[Literal]) -> bool
    ensures { result ≡ any_failing_leaf test (literals_of (map literal_of literals.now)) }
{
    for literal in literals {
        if has_failing_leaf(test, literal) {
            return true;
        }
    }
    false
}
