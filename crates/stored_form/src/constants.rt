//! Whether constants of integer types are kept as the numbers that their bits are.
ghost use Rattle.std.specs.Prelude.{◌≡◌, ◌↔◌, map, IsTrue};
ghost use Rattle.hw_model.specs.TypeViews.{type_of};
ghost use Rattle.hw_model.specs.KindViews.{integer_of, literal_of, literals_of};
ghost use Rattle.hw_model.specs.FamilyViews.{family_of};
ghost use Rattle.stored_form.specs.Constants.{has_negative, kept_integer, kept_by_first, kept_literal, kept_literals};
ghost use Rattle.stored_form.specs.Kinds.{KeepsConstants};

use hw_model::families::Family;
use hw_model::kinds::{Integer, Literal};
use hw_model::types::Ty;

/// Whether the constants of a kind are kept as the numbers that their bits are.
pub(crate) fn keeps_constants(family: Family<'_>, types: &[Ty]) -> bool
    ensures { IsTrue result ↔ KeepsConstants (family_of family.entry) (map type_of types.now) }
{
    match family {
        Family::Constant(value) => is_kept_by_first(types, value),
        Family::AggregateConstant(list) => are_kept(&list.literals),
        _ => true,
    }
}

/// Whether a constant of the first of some types is kept so.
fn is_kept_by_first(types: &[Ty], value: Integer) -> bool
    ensures { IsTrue result ↔ (kept_by_first (map type_of types.now) (integer_of value) ≡ integer_of value) }
{
    match types.first() {
        Some(ty) => is_kept(ty, value),
        None => true,
    }
}

/// Whether a constant of a type is kept so.
fn is_kept(ty: &Ty, value: Integer) -> bool
    ensures { IsTrue result ↔ (kept_integer (type_of ty.now) (integer_of value) ≡ integer_of value) }
{
    match (ty, value) {
        (Ty::Int(width), Integer::Negative(number)) => !has_negative(*width, number),
        (Ty::Int(_), Integer::NonNegative(_)) | (Ty::Clock | Ty::Array(..) | Ty::Struct(_), _) => {
            true
        }
    }
}

/// Whether -1 less a number is in the range of an integer type of a width from 1 to 128.
pub fn has_negative(width: u32, number: u128) -> bool
    ensures { result ≡ has_negative width number }
{
    0 < width && (width < 129 && number < 1 << (width - 1))
}

/// Whether a constant of an aggregate has its integers kept so.
#[cycle(keep)]
fn is_kept_literal(literal: &Literal) -> bool
    ensures { IsTrue result ↔ (kept_literal (literal_of literal.now) ≡ literal_of literal.now) }
{
    match literal {
        Literal::Leaf(value, ty) => is_kept(ty, *value),
        Literal::Parts(list) => are_kept(&list.literals),
    }
}

/// Whether constants have their integers kept so.
#[cycle(keep)]
fn are_kept(literals: &[Literal]) -> bool
    ensures { IsTrue result ↔ (kept_literals (literals_of (map literal_of literals.now)) ≡ literals_of (map literal_of literals.now)) }
{
    for literal in literals {
        if !is_kept_literal(literal) {
            return false;
        }
    }
    true
}
