//! Whether constants can be read: how large integers are, how deep lists are nested.
ghost use Rattle.std.specs.Prelude.{◌↔◌, map, IsTrue};
ghost use Rattle.hw_model.specs.KindViews.{integer_of, literal_of, literals_of};
ghost use Rattle.stored_form.specs.Limits.{IsInteger, IsLiteral, AreLiterals};

use crate::types::is_type;
use hw_model::kinds::{Integer, Literal};

/// Whether an integer can be read: its distance from 0 is below 2^128.
pub(crate) fn is_integer(value: Integer) -> bool
    ensures { IsTrue result ↔ IsInteger (integer_of value) }
{
    match value {
        Integer::NonNegative(_) => true,
        Integer::Negative(number) => number < u128::MAX,
    }
}

/// Whether a constant can be read where so many more lists may be opened.
#[cycle(literal)]
fn is_literal(literal: &Literal, room: u32) -> bool
    ensures { IsTrue result ↔ IsLiteral (literal_of literal.now) room }
{
    match literal {
        Literal::Leaf(value, ty) => is_integer(*value) && is_type(ty, room),
        Literal::Parts(list) => room > 0 && are_literals(&list.literals, room - 1),
    }
}

/// Whether constants can be read where so many more lists may be opened.
#[cycle(literal)]
pub(crate) fn are_literals(literals: &[Literal], room: u32) -> bool
    ensures { IsTrue result ↔ AreLiterals (literals_of (map literal_of literals.now)) room }
{
    for literal in literals {
        if !is_literal(literal, room) {
            return false;
        }
    }
    true
}
