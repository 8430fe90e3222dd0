//! The constants of aggregates, as they are printed.
ghost use Rattle.std.specs.Prelude.{◌≡◌, ◌++◌, map, OnOk};
ghost use Rattle.hw_model.specs.TypeViews.{type_of};
ghost use Rattle.hw_model.specs.KindViews.{integer_of, literal_of, literals_of};
ghost use Rattle.printing_laws.specs.Numbers.{shown_integer, shown_literal, shown_literals};
ghost use Rattle.mlir_printer.specs.Literals.{leaf_bytes, literal_bytes, literals_from};

use crate::attributes::push_typed;
use crate::commas::push_comma;
use crate::numbers::{is_one, is_shown_as_truth, shown_integer, truth_text};
use hw_model::kinds::{Integer, Literal};
use hw_model::types::Ty;
use io_edge::byte_text::Text;
use std::alloc::AllocError;

// Adds a number of a type.
#[tactic(auto, unfolding(crate::specs::Literals::leaf_bytes))]
fn push_leaf(out: &mut Text, value: Integer, ty: &Ty) -> Result<(), AllocError>
    ensures { OnOk result (out.new ≡ out.old ++ leaf_bytes (integer_of value) (type_of ty.now)) }
{
    if is_shown_as_truth(ty, value) {
        out.push_bytes(truth_text(is_one(value)))?;
    } else {
        push_typed(out, value, ty)?;
    }
    Ok(())
}

// Adds a constant, signed.
#[cycle(literals)]
fn push_literal(out: &mut Text, literal: &Literal) -> Result<(), AllocError>
    ensures { OnOk result (out.new ≡ out.old ++ literal_bytes (shown_literal (literal_of literal.now))) }
{
    match literal {
        Literal::Leaf(value, ty) => push_leaf(out, shown_integer(ty, *value), ty)?,
        Literal::Parts(list) => {
            out.push_bytes(b"[")?;
            push_literals(out, &list.literals)?;
            out.push_bytes(b"]")?;
        }
    }
    Ok(())
}

/// Adds constants with commas between them, signed.
#[cycle(literals)]
pub fn push_literals(out: &mut Text, literals: &[Literal]) -> Result<(), AllocError>
    ensures { OnOk result (out.new ≡ out.old ++ literals_from 0 (shown_literals (literals_of (map literal_of literals.now)))) }
{
    for (i, literal) in literals.iter().enumerate() {
        push_comma(out, i)?;
        push_literal(out, literal)?;
    }
    Ok(())
}
