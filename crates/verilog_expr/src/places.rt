//! Where the operands of an expression stand: whether the context gives them the full width.
ghost use Rattle.std.specs.Prelude.{◌≡◌, ◌&&◌, map};
ghost use Rattle.verilog_expr.specs.Scopes.{scope_ref};
ghost use Rattle.verilog_expr.specs.Expressions.{lends};
ghost use Rattle.verilog_expr.specs.Places.{form_compares, place_in};
ghost use Rattle.verilog_expr.specs.ExprNode.{exprs_to};

use crate::extending::{Extending, form_compares, place_lent};
use crate::form::Form;
use crate::info::is_simple;
use crate::scope::Scope;
use crate::value_names::ValueNames;
use ir_store::operation::Value;

// Whether an operand of two lends the full width to the other one, of a number.
fn lends_at(
    scope: &Scope<'_>,
    names: &ValueNames,
    operands: &[Value],
    number: usize,
    depth: usize,
) -> bool
    ensures { result ≡ lends (exprs_to scope.now names.now depth) (map (scope_ref scope.now) operands.now) number }
{
    match operands {
        [first, second] => {
            if number == 0 {
                is_simple(scope, names, *second, depth)
            } else {
                is_simple(scope, names, *first, depth)
            }
        }
        _ => false,
    }
}

// Whether the operand of a number, of a form over operands, is lent the full width.
fn lent_at(
    scope: &Scope<'_>,
    names: &ValueNames,
    form: Form,
    operands: &[Value],
    number: usize,
    depth: usize,
) -> bool
    ensures { result ≡ (form_compares form && lends (exprs_to scope.now names.now depth) (map (scope_ref scope.now) operands.now) number) }
{
    if form_compares(form) {
        lends_at(scope, names, operands, number, depth)
    } else {
        false
    }
}

/// How zero extensions are written in the operand of a number, of a form over operands down to a depth.
pub(crate) fn place_at(
    scope: &Scope<'_>,
    names: &ValueNames,
    form: Form,
    operands: &[Value],
    number: usize,
    extending: Extending,
    depth: usize,
) -> Extending
    ensures { result ≡ place_in extending form number (lends (exprs_to scope.now names.now depth) (map (scope_ref scope.now) operands.now) number) }
{
    match extending {
        Extending::Off => Extending::Off,
        Extending::Own | Extending::Given => {
            let lent = lent_at(scope, names, form, operands, number, depth);
            place_lent(extending, form, number, lent)
        }
    }
}
