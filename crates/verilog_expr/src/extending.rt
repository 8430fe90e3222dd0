//! Where a zero extension may be written as its operand alone.
ghost use Rattle.std.specs.Prelude.{◌≡◌, cond};
ghost use Rattle.verilog_expr.specs.Places.{form_compares, form_passes, place_lent};
ghost use Rattle.verilog_expr.specs.declared.extending.Extending.TheVariants.{Own, Given};
ghost use Rattle.verilog_expr.specs.declared.form.Form.TheVariants.{Chain};

use crate::form::{Form, Operator};

/// How zero extensions are written in an expression.
#[derive(Clone, Copy)]
pub enum Extending {
    /// With their zeros everywhere.
    Off,
    /// As their operand alone where the context gives the full width, and the context of the expression does not.
    Own,
    /// As their operand alone where the context gives the full width, as the context of the expression does.
    Given,
}

// Whether an operator compares.
fn is_comparison(operator: Operator) -> bool
    ensures { result ≡ form_compares (Chain operator) }
{
    match operator {
        Operator::Below
        | Operator::AtMost
        | Operator::Above
        | Operator::AtLeast
        | Operator::Equals
        | Operator::Differs => true,
        _ => false,
    }
}

/// Whether the operands of an expression of a form are compared as unsigned ones.
pub fn form_compares(form: Form) -> bool
    ensures { result ≡ form_compares form }
{
    match form {
        Form::Chain(operator) => is_comparison(operator),
        _ => false,
    }
}

// Whether an expression of a form passes the width of its context on to the operand of a number.
fn form_passes(form: Form, number: usize) -> bool
    ensures { result ≡ form_passes form number }
{
    match form {
        Form::Same => true,
        Form::Chain(operator) => !is_comparison(operator),
        Form::UnsignedShift(_) | Form::UnsignedDivision(_, _, _) => number == 0,
        Form::Choice => number != 0,
        _ => false,
    }
}

// How an operand stands, which the context gives the full width or not.
fn given_or_own(given: bool) -> Extending
    ensures { result ≡ cond given Given Own }
{
    if given {
        Extending::Given
    } else {
        Extending::Own
    }
}

/// How zero extensions are written in the operand of a number, which another one lends the full width or not.
pub fn place_lent(extending: Extending, form: Form, number: usize, lent: bool) -> Extending
    ensures { result ≡ place_lent extending form number lent }
{
    match extending {
        Extending::Off => Extending::Off,
        Extending::Own => given_or_own(lent),
        Extending::Given => {
            let passes = form_passes(form, number);
            given_or_own(passes || lent)
        }
    }
}
