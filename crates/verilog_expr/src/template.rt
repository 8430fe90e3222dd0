//! Which form the expression of an operation has.
ghost use Rattle.std.specs.Prelude.{◌≡◌, ◌<◌, ◌/◌};
ghost use Rattle.bits_core.specs.Word.{number, bits_of_ℤ};
ghost use Rattle.hw_model.specs.KindViews.{kind_of, predicate_of, integer_of};
ghost use Rattle.hw_model.specs.FamilyViews.{family_of, variadic_of, division_of, shift_of};
ghost use Rattle.verilog_expr.specs.Building.{variadic_operator, division_operator, shift_operator, is_signed_division, is_signed_shift};
ghost use Rattle.verilog_expr.specs.Forms.{operator_in_code};
ghost use Rattle.verilog_expr.specs.Templates.{chain_template, template_of_count, division_form, shift_form, comparison_form, extract_template, template_for};

use crate::form::{Form, Operator};
use hw_model::families::{Division, Family, Shift, Variadic};
use hw_model::integer_values::family_value;
use hw_model::kinds::{Integer, OpKind, Predicate};

/// What an operation's expression is.
#[derive(Clone, Copy)]
pub enum Template {
    /// Nothing: the operation has none.
    Missing,
    /// A literal of so many bits.
    Number(u64, u128),
    /// So many bits of a name, from a bit on.
    Select(u32, u64),
    /// Operands in a form.
    Operands(Form),
}

/// The number that a constant of so many bits has.
pub fn constant_number(width: u64, value: Integer) -> u128
    requires { width < 129 }
    ensures { result ≡ number (bits_of_ℤ width (integer_of value)) }
{
    if width == 0 {
        return 0;
    }
    family_value(Family::Constant(value), width as u32, &[]).value()
}

// An operator between any number of operands.
fn chain_template(count: usize, operator: Operator) -> Template
    ensures { result ≡ chain_template count operator }
{
    if count == 0 {
        Template::Missing
    } else if count == 1 {
        Template::Operands(Form::Same)
    } else {
        Template::Operands(Form::Chain(operator))
    }
}

// A form that takes so many operands.
fn template_of_count(count: usize, wanted: usize, form: Form) -> Template
    ensures { result ≡ template_of_count count wanted form }
{
    if count == wanted {
        Template::Operands(form)
    } else {
        Template::Missing
    }
}

// The operator of any number of operands.
fn variadic_operator(op: Variadic) -> Operator
    ensures { result ≡ operator_in_code (variadic_operator (variadic_of op)) }
{
    match op {
        Variadic::Add => Operator::Plus,
        Variadic::Mul => Operator::Times,
        Variadic::And => Operator::BitAnd,
        Variadic::Or => Operator::BitOr,
        Variadic::Xor => Operator::BitXor,
    }
}

// The form of a division by a number.
fn division_form(op: Division, width: u64, divisor: u128) -> Form
    ensures { result ≡ division_form (is_signed_division (division_of op)) (operator_in_code (division_operator (division_of op))) width divisor }
{
    match op {
        Division::Divu => Form::UnsignedDivision(Operator::Over, width, divisor),
        Division::Modu => Form::UnsignedDivision(Operator::Modulo, width, divisor),
        Division::Divs => Form::SignedDivision(Operator::Over, width, divisor),
        Division::Mods => Form::SignedDivision(Operator::Modulo, width, divisor),
    }
}

// The form of a shift.
fn shift_form(op: Shift) -> Form
    ensures { result ≡ shift_form (is_signed_shift (shift_of op)) (operator_in_code (shift_operator (shift_of op))) }
{
    match op {
        Shift::Shl => Form::UnsignedShift(Operator::LeftShift),
        Shift::Shru => Form::UnsignedShift(Operator::RightShift),
        Shift::Shrs => Form::SignedShift(Operator::SignedRightShift),
    }
}

// The form of a comparison.
fn comparison_form(predicate: Predicate) -> Form
    ensures { result ≡ comparison_form (predicate_of predicate) }
{
    match predicate {
        Predicate::Eq | Predicate::Ceq | Predicate::Weq => Form::Chain(Operator::Equals),
        Predicate::Ne | Predicate::Cne | Predicate::Wne => Form::Chain(Operator::Differs),
        Predicate::Slt => Form::SignedPair(Operator::Below),
        Predicate::Sle => Form::SignedPair(Operator::AtMost),
        Predicate::Sgt => Form::SignedPair(Operator::Above),
        Predicate::Sge => Form::SignedPair(Operator::AtLeast),
        Predicate::Ult => Form::Chain(Operator::Below),
        Predicate::Ule => Form::Chain(Operator::AtMost),
        Predicate::Ugt => Form::Chain(Operator::Above),
        Predicate::Uge => Form::Chain(Operator::AtLeast),
    }
}

// The template of an extract.
fn extract_template(count: usize, low: u32, width: u64, operand_width: u64) -> Template
    ensures { result ≡ extract_template count low width operand_width }
{
    if count != 1 {
        return Template::Missing;
    }
    if low == 0 && width == operand_width {
        return Template::Operands(Form::Same);
    }
    Template::Select(low, width)
}

// How often an operand of so many bits stands in a result.
fn copies(width: u64, operand_width: u64) -> u64
    ensures { result ≡ width / operand_width }
{
    if operand_width == 0 {
        0
    } else {
        width / operand_width
    }
}

/// The template of an operation of a kind with a result of `width` bits and `count` operands, of which the first has
/// `operand_width` bits, and `divisor` the number of the constant that it divides by.
pub fn template_for(
    kind: &OpKind,
    width: u64,
    operand_width: u64,
    divisor: u128,
    count: usize,
) -> Template
    requires { width < 129 }
    ensures { result ≡ template_for (kind_of kind.now) width operand_width divisor count }
{
    family_template(kind.family(), width, operand_width, divisor, count)
}

// The same, by the family.
fn family_template(
    family: Family<'_>,
    width: u64,
    operand_width: u64,
    divisor: u128,
    count: usize,
) -> Template
    requires { width < 129 }
    ensures { result ≡ template_for (family_of family.entry) width operand_width divisor count }
{
    match family {
        Family::Variadic(op) => chain_template(count, variadic_operator(op)),
        Family::Sub => template_of_count(count, 2, Form::Chain(Operator::Minus)),
        Family::Division(op) => template_of_count(count, 2, division_form(op, width, divisor)),
        Family::Shift(op) => template_of_count(count, 2, shift_form(op)),
        Family::Icmp(predicate) => template_of_count(count, 2, comparison_form(predicate)),
        Family::Parity => template_of_count(count, 1, Form::Parity),
        Family::Extract(low) => extract_template(count, low, width, operand_width),
        Family::Concat => {
            if count == 0 {
                Template::Missing
            } else {
                Template::Operands(Form::Braces)
            }
        }
        Family::Replicate => template_of_count(
            count,
            1,
            Form::Copies(copies(width, operand_width)),
        ),
        Family::Mux => template_of_count(count, 3, Form::Choice),
        Family::Constant(value) => Template::Number(width, constant_number(width, value)),
        Family::Bitcast | Family::Wire => template_of_count(count, 1, Form::Same),
        _ => Template::Missing,
    }
}
