//! How the expression of an operation is laid out round its operands.
ghost use Rattle.std.specs.Prelude.{◌≡◌, ◌++◌, OnOk};
ghost use Rattle.verilog_model.specs.Grammar.{strength};
ghost use Rattle.verilog_model.specs.Text.{operator_text};
ghost use Rattle.verilog_expr.specs.Forms.{operator_of, before, text_after, asks_unsigned, asks_level};

use io_edge::byte_text::Text;
use std::alloc::AllocError;
use verilog_model::{push_decimal, push_literal};

/// The binary operators, but `?:` (IEEE 1364-2005, 5.1).
#[derive(Clone, Copy)]
pub enum Operator {
    /// `*`
    Times,
    /// `/`
    Over,
    /// `%`
    Modulo,
    /// `+`
    Plus,
    /// `-`
    Minus,
    /// `<<`
    LeftShift,
    /// `>>`
    RightShift,
    /// `>>>`
    SignedRightShift,
    /// `<`
    Below,
    /// `<=`
    AtMost,
    /// `>`
    Above,
    /// `>=`
    AtLeast,
    /// `==`
    Equals,
    /// `!=`
    Differs,
    /// `&`
    BitAnd,
    /// `^`
    BitXor,
    /// `|`
    BitOr,
}

/// What stands round the operands of an expression.
#[derive(Clone, Copy)]
pub enum Form {
    /// Nothing: one operand as it is.
    Same,
    /// An operator between unsigned operands, to the left.
    Chain(Operator),
    /// An operator between two operands made signed.
    SignedPair(Operator),
    /// A shift of an unsigned operand.
    UnsignedShift(Operator),
    /// A shift of an operand made signed.
    SignedShift(Operator),
    /// A division of an unsigned operand by a number of so many bits.
    UnsignedDivision(Operator, u64, u128),
    /// A division of an operand made signed.
    SignedDivision(Operator, u64, u128),
    /// `^a`
    Parity,
    /// `{a, b}`
    Braces,
    /// `{n{a}}`
    Copies(u64),
    /// `c ? a : b`
    Choice,
}

/// The operator between blanks.
pub fn operator_text(operator: Operator) -> &'static [u8]
    ensures { result.now ≡ operator_text (operator_of operator) }
{
    match operator {
        Operator::Times => b" * ",
        Operator::Over => b" / ",
        Operator::Modulo => b" % ",
        Operator::Plus => b" + ",
        Operator::Minus => b" - ",
        Operator::LeftShift => b" << ",
        Operator::RightShift => b" >> ",
        Operator::SignedRightShift => b" >>> ",
        Operator::Below => b" < ",
        Operator::AtMost => b" <= ",
        Operator::Above => b" > ",
        Operator::AtLeast => b" >= ",
        Operator::Equals => b" == ",
        Operator::Differs => b" != ",
        Operator::BitAnd => b" & ",
        Operator::BitXor => b" ^ ",
        Operator::BitOr => b" | ",
    }
}

/// How strongly an operator binds (IEEE 1364-2005, 5.1.2).
pub fn strength(operator: Operator) -> u8
    ensures { result ≡ strength (operator_of operator) }
{
    match operator {
        Operator::Times | Operator::Over | Operator::Modulo => 9,
        Operator::Plus | Operator::Minus => 8,
        Operator::LeftShift | Operator::RightShift | Operator::SignedRightShift => 7,
        Operator::Below | Operator::AtMost | Operator::Above | Operator::AtLeast => 6,
        Operator::Equals | Operator::Differs => 5,
        Operator::BitAnd => 4,
        Operator::BitXor => 3,
        Operator::BitOr => 2,
    }
}

/// Whether the operand of a number is to be unsigned.
pub fn asks_unsigned(form: Form, number: usize) -> bool
    ensures { result ≡ asks_unsigned form number }
{
    match form {
        Form::Chain(_) | Form::UnsignedDivision(_, _, _) => true,
        Form::UnsignedShift(_) => number == 0,
        Form::Choice => number != 0,
        _ => false,
    }
}

/// How strongly the operand of a number has to bind.
pub fn asks_level(form: Form, number: usize) -> u8
    ensures { result ≡ asks_level form number }
{
    match form {
        Form::Chain(operator) | Form::UnsignedShift(operator) => {
            if number == 0 {
                strength(operator)
            } else {
                strength(operator) + 1
            }
        }
        Form::SignedShift(operator) => {
            if number == 0 {
                0
            } else {
                strength(operator) + 1
            }
        }
        Form::UnsignedDivision(operator, _, _) => strength(operator),
        Form::Parity => 11,
        Form::Choice => {
            if number == 0 {
                2
            } else if number == 1 {
                0
            } else {
                1
            }
        }
        _ => 0,
    }
}

/// Adds what stands before the operand of a number. The error is out of memory; a part of it may then stand in the
/// text.
pub fn push_before(out: &mut Text, form: Form, number: usize) -> Result<(), AllocError>
    ensures { OnOk result (out.new ≡ out.old ++ before form number) }
{
    match form {
        Form::Chain(operator) | Form::UnsignedShift(operator) => {
            if number != 0 {
                out.push_bytes(operator_text(operator))?;
            }
        }
        Form::SignedPair(operator) => {
            if number != 0 {
                out.push_bytes(b")")?;
                out.push_bytes(operator_text(operator))?;
            }
            out.push_bytes(b"$signed(")?;
        }
        Form::SignedShift(operator) => {
            if number != 0 {
                out.push_bytes(b")")?;
                out.push_bytes(operator_text(operator))?;
            } else {
                out.push_bytes(b"$signed(")?;
            }
        }
        Form::SignedDivision(_, _, _) => out.push_bytes(b"$signed(")?,
        Form::Parity => out.push_bytes(b"^")?,
        Form::Braces => out.push_bytes(if number == 0 { b"{" } else { b", " })?,
        Form::Copies(count) => {
            out.push_bytes(b"{")?;
            push_decimal(out, u128::from(count))?;
            out.push_bytes(b"{")?;
        }
        Form::Choice => {
            if number != 0 {
                out.push_bytes(if number == 1 { b" ? " } else { b" : " })?;
            }
        }
        Form::Same | Form::UnsignedDivision(_, _, _) => {}
    }
    Ok(())
}

/// Adds what stands after the last operand. The error is out of memory; a part of it may then stand in the text.
pub fn push_after(out: &mut Text, form: Form) -> Result<(), AllocError>
    ensures { OnOk result (out.new ≡ out.old ++ text_after form) }
{
    match form {
        Form::SignedPair(_) => out.push_bytes(b")")?,
        Form::UnsignedDivision(operator, width, divisor) => {
            out.push_bytes(operator_text(operator))?;
            push_literal(out, width, false, divisor)?;
        }
        Form::SignedDivision(operator, width, divisor) => {
            out.push_bytes(b")")?;
            out.push_bytes(operator_text(operator))?;
            push_literal(out, width, true, divisor)?;
        }
        Form::Braces => out.push_bytes(b"}")?,
        Form::Copies(_) => out.push_bytes(b"}}")?,
        _ => {}
    }
    Ok(())
}
