//! The operations of rows of two words.

ghost use Rattle.std.specs.Prelude.{◌≡◌, length};

use crate::circuits::{evaluate, inputs, number_of};
use gate_words::bitwise::{Bitwise, copies, each, unlike};
use gate_words::divisions::{quotient, rest, signed_quotient, signed_rest};
use gate_words::products::product;
use gate_words::shifts::{shifted_left, shifted_right, shifted_right_signed};
use gate_words::sums::{add, less, signed_less, subtract};
use gates::circuit::Gates;
use gates::signal::Signal;
use std::alloc::{AllocError, Global};

/// An operation on two words of one width.
#[derive(Clone, Copy, Debug, PartialEq, Eq)]
pub(crate) enum Operation {
    Add,
    Sub,
    Mul,
    Divu,
    Modu,
    Divs,
    Mods,
    And,
    Or,
    Xor,
    Shl,
    Shru,
    Shrs,
    Less,
    SignedLess,
    Unlike,
}

use Operation::{
    Add, And, Divs, Divu, Less, Mods, Modu, Mul, Or, Shl, Shrs, Shru, SignedLess, Sub, Unlike, Xor,
};

/// All of them.
pub(crate) const OPERATIONS: [Operation; 16] = [
    Add, Sub, Mul, Divu, Modu, Divs, Mods, And, Or, Xor, Shl, Shru, Shrs, Less, SignedLess, Unlike,
];

/// The row of an operation.
pub(crate) fn row_of(
    alloc: Global,
    gates: &mut Gates,
    operation: Operation,
    a: &[Signal],
    b: &[Signal],
) -> Result<Vec<Signal>, AllocError>
    requires { length a.now ≡ length b.now }
{
    match operation {
        Add => add(alloc, gates, a, b),
        Sub => subtract(alloc, gates, a, b),
        Mul => product(alloc, gates, a, b),
        Divu => quotient(alloc, gates, a, b),
        Modu => rest(alloc, gates, a, b),
        Divs => signed_quotient(alloc, gates, a, b),
        Mods => signed_rest(alloc, gates, a, b),
        And => each(alloc, gates, Bitwise::And, a, b),
        Or => each(alloc, gates, Bitwise::Or, a, b),
        Xor => each(alloc, gates, Bitwise::Exclusive, a, b),
        Shl => shifted_left(alloc, gates, a, b),
        Shru => shifted_right(alloc, gates, a, b),
        Shrs => shifted_right_signed(alloc, gates, a, b),
        Less => copies(alloc, less(alloc, gates, a, b)?, 1),
        SignedLess => copies(alloc, signed_less(alloc, gates, a, b)?, 1),
        Unlike => copies(alloc, unlike(alloc, gates, a, b)?, 1),
    }
}

/// The value of an operation on words of inputs that have these numbers.
pub(crate) fn value_of(
    alloc: Global,
    operation: Operation,
    width: u32,
    a: i64,
    b: i64,
) -> Result<Option<i64>, AllocError> {
    let mut gates = Gates::new(alloc, width.wrapping_mul(2));
    let xs = inputs(alloc, 1, width)?;
    let ys = inputs(alloc, width.wrapping_add(1), width)?;
    if xs.len() != ys.len() {
        return Ok(None);
    }
    let word = row_of(alloc, &mut gates, operation, &xs, &ys)?;
    let values = evaluate(alloc, &gates, &[a, b], width)?;
    Ok(Some(number_of(&values, &word)))
}
