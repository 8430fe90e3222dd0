//! Operations on all words of three bits, and on known ones.

use crate::circuits::{known, number_of};
use crate::operations::Operation::{
    Add, And, Divs, Divu, Less, Mods, Modu, Mul, Or, Shl, Shrs, Shru, SignedLess, Sub, Unlike, Xor,
};
use crate::operations::{OPERATIONS, Operation, row_of, value_of};
use gates::circuit::Gates;
use std::alloc::{AllocError, Global};
use std::test::Fail;

/// The signed reading of a number of three bits.
fn signed_reading(number: i64) -> i64 {
    if number < 4 {
        number
    } else {
        number.wrapping_sub(8)
    }
}

/// The number of the low three bits.
fn low_bits(number: i64) -> i64 {
    number.wrapping_rem_euclid(8)
}

fn flag(bit: bool) -> i64 {
    if bit { 1 } else { 0 }
}

/// What three bits have of a word moved up by an amount, as far as there are bits.
fn moved_up(number: i64, amount: i64) -> i64 {
    match amount {
        0 => number,
        1 => low_bits(number.wrapping_mul(2)),
        2 => low_bits(number.wrapping_mul(4)),
        _ => 0,
    }
}

/// The same of a word moved down, by divisions that round down.
fn moved_down(number: i64, amount: i64) -> i64 {
    match amount {
        0 => number,
        1 => number.wrapping_div_euclid(2),
        2 => number.wrapping_div_euclid(4),
        _ => number.wrapping_div_euclid(8),
    }
}

/// The value of an operation on words of three bits by arithmetic on whole numbers.
fn expected_value(operation: Operation, a: i64, b: i64) -> i64 {
    let (x, y) = (signed_reading(a), signed_reading(b));
    match operation {
        Add => low_bits(a.wrapping_add(b)),
        Sub => low_bits(a.wrapping_sub(b)),
        Mul => low_bits(a.wrapping_mul(b)),
        Divu => a.checked_div(b).unwrap_or(0),
        Modu => a.checked_rem(b).unwrap_or(a),
        Divs => low_bits(x.checked_div(y).unwrap_or(0)),
        Mods => low_bits(x.checked_rem(y).unwrap_or(x)),
        And => a & b,
        Or => a | b,
        Xor => a ^ b,
        Shl => moved_up(a, b),
        Shru => moved_down(a, b),
        Shrs => low_bits(moved_down(x, b)),
        Less => flag(a < b),
        SignedLess => flag(x < y),
        Unlike => flag(a != b),
    }
}

/// Whether the row of an operation has its value for all words of three bits.
fn is_well_everywhere(alloc: Global, operation: Operation) -> Result<bool, AllocError> {
    for pair in 0..64i64 {
        let (a, b) = (pair % 8, pair / 8);
        if value_of(alloc, operation, 3, a, b)? != Some(expected_value(operation, a, b)) {
            return Ok(false);
        }
    }
    Ok(true)
}

/// The first operation that has another value for some words of three bits.
fn first_other_operation(alloc: Global) -> Result<Option<Operation>, AllocError> {
    for operation in &OPERATIONS {
        if !is_well_everywhere(alloc, *operation)? {
            return Ok(Some(*operation));
        }
    }
    Ok(None)
}

#[test]
fn all_words_of_three_bits(rt: HostRuntime) -> Result<(), Fail> {
    assert_eq!(rt; first_other_operation(rt.alloc())?, None);
    Ok(())
}

/// The value of an operation on words of known bits, where that takes no gate.
fn known_value(
    alloc: Global,
    operation: Operation,
    a: i64,
    b: i64,
) -> Result<Option<i64>, AllocError> {
    let mut gates = Gates::new(alloc, 0);
    let xs = known(alloc, a, 3)?;
    let ys = known(alloc, b, 3)?;
    if xs.len() != ys.len() {
        return Ok(None);
    }
    let word = row_of(alloc, &mut gates, operation, &xs, &ys)?;
    if !gates.as_slice().is_empty() {
        return Ok(None);
    }
    Ok(Some(number_of(&[], &word)))
}

/// Whether an operation takes no gate of known bits and has its value.
fn is_known_well(alloc: Global, operation: Operation) -> Result<bool, AllocError> {
    for (a, b) in [(5, 2), (4, 7), (3, 0)] {
        if known_value(alloc, operation, a, b)? != Some(expected_value(operation, a, b)) {
            return Ok(false);
        }
    }
    Ok(true)
}

/// The first operation that takes a gate of known bits or has another value.
fn first_other_known(alloc: Global) -> Result<Option<Operation>, AllocError> {
    for operation in &OPERATIONS {
        if !is_known_well(alloc, *operation)? {
            return Ok(Some(*operation));
        }
    }
    Ok(None)
}

#[test]
fn known_bits_take_no_gate(rt: HostRuntime) -> Result<(), Fail> {
    assert_eq!(rt; first_other_known(rt.alloc())?, None);
    Ok(())
}
