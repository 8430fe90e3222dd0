//! Rows of one word, and single bits.
use crate::circuits::{evaluate, inputs, number_of};
use gate_words::bitwise::{Bitwise, copies, inverses, invert_if, mask, reduce};
use gate_words::sums::negate;
use gates::circuit::Gates;
use gates::signal::{Pin, Signal};
use std::alloc::{AllocError, Global};
use std::test::Fail;

/// A row of one word and a known condition.
#[derive(Clone, Copy, PartialEq, Eq)]
enum Operation {
    /// Each bit inverted.
    Inverse,
    /// Whether an odd number of bits is 1.
    Parity,
    /// Whether a bit is 1.
    Any,
    /// The word where the condition is 1, else 0.
    Masked(bool),
    /// Each bit inverted where the condition is 1.
    Flipped(bool),
    /// What the word lacks to the power where the condition is 1.
    Negated(bool),
}

use Operation::{Any, Flipped, Inverse, Masked, Negated, Parity};

/// A word, and the value of an operation on it.
struct Case {
    name: &'static str,
    width: u32,
    number: i64,
    operation: Operation,
    value: i64,
}

fn built(
    alloc: Global,
    gates: &mut Gates,
    operation: Operation,
    word: &[Signal],
) -> Result<Vec<Signal>, AllocError> {
    match operation {
        Inverse => inverses(alloc, word),
        Parity => copies(alloc, reduce(gates, Bitwise::Exclusive, word)?, 1),
        Any => copies(alloc, reduce(gates, Bitwise::Or, word)?, 1),
        Masked(bit) => mask(alloc, gates, Signal::Fixed(bit), word),
        Flipped(bit) => invert_if(alloc, gates, Signal::Fixed(bit), word),
        Negated(bit) => negate(alloc, gates, Signal::Fixed(bit), word),
    }
}

fn value_of(alloc: Global, case: &Case) -> Result<i64, AllocError> {
    let mut gates = Gates::new(alloc, case.width);
    let xs = inputs(alloc, 1, case.width)?;
    let word = built(alloc, &mut gates, case.operation, &xs)?;
    let values = evaluate(alloc, &gates, &[case.number], case.width)?;
    Ok(number_of(&values, &word))
}

const CASES: [Case; 14] = [
    Case {
        name: "complement of one bit",
        width: 1,
        number: 1,
        operation: Inverse,
        value: 0,
    },
    Case {
        name: "complement of a byte",
        width: 8,
        number: 0xb6,
        operation: Inverse,
        value: 0x49,
    },
    Case {
        name: "parity of one bit",
        width: 1,
        number: 1,
        operation: Parity,
        value: 1,
    },
    Case {
        name: "odd parity of a byte",
        width: 8,
        number: 0xb6,
        operation: Parity,
        value: 1,
    },
    Case {
        name: "even parity of a byte",
        width: 8,
        number: 0xff,
        operation: Parity,
        value: 0,
    },
    Case {
        name: "any bit of 0",
        width: 3,
        number: 0,
        operation: Any,
        value: 0,
    },
    Case {
        name: "any bit of 4",
        width: 3,
        number: 4,
        operation: Any,
        value: 1,
    },
    Case {
        name: "masked by 1",
        width: 3,
        number: 5,
        operation: Masked(true),
        value: 5,
    },
    Case {
        name: "masked by 0",
        width: 3,
        number: 5,
        operation: Masked(false),
        value: 0,
    },
    Case {
        name: "flipped by 1",
        width: 3,
        number: 5,
        operation: Flipped(true),
        value: 2,
    },
    Case {
        name: "flipped by 0",
        width: 3,
        number: 5,
        operation: Flipped(false),
        value: 5,
    },
    Case {
        name: "negated by 1",
        width: 8,
        number: 0x01,
        operation: Negated(true),
        value: 0xff,
    },
    Case {
        name: "the least byte negated by 1",
        width: 8,
        number: 0x80,
        operation: Negated(true),
        value: 0x80,
    },
    Case {
        name: "negated by 0",
        width: 8,
        number: 0x5a,
        operation: Negated(false),
        value: 0x5a,
    },
];

/// The name of the first case with another value.
fn first_other(alloc: Global, cases: &[Case]) -> Result<Option<&'static str>, AllocError> {
    for case in cases {
        if value_of(alloc, case)? != case.value {
            return Ok(Some(case.name));
        }
    }
    Ok(None)
}

#[test]
fn operations_on_one_word(rt: HostRuntime) -> Result<(), Fail> {
    assert_eq!(rt; first_other(rt.alloc(), &CASES)?, None);
    Ok(())
}

/// Input number `variable` itself.
fn input(variable: u32) -> Signal {
    Signal::Wire(Pin {
        variable,
        positive: true,
    })
}

/// The bits that circuits of three inputs give: and, or, exclusive or, choice, sum, carry, majority.
fn bits_of(alloc: Global, number: i64) -> Result<i64, AllocError> {
    let (a, b, c) = (input(1), input(2), input(3));
    let mut gates = Gates::new(alloc, 3);
    let and = gates.and(a, b)?;
    let or = gates.or(a, b)?;
    let exclusive = gates.exclusive(a, b)?;
    let choice = gates.choice(a, b, c)?;
    let total = gates.full(a, b, c)?;
    let majority = gates.majority(a, b, c)?;
    let values = evaluate(alloc, &gates, &[number], 3)?;
    let word = [and, or, exclusive, choice, total.sum, total.carry, majority];
    Ok(number_of(&values, &word))
}

#[test]
fn single_bits(rt: HostRuntime) -> Result<(), Fail> {
    for (number, bits) in [
        (0, 0b0000000),
        (1, 0b0110100),
        (2, 0b0110100),
        (3, 0b1101011),
        (4, 0b0001100),
        (5, 0b0110011),
        (6, 0b0111011),
        (7, 0b1101111),
    ] {
        assert_eq!(rt; bits_of(rt.alloc(), number)?, bits, "{number}");
    }
    Ok(())
}

/// Bits that are known, or of one variable, take no gate, and equal gates stand once.
#[test]
fn gates_stand_once(rt: HostRuntime) -> Result<(), Fail> {
    let (a, b) = (input(1), input(2));
    let mut gates = Gates::new(rt.alloc(), 2);
    assert_eq!(rt; gates.and(a, Signal::Fixed(true))?, a);
    assert_eq!(rt; gates.and(Signal::Fixed(false), b)?, Signal::Fixed(false));
    assert_eq!(rt; gates.and(a, a)?, a);
    assert_eq!(rt; gates.and(a, a.inverse())?, Signal::Fixed(false));
    assert_eq!(rt; gates.as_slice().len(), 0);
    let first = gates.and(a, b)?;
    assert_eq!(rt; gates.and(b, a)?, first);
    assert_eq!(rt; first, input(3));
    assert_eq!(rt; gates.as_slice().len(), 1);
    Ok(())
}
