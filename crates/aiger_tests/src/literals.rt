//! Texts with a literal out of range, defined twice, or not defined.
use crate::cases::{Case, first_other};
use aiger_laws::fault::Fault;
use std::test::Fail;

const OUT_OF_RANGE: [Case; 13] = [
    Case {
        name: "a great literal that begins with either",
        text: b"aag 1 0 1 0 0\n99999999999999999998 2 99999999999999999998\n",
        line: 2,
    },
    Case {
        name: "an odd input",
        text: b"aag 1 1 0 0 0\n3\n",
        line: 2,
    },
    Case {
        name: "an input that is a constant",
        text: b"aag 1 1 0 0 0\n0\n",
        line: 2,
    },
    Case {
        name: "an input above the greatest variable",
        text: b"aag 1 1 0 0 0\n4\n",
        line: 2,
    },
    Case {
        name: "an output above the greatest variable",
        text: b"aag 1 0 0 1 0\n4\n",
        line: 2,
    },
    Case {
        name: "a next literal above the greatest variable",
        text: b"aag 1 0 1 0 0\n2 4\n",
        line: 2,
    },
    Case {
        name: "an odd latch",
        text: b"aag 1 0 1 0 0\n3 0\n",
        line: 2,
    },
    Case {
        name: "an odd gate",
        text: b"aag 1 0 0 0 1\n3 0 0\n",
        line: 2,
    },
    Case {
        name: "a left operand above the greatest variable",
        text: b"aag 1 0 0 0 1\n2 4 0\n",
        line: 2,
    },
    Case {
        name: "a right operand above the greatest variable",
        text: b"aag 1 0 0 0 1\n2 0 4294967297\n",
        line: 2,
    },
    Case {
        name: "one above the greatest literal",
        text: b"aag 2147483647 0 0 1 0\n4294967296\n",
        line: 2,
    },
    Case {
        name: "out of range and defined twice on one line",
        text: b"aag 2 1 0 0 1\n2\n2 9 0\n",
        line: 3,
    },
    Case {
        name: "a literal out of range before a bad line",
        text: b"aag 2 2 0 0 0\n3\n\n",
        line: 2,
    },
];

const DEFINED_TWICE: [Case; 5] = [
    Case {
        name: "an input twice",
        text: b"aag 2 2 0 0 0\n2\n2\n",
        line: 3,
    },
    Case {
        name: "a latch that is an input",
        text: b"aag 2 1 1 0 0\n2\n2 0\n",
        line: 3,
    },
    Case {
        name: "a gate that is a latch",
        text: b"aag 2 0 1 0 1\n2 0\n2 0 0\n",
        line: 3,
    },
    Case {
        name: "a gate twice",
        text: b"aag 2 0 0 0 2\n2 0 0\n2 0 0\n",
        line: 3,
    },
    Case {
        name: "defined twice before out of range",
        text: b"aag 3 3 0 0 0\n2\n2\n9\n",
        line: 3,
    },
];

const NOT_DEFINED: [Case; 8] = [
    Case {
        name: "the greatest literal",
        text: b"aag 2147483647 0 0 1 0\n4294967295\n",
        line: 2,
    },
    Case {
        name: "a next literal that is not defined",
        text: b"aag 2 0 1 0 0\n2 4\n",
        line: 2,
    },
    Case {
        name: "an output that is not defined",
        text: b"aag 1 0 0 1 0\n2\n",
        line: 2,
    },
    Case {
        name: "a negated output that is not defined",
        text: b"aag 1 0 0 1 0\n3\n",
        line: 2,
    },
    Case {
        name: "a left operand that is not defined",
        text: b"aag 2 0 0 0 1\n2 4 0\n",
        line: 2,
    },
    Case {
        name: "a right operand that is not defined",
        text: b"aag 2 0 0 0 1\n2 0 5\n",
        line: 2,
    },
    Case {
        name: "not defined behind a cycle",
        text: b"aag 3 0 0 1 1\n2\n2 2 6\n",
        line: 3,
    },
    Case {
        name: "not defined before a cycle",
        text: b"aag 3 0 0 1 1\n6\n2 2 2\n",
        line: 2,
    },
];

#[test]
fn literals_out_of_range_are_refused(rt: HostRuntime) -> Result<(), Fail> {
    let other = first_other(rt.alloc(), &OUT_OF_RANGE, Some(Fault::OutOfRange));
    assert_eq!(rt; other, None);
    Ok(())
}

#[test]
fn literals_that_are_defined_twice_are_refused(rt: HostRuntime) -> Result<(), Fail> {
    let other = first_other(rt.alloc(), &DEFINED_TWICE, Some(Fault::DefinedTwice));
    assert_eq!(rt; other, None);
    Ok(())
}

#[test]
fn literals_that_are_not_defined_are_refused(rt: HostRuntime) -> Result<(), Fail> {
    let other = first_other(rt.alloc(), &NOT_DEFINED, Some(Fault::NotDefined));
    assert_eq!(rt; other, None);
    Ok(())
}
