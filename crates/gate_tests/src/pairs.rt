//! Rows of two words, whose values are known from arithmetic.

use crate::operations::Operation::{
    Add, And, Divs, Divu, Less, Mods, Modu, Mul, Or, Shl, Shrs, Shru, SignedLess, Sub, Unlike, Xor,
};
use crate::operations::{Operation, value_of};
use std::alloc::{AllocError, Global};
use std::test::Fail;

/// Two words, and the values of operations on them.
struct Row {
    name: &'static str,
    width: u32,
    a: i64,
    b: i64,
    values: &'static [(Operation, i64)],
}

const ROWS: [Row; 20] = [
    Row {
        name: "one bit: 1 and 1",
        width: 1,
        a: 1,
        b: 1,
        values: &[
            (Add, 0),
            (Sub, 0),
            (Mul, 1),
            (Divu, 1),
            (Modu, 0),
            (Divs, 1),
            (Mods, 0),
            (Shl, 0),
            (Shru, 0),
            (Shrs, 1),
            (Less, 0),
            (SignedLess, 0),
            (Unlike, 0),
        ],
    },
    Row {
        name: "one bit: 1 and 0",
        width: 1,
        a: 1,
        b: 0,
        values: &[
            (Add, 1),
            (Sub, 1),
            (Mul, 0),
            (Divu, 0),
            (Modu, 1),
            (Divs, 0),
            (Mods, 1),
            (Shl, 1),
            (Shru, 1),
            (Shrs, 1),
            (Less, 0),
            (SignedLess, 1),
            (Unlike, 1),
        ],
    },
    Row {
        name: "one bit: 0 and 1",
        width: 1,
        a: 0,
        b: 1,
        values: &[
            (Add, 1),
            (Sub, 1),
            (Divu, 0),
            (Modu, 0),
            (Divs, 0),
            (Mods, 0),
            (Less, 1),
            (SignedLess, 0),
        ],
    },
    Row {
        name: "3 bits: the least signed word by -1",
        width: 3,
        a: 4,
        b: 7,
        values: &[
            (Add, 3),
            (Sub, 5),
            (Mul, 4),
            (Divu, 0),
            (Modu, 4),
            (Divs, 4),
            (Mods, 0),
            (Shl, 0),
            (Shru, 0),
            (Shrs, 7),
            (Less, 1),
            (SignedLess, 1),
        ],
    },
    Row {
        name: "3 bits: -3 and 2",
        width: 3,
        a: 5,
        b: 2,
        values: &[
            (Add, 7),
            (Sub, 3),
            (Mul, 2),
            (Divu, 2),
            (Modu, 1),
            (Divs, 7),
            (Mods, 7),
            (Shl, 4),
            (Shru, 1),
            (Shrs, 7),
            (Less, 0),
            (SignedLess, 1),
            (Unlike, 1),
        ],
    },
    Row {
        name: "3 bits: an amount that is the width",
        width: 3,
        a: 6,
        b: 3,
        values: &[
            (Divu, 2),
            (Modu, 0),
            (Divs, 0),
            (Mods, 6),
            (Shl, 0),
            (Shru, 0),
            (Shrs, 7),
        ],
    },
    Row {
        name: "3 bits: 3 and 0",
        width: 3,
        a: 3,
        b: 0,
        values: &[
            (Divu, 0),
            (Modu, 3),
            (Divs, 0),
            (Mods, 3),
            (Shl, 3),
            (Shru, 3),
            (Shrs, 3),
        ],
    },
    Row {
        name: "8 bits: the least signed word by -1",
        width: 8,
        a: 0x80,
        b: 0xff,
        values: &[
            (Add, 0x7f),
            (Sub, 0x81),
            (Mul, 0x80),
            (Divu, 0x00),
            (Modu, 0x80),
            (Divs, 0x80),
            (Mods, 0x00),
            (Shl, 0x00),
            (Shru, 0x00),
            (Shrs, 0xff),
            (Less, 1),
            (SignedLess, 1),
            (Unlike, 1),
        ],
    },
    Row {
        name: "8 bits: -7 and 3",
        width: 8,
        a: 0xf9,
        b: 0x03,
        values: &[
            (Add, 0xfc),
            (Sub, 0xf6),
            (Mul, 0xeb),
            (Divu, 0x53),
            (Modu, 0x00),
            (Divs, 0xfe),
            (Mods, 0xff),
            (Shl, 0xc8),
            (Shru, 0x1f),
            (Shrs, 0xff),
        ],
    },
    Row {
        name: "quotients of 7 by -3",
        width: 8,
        a: 0x07,
        b: 0xfd,
        values: &[(Divu, 0x00), (Modu, 0x07), (Divs, 0xfe), (Mods, 0x01)],
    },
    Row {
        name: "quotients of -7 by -3",
        width: 8,
        a: 0xf9,
        b: 0xfd,
        values: &[(Divu, 0x00), (Modu, 0xf9), (Divs, 0x02), (Mods, 0xff)],
    },
    Row {
        name: "sums that wrap: -1 and 2",
        width: 8,
        a: 0xff,
        b: 0x02,
        values: &[(Add, 0x01), (Sub, 0xfd), (Mul, 0xfe)],
    },
    Row {
        name: "a difference below 0: 2 and 7",
        width: 8,
        a: 0x02,
        b: 0x07,
        values: &[(Add, 0x09), (Sub, 0xfb), (Mul, 0x0e)],
    },
    Row {
        name: "bits of cc and aa",
        width: 8,
        a: 0xcc,
        b: 0xaa,
        values: &[(And, 0x88), (Or, 0xee), (Xor, 0x66)],
    },
    Row {
        name: "an amount below the width",
        width: 8,
        a: 0x81,
        b: 0x07,
        values: &[(Shl, 0x80), (Shru, 0x01), (Shrs, 0xff)],
    },
    Row {
        name: "an amount at the width",
        width: 8,
        a: 0x81,
        b: 0x08,
        values: &[(Shl, 0x00), (Shru, 0x00), (Shrs, 0xff)],
    },
    Row {
        name: "an amount above the width",
        width: 8,
        a: 0x81,
        b: 0x09,
        values: &[(Shl, 0x00), (Shru, 0x00), (Shrs, 0xff)],
    },
    Row {
        name: "an amount above the width, of a positive byte",
        width: 8,
        a: 0x41,
        b: 0x80,
        values: &[(Shl, 0x00), (Shru, 0x00), (Shrs, 0x00)],
    },
    Row {
        name: "a divisor of 0",
        width: 8,
        a: 0xda,
        b: 0x00,
        values: &[
            (Divu, 0x00),
            (Modu, 0xda),
            (Divs, 0x00),
            (Mods, 0xda),
            (Shl, 0xda),
            (Less, 0),
            (SignedLess, 1),
        ],
    },
    Row {
        name: "a byte and itself",
        width: 8,
        a: 0x5a,
        b: 0x5a,
        values: &[
            (Sub, 0x00),
            (Divu, 0x01),
            (Modu, 0x00),
            (Less, 0),
            (SignedLess, 0),
            (Unlike, 0),
        ],
    },
];

/// Whether each operation of a row has its value.
fn is_well(alloc: Global, row: &Row) -> Result<bool, AllocError> {
    for (operation, value) in row.values {
        if value_of(alloc, *operation, row.width, row.a, row.b)? != Some(*value) {
            return Ok(false);
        }
    }
    Ok(true)
}

/// The name of the first row with another value.
fn first_other(alloc: Global, rows: &[Row]) -> Result<Option<&'static str>, AllocError> {
    for row in rows {
        if !is_well(alloc, row)? {
            return Ok(Some(row.name));
        }
    }
    Ok(None)
}

#[test]
fn operations_on_two_words(rt: HostRuntime) -> Result<(), Fail> {
    assert_eq!(rt; first_other(rt.alloc(), &ROWS)?, None);
    Ok(())
}
