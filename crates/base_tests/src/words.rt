//! Worked values, in hexadecimal.

ghost use Rattle.std.specs.Prelude.{◌≡◌, length};

use bits_core::Bits;
use std::cmp::Ordering;
use std::collections::HashMap;
use std::test::Fail;

fn byte(value: u128) -> Bits
    ensures { length result ≡ 8 }
{
    Bits::truncate(8, value)
}

/// A width and a value, and whether they make a word.
struct Candidate {
    width: u32,
    value: u128,
    is_word: bool,
}

const CANDIDATES: [Candidate; 7] = [
    Candidate {
        width: 8,
        value: 0xff,
        is_word: true,
    },
    Candidate {
        width: 8,
        value: 256,
        is_word: false,
    },
    Candidate {
        width: 1,
        value: 1,
        is_word: true,
    },
    Candidate {
        width: 1,
        value: 2,
        is_word: false,
    },
    Candidate {
        width: 0,
        value: 0,
        is_word: false,
    },
    Candidate {
        width: 128,
        value: u128::MAX,
        is_word: true,
    },
    Candidate {
        width: 129,
        value: 0,
        is_word: false,
    },
];

#[test]
fn widths_and_values_that_are_words(rt: HostRuntime) {
    for row in &CANDIDATES {
        let is_so = match Bits::new(row.width, row.value) {
            Some(word) => row.is_word && word.width() == row.width && word.value() == row.value,
            None => !row.is_word,
        };
        assert!(rt; is_so, "{} bits of {}", row.width, row.value);
    }
}

/// An operation on two words of one width.
#[derive(Clone, Copy, PartialEq, Eq)]
enum Operation {
    Add,
    Sub,
    Mul,
    And,
    Or,
    Xor,
    Divu,
    Modu,
    Divs,
    Mods,
    Shl,
    Shru,
    Shrs,
}

use Operation::{Add, And, Divs, Divu, Mods, Modu, Mul, Or, Shl, Shrs, Shru, Sub, Xor};

/// Two words, and the values of operations on them.
struct Row {
    name: &'static str,
    width: u32,
    a: u128,
    b: u128,
    values: &'static [(Operation, u128)],
}

const ROWS: [Row; 17] = [
    Row {
        name: "sums of 7 and 2",
        width: 8,
        a: 0x07,
        b: 0x02,
        values: &[(Add, 0x09), (Sub, 0x05), (Mul, 0x0e)],
    },
    Row {
        name: "sums that wrap: -1 and 2",
        width: 8,
        a: 0xff,
        b: 0x02,
        values: &[(Add, 0x01), (Sub, 0xfd), (Mul, 0xfe)],
    },
    Row {
        name: "a difference below 0: 2 and 7",
        width: 8,
        a: 0x02,
        b: 0x07,
        values: &[(Add, 0x09), (Sub, 0xfb), (Mul, 0x0e)],
    },
    Row {
        name: "bits of cc and aa",
        width: 8,
        a: 0xcc,
        b: 0xaa,
        values: &[(And, 0x88), (Or, 0xee), (Xor, 0x66)],
    },
    Row {
        name: "quotients of 7 by -3",
        width: 8,
        a: 0x07,
        b: 0xfd,
        values: &[(Divu, 0x00), (Modu, 0x07), (Divs, 0xfe), (Mods, 0x01)],
    },
    Row {
        name: "quotients of the least byte by -1",
        width: 8,
        a: 0x80,
        b: 0xff,
        values: &[(Divu, 0x00), (Modu, 0x80), (Divs, 0x80), (Mods, 0x00)],
    },
    Row {
        name: "quotients of -7 by 3",
        width: 8,
        a: 0xf9,
        b: 0x03,
        values: &[(Divu, 0x53), (Modu, 0x00), (Divs, 0xfe), (Mods, 0xff)],
    },
    Row {
        name: "quotients of -7 by -3",
        width: 8,
        a: 0xf9,
        b: 0xfd,
        values: &[(Divu, 0x00), (Modu, 0xf9), (Divs, 0x02), (Mods, 0xff)],
    },
    Row {
        name: "quotients of -7 by 0",
        width: 8,
        a: 0xf9,
        b: 0x00,
        values: &[(Divu, 0x00), (Modu, 0xf9), (Divs, 0x00), (Mods, 0xf9)],
    },
    Row {
        name: "shifts by 0",
        width: 8,
        a: 0x80,
        b: 0x00,
        values: &[(Shl, 0x80), (Shru, 0x80), (Shrs, 0x80)],
    },
    Row {
        name: "shifts by 1",
        width: 8,
        a: 0x80,
        b: 0x01,
        values: &[(Shl, 0x00), (Shru, 0x40), (Shrs, 0xc0)],
    },
    Row {
        name: "shifts by 3",
        width: 8,
        a: 0x81,
        b: 0x03,
        values: &[(Shl, 0x08), (Shru, 0x10), (Shrs, 0xf0)],
    },
    Row {
        name: "shifts by the width",
        width: 8,
        a: 0x80,
        b: 0x08,
        values: &[(Shl, 0x00), (Shru, 0x00), (Shrs, 0xff)],
    },
    Row {
        name: "shifts past the width",
        width: 8,
        a: 0x80,
        b: 0x09,
        values: &[(Shl, 0x00), (Shru, 0x00), (Shrs, 0xff)],
    },
    Row {
        name: "shifts of a positive byte by the most",
        width: 8,
        a: 0x7f,
        b: 0xff,
        values: &[(Shl, 0x00), (Shru, 0x00), (Shrs, 0x00)],
    },
    Row {
        name: "a sum that wraps, of 128 bits",
        width: 128,
        a: u128::MAX,
        b: 1,
        values: &[(Add, 0)],
    },
    Row {
        name: "a shift past the width, of 128 bits",
        width: 128,
        a: u128::MAX,
        b: 200,
        values: &[(Shl, 0)],
    },
];

// The value of an operation on two words.
fn value_of(operation: Operation, a: &Bits, b: &Bits) -> Bits
    requires { length a.now ≡ length b.now }
{
    match operation {
        Add => a.add(b),
        Sub => a.sub(b),
        Mul => a.mul(b),
        And => a.and(b),
        Or => a.or(b),
        Xor => a.xor(b),
        Divu => a.divu(b),
        Modu => a.modu(b),
        Divs => a.divs(b),
        Mods => a.mods(b),
        Shl => a.shl(b),
        Shru => a.shru(b),
        Shrs => a.shrs(b),
    }
}

// Whether each operation of a row has its value.
fn is_well(row: &Row) -> bool {
    let (Some(a), Some(b)) = (Bits::new(row.width, row.a), Bits::new(row.width, row.b)) else {
        return false;
    };
    if a.width() != b.width() {
        return false;
    }
    for (operation, value) in row.values {
        if value_of(*operation, &a, &b).value() != *value {
            return false;
        }
    }
    true
}

// The name of the first row with another value.
fn first_other(rows: &[Row]) -> Option<&'static str> {
    for row in rows {
        if !is_well(row) {
            return Some(row.name);
        }
    }
    None
}

#[test]
fn operations_on_two_words(rt: HostRuntime) {
    assert_eq!(rt; first_other(&ROWS), None);
}

/// Two bytes, and how they are ordered without and with signs.
struct Order {
    a: u128,
    b: u128,
    unsigned: Ordering,
    signed: Ordering,
}

const ORDERS: [Order; 4] = [
    Order {
        a: 0x7f,
        b: 0x80,
        unsigned: Ordering::Less,
        signed: Ordering::Greater,
    },
    Order {
        a: 0x80,
        b: 0x7f,
        unsigned: Ordering::Greater,
        signed: Ordering::Less,
    },
    Order {
        a: 0x80,
        b: 0xff,
        unsigned: Ordering::Less,
        signed: Ordering::Less,
    },
    Order {
        a: 0x5a,
        b: 0x5a,
        unsigned: Ordering::Equal,
        signed: Ordering::Equal,
    },
];

#[test]
fn orders(rt: HostRuntime) {
    for row in &ORDERS {
        let (a, b) = (byte(row.a), byte(row.b));
        assert_eq!(rt;
            (a.cmp(&b, false), a.cmp(&b, true)),
            (row.unsigned, row.signed)
        );
    }
}

#[test]
fn words_are_equal_or_not(rt: HostRuntime) {
    assert_eq!(rt; byte(0x5a), byte(0x5a));
    assert_ne!(rt; byte(0x01), Bits::truncate(9, 0x01));
    let least = byte(0x80);
    assert_eq!(rt; (least.magnitude(), least.is_negative()), (0x80, true));
}

#[test]
fn parts(rt: HostRuntime) {
    let word = byte(0xb6);
    for (part, width, value) in [
        (word.parity(), 1, 1),
        (byte(0xff).parity(), 1, 0),
        (word.extract(2, 4), 4, 0xd),
        (word.extract(0, 8), 8, 0xb6),
        (word.concat(&Bits::truncate(4, 0x3)), 12, 0xb63),
        (Bits::truncate(2, 1).replicate(3), 6, 0x15),
        (byte(0xa5).replicate(16), 128, u128::MAX / 255 * 0xa5),
    ] {
        assert_eq!(rt; Some(part), Bits::new(width, value));
    }
}

#[test]
fn keys_of_a_map(rt: HostRuntime) -> Result<(), Fail> {
    let mut names = HashMap::new(rt.alloc());
    names.insert(byte(0x05), 'a')?;
    names.insert(Bits::truncate(9, 0x05), 'b')?;
    assert_eq!(rt; names.get(&byte(0x05)).copied(), Some('a'));
    assert_eq!(rt; names.get(&byte(0x06)).copied(), None);
    Ok(())
}
