//! Worked values of each kind of operation, in hexadecimal.
use crate::kinds::{Kind, Shape};
use Kind::*;
use Outcome::{Empty, Is, Refused};
use Shape::{Bytes, Int};
use hw_model::kinds::{Integer, Predicate, Reset};

/// What the value of an operation is.
#[derive(Clone, Copy, Debug, PartialEq, Eq)]
pub enum Outcome {
    /// The word of a number.
    Is(u128),
    /// A word without bits.
    Empty,
    /// Its operands do not suit it.
    Refused,
}

/// Operands, each a width and a number, and the values of operations on them.
pub struct Row {
    pub operands: &'static [(u32, u128)],
    /// The types that the operations write.
    pub types: &'static [Shape],
    /// The number of the result.
    pub index: u32,
    /// The operations, with the type of the result.
    pub values: &'static [(Kind, Shape, Outcome)],
}

pub const INTEGERS: [Row; 30] = [
    Row {
        operands: &[(8, 0xcc), (8, 0xaa)],
        types: &[],
        index: 0,
        values: &[
            (Add, Int(8), Is(0x76)),
            (Mul, Int(8), Is(0x78)),
            (And, Int(8), Is(0x88)),
            (Or, Int(8), Is(0xee)),
            (Xor, Int(8), Is(0x66)),
            (Sub, Int(8), Is(0x22)),
        ],
    },
    // 7 by -3
    Row {
        operands: &[(8, 0x07), (8, 0xfd)],
        types: &[],
        index: 0,
        values: &[
            (Divu, Int(8), Is(0)),
            (Modu, Int(8), Is(0x07)),
            (Divs, Int(8), Is(0xfe)),
            (Mods, Int(8), Is(0x01)),
        ],
    },
    Row {
        operands: &[(8, 0xf9), (8, 0x03)],
        types: &[],
        index: 0,
        values: &[(Divu, Int(8), Is(0x53)), (Mods, Int(8), Is(0xff))],
    },
    Row {
        operands: &[(8, 0xf9), (8, 0x05)],
        types: &[],
        index: 0,
        values: &[(Modu, Int(8), Is(0x04))],
    },
    // the least by -1
    Row {
        operands: &[(8, 0x80), (8, 0xff)],
        types: &[],
        index: 0,
        values: &[(Divs, Int(8), Is(0x80))],
    },
    Row {
        operands: &[(8, 0x81), (8, 1)],
        types: &[],
        index: 0,
        values: &[
            (Shl, Int(8), Is(0x02)),
            (Shru, Int(8), Is(0x40)),
            (Shrs, Int(8), Is(0xc0)),
        ],
    },
    Row {
        operands: &[(8, 0x81), (8, 9)],
        types: &[],
        index: 0,
        values: &[(Shl, Int(8), Is(0))],
    },
    Row {
        operands: &[(8, 0x80), (8, 1)],
        types: &[],
        index: 0,
        values: &[
            (Shrs, Int(8), Is(0xc0)),
            (Icmp(Predicate::Slt), Int(1), Is(1)),
            (Icmp(Predicate::Ult), Int(1), Is(0)),
            (Icmp(Predicate::Ugt), Int(1), Is(1)),
        ],
    },
    Row {
        operands: &[(8, 0x80), (8, 9)],
        types: &[],
        index: 0,
        values: &[(Shrs, Int(8), Is(0xff))],
    },
    Row {
        operands: &[(8, 0xfe), (8, 1)],
        types: &[],
        index: 0,
        values: &[(Shru, Int(8), Is(0x7f))],
    },
    Row {
        operands: &[(8, 0x80), (8, 8)],
        types: &[],
        index: 0,
        values: &[(Shru, Int(8), Is(0))],
    },
    Row {
        operands: &[(8, 0x80), (8, 0x80)],
        types: &[],
        index: 0,
        values: &[(Icmp(Predicate::Sge), Int(1), Is(1))],
    },
    Row {
        operands: &[(8, 0x2a), (8, 0x2a)],
        types: &[],
        index: 0,
        values: &[
            (Icmp(Predicate::Ceq), Int(1), Is(1)),
            (Icmp(Predicate::Wne), Int(1), Is(0)),
        ],
    },
    Row {
        operands: &[(8, 0x02), (8, 0x07)],
        types: &[],
        index: 0,
        values: &[(Sub, Int(8), Is(0xfb))],
    },
    Row {
        operands: &[(8, 0xff), (8, 0x02)],
        types: &[],
        index: 0,
        values: &[(Add, Int(8), Is(0x01))],
    },
    Row {
        operands: &[(8, 0x80), (8, 0x03)],
        types: &[],
        index: 0,
        values: &[(Mul, Int(8), Is(0x80))],
    },
    Row {
        operands: &[(8, 0x07)],
        types: &[],
        index: 0,
        values: &[(Parity, Int(1), Is(1))],
    },
    Row {
        operands: &[(16, 0xabcd)],
        types: &[],
        index: 0,
        values: &[
            (Parity, Int(1), Is(0)),
            (Extract(8), Int(8), Is(0xab)),
            (Replicate, Int(32), Is(0xabcd_abcd)),
            (Bitcast, Int(16), Is(0xabcd)),
            (Wire, Int(16), Is(0xabcd)),
        ],
    },
    Row {
        operands: &[(8, 0xab), (8, 0xcd)],
        types: &[],
        index: 0,
        values: &[(Concat, Int(16), Is(0xabcd))],
    },
    Row {
        operands: &[(1, 0), (8, 1), (8, 2)],
        types: &[],
        index: 0,
        values: &[(Mux, Int(8), Is(2))],
    },
    Row {
        operands: &[(1, 1), (8, 0x11), (8, 0x22)],
        types: &[],
        index: 0,
        values: &[(Mux, Int(8), Is(0x11))],
    },
    Row {
        operands: &[],
        types: &[],
        index: 0,
        values: &[(Constant(Integer::Negative(2)), Int(8), Is(0xfd))],
    },
    Row {
        operands: &[(128, u128::MAX), (128, 1)],
        types: &[],
        index: 0,
        values: &[(Add, Int(128), Is(0))],
    },
    Row {
        operands: &[(128, u128::MAX), (128, 200)],
        types: &[],
        index: 0,
        values: &[(Shl, Int(128), Is(0))],
    },
    // operands that suit, and that do not
    Row {
        operands: &[(8, 1), (8, 1), (8, 1)],
        types: &[],
        index: 0,
        values: &[(Add, Int(8), Is(3)), (Sub, Int(8), Refused)],
    },
    Row {
        operands: &[(8, 1), (4, 1)],
        types: &[],
        index: 0,
        values: &[(Add, Int(8), Refused)],
    },
    Row {
        operands: &[],
        types: &[],
        index: 0,
        values: &[
            (Add, Int(128), Is(0)),
            (Add, Int(129), Refused),
            (Add, Int(0), Refused),
            (Concat, Int(200), Empty),
            (CompReg(Reset::No), Int(8), Empty),
        ],
    },
    Row {
        operands: &[(8, 1)],
        types: &[],
        index: 0,
        values: &[
            (Shl, Int(8), Refused),
            (Extract(4), Int(4), Is(0)),
            (Extract(4), Int(5), Refused),
        ],
    },
    Row {
        operands: &[(5, 1)],
        types: &[],
        index: 0,
        values: &[(Replicate, Int(12), Refused)],
    },
    Row {
        operands: &[(1, 1), (8, 1)],
        types: &[],
        index: 0,
        values: &[(Mux, Int(8), Refused)],
    },
];

const RECORD: Shape = Shape::Struct(&[("p", 8), ("q", 4)]);

pub const AGGREGATES: [Row; 14] = [
    Row {
        operands: &[(24, 0x30_2010), (2, 0)],
        types: &[Bytes(3)],
        index: 0,
        values: &[(ArrayGet, Int(8), Is(0x10))],
    },
    Row {
        operands: &[(24, 0x30_2010), (2, 1)],
        types: &[Bytes(3)],
        index: 0,
        values: &[(ArraySlice, Bytes(2), Is(0x3020))],
    },
    Row {
        operands: &[(24, 0x30_2010), (2, 2)],
        types: &[Bytes(3)],
        index: 0,
        values: &[(ArrayGet, Int(8), Is(0x30))],
    },
    // past the end
    Row {
        operands: &[(24, 0x30_2010), (2, 3)],
        types: &[Bytes(3)],
        index: 0,
        values: &[(ArrayGet, Int(8), Is(0))],
    },
    Row {
        operands: &[(24, 0x30_2010), (128, u128::MAX)],
        types: &[Bytes(3)],
        index: 0,
        values: &[
            (ArrayGet, Int(8), Is(0)),
            (ArraySlice, Bytes(1), Is(0)),
            (ArraySlice, Bytes(2), Refused),
        ],
    },
    // no type is written
    Row {
        operands: &[(24, 0x30_2010), (128, u128::MAX)],
        types: &[],
        index: 0,
        values: &[(ArrayGet, Int(8), Refused)],
    },
    Row {
        operands: &[(24, 0x30_2010), (2, 1), (8, 0xee)],
        types: &[Bytes(3)],
        index: 0,
        values: &[(ArrayInject, Bytes(3), Is(0x30_ee10))],
    },
    Row {
        operands: &[(8, 0x30), (8, 0x20), (8, 0x10)],
        types: &[Bytes(3)],
        index: 0,
        values: &[(ArrayCreate, Bytes(3), Is(0x30_2010))],
    },
    Row {
        operands: &[(16, 0x3020), (8, 0x10)],
        types: &[Bytes(3)],
        index: 0,
        values: &[(ArrayConcat, Bytes(3), Is(0x30_2010))],
    },
    Row {
        operands: &[(12, 0xabc)],
        types: &[RECORD],
        index: 0,
        values: &[
            (StructExtract("q"), Int(4), Is(0xc)),
            (StructExplode, Int(8), Is(0xab)),
        ],
    },
    Row {
        operands: &[(12, 0xabc)],
        types: &[RECORD],
        index: 1,
        values: &[(StructExplode, Int(4), Is(0xc))],
    },
    // an array has no fields
    Row {
        operands: &[(12, 0xabc)],
        types: &[Bytes(3)],
        index: 0,
        values: &[(StructExplode, Int(8), Refused)],
    },
    Row {
        operands: &[(12, 0xabc), (8, 0x12)],
        types: &[RECORD],
        index: 0,
        values: &[(StructInject("p"), RECORD, Is(0x12c))],
    },
    Row {
        operands: &[(8, 0xab), (4, 0xc)],
        types: &[RECORD],
        index: 0,
        values: &[(StructCreate, RECORD, Is(0xabc))],
    },
];
