//! Small designs and their runs, with words in hexadecimal.
use crate::kinds::{Kind, Shape};
use Operand::OpResult;
use Shape::{Bytes, Int};
use hw_interpreter::design::Operand;
use hw_model::kinds::Integer;

/// An operation of a module.
pub struct Line {
    pub kind: Kind,
    pub operands: &'static [Operand],
    /// The types that it writes, where its value needs them.
    pub types: &'static [Shape],
    /// The types of its results.
    pub results: &'static [Shape],
}

/// A module, with the types of its inputs and of its outputs.
pub struct Part {
    pub symbol: &'static str,
    pub inputs: &'static [Shape],
    pub outputs: &'static [Shape],
    pub body: &'static [Line],
}

/// A run of the last module of a design.
pub struct Run {
    pub design: &'static [Part],
    /// The content at first, each register a width and a number.
    pub content: &'static [(u32, u128)],
    /// How many bits the inputs have, and their number in each step.
    pub width: u32,
    pub steps: &'static [u128],
    /// The number of the outputs in each step.
    pub outputs: &'static [u128],
}

// a shifted down with its sign, and exclusive or with c.
const SHIFT: Part = Part {
    symbol: "M",
    inputs: &[Int(8), Int(8), Int(8)],
    outputs: &[Int(8)],
    body: &[
        Line {
            kind: Kind::Shrs,
            operands: &[Operand::Port(0), Operand::Port(1)],
            types: &[],
            results: &[Int(8)],
        },
        Line {
            kind: Kind::Xor,
            operands: &[OpResult(0, 0), Operand::Port(2)],
            types: &[],
            results: &[Int(8)],
        },
        Line {
            kind: Kind::Output,
            operands: &[OpResult(1, 0)],
            types: &[],
            results: &[],
        },
    ],
};

// a divided by -3, and shifted down by b.
const DIVISION: Part = Part {
    symbol: "M",
    inputs: &[Int(8), Int(8)],
    outputs: &[Int(8)],
    body: &[
        Line {
            kind: Kind::Constant(Integer::Negative(2)),
            operands: &[],
            types: &[],
            results: &[Int(8)],
        },
        Line {
            kind: Kind::Divs,
            operands: &[Operand::Port(0), OpResult(0, 0)],
            types: &[],
            results: &[Int(8)],
        },
        Line {
            kind: Kind::Shru,
            operands: &[OpResult(1, 0), Operand::Port(1)],
            types: &[],
            results: &[Int(8)],
        },
        Line {
            kind: Kind::Output,
            operands: &[OpResult(2, 0)],
            types: &[],
            results: &[],
        },
    ],
};

// A word of 128 bits and 1.
const WIDEST: Part = Part {
    symbol: "M",
    inputs: &[Int(128)],
    outputs: &[Int(128)],
    body: &[
        Line {
            kind: Kind::Constant(Integer::NonNegative(1)),
            operands: &[],
            types: &[],
            results: &[Int(128)],
        },
        Line {
            kind: Kind::Add,
            operands: &[Operand::Port(0), OpResult(0, 0)],
            types: &[],
            results: &[Int(128)],
        },
        Line {
            kind: Kind::Output,
            operands: &[OpResult(1, 0)],
            types: &[],
            results: &[],
        },
    ],
};

// Element i of an array of three bytes; past the end it is zero.
const PICK: Part = Part {
    symbol: "M",
    inputs: &[Bytes(3), Int(2)],
    outputs: &[Int(8)],
    body: &[
        Line {
            kind: Kind::ArrayGet,
            operands: &[Operand::Port(0), Operand::Port(1)],
            types: &[Bytes(3), Int(2)],
            results: &[Int(8)],
        },
        Line {
            kind: Kind::Output,
            operands: &[OpResult(0, 0)],
            types: &[],
            results: &[],
        },
    ],
};

const PAIR: Shape = Shape::Struct(&[("p", 8), ("q", 8)]);

// Sixteen bits as an array, of which element 1 is taken, and as a struct.
const BITCAST: Part = Part {
    symbol: "M",
    inputs: &[Int(16)],
    outputs: &[Int(8), PAIR],
    body: &[
        Line {
            kind: Kind::Constant(Integer::NonNegative(1)),
            operands: &[],
            types: &[],
            results: &[Int(1)],
        },
        Line {
            kind: Kind::Bitcast,
            operands: &[Operand::Port(0)],
            types: &[],
            results: &[Bytes(2)],
        },
        Line {
            kind: Kind::ArrayGet,
            operands: &[OpResult(1, 0), OpResult(0, 0)],
            types: &[Bytes(2), Int(1)],
            results: &[Int(8)],
        },
        Line {
            kind: Kind::Bitcast,
            operands: &[Operand::Port(0)],
            types: &[],
            results: &[PAIR],
        },
        Line {
            kind: Kind::Output,
            operands: &[OpResult(2, 0), OpResult(3, 0)],
            types: &[],
            results: &[],
        },
    ],
};

pub const RUNS: [Run; 5] = [
    Run {
        design: &[SHIFT],
        content: &[],
        width: 24,
        steps: &[0x80_0100],
        outputs: &[0xc0],
    },
    Run {
        design: &[DIVISION],
        content: &[],
        width: 16,
        steps: &[0x0701],
        outputs: &[0x7f],
    },
    Run {
        design: &[WIDEST],
        content: &[],
        width: 128,
        steps: &[u128::MAX],
        outputs: &[0],
    },
    Run {
        design: &[PICK],
        content: &[],
        width: 26,
        steps: &[0xc0_8040, 0xc0_8041, 0xc0_8042, 0xc0_8043],
        outputs: &[0x10, 0x20, 0x30, 0],
    },
    Run {
        design: &[BITCAST],
        content: &[],
        width: 16,
        steps: &[0xabcd],
        outputs: &[0xab_abcd],
    },
];
