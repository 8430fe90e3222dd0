//! Small designs with registers and their runs, with words in hexadecimal.
use crate::designs::{Line, Part, Run};
use crate::kinds::Kind;
use crate::kinds::Shape::{Clock, Int};
use Operand::OpResult;
use hw_interpreter::design::Operand;
use hw_model::kinds::{Integer, Reset};

const NINE: Line = Line {
    kind: Kind::Constant(Integer::NonNegative(9)),
    operands: &[],
    types: &[],
    results: &[Int(8)],
};

// A register with enable and reset, to 9, of the ports clk, rst, en and d.
const REGISTER: Part = Part {
    symbol: "Reg",
    inputs: &[Clock, Int(1), Int(1), Int(8)],
    outputs: &[Int(8)],
    body: &[
        NINE,
        Line {
            kind: Kind::CompRegCe(Reset::Sync),
            operands: &[
                Operand::Port(3),
                Operand::Port(0),
                Operand::Port(2),
                Operand::Port(1),
                OpResult(0, 0),
            ],
            types: &[],
            results: &[Int(8)],
        },
        Line {
            kind: Kind::Output,
            operands: &[OpResult(1, 0)],
            types: &[],
            results: &[],
        },
    ],
};

// Two of them, one after the other.
const INSTANCES: Part = Part {
    symbol: "Two",
    inputs: &[Clock, Int(1), Int(1), Int(8)],
    outputs: &[Int(8), Int(8)],
    body: &[
        Line {
            kind: Kind::Instance("Reg"),
            operands: &[
                Operand::Port(0),
                Operand::Port(1),
                Operand::Port(2),
                Operand::Port(3),
            ],
            types: &[],
            results: &[Int(8)],
        },
        Line {
            kind: Kind::Instance("Reg"),
            operands: &[
                Operand::Port(0),
                Operand::Port(1),
                Operand::Port(2),
                OpResult(0, 0),
            ],
            types: &[],
            results: &[Int(8)],
        },
        Line {
            kind: Kind::Output,
            operands: &[OpResult(0, 0), OpResult(1, 0)],
            types: &[],
            results: &[],
        },
    ],
};

// The same with the instances' bodies in their places.
const FLATTENED: Part = Part {
    symbol: "Two",
    inputs: &[Clock, Int(1), Int(1), Int(8)],
    outputs: &[Int(8), Int(8)],
    body: &[
        NINE,
        Line {
            kind: Kind::CompRegCe(Reset::Sync),
            operands: &[
                Operand::Port(3),
                Operand::Port(0),
                Operand::Port(2),
                Operand::Port(1),
                OpResult(0, 0),
            ],
            types: &[],
            results: &[Int(8)],
        },
        NINE,
        Line {
            kind: Kind::CompRegCe(Reset::Sync),
            operands: &[
                OpResult(1, 0),
                Operand::Port(0),
                Operand::Port(2),
                Operand::Port(1),
                OpResult(2, 0),
            ],
            types: &[],
            results: &[Int(8)],
        },
        Line {
            kind: Kind::Output,
            operands: &[OpResult(1, 0), OpResult(3, 0)],
            types: &[],
            results: &[],
        },
    ],
};

// A register on each of two clocks, both of d.
const CLOCKS: Part = Part {
    symbol: "M",
    inputs: &[Clock, Clock, Int(8)],
    outputs: &[Int(8), Int(8)],
    body: &[
        Line {
            kind: Kind::CompReg(Reset::No),
            operands: &[Operand::Port(2), Operand::Port(0)],
            types: &[],
            results: &[Int(8)],
        },
        Line {
            kind: Kind::FirReg(Reset::No),
            operands: &[Operand::Port(2), Operand::Port(1)],
            types: &[],
            results: &[Int(8)],
        },
        Line {
            kind: Kind::Output,
            operands: &[OpResult(0, 0), OpResult(1, 0)],
            types: &[],
            results: &[],
        },
    ],
};

// A register with a synchronous reset, to 9, of the ports clk, rst and d.
const SYNC_RESET: Part = Part {
    symbol: "R",
    inputs: &[Clock, Int(1), Int(8)],
    outputs: &[Int(8)],
    body: &[
        NINE,
        Line {
            kind: Kind::FirReg(Reset::Sync),
            operands: RESET_OPERANDS,
            types: &[],
            results: &[Int(8)],
        },
        Line {
            kind: Kind::Output,
            operands: &[OpResult(1, 0)],
            types: &[],
            results: &[],
        },
    ],
};

// The same with an asynchronous reset.
const ASYNC_RESET: Part = Part {
    symbol: "R",
    inputs: &[Clock, Int(1), Int(8)],
    outputs: &[Int(8)],
    body: &[
        NINE,
        Line {
            kind: Kind::AsyncFirReg,
            operands: RESET_OPERANDS,
            types: &[],
            results: &[Int(8)],
        },
        Line {
            kind: Kind::Output,
            operands: &[OpResult(1, 0)],
            types: &[],
            results: &[],
        },
    ],
};

const RESET_OPERANDS: &[Operand] = &[
    Operand::Port(2),
    Operand::Port(0),
    Operand::Port(1),
    OpResult(0, 0),
];

// An instance of it, whose reset is read beside its output.
const RESET_INSTANCE: Part = Part {
    symbol: "M",
    inputs: &[Clock, Int(1), Int(8)],
    outputs: &[Int(1), Int(8)],
    body: &[
        Line {
            kind: Kind::Instance("R"),
            operands: &[Operand::Port(0), Operand::Port(1), Operand::Port(2)],
            types: &[],
            results: &[Int(8)],
        },
        Line {
            kind: Kind::Output,
            operands: &[Operand::Port(1), OpResult(0, 0)],
            types: &[],
            results: &[],
        },
    ],
};

// clk, rst and d: the reset rises, the clock rises with it, without it, and nothing rises
const RESET_STEPS: &[u128] = &[
    0b01_0001_0001,
    0b11_0010_0010,
    0b10_0011_0011,
    0b00_0100_0100,
];

pub const RUNS: [Run; 7] = [
    // clk, rst and en one bit each, then d: a load, no enable, a reset, and no clock
    Run {
        design: &[REGISTER, INSTANCES],
        content: &[(8, 0x05), (8, 0x06)],
        width: 11,
        steps: &[
            0b101_0001_0001,
            0b100_0010_0010,
            0b110_0011_0011,
            0b011_0100_0100,
        ],
        outputs: &[0x0506, 0x1105, 0x1105, 0x0909],
    },
    Run {
        design: &[FLATTENED],
        content: &[(8, 0x05), (8, 0x06)],
        width: 11,
        steps: &[
            0b101_0001_0001,
            0b100_0010_0010,
            0b110_0011_0011,
            0b011_0100_0100,
        ],
        outputs: &[0x0506, 0x1105, 0x1105, 0x0909],
    },
    // one clock rises, then the other
    Run {
        design: &[CLOCKS],
        content: &[(8, 0x01), (8, 0x02)],
        width: 10,
        steps: &[0x2aa, 0x1bb, 0x0cc],
        outputs: &[0x0102, 0xaa02, 0xaabb],
    },
    Run {
        design: &[SYNC_RESET],
        content: &[(8, 0x05)],
        width: 10,
        steps: RESET_STEPS,
        outputs: &[0x05, 0x05, 0x09, 0x33],
    },
    Run {
        design: &[ASYNC_RESET],
        content: &[(8, 0x05)],
        width: 10,
        steps: RESET_STEPS,
        outputs: &[0x09, 0x09, 0x09, 0x33],
    },
    Run {
        design: &[ASYNC_RESET, RESET_INSTANCE],
        content: &[(8, 0x05)],
        width: 10,
        steps: RESET_STEPS,
        outputs: &[0x109, 0x109, 0x009, 0x033],
    },
    // a load, the reset rises, a load that it keeps off, a load, nothing, and the reset rises again
    Run {
        design: &[ASYNC_RESET],
        content: &[(8, 0x05)],
        width: 10,
        steps: &[
            0b10_0001_0001,
            0b01_0010_0010,
            0b11_0011_0011,
            0b10_0100_0100,
            0b00_0101_0101,
            0b01_0110_0110,
        ],
        outputs: &[0x05, 0x09, 0x09, 0x09, 0x44, 0x09],
    },
];
