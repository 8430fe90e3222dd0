//! Changes of bodies, and the bodies that they give.

/// A value that is used in a table.
#[derive(Clone, Copy)]
pub enum Operand {
    Port(u32),
    /// The result of the operation of an id.
    Sum(u32),
    Undefined,
}

use Operand::{Port, Sum, Undefined};

/// A change of a body. An operation is told by the number of its id.
#[derive(Clone, Copy)]
pub enum Change {
    Put {
        before: Option<u32>,
        operands: &'static [Operand],
    },
    Erase {
        op: u32,
    },
    Insert {
        op: u32,
        at: u32,
        value: Operand,
    },
    Set {
        op: u32,
        at: u32,
        value: Operand,
    },
    DropAt {
        op: u32,
        at: u32,
    },
    Replace {
        from: Operand,
        to: Operand,
    },
}

use Change::{DropAt, Erase, Insert, Put, Replace, Set};

/// Changes of a new body, and what it then is.
pub struct Run {
    /// Each change, and whether it may be made.
    pub changes: &'static [(Change, bool)],
    /// The ids in text order, each with its operands.
    pub ops: &'static [(u32, &'static [Operand])],
    /// Values, each with the operations and positions where it is used.
    pub uses: &'static [(Operand, &'static [(u32, u32)])],
}

pub const BOTH: (Change, bool) = (
    Put {
        before: None,
        operands: &[Port(0), Port(1)],
    },
    true,
);

pub const OUTPUT: (Change, bool) = (
    Put {
        before: None,
        operands: &[Sum(0), Port(0)],
    },
    true,
);

// Operands change where they are named, and what may not be changed stays.
pub const OPERANDS: [Run; 2] = [
    Run {
        changes: &[
            BOTH,
            OUTPUT,
            (
                Insert {
                    op: 0,
                    at: 1,
                    value: Sum(0),
                },
                true,
            ),
            (
                Insert {
                    op: 1,
                    at: 2,
                    value: Port(1),
                },
                true,
            ),
            (
                Insert {
                    op: 1,
                    at: 4,
                    value: Port(1),
                },
                false,
            ),
        ],
        ops: &[
            (0, &[Port(0), Sum(0), Port(1)]),
            (1, &[Sum(0), Port(0), Port(1)]),
        ],
        uses: &[
            (Sum(0), &[(0, 1), (1, 0)]),
            (Port(1), &[(0, 2), (1, 2)]),
            (Undefined, &[]),
        ],
    },
    Run {
        changes: &[
            BOTH,
            OUTPUT,
            (
                Replace {
                    from: Port(0),
                    to: Sum(0),
                },
                true,
            ),
            (
                Insert {
                    op: 0,
                    at: 0,
                    value: Sum(0),
                },
                true,
            ),
            (DropAt { op: 0, at: 0 }, true),
            (
                Set {
                    op: 0,
                    at: 0,
                    value: Port(0),
                },
                true,
            ),
            (
                Set {
                    op: 0,
                    at: 2,
                    value: Port(0),
                },
                false,
            ),
        ],
        ops: &[(0, &[Port(0), Port(1)]), (1, &[Sum(0), Sum(0)])],
        uses: &[(Sum(0), &[(1, 0), (1, 1)])],
    },
];

// Operations stand in text order, and ids are used again.
pub const ORDERS: [Run; 5] = [
    Run {
        changes: &[],
        ops: &[],
        uses: &[(Undefined, &[])],
    },
    Run {
        changes: &[
            (
                Put {
                    before: None,
                    operands: &[Port(0), Undefined],
                },
                true,
            ),
            (
                Put {
                    before: None,
                    operands: &[],
                },
                true,
            ),
        ],
        ops: &[(0, &[Port(0), Undefined]), (1, &[])],
        uses: &[(Undefined, &[(0, 1)])],
    },
    // an operation is put before another
    Run {
        changes: &[
            (
                Put {
                    before: None,
                    operands: &[],
                },
                true,
            ),
            (
                Put {
                    before: Some(0),
                    operands: &[Port(0)],
                },
                true,
            ),
        ],
        ops: &[(1, &[Port(0)]), (0, &[])],
        uses: &[],
    },
    // a result that is used keeps its operation
    Run {
        changes: &[
            BOTH,
            OUTPUT,
            (Erase { op: 0 }, false),
            (
                Set {
                    op: 1,
                    at: 0,
                    value: Port(1),
                },
                true,
            ),
            (Erase { op: 0 }, true),
            (Erase { op: 0 }, false),
        ],
        ops: &[(1, &[Port(1), Port(0)])],
        uses: &[(Port(1), &[(1, 0)])],
    },
    // the id of an operation that is gone is given again
    Run {
        changes: &[
            BOTH,
            (
                Put {
                    before: None,
                    operands: &[Port(1)],
                },
                true,
            ),
            (Erase { op: 0 }, true),
            (
                Put {
                    before: Some(1),
                    operands: &[Port(1)],
                },
                true,
            ),
        ],
        ops: &[(0, &[Port(1)]), (1, &[Port(1)])],
        uses: &[(Port(1), &[(0, 0), (1, 0)])],
    },
];
