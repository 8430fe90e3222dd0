//! Changes of bodies after which uses are looked for.

use crate::body_changes::Change::{DropAt, Erase, Insert, Put, Replace, Set};
use crate::body_changes::Operand::{Port, Sum, Undefined};
use crate::body_changes::Run;

// Uses stand where their values do, whatever was changed before.
pub const USES: [Run; 6] = [
    // a value that an operation uses twice, an operation that uses itself, and a value in the place of which one with uses is put
    Run {
        changes: &[
            (
                Put {
                    before: None,
                    operands: &[Port(0), Port(0)],
                },
                true,
            ),
            (
                Put {
                    before: None,
                    operands: &[Sum(0), Sum(0), Port(1)],
                },
                true,
            ),
            (
                Insert {
                    op: 0,
                    at: 1,
                    value: Sum(0),
                },
                true,
            ),
            (
                Replace {
                    from: Port(0),
                    to: Port(1),
                },
                true,
            ),
            (Erase { op: 0 }, false),
        ],
        ops: &[
            (0, &[Port(1), Sum(0), Port(1)]),
            (1, &[Sum(0), Sum(0), Port(1)]),
        ],
        uses: &[
            (Sum(0), &[(0, 1), (1, 0), (1, 1)]),
            (Port(1), &[(0, 0), (0, 2), (1, 2)]),
            (Port(0), &[]),
        ],
    },
    // what nothing defines is used by operands alone, whatever was taken out
    Run {
        changes: &[
            (
                Put {
                    before: None,
                    operands: &[Port(0), Port(2)],
                },
                true,
            ),
            (
                Put {
                    before: None,
                    operands: &[Undefined, Undefined],
                },
                true,
            ),
            (Erase { op: 0 }, true),
            (
                Replace {
                    from: Undefined,
                    to: Port(0),
                },
                true,
            ),
            (
                Put {
                    before: None,
                    operands: &[Undefined],
                },
                true,
            ),
        ],
        ops: &[(1, &[Port(0), Port(0)]), (0, &[Undefined])],
        uses: &[
            (Port(0), &[(1, 0), (1, 1)]),
            (Undefined, &[(0, 0)]),
            (Port(2), &[]),
        ],
    },
    // an operation taken out in the middle, and another put there
    Run {
        changes: &[
            (
                Put {
                    before: None,
                    operands: &[Port(0), Port(1)],
                },
                true,
            ),
            (
                Put {
                    before: None,
                    operands: &[Port(0)],
                },
                true,
            ),
            (
                Put {
                    before: None,
                    operands: &[Port(1), Port(0)],
                },
                true,
            ),
            (Erase { op: 1 }, true),
            (
                Put {
                    before: Some(2),
                    operands: &[Port(1), Port(1), Port(1)],
                },
                true,
            ),
        ],
        ops: &[
            (0, &[Port(0), Port(1)]),
            (1, &[Port(1), Port(1), Port(1)]),
            (2, &[Port(1), Port(0)]),
        ],
        uses: &[
            (Port(1), &[(0, 1), (1, 0), (1, 1), (1, 2), (2, 0)]),
            (Port(0), &[(0, 0), (2, 1)]),
        ],
    },
    // operands put in before those of the next operation
    Run {
        changes: &[
            (
                Put {
                    before: None,
                    operands: &[Port(0), Port(1)],
                },
                true,
            ),
            (
                Put {
                    before: None,
                    operands: &[Port(0)],
                },
                true,
            ),
            (
                Insert {
                    op: 0,
                    at: 1,
                    value: Port(2),
                },
                true,
            ),
            (
                Insert {
                    op: 1,
                    at: 0,
                    value: Port(2),
                },
                true,
            ),
            (
                Insert {
                    op: 0,
                    at: 0,
                    value: Port(3),
                },
                true,
            ),
            (DropAt { op: 0, at: 2 }, true),
        ],
        ops: &[(0, &[Port(3), Port(0), Port(1)]), (1, &[Port(2), Port(0)])],
        uses: &[
            (Port(0), &[(0, 1), (1, 1)]),
            (Port(2), &[(1, 0)]),
            (Port(3), &[(0, 0)]),
        ],
    },
    // a value in its own position
    Run {
        changes: &[
            (
                Put {
                    before: None,
                    operands: &[Port(0), Port(1)],
                },
                true,
            ),
            (
                Replace {
                    from: Port(0),
                    to: Port(0),
                },
                true,
            ),
            (
                Set {
                    op: 0,
                    at: 1,
                    value: Port(0),
                },
                true,
            ),
        ],
        ops: &[(0, &[Port(0), Port(0)])],
        uses: &[(Port(0), &[(0, 0), (0, 1)]), (Port(1), &[])],
    },
    // all operations taken out
    Run {
        changes: &[
            (
                Put {
                    before: None,
                    operands: &[Port(0), Port(1)],
                },
                true,
            ),
            (
                Put {
                    before: None,
                    operands: &[Sum(0)],
                },
                true,
            ),
            (Erase { op: 1 }, true),
            (Erase { op: 0 }, true),
        ],
        ops: &[],
        uses: &[(Port(0), &[]), (Sum(0), &[]), (Undefined, &[])],
    },
];
