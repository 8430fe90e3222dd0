//! Commands of two files where a read, the output or the error output fails.
use crate::equivalence::WORDS;
use crate::runs::{Faults, NO_FAULTS, Row, is_as_said, run_row};
use std::alloc::{AllocError, AllocGlobal};
use std::test::Fail;
use std::thread::Threads;

const FIRST_READ: Faults = Faults {
    reads: &[0],
    ..NO_FAULTS
};

const SECOND_READ: Faults = Faults {
    reads: &[1],
    ..NO_FAULTS
};

const ERROR_OUTPUT: Faults = Faults {
    error_puts: &[0],
    ..NO_FAULTS
};

const OUTPUT: Faults = Faults {
    puts: &[0],
    ..NO_FAULTS
};

/// What fails, and how the run of a row then ends.
struct Case {
    faults: Faults,
    row: Row,
}

const CASES: [Case; 19] = [
    // all files are read before any is refused
    Case {
        faults: SECOND_READ,
        row: Row {
            line: "lec f.mlir g.mlir -c1 p -c2 q",
            first: "foo",
            second: WORDS,
            code: 5,
            out: "",
            err: "circt: cannot read g.mlir\n",
        },
    },
    Case {
        faults: FIRST_READ,
        row: Row {
            line: "lec f.mlir g.mlir -c1 p -c2 q",
            first: "foo",
            second: WORDS,
            code: 5,
            out: "",
            err: "circt: cannot read f.mlir\n",
        },
    },
    Case {
        faults: SECOND_READ,
        row: Row {
            line: "lec f.mlir - -c1 p -c2 q",
            first: WORDS,
            second: WORDS,
            code: 5,
            out: "",
            err: "circt: cannot read <stdin>\n",
        },
    },
    Case {
        faults: FIRST_READ,
        row: Row {
            line: "lec - g.mlir -c1 p -c2 q --proof x",
            first: WORDS,
            second: WORDS,
            code: 5,
            out: "",
            err: "circt: cannot read <stdin>\n",
        },
    },
    Case {
        faults: SECOND_READ,
        row: Row {
            line: "lec f.mlir g.mlir -c1 p -c2 q --proof x",
            first: WORDS,
            second: WORDS,
            code: 5,
            out: "",
            err: "circt: cannot read g.mlir\n",
        },
    },
    Case {
        faults: FIRST_READ,
        row: Row {
            line: "check f.mlir g.mlir",
            first: "foo",
            second: WORDS,
            code: 5,
            out: "",
            err: "circt: cannot read f.mlir\n",
        },
    },
    Case {
        faults: SECOND_READ,
        row: Row {
            line: "check f.mlir g.mlir",
            first: "foo",
            second: WORDS,
            code: 5,
            out: "",
            err: "circt: cannot read g.mlir\n",
        },
    },
    Case {
        faults: FIRST_READ,
        row: Row {
            line: "sim f.mlir g.mlir --top no",
            first: "foo",
            second: WORDS,
            code: 5,
            out: "",
            err: "circt: cannot read f.mlir\n",
        },
    },
    Case {
        faults: SECOND_READ,
        row: Row {
            line: "sim f.mlir g.mlir --top no",
            first: "foo",
            second: WORDS,
            code: 5,
            out: "",
            err: "circt: cannot read g.mlir\n",
        },
    },
    // no fault of the error output changes a status
    Case {
        faults: ERROR_OUTPUT,
        row: Row {
            line: "lec f.mlir -c1 r -c2 s",
            first: WORDS,
            second: WORDS,
            code: 3,
            out: "c1 != c2\na = 8'h5\n",
            err: "",
        },
    },
    Case {
        faults: ERROR_OUTPUT,
        row: Row {
            line: "lec f.mlir -c1 x -c2 y --conflict-limit 10",
            first: WORDS,
            second: WORDS,
            code: 4,
            out: "unknown\n",
            err: "",
        },
    },
    Case {
        faults: ERROR_OUTPUT,
        row: Row {
            line: "lec f.mlir -c1 p -c2 q --proof x",
            first: WORDS,
            second: WORDS,
            code: 0,
            out: "c1 == c2\n",
            err: "",
        },
    },
    Case {
        faults: ERROR_OUTPUT,
        row: Row {
            line: "lec f.mlir -c1 p -c2 no",
            first: WORDS,
            second: WORDS,
            code: 1,
            out: "",
            err: "",
        },
    },
    Case {
        faults: ERROR_OUTPUT,
        row: Row {
            line: "check f.mlir g.mlir",
            first: "foo",
            second: WORDS,
            code: 1,
            out: "",
            err: "",
        },
    },
    Case {
        faults: ERROR_OUTPUT,
        row: Row {
            line: "check f.mlir none",
            first: "p cnf 0 0\n",
            second: WORDS,
            code: 5,
            out: "",
            err: "",
        },
    },
    Case {
        faults: ERROR_OUTPUT,
        row: Row {
            line: "check f.mlir",
            first: "",
            second: WORDS,
            code: 2,
            out: "",
            err: "",
        },
    },
    Case {
        faults: ERROR_OUTPUT,
        row: Row {
            line: "gen 7 1 --verilog=x",
            first: "",
            second: WORDS,
            code: 2,
            out: "",
            err: "",
        },
    },
    Case {
        faults: ERROR_OUTPUT,
        row: Row {
            line: "sim f.mlir g.mlir --top p",
            first: WORDS,
            second: WORDS,
            code: 1,
            out: "",
            err: "",
        },
    },
    Case {
        faults: OUTPUT,
        row: Row {
            line: "sim f.mlir g.mlir --top s",
            first: WORDS,
            second: "state\n8'h1\n",
            code: 6,
            out: "",
            err: "circt: cannot write <stdout>\n",
        },
    },
];

// The line of the first case that ends in another way.
fn first_other_case(
    rt: &(impl Threads + Sync + AllocGlobal),
) -> Result<Option<&'static str>, AllocError> {
    for case in &CASES {
        if !is_as_said(&run_row(rt, &case.row, &case.faults)?, &case.row) {
            return Ok(Some(case.row.line));
        }
    }
    Ok(None)
}

#[test]
fn faults_are_told_and_change_nothing_else(rt: HostRuntime) -> Result<(), Fail> {
    assert_eq!(rt; first_other_case(&rt)?, None);
    Ok(())
}
