//! What `lec --proof` leaves in files: a formula, the proof that refutes it, and what stands there after each fault.
use crate::equivalence::WORDS;
use crate::runs::{Ended, Faults, NO_FAULTS, Row, is_as_said, run_on, run_row};
use std::alloc::{AllocError, AllocGlobal};
use std::test::Fail;
use std::thread::Threads;

/// What fails, how the run of a row then ends, and which files there are after it.
struct Case {
    faults: Faults,
    row: Row,
    has_formula: bool,
    has_proof: bool,
}

const CASES: [Case; 6] = [
    Case {
        faults: NO_FAULTS,
        row: Row {
            line: "lec f.mlir -c1 p -c2 q --proof x",
            first: WORDS,
            second: "",
            code: 0,
            out: "c1 == c2\n",
            err: "",
        },
        has_formula: true,
        has_proof: true,
    },
    // the formula is written first
    Case {
        faults: Faults {
            writes: &[0],
            ..NO_FAULTS
        },
        row: Row {
            line: "lec f.mlir -c1 p -c2 q --proof x",
            first: WORDS,
            second: "",
            code: 6,
            out: "",
            err: "circt: cannot write x.cnf\n",
        },
        has_formula: false,
        has_proof: false,
    },
    Case {
        faults: Faults {
            writes: &[1],
            ..NO_FAULTS
        },
        row: Row {
            line: "lec f.mlir -c1 p -c2 q --proof x",
            first: WORDS,
            second: "",
            code: 6,
            out: "",
            err: "circt: cannot write x\n",
        },
        has_formula: true,
        has_proof: false,
    },
    // both files are written before the verdict goes out
    Case {
        faults: Faults {
            puts: &[0],
            ..NO_FAULTS
        },
        row: Row {
            line: "lec f.mlir -c1 p -c2 q --proof x",
            first: WORDS,
            second: "",
            code: 6,
            out: "",
            err: "circt: cannot write <stdout>\n",
        },
        has_formula: true,
        has_proof: true,
    },
    // another verdict writes none
    Case {
        faults: Faults {
            writes: &[0],
            ..NO_FAULTS
        },
        row: Row {
            line: "lec f.mlir -c1 r -c2 s --proof x",
            first: WORDS,
            second: "",
            code: 3,
            out: "c1 != c2\na = 8'h5\n",
            err: "",
        },
        has_formula: false,
        has_proof: false,
    },
    Case {
        faults: Faults {
            writes: &[0],
            ..NO_FAULTS
        },
        row: Row {
            line: "lec f.mlir -c1 p -c2 q",
            first: WORDS,
            second: "",
            code: 0,
            out: "c1 == c2\n",
            err: "",
        },
        has_formula: false,
        has_proof: false,
    },
];

// Whether a run ended as its case says, with these files.
fn has_files(ended: &Ended, case: &Case) -> bool {
    is_as_said(ended, &case.row)
        && ended.files.contents("x.cnf").is_some() == case.has_formula
        && ended.files.contents("x").is_some() == case.has_proof
}

// The line of the first case that ends in another way.
fn first_other_case(
    rt: &(impl Threads + Sync + AllocGlobal),
) -> Result<Option<&'static str>, AllocError> {
    for case in &CASES {
        if !has_files(&run_row(rt, &case.row, &case.faults)?, case) {
            return Ok(Some(case.row.line));
        }
    }
    Ok(None)
}

#[test]
fn files_are_written_before_the_verdict(rt: HostRuntime) -> Result<(), Fail> {
    assert_eq!(rt; first_other_case(&rt)?, None);
    Ok(())
}

#[test]
fn proofs_are_verified(rt: HostRuntime) -> Result<(), Fail> {
    let ended = run_row(&rt, &CASES[0].row, &NO_FAULTS)?;
    let formula = str::from_utf8(ended.files.contents("x.cnf").unwrap_or(b"")).unwrap_or("");
    let proof = str::from_utf8(ended.files.contents("x").unwrap_or(b"")).unwrap_or("");
    assert!(rt; run_on(&rt, "check f.mlir g.mlir", formula, proof)?.is(0, "verified\n", ""));
    Ok(())
}
