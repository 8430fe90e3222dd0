//! Proofs of others over formulas, and what `check` says of them.
use crate::runs::{Row, first_other};
use std::test::Fail;

/// A formula that nothing satisfies.
const FORMULA: &str = "p cnf 1 2\n1 0\n-1 0\n";

/// The empty clause in one step.
const PROOF: &str = "3 0 1 2 0\n";

const ROWS: [Row; 15] = [
    Row {
        line: "check f.mlir g.mlir",
        first: FORMULA,
        second: PROOF,
        code: 0,
        out: "verified\n",
        err: "",
    },
    Row {
        line: "check - g.mlir",
        first: FORMULA,
        second: PROOF,
        code: 0,
        out: "verified\n",
        err: "",
    },
    Row {
        line: "check f.mlir g.mlir",
        first: FORMULA,
        second: "3 0 1 0\n",
        code: 1,
        out: "",
        err: "g.mlir:1:1: error: 'check' P4: step does not follow\n",
    },
    Row {
        line: "check f.mlir g.mlir",
        first: FORMULA,
        second: "",
        code: 1,
        out: "",
        err: "g.mlir:1:1: error: 'check' P6: no empty clause\n",
    },
    Row {
        line: "check f.mlir g.mlir",
        first: FORMULA,
        second: "\n\n3 1 0 1 0\n",
        code: 1,
        out: "",
        err: "g.mlir:4:1: error: 'check' P6: no empty clause\n",
    },
    Row {
        line: "check f.mlir g.mlir",
        first: FORMULA,
        second: "2 0 1 2 0\n",
        code: 1,
        out: "",
        err: "g.mlir:1:1: error: 'check' P2: bad proof line\n",
    },
    Row {
        line: "check f.mlir g.mlir",
        first: FORMULA,
        second: "3 1 0 1 0\n4 0 9 3 0\n",
        code: 1,
        out: "",
        err: "g.mlir:2:1: error: 'check' P3: unknown clause\n",
    },
    Row {
        line: "check f.mlir g.mlir",
        first: FORMULA,
        second: "3 0 -1 2 0\n",
        code: 1,
        out: "",
        err: "g.mlir:1:1: error: 'check' P5: hint outside the profile\n",
    },
    // a clause too many
    Row {
        line: "check f.mlir g.mlir",
        first: "p cnf 1 1\n1 0\n-1 0\n",
        second: PROOF,
        code: 1,
        out: "",
        err: "f.mlir:3:1: error: 'check' P1: bad formula\n",
    },
    Row {
        line: "check - g.mlir",
        first: "p cnf 1 2\n1 0\n",
        second: PROOF,
        code: 1,
        out: "",
        err: "<stdin>:3:1: error: 'check' P1: bad formula\n",
    },
    // the formula first
    Row {
        line: "check f.mlir g.mlir",
        first: "",
        second: "x\n",
        code: 1,
        out: "",
        err: "f.mlir:1:1: error: 'check' P1: bad formula\n",
    },
    Row {
        line: "check f.mlir -",
        first: FORMULA,
        second: PROOF,
        code: 1,
        out: "",
        err: "<stdin>:1:1: error: 'check' P2: bad proof line\n",
    },
    // all files are read before any is refused
    Row {
        line: "check f.mlir nothing",
        first: "",
        second: PROOF,
        code: 5,
        out: "",
        err: "circt: cannot read nothing\n",
    },
    Row {
        line: "check - -",
        first: FORMULA,
        second: PROOF,
        code: 2,
        out: "",
        err: "circt: usage: standard input named twice\n",
    },
    Row {
        line: "check f.mlir",
        first: FORMULA,
        second: PROOF,
        code: 2,
        out: "",
        err: "circt: usage: bad arguments\n",
    },
];

#[test]
fn proofs_are_checked(rt: HostRuntime) -> Result<(), Fail> {
    assert_eq!(rt; first_other(&rt, &ROWS)?, None);
    Ok(())
}
