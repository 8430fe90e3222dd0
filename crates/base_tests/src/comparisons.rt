//! What words of `lec` say.
use crate::lines::{ALL, are_names, invocation_of, none_differs};
use command_line::comparison::ProofFiles;
use command_line::invocation::{Invocation, Work};
use std::alloc::{AllocError, Global};
use std::test::Fail;

/// Words of `lec`, and what they say.
struct Compared {
    line: &'static str,
    inputs: &'static [&'static str],
    left: &'static str,
    right: &'static str,
    limit: u64,
    /// The names of the files of a proof, or none.
    proof: &'static [&'static str],
}

const COMPARED: [Compared; 7] = [
    Compared {
        line: "lec a.mlir --c1 p --c2 q",
        inputs: &["a.mlir"],
        left: "p",
        right: "q",
        limit: 1_000_000,
        proof: &[],
    },
    Compared {
        line: "lec a.mlir b.mlir --c1=p --c2=p",
        inputs: &["a.mlir", "b.mlir"],
        left: "p",
        right: "p",
        limit: 1_000_000,
        proof: &[],
    },
    Compared {
        line: "lec --c2 q --conflict-limit 18446744073709551615 - --c1 p a",
        inputs: &["-", "a"],
        left: "p",
        right: "q",
        limit: 18_446_744_073_709_551_615,
        proof: &[],
    },
    Compared {
        line: "lec --conflict-limit=1 --c1 p --c2 q -- -o",
        inputs: &["-o"],
        left: "p",
        right: "q",
        limit: 1,
        proof: &[],
    },
    Compared {
        line: "lec a b --c1 p --c2 q --proof r",
        inputs: &["a", "b"],
        left: "p",
        right: "q",
        limit: 1_000_000,
        proof: &["r.cnf", "r"],
    },
    Compared {
        line: "lec --proof - a --c1 p --c2 q --conflict-limit 5",
        inputs: &["a"],
        left: "p",
        right: "q",
        limit: 5,
        proof: &["-.cnf", "-"],
    },
    Compared {
        line: "lec --proof=c/r.lrat a --c1 p --c2 q",
        inputs: &["a"],
        left: "p",
        right: "q",
        limit: 1_000_000,
        proof: &["c/r.lrat.cnf", "c/r.lrat"],
    },
];

// Whether the files of a proof have these names.
fn are_files(files: &Option<ProofFiles>, wanted: &[&str]) -> bool {
    match (files, wanted) {
        (Some(files), [formula, proof]) => {
            files.formula.as_str() == *formula && files.proof.as_str() == *proof
        }
        (None, []) => true,
        _ => false,
    }
}

// Whether an invocation compares modules as a row says.
fn compares(invocation: &Invocation, row: &Compared) -> bool {
    match &invocation.work {
        Work::Verdict(pair) => {
            (pair.left.as_str() == row.left && pair.right.as_str() == row.right)
                && (pair.conflict_limit == row.limit && are_files(&pair.proof, row.proof))
                && are_names(invocation.inputs.as_slice(), row.inputs)
        }
        _ => false,
    }
}

// Whether the words of a row compare modules as it says.
fn is_well(alloc: Global, row: &Compared) -> Result<bool, AllocError> {
    match invocation_of(alloc, row.line, &ALL)? {
        Ok(invocation) => Ok(compares(&invocation, row)),
        Err(_) => Ok(false),
    }
}

// The first words of `lec` that say something else.
fn first_other_comparison(
    alloc: Global,
    rows: &[Compared],
) -> Result<Option<&'static str>, AllocError> {
    for row in rows {
        if !is_well(alloc, row)? {
            return Ok(Some(row.line));
        }
    }
    Ok(None)
}

#[test]
fn modules_are_named(rt: HostRuntime) -> Result<(), Fail> {
    none_differs(&rt, first_other_comparison(rt.alloc(), &COMPARED))
}
