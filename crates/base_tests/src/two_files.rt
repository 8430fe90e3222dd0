//! What words of `check` and `sim` say.
use crate::lines::{ALL, are_names, invocation_of, none_differs};
use command_line::invocation::{Invocation, Work};
use std::alloc::{AllocError, Global};
use std::test::Fail;

/// Words of a command of two files, the names of the files that they read, and of the module that runs; none of `check`.
struct Named {
    line: &'static str,
    inputs: &'static [&'static str],
    top: Option<&'static str>,
}

const NAMED: [Named; 8] = [
    Named {
        line: "check a b",
        inputs: &["a", "b"],
        top: None,
    },
    Named {
        line: "check - b",
        inputs: &["-", "b"],
        top: None,
    },
    Named {
        line: "check a -",
        inputs: &["a", "-"],
        top: None,
    },
    Named {
        line: "check -- -o -",
        inputs: &["-o", "-"],
        top: None,
    },
    Named {
        line: "sim a b --top m",
        inputs: &["a", "b"],
        top: Some("m"),
    },
    Named {
        line: "sim --top=m - b",
        inputs: &["-", "b"],
        top: Some("m"),
    },
    Named {
        line: "sim a --top - -",
        inputs: &["a", "-"],
        top: Some("-"),
    },
    Named {
        line: "sim --top= -- -o b",
        inputs: &["-o", "b"],
        top: Some(""),
    },
];

// The module that an invocation runs, if it is `sim`; none of `check`. Other work is none of both.
fn top_of(work: &Work) -> Option<Option<&str>> {
    match work {
        Work::ProofCheck => Some(None),
        Work::Simulation(top) => Some(Some(top.as_str())),
        _ => None,
    }
}

// Whether an invocation is that of a row, and writes to standard output.
fn is_named(invocation: &Invocation, row: &Named) -> bool {
    top_of(&invocation.work) == Some(row.top)
        && invocation.output.is_none()
        && are_names(invocation.inputs.as_slice(), row.inputs)
}

// Whether the words of a row say what it says.
fn is_well(alloc: Global, row: &Named) -> Result<bool, AllocError> {
    match invocation_of(alloc, row.line, &ALL)? {
        Ok(invocation) => Ok(is_named(&invocation, row)),
        Err(_) => Ok(false),
    }
}

// The first words that say something else.
fn first_other_row(alloc: Global, rows: &[Named]) -> Result<Option<&'static str>, AllocError> {
    for row in rows {
        if !is_well(alloc, row)? {
            return Ok(Some(row.line));
        }
    }
    Ok(None)
}

#[test]
fn files_are_named(rt: HostRuntime) -> Result<(), Fail> {
    none_differs(&rt, first_other_row(rt.alloc(), &NAMED))
}
