//! Files that words name.
use crate::lines::{invocation_of, none_differs};
use command_line::invocation::{Invocation, Work};
use std::alloc::{AllocError, Global};
use std::test::Fail;

/// Words, and the command that they are; the output is empty where none is named.
struct Named {
    line: &'static str,
    translates: bool,
    input: &'static str,
    output: &'static str,
}

const NAMED: [Named; 7] = [
    Named {
        line: "opt",
        translates: false,
        input: "-",
        output: "",
    },
    Named {
        line: "opt a.mlir",
        translates: false,
        input: "a.mlir",
        output: "",
    },
    Named {
        line: "opt -o b.mlir",
        translates: false,
        input: "-",
        output: "b.mlir",
    },
    Named {
        line: "opt -o=b.mlir a",
        translates: false,
        input: "a",
        output: "b.mlir",
    },
    Named {
        line: "opt - -o -",
        translates: false,
        input: "-",
        output: "",
    },
    Named {
        line: "translate --export-verilog a -o b",
        translates: true,
        input: "a",
        output: "b",
    },
    Named {
        line: "opt -- -o",
        translates: false,
        input: "-o",
        output: "",
    },
];

// Whether a work translates.
fn is_translation(work: &Work) -> bool {
    match work {
        Work::Verilog(_, _) => true,
        _ => false,
    }
}

// Whether an output is this one, or none where that is empty.
fn is_output(output: &Option<String>, wanted: &str) -> bool {
    match output {
        Some(name) => !wanted.is_empty() && name.as_str() == wanted,
        None => wanted.is_empty(),
    }
}

// Whether an invocation has one input and an output of these names.
fn has_names(invocation: &Invocation, input: &str, output: &str) -> bool {
    let inputs = invocation.inputs.as_slice();
    inputs.len() == 1 && (inputs[0].as_str() == input && is_output(&invocation.output, output))
}

// Whether an invocation is the command of a row.
fn is_command(invocation: &Invocation, row: &Named) -> bool {
    is_translation(&invocation.work) == row.translates
        && has_names(invocation, row.input, row.output)
}

// Whether the words of a row are its command.
fn is_well(alloc: Global, row: &Named) -> Result<bool, AllocError> {
    match invocation_of(alloc, row.line, &[])? {
        Ok(invocation) => Ok(is_command(&invocation, row)),
        Err(_) => Ok(false),
    }
}

// The first words that are another command.
fn first_other_command(alloc: Global, rows: &[Named]) -> Result<Option<&'static str>, AllocError> {
    for row in rows {
        if !is_well(alloc, row)? {
            return Ok(Some(row.line));
        }
    }
    Ok(None)
}

#[test]
fn files_are_named(rt: HostRuntime) -> Result<(), Fail> {
    none_differs(&rt, first_other_command(rt.alloc(), &NAMED))
}
