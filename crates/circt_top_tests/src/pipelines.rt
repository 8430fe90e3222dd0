//! What words with a pipeline of passes answer.
use crate::runs::{ADDER, ADDER_PRINTED, ADDER_VERILOG, Failing, run_list};
use std::alloc::{AllocError, AllocGlobal, Global};
use std::test::Fail;
use std::thread::Threads;

const UNKNOWN_AT_0: &str = "circt: usage: unknown pass at offset 0\n";

const UNKNOWN_AT_15: &str = "circt: usage: unknown pass at offset 15\n";

const UNKNOWN_AT_25: &str = "circt: usage: unknown pass at offset 25\n";

const BAD_AT_15: &str = "circt: usage: bad pipeline text at offset 15\n";

const BAD_AT_27: &str = "circt: usage: bad pipeline text at offset 27\n";

const BAD_AT_28: &str = "circt: usage: bad pipeline text at offset 28\n";

const BAD_AT_18: &str = "circt: usage: bad pipeline text at offset 18\n";

const MISPLACED_AT_25: &str = "circt: usage: pass in the wrong place at offset 25\n";

const MISPLACED_AT_0: &str = "circt: usage: pass in the wrong place at offset 0\n";

const BAD_AT_16: &str = "circt: usage: bad pipeline text at offset 16\n";

const UNNAMED: &str = "circt: usage: no translation named\n";

const BAD_ARGUMENTS: &str = "circt: usage: bad arguments\n";

/// Words, and what their run on the adder ends with.
struct Row {
    words: &'static [&'static str],
    code: u8,
    out: &'static str,
    err: &'static str,
}

const ROWS: [Row; 21] = [
    // a pipeline without passes changes nothing
    Row {
        words: &["opt", "--pass-pipeline=builtin.module()"],
        code: 0,
        out: ADDER_PRINTED,
        err: "",
    },
    Row {
        words: &[
            "opt",
            "-pass-pipeline",
            " builtin.module( hw.module( ) )",
            "-",
        ],
        code: 0,
        out: ADDER_PRINTED,
        err: "",
    },
    Row {
        words: &[
            "translate",
            "--export-verilog",
            "--pass-pipeline=builtin.module()",
        ],
        code: 0,
        out: ADDER_VERILOG,
        err: "",
    },
    Row {
        words: &[
            "translate",
            "--pass-pipeline= builtin.module( hw.module( ) )",
            "--export-verilog",
        ],
        code: 0,
        out: ADDER_VERILOG,
        err: "",
    },
    // names that are no pass on offer are unknown
    Row {
        words: &["opt", "--pass-pipeline=builtin.module(dce)"],
        code: 2,
        out: "",
        err: UNKNOWN_AT_15,
    },
    Row {
        words: &["opt", "--pass-pipeline=builtin.module(hw-lower-aggregate"],
        code: 2,
        out: "",
        err: UNKNOWN_AT_15,
    },
    Row {
        words: &["opt", "--pass-pipeline=dce"],
        code: 2,
        out: "",
        err: UNKNOWN_AT_0,
    },
    Row {
        words: &[
            "translate",
            "--export-verilog",
            "--pass-pipeline=builtin.module(hw.module(builtin.module()))",
        ],
        code: 2,
        out: "",
        err: UNKNOWN_AT_25,
    },
    // a pass on modules stands in no module
    Row {
        words: &[
            "opt",
            "--pass-pipeline=builtin.module(hw.module(symbol-dce))",
        ],
        code: 2,
        out: "",
        err: MISPLACED_AT_25,
    },
    Row {
        words: &["opt", "--pass-pipeline=builtin.module(cse"],
        code: 2,
        out: "",
        err: BAD_AT_18,
    },
    // other bytes are bad text, and so is an early end
    Row {
        words: &["opt", "--pass-pipeline=builtin.module(", "-o", "x.v"],
        code: 2,
        out: "",
        err: BAD_AT_15,
    },
    Row {
        words: &[
            "translate",
            "--export-verilog",
            "--pass-pipeline=builtin.module()x",
        ],
        code: 2,
        out: "",
        err: BAD_AT_16,
    },
    Row {
        words: &["opt", "--pass-pipeline=builtin.module(canonicalize"],
        code: 2,
        out: "",
        err: BAD_AT_27,
    },
    Row {
        words: &["opt", "--pass-pipeline=builtin.module(canonicalize,)"],
        code: 2,
        out: "",
        err: BAD_AT_28,
    },
    Row {
        words: &[
            "opt",
            "--pass-pipeline=builtin.module(canonicalize canonicalize)",
        ],
        code: 2,
        out: "",
        err: BAD_AT_28,
    },
    // a pass stands in a list of passes
    Row {
        words: &["opt", "--pass-pipeline=canonicalize"],
        code: 2,
        out: "",
        err: MISPLACED_AT_0,
    },
    Row {
        words: &[
            "opt",
            "--pass-pipeline",
            "builtin.module( canonicalize , hw.module( canonicalize ) )",
        ],
        code: 0,
        out: ADDER_PRINTED,
        err: "",
    },
    // a missing translation counts first, and bad arguments before that
    Row {
        words: &["translate", "--pass-pipeline=builtin.module(dce)"],
        code: 2,
        out: "",
        err: UNNAMED,
    },
    Row {
        words: &[
            "opt",
            "--pass-pipeline=builtin.module(dce)",
            "a.mlir",
            "x.v",
        ],
        code: 2,
        out: "",
        err: BAD_ARGUMENTS,
    },
    Row {
        words: &[
            "opt",
            "--pass-pipeline=builtin.module()",
            "--pass-pipeline=builtin.module()",
        ],
        code: 2,
        out: "",
        err: BAD_ARGUMENTS,
    },
    Row {
        words: &["opt", "--pass-pipeline=builtin.module()", "--passes=cse"],
        code: 2,
        out: "",
        err: BAD_ARGUMENTS,
    },
];

// These words.
fn words_of(alloc: Global, list: &[&str]) -> Result<Vec<String>, AllocError> {
    let mut words = Vec::new(alloc);
    for word in list {
        words.push(String::from_str(alloc, word)?)?;
    }
    Ok(words)
}

// Whether the words of a row end as it says, with the old text in `x.v`.
fn is_told(rt: &(impl Threads + Sync + AllocGlobal), row: &Row) -> Result<bool, AllocError> {
    let words = words_of(rt.alloc(), row.words)?;
    let run = run_list(rt, words.as_slice(), ADDER, Failing::No)?;
    Ok(run.is(row.code, row.out, row.err) && run.files.contents("x.v") == Some(b"old".as_slice()))
}

// The number of the first row that ends in another way.
fn first_other(
    rt: &(impl Threads + Sync + AllocGlobal),
    rows: &[Row],
) -> Result<Option<usize>, AllocError> {
    for (number, row) in rows.iter().enumerate() {
        if !is_told(rt, row)? {
            return Ok(Some(number));
        }
    }
    Ok(None)
}

#[test]
fn pipelines_are_read_or_wrong(rt: HostRuntime) -> Result<(), Fail> {
    assert_eq!(rt; first_other(&rt, &ROWS)?, None);
    Ok(())
}
