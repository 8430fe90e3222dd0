//! What `opt --split-input-file` prints and refuses.
use crate::runs::{Failing, run_words};
use std::alloc::{AllocError, AllocGlobal, Global};
use std::test::Fail;
use std::thread::Threads;

/// An input, and the words and the end of a run on it.
struct Row {
    words: &'static str,
    input: &'static str,
    code: u8,
    out: &'static str,
    err: &'static str,
}

const FLAG: &str = "opt --split-input-file";

const TWICE: &str = "hw.module @A() {}\n// -----\nhw.module @A() {}\n";

const PRINTED_TWICE: &str = "module {
  hw.module @A() {
    hw.output
  }
}
// -----
module {
  hw.module @A() {
    hw.output
  }
}
";

const ROWS: [Row; 23] = [
    // the same symbol may stand in two pieces, and not twice in a file
    Row {
        words: "opt",
        input: TWICE,
        code: 1,
        out: "",
        err: "<stdin>:3:1: error: 'hw.module' V16: module defined twice\n",
    },
    Row {
        words: FLAG,
        input: TWICE,
        code: 0,
        out: PRINTED_TWICE,
        err: "",
    },
    // the flag stands anywhere, with one dash or two
    Row {
        words: "opt -split-input-file a.mlir",
        input: TWICE,
        code: 0,
        out: PRINTED_TWICE,
        err: "",
    },
    Row {
        words: "opt a.mlir --pass-pipeline=builtin.module() -o - --split-input-file",
        input: TWICE,
        code: 0,
        out: PRINTED_TWICE,
        err: "",
    },
    // blanks may stand after the dashes
    Row {
        words: FLAG,
        input: "hw.module @A() {}\n// ----- \t\r\nhw.module @A() {}",
        code: 0,
        out: PRINTED_TWICE,
        err: "",
    },
    // a line with anything else is no separator
    Row {
        words: FLAG,
        input: "hw.module @A() {}\n // -----\nhw.module @A() {}\n",
        code: 1,
        out: "",
        err: "<stdin>:3:1: error: 'hw.module' V16: module defined twice\n",
    },
    Row {
        words: FLAG,
        input: "hw.module @A() {} // -----\nhw.module @A() {}\n",
        code: 1,
        out: "",
        err: "<stdin>:2:1: error: 'hw.module' V16: module defined twice\n",
    },
    Row {
        words: FLAG,
        input: "hw.module @A() {}\n// ------\n// ---- -\n// -----x\n// ----\n//-----\nhw.module @A() {}\n",
        code: 1,
        out: "",
        err: "<stdin>:7:1: error: 'hw.module' V16: module defined twice\n",
    },
    // an empty piece is an empty design
    Row {
        words: FLAG,
        input: "",
        code: 0,
        out: "module {\n}\n",
        err: "",
    },
    Row {
        words: FLAG,
        input: "// -----",
        code: 0,
        out: "module {\n}\n// -----\nmodule {\n}\n",
        err: "",
    },
    Row {
        words: FLAG,
        input: "// -----\nhw.module @A() {}\n// -----\n",
        code: 0,
        out: "module {\n}\n// -----\nmodule {\n  hw.module @A() {\n    hw.output\n  }\n}\n// -----\nmodule {\n}\n",
        err: "",
    },
    Row {
        words: FLAG,
        input: "// -----\n// -----\n",
        code: 0,
        out: "module {\n}\n// -----\nmodule {\n}\n// -----\nmodule {\n}\n",
        err: "",
    },
    // positions count the lines of the whole file
    Row {
        words: FLAG,
        input: "hw.module @A() {}\n// -----\n\n  foo\n",
        code: 1,
        out: "",
        err: "<stdin>:4:3: error: 'foo' S3: unknown operation\n",
    },
    Row {
        words: "opt --split-input-file a.mlir -o x.v",
        input: "// -----\r\n// -----\nhw.module @A() {}\nhw.module @A() {}\n",
        code: 1,
        out: "",
        err: "a.mlir:4:1: error: 'hw.module' V16: module defined twice\n",
    },
    // the first refused piece counts
    Row {
        words: FLAG,
        input: "// -----\nfoo\n// -----\nbar\n",
        code: 1,
        out: "",
        err: "<stdin>:2:1: error: 'foo' S3: unknown operation\n",
    },
    Row {
        words: FLAG,
        input: "hw.module @A() {}\nhw.module @A() {}\n// -----\nfoo\n",
        code: 1,
        out: "",
        err: "<stdin>:2:1: error: 'hw.module' V16: module defined twice\n",
    },
    // a piece without its end is refused where the separator stands
    Row {
        words: FLAG,
        input: "hw.module @A() {\n// -----\nhw.module @A() {}\n",
        code: 1,
        out: "",
        err: "<stdin>:2:1: error: 'hw.module' S2: unexpected token\n",
    },
    Row {
        words: FLAG,
        input: "// -----\nhw.module @A() {\n\n// -----\n",
        code: 1,
        out: "",
        err: "<stdin>:4:1: error: 'hw.module' S2: unexpected token\n",
    },
    // a line is a line, also where a string was begun before it
    Row {
        words: FLAG,
        input: "hw.module @A() {\n  hw.instance \"a\n// -----\n\" @A() -> ()\n}\n",
        code: 1,
        out: "",
        err: "<stdin>:2:15: error: 'hw.instance' S1: bad byte\n",
    },
    // a symbol of another piece is not known
    Row {
        words: FLAG,
        input: "hw.module @A() {}\n// -----\nhw.module @B() {\n  hw.instance \"a\" @A() -> ()\n}\n",
        code: 1,
        out: "",
        err: "<stdin>:4:3: error: 'hw.instance' V17: no such module\n",
    },
    // on `translate` it is no option, and it is none that has a value or stands twice
    Row {
        words: "translate --export-verilog --split-input-file",
        input: TWICE,
        code: 2,
        out: "",
        err: "circt: usage: bad arguments\n",
    },
    Row {
        words: "opt --split-input-file=true",
        input: TWICE,
        code: 2,
        out: "",
        err: "circt: usage: bad arguments\n",
    },
    Row {
        words: "opt --split-input-file -split-input-file",
        input: TWICE,
        code: 2,
        out: "",
        err: "circt: usage: bad arguments\n",
    },
];

// The number of the first row that ends in another way.
fn first_other(rt: &(impl Threads + Sync + AllocGlobal)) -> Result<Option<usize>, AllocError> {
    for (number, row) in ROWS.iter().enumerate() {
        if !run_words(rt, row.words, row.input, Failing::No)?.is(row.code, row.out, row.err) {
            return Ok(Some(number));
        }
    }
    Ok(None)
}

#[test]
fn pieces_are_printed_or_refused(rt: HostRuntime) -> Result<(), Fail> {
    assert_eq!(rt; first_other(&rt)?, None);
    Ok(())
}

// Whether the texts go to the file of `-o`.
fn are_written(rt: &(impl Threads + Sync + AllocGlobal), words: &str) -> Result<bool, AllocError> {
    let run = run_words(rt, words, TWICE, Failing::No)?;
    Ok(run.is(0, "", "") && run.files.contents("x.v") == Some(PRINTED_TWICE.as_bytes()))
}

#[test]
fn pieces_are_written(rt: HostRuntime) -> Result<(), Fail> {
    assert!(rt; are_written(&rt, "opt --split-input-file a.mlir -o x.v")?);
    assert!(rt; are_written(&rt, "opt -o x.v a.mlir -split-input-file")?);
    Ok(())
}

// A text with one byte more than one may have, whose last line separates pieces.
fn long_text(alloc: Global) -> Result<Vec<u8>, AllocError> {
    let mut text = vec![in alloc; b' '; (1usize << 26) - 8]?;
    text.extend_from_slice(b"\n// -----")?;
    Ok(text)
}

// A file that is too long is refused before it is cut into pieces.
#[test]
fn a_file_that_is_too_long_is_not_cut(rt: HostRuntime) -> Result<(), Fail> {
    let text = long_text(rt.alloc())?;
    let run = run_words(&rt, FLAG, str::from_utf8(text.as_slice())?, Failing::No)?;
    let message = "<stdin>:1:1: error: 'builtin.module' S7: text too long\n";
    assert!(rt; run.is(1, "", message));
    Ok(())
}
