//! Words that are made regular.
use crate::lines::{ALL, words_of};
use command_line::normalise::{WordsFail, normalise};
use pass_pipeline::pass::Pass;
use std::alloc::{AllocError, Global};
use std::test::Fail;

/// The words of a line, and the regular ones that they become.
struct Regular {
    line: &'static str,
    offered: &'static [Pass],
    wanted: &'static str,
}

const REGULAR: [Regular; 23] = [
    Regular {
        line: "opt -o x.v",
        offered: &ALL,
        wanted: "opt -o x.v",
    },
    Regular {
        line: "opt -ox",
        offered: &ALL,
        wanted: "opt --ox",
    },
    Regular {
        line: "opt -o=x",
        offered: &ALL,
        wanted: "opt -o=x",
    },
    Regular {
        line: "translate -export-verilog",
        offered: &ALL,
        wanted: "translate --export-verilog",
    },
    Regular {
        line: "opt - -",
        offered: &ALL,
        wanted: "opt - -",
    },
    Regular {
        line: "opt --split",
        offered: &ALL,
        wanted: "opt --split",
    },
    Regular {
        line: "opt -é",
        offered: &ALL,
        wanted: "opt -é",
    },
    Regular {
        line: "opt -éa=b",
        offered: &ALL,
        wanted: "opt --éa=b",
    },
    Regular {
        line: "opt -a=bc",
        offered: &ALL,
        wanted: "opt -a=bc",
    },
    Regular {
        line: "opt -- -ab --passes",
        offered: &ALL,
        wanted: "opt -- -ab --passes",
    },
    Regular {
        line: "lec a.mlir -c1 p -c2 q -proof r",
        offered: &ALL,
        wanted: "lec a.mlir --c1 p --c2 q --proof r",
    },
    // flags of passes become one word
    Regular {
        line: "opt --cse",
        offered: &ALL,
        wanted: "opt --passes=cse",
    },
    Regular {
        line: "opt -cse a.mlir -canonicalize",
        offered: &ALL,
        wanted: "opt --passes=cse,canonicalize a.mlir",
    },
    Regular {
        line: "translate --export-verilog --cse --cse",
        offered: &ALL,
        wanted: "translate --passes=cse,cse --export-verilog",
    },
    Regular {
        line: "opt --seq-lower-regs -hw-lower-aggregates --hw-flatten-modules --symbol-dce",
        offered: &ALL,
        wanted: "opt --passes=seq-lower-regs,hw-lower-aggregates,hw-flatten-modules,symbol-dce",
    },
    Regular {
        line: "opt -o --cse x",
        offered: &ALL,
        wanted: "opt --passes=cse -o x",
    },
    // but for those after `--`, of other commands, with a value, or of passes that are not on offer
    Regular {
        line: "opt -- --cse",
        offered: &ALL,
        wanted: "opt -- --cse",
    },
    Regular {
        line: "opt --cse -- --cse -cse",
        offered: &ALL,
        wanted: "opt --passes=cse -- --cse -cse",
    },
    Regular {
        line: "lec --cse",
        offered: &ALL,
        wanted: "lec --cse",
    },
    Regular {
        line: "--cse opt",
        offered: &ALL,
        wanted: "--cse opt",
    },
    Regular {
        line: "opt --cse=x --cs",
        offered: &ALL,
        wanted: "opt --cse=x --cs",
    },
    Regular {
        line: "opt --cse",
        offered: &[],
        wanted: "opt --cse",
    },
    Regular {
        line: "opt --symbol-dce --cse",
        offered: &[Pass::Cse],
        wanted: "opt --passes=cse --symbol-dce",
    },
];

// Whether words become these.
fn becomes(alloc: Global, row: &Regular) -> Result<bool, Fail> {
    let words = words_of(alloc, row.line)?;
    let regular = normalise(alloc, words.as_slice(), row.offered);
    let regular = regular.map_err(|_| Fail::from("refused"))?;
    let wanted = words_of(alloc, row.wanted)?;
    Ok(regular.as_slice() == wanted.as_slice())
}

// The first words that become others.
fn first_other(alloc: Global, rows: &[Regular]) -> Result<Option<&'static str>, Fail> {
    for row in rows {
        if !becomes(alloc, row)? {
            return Ok(Some(row.line));
        }
    }
    Ok(None)
}

#[test]
fn words_are_made_regular(rt: HostRuntime) -> Result<(), Fail> {
    assert_eq!(rt; first_other(rt.alloc(), &REGULAR)?, None);
    Ok(())
}

const RESERVED: [&str; 4] = [
    "opt --passes",
    "opt -passes=cse",
    "opt -o -passes",
    "--passes=",
];

// The first words that are not refused as the program's own.
fn first_taken(alloc: Global, rows: &[&'static str]) -> Result<Option<&'static str>, AllocError> {
    for line in rows {
        let words = words_of(alloc, line)?;
        if normalise(alloc, words.as_slice(), &ALL).err() != Some(WordsFail::Reserved) {
            return Ok(Some(line));
        }
    }
    Ok(None)
}

#[test]
fn a_word_of_the_program_s_own_is_reserved(rt: HostRuntime) -> Result<(), Fail> {
    assert_eq!(rt; first_taken(rt.alloc(), &RESERVED)?, None);
    Ok(())
}
