//! What `gen` prints: summaries, Verilog, and what its words and a failing output answer.
use crate::cuts::first_other_cut;
use crate::groups::{Group, USAGE, first_other};
use crate::runs::{Failing, run_long};
use io_edge::memory_sink::MemorySink;
use std::alloc::{AllocError, AllocGlobal};
use std::test::Fail;
use std::thread::Threads;

/// What the summary of 200 modules of the seed 7 begins with. The numbers were computed apart.
const PREFIX: &str = "modules 200
operations 1599
public modules 100
registers 773
verilog bytes ";

/// The Verilog of one module of the seed 7, of which the drawn numbers were computed apart.
const VERILOG: &str = "module M0(
  input wire clk,
  input wire rst,
  input wire [15:0] a,
  input wire [15:0] b,
  output wire [15:0] c
);
  wire [15:0] _GEN;
  wire [15:0] _GEN_0;
  reg [15:0] q;
  assign _GEN = a * b;
  assign _GEN_0 = _GEN | 16'h3D20;
  always @(posedge clk)
    if (rst)
      q <= 16'h3D20;
    else
      q <= _GEN_0 << _GEN;
  assign c = q ^ _GEN_0;
endmodule
";

/// Words with other numbers of workers, of which each prints what the first ones print.
const SUMMARIES: [&str; 5] = [
    "gen 7 200",
    "gen 7 200 --workers 1",
    "gen 7 200 --workers 2",
    "gen 7 200 --workers=8",
    "gen --workers 64 7 200",
];

const TEXTS: [&str; 5] = [
    "gen 7 200 --verilog",
    "gen 7 200 --verilog --workers 1",
    "gen 7 200 --workers 2 --verilog",
    "gen --verilog 7 200 -workers 8",
    "gen 7 200 -verilog --workers 64",
];

// Words that are no command.
const BAD: [&str; 24] = [
    "gen",
    "gen 7",
    "gen 7 200 1",
    "gen 7 0",
    "gen 7 10001",
    "gen 4294967296 1",
    "gen 18446744073709551616 1",
    "gen -1 1",
    "gen +7 1",
    "gen 007 1",
    "gen 7 01",
    "gen 7 2x",
    "gen x 2",
    "gen 7 200 --workers 0",
    "gen 7 200 --workers 65",
    "gen 7 200 --workers 3 --mlir-disable-threading",
    "gen 7 200 --mlir-disable-threading",
    "gen 7 200 --verilog --verilog",
    "gen 7 200 --verilog=x",
    "gen 7 200 --export-verilog",
    "gen 7 200 --cse",
    "gen 7 200 --passes=cse",
    "gen 7 200 --pass-pipeline=builtin.module()",
    "gen 7 200 --split-input-file",
];

const GROUPS: [Group; 4] = [
    // words that are bad are told so, and no file is touched
    Group {
        words: &BAD,
        input: "",
        failing: Failing::No,
        code: 2,
        out: "",
        err: USAGE,
        file: "x.v",
        text: "old",
    },
    // no file is read
    Group {
        words: &["gen 7 1 --verilog", "gen 7 1 --verilog -o -"],
        input: "foo",
        failing: Failing::Read,
        code: 0,
        out: VERILOG,
        err: "",
        file: "x.v",
        text: "old",
    },
    // the text goes to a file
    Group {
        words: &["gen 7 1 --verilog -o x.v", "gen -o=x.v 7 1 --verilog"],
        input: "foo",
        failing: Failing::No,
        code: 0,
        out: "",
        err: "",
        file: "x.v",
        text: VERILOG,
    },
    // a file that cannot be written
    Group {
        words: &["gen 7 1 --verilog -o x.v"],
        input: "",
        failing: Failing::Write,
        code: 6,
        out: "",
        err: "circt: cannot write x.v\n",
        file: "x.v",
        text: "old",
    },
];

// What the words of a line put on an output that takes long texts; none where the status is not 0.
fn long_output(
    rt: &(impl Threads + Sync + AllocGlobal),
    line: &str,
) -> Result<Option<MemorySink>, AllocError> {
    let run = run_long(rt, line, "", &[])?;
    Ok(if run.code == 0 { Some(run.out) } else { None })
}

// Whether the words of a line put this on the output.
fn puts(
    rt: &(impl Threads + Sync + AllocGlobal),
    line: &str,
    wanted: &[u8],
) -> Result<bool, AllocError> {
    match long_output(rt, line)? {
        Some(out) => Ok(out.contents() == wanted),
        None => Ok(false),
    }
}

// The first words of a list that print something else than the first ones.
fn first_different(
    rt: &(impl Threads + Sync + AllocGlobal),
    lines: &[&'static str],
) -> Result<Option<&'static str>, AllocError> {
    let Some(first) = lines.first() else {
        return Ok(None);
    };
    let Some(wanted) = long_output(rt, first)? else {
        return Ok(Some(first));
    };
    for line in lines {
        if !puts(rt, line, wanted.contents())? {
            return Ok(Some(line));
        }
    }
    Ok(None)
}

// How many bytes the Verilog of 200 modules has.
fn verilog_length(rt: &(impl Threads + Sync + AllocGlobal)) -> Result<usize, AllocError> {
    match long_output(rt, "gen 7 200 --verilog")? {
        Some(out) => Ok(out.contents().len()),
        None => Ok(0),
    }
}

// Whether the summary of 200 modules is as it should be, with the length of the Verilog.
fn is_summed_up(rt: &(impl Threads + Sync + AllocGlobal)) -> Result<bool, AllocError> {
    let bytes = verilog_length(rt)?;
    let wanted = format!(in rt.alloc(); "{PREFIX}{bytes}\n")?;
    puts(rt, "gen 7 200", wanted.as_bytes())
}

/// Words that print a text of several pieces.
const LONG_TEXT: &str = "gen 7 24 --verilog --workers 1";

#[test]
fn a_summary_has_five_lines(rt: HostRuntime) -> Result<(), Fail> {
    assert!(rt; is_summed_up(&rt)?);
    Ok(())
}

#[test]
fn workers_change_no_summary(rt: HostRuntime) -> Result<(), Fail> {
    assert_eq!(rt; first_different(&rt, &SUMMARIES)?, None);
    Ok(())
}

#[test]
fn workers_change_no_verilog(rt: HostRuntime) -> Result<(), Fail> {
    assert_eq!(rt; first_different(&rt, &TEXTS)?, None);
    Ok(())
}

#[test]
fn a_prefix_goes_out_where_the_output_fails(rt: HostRuntime) -> Result<(), Fail> {
    assert_eq!(rt; first_other_cut(&rt, LONG_TEXT, "")?, None);
    Ok(())
}

#[test]
fn words_of_gen_have_their_answers(rt: HostRuntime) -> Result<(), Fail> {
    assert_eq!(rt; first_other(&rt, &GROUPS)?, None);
    Ok(())
}
