//! What words that name passes answer.
use crate::groups::{Group, REFUSED, UNNAMED, first_other};
use crate::runs::{
    ADDER_PRINTED, ADDER_VERILOG, FOLDABLE_ADDER, FOLDABLE_ADDER_PRINTED, Failing, TWO_FLAT,
    TWO_REGISTERS,
};
use std::test::Fail;

// A sum that is made twice.
const TWICE: &str = "hw.module @Twice(in %a : i8, in %b : i8, out c : i8, out d : i8) {
  %0 = comb.add %a, %b : i8
  %1 = comb.add %a, %b : i8
  hw.output %0, %1 : i8, i8
}
";

// That with one sum.
const TWICE_MERGED: &str = "module {
  hw.module @Twice(in %a : i8, in %b : i8, out c : i8, out d : i8) {
    %0 = comb.add %a, %b : i8
    hw.output %0, %0 : i8, i8
  }
}
";

const TWICE_VERILOG: &str = "module Twice(
  input wire [7:0] a,
  input wire [7:0] b,
  output wire [7:0] c,
  output wire [7:0] d
);
  wire [7:0] _GEN;
  assign _GEN = a + b;
  assign c = _GEN;
  assign d = _GEN;
endmodule
";

const TWO_VERILOG: &str = "module Two(
  input wire clk,
  input wire rst,
  input wire en,
  input wire [7:0] d,
  output wire [7:0] a,
  output wire [7:0] b
);
  reg [7:0] u1_r;
  reg [7:0] u2_r;
  always @(posedge clk)
    if (rst)
      u1_r <= 8'h9;
    else if (en)
      u1_r <= d;
  always @(posedge clk)
    if (rst)
      u2_r <= 8'h9;
    else if (en)
      u2_r <= u1_r;
  assign a = u1_r;
  assign b = u2_r;
endmodule
";

// A private register that nothing instances.
const ALONE: &str =
    "hw.module private @Reg(in %clk : !seq.clock, in %rst : i1, in %en : i1, in %d : i8, out q : i8) {
  %z = hw.constant 9 : i8
  %r = seq.compreg.ce %d, %clk, %en reset %rst, %z : i8
  hw.output %r : i8
}
";

const GROUPS: [Group; 13] = [
    // passes are named by flags or by a pipeline, and change nothing where none is named
    Group {
        words: &[
            "opt --canonicalize",
            "opt -canonicalize",
            "opt --canonicalize --canonicalize",
            "opt -canonicalize a.mlir --canonicalize",
            "opt a.mlir --canonicalize",
            "opt -o --canonicalize -",
            "opt --pass-pipeline=builtin.module(canonicalize)",
            "opt --pass-pipeline=builtin.module(hw.module(canonicalize,canonicalize))",
            "opt --pass-pipeline=builtin.module(canonicalize,hw.module(),hw.module(canonicalize))",
            "opt --canonicalize --split-input-file",
        ],
        input: FOLDABLE_ADDER,
        failing: Failing::No,
        code: 0,
        out: ADDER_PRINTED,
        err: "",
        file: "x.v",
        text: "old",
    },
    Group {
        words: &["opt", "opt --pass-pipeline=builtin.module(hw.module())"],
        input: FOLDABLE_ADDER,
        failing: Failing::No,
        code: 0,
        out: FOLDABLE_ADDER_PRINTED,
        err: "",
        file: "x.v",
        text: "old",
    },
    Group {
        words: &[
            "translate --export-verilog --canonicalize",
            "translate --canonicalize --export-verilog",
            "translate -canonicalize a.mlir -export-verilog",
            "translate --pass-pipeline=builtin.module(canonicalize) --export-verilog",
        ],
        input: FOLDABLE_ADDER,
        failing: Failing::No,
        code: 0,
        out: ADDER_VERILOG,
        err: "",
        file: "x.v",
        text: "old",
    },
    Group {
        words: &[
            "opt --canonicalize -o x.v",
            "opt -o --canonicalize x.v a.mlir",
        ],
        input: FOLDABLE_ADDER,
        failing: Failing::No,
        code: 0,
        out: "",
        err: "",
        file: "x.v",
        text: ADDER_PRINTED,
    },
    // not in two ways, and a translation is to be named
    Group {
        words: &[
            "opt --canonicalize --pass-pipeline=builtin.module()",
            "opt --cse --pass-pipeline=builtin.module()",
            "opt --pass-pipeline=builtin.module(canonicalize) -canonicalize",
            "opt --pass-pipeline=dce --canonicalize",
            "translate --canonicalize --pass-pipeline=builtin.module()",
        ],
        input: FOLDABLE_ADDER,
        failing: Failing::No,
        code: 2,
        out: "",
        err: "circt: usage: passes given in two ways\n",
        file: "x.v",
        text: "old",
    },
    Group {
        words: &["translate --canonicalize", "translate a.mlir -canonicalize"],
        input: FOLDABLE_ADDER,
        failing: Failing::No,
        code: 2,
        out: "",
        err: UNNAMED,
        file: "x.v",
        text: "old",
    },
    // a word after `--` is a file
    Group {
        words: &["opt -- --canonicalize"],
        input: FOLDABLE_ADDER,
        failing: Failing::No,
        code: 5,
        out: "",
        err: "circt: cannot read --canonicalize\n",
        file: "x.v",
        text: "old",
    },
    // what is refused is not folded
    Group {
        words: &[
            "opt --canonicalize",
            "translate --canonicalize --export-verilog",
        ],
        input: "foo",
        failing: Failing::No,
        code: 1,
        out: "",
        err: REFUSED,
        file: "x.v",
        text: "old",
    },
    // equal operations are merged, and private modules that no public one instances go, by the same forms of words
    Group {
        words: &[
            "opt --cse",
            "opt -cse a.mlir",
            "opt --cse --cse -",
            "opt --pass-pipeline=builtin.module(cse)",
            "opt --pass-pipeline=builtin.module(hw.module(cse,cse))",
            "opt --cse --symbol-dce",
            "opt --symbol-dce --cse --canonicalize",
        ],
        input: TWICE,
        failing: Failing::No,
        code: 0,
        out: TWICE_MERGED,
        err: "",
        file: "x.v",
        text: "old",
    },
    Group {
        words: &[
            "translate --export-verilog --cse",
            "translate --cse a.mlir --export-verilog",
        ],
        input: TWICE,
        failing: Failing::No,
        code: 0,
        out: TWICE_VERILOG,
        err: "",
        file: "x.v",
        text: "old",
    },
    Group {
        words: &[
            "opt --symbol-dce",
            "opt -symbol-dce a.mlir --canonicalize --cse",
            "opt --pass-pipeline=builtin.module(symbol-dce)",
            "opt --pass-pipeline=builtin.module(hw.module(cse),symbol-dce,symbol-dce)",
            "opt --hw-flatten-modules",
        ],
        input: ALONE,
        failing: Failing::No,
        code: 0,
        out: "module {\n}\n",
        err: "",
        file: "x.v",
        text: "old",
    },
    // private modules become parts of those that instance them
    Group {
        words: &[
            "opt --hw-flatten-modules",
            "opt a.mlir -hw-flatten-modules --symbol-dce",
            "opt --pass-pipeline=builtin.module(hw-flatten-modules,hw.module(canonicalize))",
        ],
        input: TWO_REGISTERS,
        failing: Failing::No,
        code: 0,
        out: TWO_FLAT,
        err: "",
        file: "x.v",
        text: "old",
    },
    Group {
        words: &[
            "translate --export-verilog --hw-flatten-modules",
            "translate --hw-flatten-modules --cse a.mlir --export-verilog",
        ],
        input: TWO_REGISTERS,
        failing: Failing::No,
        code: 0,
        out: TWO_VERILOG,
        err: "",
        file: "x.v",
        text: "old",
    },
];

#[test]
fn passes_are_named(rt: HostRuntime) -> Result<(), Fail> {
    assert_eq!(rt; first_other(&rt, &GROUPS)?, None);
    Ok(())
}
