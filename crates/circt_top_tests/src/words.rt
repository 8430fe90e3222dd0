//! What words, files and failing reads and writes answer.
use crate::groups::{Group, REFUSED, TWO_NAMED, UNNAMED, USAGE, first_other};
use crate::runs::{ADDER, ADDER_PRINTED, ADDER_VERILOG, Failing};
use std::test::Fail;

const REFUSED_FILE: &str = "a.mlir:1:1: error: 'foo' S3: unknown operation\n";

const READ_FAULT: &str = "circt: cannot read b.mlir\n";

// Words that are no command.
const BAD: [&str; 41] = [
    "",
    "help",
    "--help",
    "-h",
    "--version",
    "lec a.mlir -c1 p",
    "opt --help",
    "opt -h",
    "opt -help",
    "opt --version",
    "opt a.mlir x.v",
    "opt --export-verilog",
    "opt --passes=cse",
    "opt -passes cse",
    "opt --hw-lower-aggregate",
    "opt --cse=1",
    "opt --canonicalise",
    "opt --canonicalize=x",
    "opt --canonicalize -passes=canonicalize",
    "opt - - --canonicalize",
    "--canonicalize opt",
    "--canonicalize",
    "translate --canonicalise --export-verilog",
    "opt --workers 65",
    "opt -workers=04",
    "opt -o",
    "opt -ox.v",
    "opt -o x.v -o x.v",
    "translate --help",
    "translate --export-verilog=x",
    "translate --export-verilog --export-verilog",
    "translate a.mlir x.v --export-verilog",
    "translate --passes=cse",
    "translate --export-verilog --split-input-file",
    "translate --import-aiger=x",
    "translate --export-aiger --export-aiger",
    "translate --import-aiger --split-input-file",
    "opt --import-aiger",
    "--export-verilog translate",
    "--export-verilog",
    "a.mlir",
];

// A zero extension in a sum.
const EXTENSION: &str = "hw.module @Sum(in %a : i8, in %b : i16, out c : i16) {
  %z = hw.constant 0 : i8
  %0 = comb.concat %z, %a : i8, i8
  %1 = comb.add %0, %b : i16
  hw.output %1 : i16
}
";

// Its Verilog, without the zeros.
const EXTENSION_BARE: &str = "module Sum(
  input wire [7:0] a,
  input wire [15:0] b,
  output wire [15:0] c
);
  assign c = a + b;
endmodule
";

const GROUPS: [Group; 26] = [
    // Verilog is written as an option says that is known
    Group {
        words: &[
            "translate --export-verilog --lowering-options=implicitExtension",
            "translate a.mlir -export-verilog -lowering-options implicitExtension",
        ],
        input: EXTENSION,
        failing: Failing::No,
        code: 0,
        out: EXTENSION_BARE,
        err: "",
        file: "x.v",
        text: "old",
    },
    Group {
        words: &[
            "translate --export-verilog --lowering-options=explicit",
            "translate b.mlir --export-verilog --lowering-options=explicit -o x.v",
        ],
        input: EXTENSION,
        failing: Failing::No,
        code: 2,
        out: "",
        err: "circt: usage: unknown lowering option\n",
        file: "x.v",
        text: "old",
    },
    // words that are bad are told so, and no file is touched
    Group {
        words: &BAD,
        input: ADDER,
        failing: Failing::No,
        code: 2,
        out: "",
        err: USAGE,
        file: "x.v",
        text: "old",
    },
    // a translation is named by its option alone
    Group {
        words: &[
            "translate",
            "translate a.mlir",
            "translate -o x.v",
            "translate b.mlir",
        ],
        input: ADDER,
        failing: Failing::No,
        code: 2,
        out: "",
        err: UNNAMED,
        file: "x.v",
        text: "old",
    },
    // no two of them are
    Group {
        words: &[
            "translate --export-verilog --export-aiger",
            "translate a.mlir --import-aiger -export-verilog",
            "translate --import-aiger --export-aiger -o x.v --lowering-options=explicit",
            "translate b.mlir --export-aiger --import-aiger --export-verilog --pass-pipeline=cse",
        ],
        input: ADDER,
        failing: Failing::No,
        code: 2,
        out: "",
        err: TWO_NAMED,
        file: "x.v",
        text: "old",
    },
    // texts go to the output
    Group {
        words: &[
            "opt",
            "opt -",
            "opt a.mlir",
            "opt -o -",
            "opt -o - a.mlir",
            "opt -- a.mlir",
            "opt --workers 64",
            "opt -workers=1 -canonicalize",
            "opt a.mlir -mlir-disable-threading",
        ],
        input: ADDER,
        failing: Failing::No,
        code: 0,
        out: ADDER_PRINTED,
        err: "",
        file: "x.v",
        text: "old",
    },
    Group {
        words: &[
            "translate --export-verilog",
            "translate -export-verilog",
            "translate --export-verilog -",
            "translate --export-verilog --lowering-options=",
            "translate a.mlir --export-verilog",
            "translate --export-verilog a.mlir",
            "translate - -o - --export-verilog",
            "translate --workers 2 --export-verilog --mlir-disable-threading",
        ],
        input: ADDER,
        failing: Failing::No,
        code: 0,
        out: ADDER_VERILOG,
        err: "",
        file: "x.v",
        text: "old",
    },
    // or to a named file
    Group {
        words: &["opt -o x.v", "opt a.mlir -o x.v"],
        input: ADDER,
        failing: Failing::No,
        code: 0,
        out: "",
        err: "",
        file: "x.v",
        text: ADDER_PRINTED,
    },
    Group {
        words: &["opt a.mlir -o a.mlir"],
        input: ADDER,
        failing: Failing::No,
        code: 0,
        out: "",
        err: "",
        file: "a.mlir",
        text: ADDER_PRINTED,
    },
    Group {
        words: &["opt -o new.mlir -"],
        input: ADDER,
        failing: Failing::No,
        code: 0,
        out: "",
        err: "",
        file: "new.mlir",
        text: ADDER_PRINTED,
    },
    Group {
        words: &[
            "translate --export-verilog -o x.v",
            "translate a.mlir -o=x.v --export-verilog",
        ],
        input: ADDER,
        failing: Failing::No,
        code: 0,
        out: "",
        err: "",
        file: "x.v",
        text: ADDER_VERILOG,
    },
    Group {
        words: &["translate -o a.mlir a.mlir -export-verilog"],
        input: ADDER,
        failing: Failing::No,
        code: 0,
        out: "",
        err: "",
        file: "a.mlir",
        text: ADDER_VERILOG,
    },
    // faults are told
    Group {
        words: &[
            "opt b.mlir",
            "translate b.mlir --export-verilog",
            "opt b.mlir -o x.v",
        ],
        input: ADDER,
        failing: Failing::No,
        code: 5,
        out: "",
        err: READ_FAULT,
        file: "x.v",
        text: "old",
    },
    Group {
        words: &["opt"],
        input: ADDER,
        failing: Failing::Read,
        code: 5,
        out: "",
        err: "circt: cannot read <stdin>\n",
        file: "x.v",
        text: "old",
    },
    Group {
        words: &["opt a.mlir", "opt a.mlir -o x.v"],
        input: ADDER,
        failing: Failing::Read,
        code: 5,
        out: "",
        err: "circt: cannot read a.mlir\n",
        file: "x.v",
        text: "old",
    },
    Group {
        words: &["opt", "translate --export-verilog -o -"],
        input: ADDER,
        failing: Failing::Put,
        code: 6,
        out: "",
        err: "circt: cannot write <stdout>\n",
        file: "x.v",
        text: "old",
    },
    Group {
        words: &["opt -o x.v", "translate --export-verilog -o x.v"],
        input: ADDER,
        failing: Failing::Write,
        code: 6,
        out: "",
        err: "circt: cannot write x.v\n",
        file: "x.v",
        text: "old",
    },
    // a file that is read and written keeps its old text where the write fails
    Group {
        words: &["opt a.mlir -o a.mlir"],
        input: ADDER,
        failing: Failing::Write,
        code: 6,
        out: "",
        err: "circt: cannot write a.mlir\n",
        file: "a.mlir",
        text: ADDER,
    },
    // a refusal names the file, and what is to be written is left as it was
    Group {
        words: &["opt", "opt -o x.v", "translate - --export-verilog"],
        input: "foo",
        failing: Failing::No,
        code: 1,
        out: "",
        err: REFUSED,
        file: "x.v",
        text: "old",
    },
    Group {
        words: &[
            "opt a.mlir -o x.v",
            "translate a.mlir --export-verilog -o x.v",
        ],
        input: "foo",
        failing: Failing::No,
        code: 1,
        out: "",
        err: REFUSED_FILE,
        file: "x.v",
        text: "old",
    },
    // a line that separates texts is a comment, so a symbol after it stands twice
    Group {
        words: &["opt"],
        input: "hw.module @A() {}\n// -----\nhw.module @A() {}",
        failing: Failing::No,
        code: 1,
        out: "",
        err: "<stdin>:3:1: error: 'hw.module' V16: module defined twice\n",
        file: "x.v",
        text: "old",
    },
    // a fault of the error output changes no exit status
    Group {
        words: &["opt"],
        input: ADDER,
        failing: Failing::Line,
        code: 0,
        out: ADDER_PRINTED,
        err: "",
        file: "x.v",
        text: "old",
    },
    Group {
        words: &["opt"],
        input: "foo",
        failing: Failing::Line,
        code: 1,
        out: "",
        err: "",
        file: "x.v",
        text: "old",
    },
    Group {
        words: &["opt a.mlir -o x.v"],
        input: "hw.module @A() {} hw.module @A() {}",
        failing: Failing::Line,
        code: 1,
        out: "",
        err: "",
        file: "x.v",
        text: "old",
    },
    Group {
        words: &["opt --canonicalise", "translate"],
        input: ADDER,
        failing: Failing::Line,
        code: 2,
        out: "",
        err: "",
        file: "x.v",
        text: "old",
    },
    Group {
        words: &["translate b.mlir --export-verilog"],
        input: ADDER,
        failing: Failing::Line,
        code: 5,
        out: "",
        err: "",
        file: "x.v",
        text: "old",
    },
];

#[test]
fn words_have_their_answers(rt: HostRuntime) -> Result<(), Fail> {
    assert_eq!(rt; first_other(&rt, &GROUPS)?, None);
    Ok(())
}
