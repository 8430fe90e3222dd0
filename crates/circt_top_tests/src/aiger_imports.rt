//! What `translate` makes of texts in the AIGER format.
use crate::aiger_texts::{GATE, LATCH_PRINTED, REGISTER_TEXT};
use crate::cuts::first_other_cut;
use crate::groups::{Group, first_other};
use crate::runs::{ADDER, Failing};
use std::alloc::{AllocError, Global};
use std::test::Fail;

// A latch that takes an input, in the AIGER format.
const LATCH: &str = "aag 2 1 1 1 0
2
4 2 4
4
";

// The design of a gate, `GATE`.
const GATE_PRINTED: &str = "module {
  hw.module @aiger(in %i0 : i1, in %i1 : i1, out o0 : i1) {
    %0 = comb.and %i1, %i0 : i1
    hw.output %0 : i1
  }
}
";

// A gate of which one input is never set.
const IDLE_GATE: &str = "aag 2 1 0 1 1
2
4
4 2 0
";

// Its design, folded.
const IDLE_PRINTED: &str = "module {
  hw.module @aiger(in %i0 : i1, out o0 : i1) {
    %false = hw.constant false
    hw.output %false : i1
  }
}
";

const IMPORTS: [Group; 18] = [
    // a text in the AIGER format is a design
    Group {
        words: &[
            "translate --import-aiger",
            "translate -import-aiger -",
            "translate a.mlir --import-aiger -o -",
            "translate --import-aiger --canonicalize --cse --workers 2",
            "translate --lowering-options=implicitExtension --import-aiger",
        ],
        input: LATCH,
        failing: Failing::No,
        code: 0,
        out: LATCH_PRINTED,
        err: "",
        file: "x.v",
        text: "old",
    },
    Group {
        words: &[
            "translate --import-aiger",
            "translate --import-aiger --pass-pipeline=builtin.module()",
        ],
        input: GATE,
        failing: Failing::No,
        code: 0,
        out: GATE_PRINTED,
        err: "",
        file: "x.v",
        text: "old",
    },
    Group {
        words: &["translate --import-aiger"],
        input: REGISTER_TEXT,
        failing: Failing::No,
        code: 0,
        out: LATCH_PRINTED,
        err: "",
        file: "x.v",
        text: "old",
    },
    // passes make of it what they make of any design
    Group {
        words: &["translate --import-aiger --canonicalize --cse"],
        input: IDLE_GATE,
        failing: Failing::No,
        code: 0,
        out: IDLE_PRINTED,
        err: "",
        file: "x.v",
        text: "old",
    },
    // its text goes to a file, or over the input
    Group {
        words: &[
            "translate --import-aiger -o x.v",
            "translate a.mlir -o=x.v -import-aiger --symbol-dce",
        ],
        input: LATCH,
        failing: Failing::No,
        code: 0,
        out: "",
        err: "",
        file: "x.v",
        text: LATCH_PRINTED,
    },
    Group {
        words: &["translate a.mlir -o a.mlir --import-aiger"],
        input: LATCH,
        failing: Failing::No,
        code: 0,
        out: "",
        err: "",
        file: "a.mlir",
        text: LATCH_PRINTED,
    },
    // what says no design is refused at a line
    Group {
        words: &[
            "translate a.mlir --import-aiger",
            "translate --import-aiger a.mlir -o x.v --canonicalize",
        ],
        input: ADDER,
        failing: Failing::No,
        code: 1,
        out: "",
        err: "a.mlir:1:1: error: 'aiger' G1: bad line\n",
        file: "x.v",
        text: "old",
    },
    Group {
        words: &["translate --import-aiger -o x.v"],
        input: "aag 1 1 0 0 0\n3\n",
        failing: Failing::No,
        code: 1,
        out: "",
        err: "<stdin>:2:1: error: 'aiger' G2: literal out of range\n",
        file: "x.v",
        text: "old",
    },
    Group {
        words: &["translate --import-aiger"],
        input: "aag 2 2 0 0 0\n2\n2\n",
        failing: Failing::No,
        code: 1,
        out: "",
        err: "<stdin>:3:1: error: 'aiger' G3: literal defined twice\n",
        file: "x.v",
        text: "old",
    },
    Group {
        words: &["translate --import-aiger"],
        input: "aag 2 1 0 1 0\n2\n4\n",
        failing: Failing::No,
        code: 1,
        out: "",
        err: "<stdin>:3:1: error: 'aiger' G4: literal not defined\n",
        file: "x.v",
        text: "old",
    },
    Group {
        words: &[
            "translate --import-aiger",
            "translate - --import-aiger -o x.v",
        ],
        input: "aag 1 0 0 1 1\n2\n2 2 2\n",
        failing: Failing::No,
        code: 1,
        out: "",
        err: "<stdin>:3:1: error: 'aiger' G5: cycle of gates\n",
        file: "x.v",
        text: "old",
    },
    // the way in which Verilog is written has no effect, but is to be known
    Group {
        words: &["translate b.mlir --import-aiger --lowering-options=explicit"],
        input: LATCH,
        failing: Failing::No,
        code: 2,
        out: "",
        err: "circt: usage: unknown lowering option\n",
        file: "x.v",
        text: "old",
    },
    // faults are told
    Group {
        words: &[
            "translate b.mlir --import-aiger",
            "translate b.mlir --import-aiger -o x.v",
        ],
        input: LATCH,
        failing: Failing::No,
        code: 5,
        out: "",
        err: "circt: cannot read b.mlir\n",
        file: "x.v",
        text: "old",
    },
    Group {
        words: &["translate --import-aiger"],
        input: LATCH,
        failing: Failing::Read,
        code: 5,
        out: "",
        err: "circt: cannot read <stdin>\n",
        file: "x.v",
        text: "old",
    },
    Group {
        words: &["translate --import-aiger"],
        input: LATCH,
        failing: Failing::Put,
        code: 6,
        out: "",
        err: "circt: cannot write <stdout>\n",
        file: "x.v",
        text: "old",
    },
    Group {
        words: &["translate --import-aiger -o x.v"],
        input: LATCH,
        failing: Failing::Write,
        code: 6,
        out: "",
        err: "circt: cannot write x.v\n",
        file: "x.v",
        text: "old",
    },
    Group {
        words: &["translate a.mlir --import-aiger -o a.mlir"],
        input: LATCH,
        failing: Failing::Write,
        code: 6,
        out: "",
        err: "circt: cannot write a.mlir\n",
        file: "a.mlir",
        text: LATCH,
    },
    Group {
        words: &["translate --import-aiger"],
        input: "aag 1 0 0 1 1\n2\n2 2 2\n",
        failing: Failing::Line,
        code: 1,
        out: "",
        err: "",
        file: "x.v",
        text: "old",
    },
];

/// How many inputs a text has of which the design takes several pieces.
const MANY: u32 = 1000;

// A text of so many inputs.
fn inputs_text(alloc: Global, count: u32) -> Result<String, AllocError> {
    let mut text = format!(in alloc; "aag {count} {count} 0 0 0\n")?;
    for before in 0..count {
        let literal = 2 * u64::from(before) + 2;
        let line = format!(in alloc; "{literal}\n")?;
        text.push_str(line.as_str())?;
    }
    Ok(text)
}

#[test]
fn texts_are_designs(rt: HostRuntime) -> Result<(), Fail> {
    assert_eq!(rt; first_other(&rt, &IMPORTS)?, None);
    Ok(())
}

#[test]
fn a_prefix_of_a_design_goes_out_where_the_output_fails(rt: HostRuntime) -> Result<(), Fail> {
    let text = inputs_text(rt.alloc(), MANY)?;
    assert_eq!(rt;
        first_other_cut(&rt, "translate --import-aiger", text.as_str())?,
        None
    );
    Ok(())
}
