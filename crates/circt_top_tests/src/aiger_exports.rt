//! What texts in the AIGER format `translate` makes of designs.
use crate::aiger_texts::{GATE, LATCH_PRINTED, REGISTER_TEXT};
use crate::cuts::first_other_cut;
use crate::groups::{Group, REFUSED, first_other};
use crate::runs::{Failing, run_long};
use std::alloc::{AllocError, Global};
use std::test::Fail;

// Two inputs of a gate.
const CONJUNCTION: &str = "hw.module @And(in %a : i1, in %b : i1, out c : i1) {
  %0 = comb.and %a, %b : i1
  hw.output %0 : i1
}
";

// A register.
const REGISTER: &str = "hw.module @Reg(in %clk : !seq.clock, in %d : i1, out q : i1) {
  %r = seq.compreg %d, %clk : i1
  hw.output %r : i1
}
";

// The text of the design of a latch, `LATCH_PRINTED`.
const LATCH_TEXT: &str = "aag 2 1 1 1 0
2
4 2 4
4
i0 i0[0]
l0 l0[0]
o0 o0[0]
";

// A public module that instances another public one.
const TWO_PUBLIC: &str = "hw.module @Inner(in %a : i1, out b : i1) {
  hw.output %a : i1
}
hw.module @Outer(in %a : i1, out b : i1) {
  %u.b = hw.instance \"u\" @Inner(a: %a: i1) -> (b: i1)
  hw.output %u.b : i1
}
";

// A private module that instances none.
const NONE_PUBLIC: &str = "hw.module private @Inner(in %a : i1, out b : i1) {
  hw.output %a : i1
}
";

// Two registers with a clock each, in a private module.
const TWO_CLOCKS: &str = "hw.module private @Held(in %c : !seq.clock, in %a : i1, out q : i1) {
  %q = seq.compreg %a, %c : i1
  hw.output %q : i1
}
hw.module @Two(in %c : !seq.clock, in %d : !seq.clock, in %a : i1, out q : i1) {
  %u.q = hw.instance \"u\" @Held(c: %c: !seq.clock, a: %a: i1) -> (q: i1)
  %v.q = hw.instance \"v\" @Held(c: %d: !seq.clock, a: %u.q: i1) -> (q: i1)
  hw.output %v.q : i1
}
";

// A register that is reset without its clock.
const RISEN: &str = "hw.module @R(in %c : !seq.clock, in %s : i1, in %a : i1, out q : i1) {
  %f = hw.constant false
  %q = seq.firreg %a clock %c reset async %s, %f : i1
  hw.output %q : i1
}
";

const EXPORTS: [Group; 17] = [
    // a design is a text in the AIGER format
    Group {
        words: &[
            "translate --export-aiger",
            "translate -export-aiger -",
            "translate a.mlir --export-aiger -o -",
            "translate --export-aiger --canonicalize --cse --workers 2",
            "translate --lowering-options=implicitExtension --export-aiger",
        ],
        input: CONJUNCTION,
        failing: Failing::No,
        code: 0,
        out: GATE,
        err: "",
        file: "x.v",
        text: "old",
    },
    Group {
        words: &[
            "translate --export-aiger",
            "translate --export-aiger --hw-flatten-modules --symbol-dce",
        ],
        input: REGISTER,
        failing: Failing::No,
        code: 0,
        out: REGISTER_TEXT,
        err: "",
        file: "x.v",
        text: "old",
    },
    // and the design of that text is one again
    Group {
        words: &["translate --export-aiger"],
        input: LATCH_PRINTED,
        failing: Failing::No,
        code: 0,
        out: LATCH_TEXT,
        err: "",
        file: "x.v",
        text: "old",
    },
    // it goes to a file, or over the input
    Group {
        words: &[
            "translate --export-aiger -o x.v",
            "translate a.mlir -o=x.v -export-aiger",
        ],
        input: REGISTER,
        failing: Failing::No,
        code: 0,
        out: "",
        err: "",
        file: "x.v",
        text: REGISTER_TEXT,
    },
    Group {
        words: &["translate a.mlir -o a.mlir --export-aiger"],
        input: REGISTER,
        failing: Failing::No,
        code: 0,
        out: "",
        err: "",
        file: "a.mlir",
        text: REGISTER_TEXT,
    },
    // what is refused of the input is refused before what passes make
    Group {
        words: &[
            "translate --export-aiger",
            "translate --export-aiger --cse -o x.v",
        ],
        input: "foo",
        failing: Failing::No,
        code: 1,
        out: "",
        err: REFUSED,
        file: "x.v",
        text: "old",
    },
    // what passes make has one public module
    Group {
        words: &[
            "translate --export-aiger",
            "translate --export-aiger --hw-flatten-modules --symbol-dce -o x.v",
        ],
        input: TWO_PUBLIC,
        failing: Failing::No,
        code: 1,
        out: "",
        err: "<stdin>:1:1: error: 'builtin.module' A1: not one public module\n",
        file: "x.v",
        text: "old",
    },
    Group {
        words: &[
            "translate a.mlir --export-aiger",
            "translate a.mlir --export-aiger --symbol-dce",
        ],
        input: NONE_PUBLIC,
        failing: Failing::No,
        code: 1,
        out: "",
        err: "a.mlir:1:1: error: 'builtin.module' A1: not one public module\n",
        file: "x.v",
        text: "old",
    },
    // one clock, and no reset without it
    Group {
        words: &[
            "translate --export-aiger",
            "translate --export-aiger --hw-flatten-modules",
        ],
        input: TWO_CLOCKS,
        failing: Failing::No,
        code: 1,
        out: "",
        err: "<stdin>:5:1: error: 'hw.module' A2: several clocks\n",
        file: "x.v",
        text: "old",
    },
    Group {
        words: &["translate a.mlir --export-aiger -o x.v"],
        input: RISEN,
        failing: Failing::No,
        code: 1,
        out: "",
        err: "a.mlir:1:1: error: 'hw.module' A3: asynchronous reset\n",
        file: "x.v",
        text: "old",
    },
    // the way in which Verilog is written has no effect, but is to be known
    Group {
        words: &["translate b.mlir --export-aiger --lowering-options=explicit"],
        input: REGISTER,
        failing: Failing::No,
        code: 2,
        out: "",
        err: "circt: usage: unknown lowering option\n",
        file: "x.v",
        text: "old",
    },
    // faults are told
    Group {
        words: &[
            "translate b.mlir --export-aiger",
            "translate b.mlir --export-aiger -o x.v",
        ],
        input: REGISTER,
        failing: Failing::No,
        code: 5,
        out: "",
        err: "circt: cannot read b.mlir\n",
        file: "x.v",
        text: "old",
    },
    Group {
        words: &["translate --export-aiger"],
        input: REGISTER,
        failing: Failing::Read,
        code: 5,
        out: "",
        err: "circt: cannot read <stdin>\n",
        file: "x.v",
        text: "old",
    },
    Group {
        words: &["translate --export-aiger"],
        input: REGISTER,
        failing: Failing::Put,
        code: 6,
        out: "",
        err: "circt: cannot write <stdout>\n",
        file: "x.v",
        text: "old",
    },
    Group {
        words: &["translate --export-aiger -o x.v"],
        input: REGISTER,
        failing: Failing::Write,
        code: 6,
        out: "",
        err: "circt: cannot write x.v\n",
        file: "x.v",
        text: "old",
    },
    Group {
        words: &["translate a.mlir --export-aiger -o a.mlir"],
        input: REGISTER,
        failing: Failing::Write,
        code: 6,
        out: "",
        err: "circt: cannot write a.mlir\n",
        file: "a.mlir",
        text: REGISTER,
    },
    Group {
        words: &["translate --export-aiger"],
        input: TWO_PUBLIC,
        failing: Failing::Line,
        code: 1,
        out: "",
        err: "",
        file: "x.v",
        text: "old",
    },
];

/// How many factors a product has of which nothing is used. It takes 1,261 * 13 * 128 * 128 gates at most, which is more than 2^28.
const FACTORS: u32 = 1262;

// A module with a product of so many factors, and an input as its output.
fn product_text(alloc: Global, factors: u32) -> Result<String, AllocError> {
    let mut text = String::from_str(
        alloc,
        "hw.module @Big(in %a : i128, in %b : i1, out c : i1) {\n  %0 = comb.mul %a",
    )?;
    for _ in 1..factors {
        text.push_str(", %a")?;
    }
    text.push_str(" : i128\n  hw.output %b : i1\n}\n")?;
    Ok(text)
}

// A module with outputs of so many bits, of which the text takes several pieces.
const WIDE: &str =
    "hw.module @Wide(in %a : i128, in %b : i128, out c : i128, out d : i128, out e : i128) {
  hw.output %a, %b, %a : i128, i128, i128
}
";

#[test]
fn designs_are_texts(rt: HostRuntime) -> Result<(), Fail> {
    assert_eq!(rt; first_other(&rt, &EXPORTS)?, None);
    Ok(())
}

#[test]
fn what_passes_take_away_is_not_refused(rt: HostRuntime) -> Result<(), Fail> {
    let text = product_text(rt.alloc(), FACTORS)?;
    let refused = run_long(&rt, "translate --export-aiger", text.as_str(), &[])?;
    assert!(rt;
        refused.is(
            1,
            "",
            "<stdin>:1:1: error: 'hw.module' A4: too many gates\n"
        )
    );
    let kept = run_long(&rt, "translate --export-aiger --cse", text.as_str(), &[])?;
    assert_eq!(rt; kept.code, 0);
    assert!(rt; kept.out.contents().starts_with(b"aag 129 129 0 1 0\n"));
    Ok(())
}

#[test]
fn a_prefix_of_a_text_goes_out_where_the_output_fails(rt: HostRuntime) -> Result<(), Fail> {
    assert_eq!(rt;
        first_other_cut(&rt, "translate --export-aiger", WIDE)?,
        None
    );
    Ok(())
}
