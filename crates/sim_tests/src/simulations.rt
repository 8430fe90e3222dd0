//! Runs of modules, from their texts and step files to what is printed.
use cycle_sim::fail::{SimFail, SimRefusal};
use cycle_sim::simulate;
use io_edge::byte_text::Text;
use mlir_reader::read::read_design;
use op_verifier::{Verified, verify};
use std::alloc::Global;
use std::test::Fail;
use step_file::fail::{StepCause, StepRefusal};
use stored_form::is_canonical;

/// A module of a design and a step file: the lines of its run, or why there is none.
struct Case {
    name: &'static str,
    design: &'static [u8],
    top: &'static [u8],
    steps: &'static [u8],
    lines: &'static [u8],
    refused: Option<SimRefusal>,
}

// a register with an enable and a reset, twice, one after another
const TWO_REGISTERS: &[u8] = b"
hw.module private @Reg(in %clk : !seq.clock, in %rst : i1, in %en : i1, in %d : i8, out q : i8) {
  %z = hw.constant 9 : i8
  %r = seq.compreg.ce %d, %clk, %en reset %rst, %z : i8
  hw.output %r : i8
}
hw.module @Two(in %clk : !seq.clock, in %rst : i1, in %en : i1, in %d : i8, out a : i8, out b : i8) {
  %u1.q = hw.instance \"u1\" @Reg(clk: %clk: !seq.clock, rst: %rst: i1, en: %en: i1, d: %d: i8) -> (q: i8)
  %u2.q = hw.instance \"u2\" @Reg(clk: %clk: !seq.clock, rst: %rst: i1, en: %en: i1, d: %u1.q: i8) -> (q: i8)
  hw.output %u1.q, %u2.q : i8, i8
}
";

// an adder of 8 bits, which has no register
const ADDER: &[u8] = b"
hw.module @T(in %a : i8, in %b : i8, out c : i8) {
  %0 = comb.add %a, %b : i8
  hw.output %0 : i8
}
";

// a constant, which has no input
const CONSTANT: &[u8] = b"
hw.module @T(out c : i8) {
  %0 = hw.constant 7 : i8
  hw.output %0 : i8
}
";

// a register whose content is no output
const HIDDEN: &[u8] = b"
hw.module @T(in %clk : !seq.clock, in %d : i8) {
  %r = seq.compreg %d, %clk : i8
  hw.output
}
";

// a register of a struct with an enable and a reset
const STRUCT: &[u8] = b"
hw.module @T(in %clk : !seq.clock, in %rst : i1, in %en : i1, in %d : !hw.struct<x: i8, y: i4>, in %v : !hw.struct<x: i8, y: i4>, out q : !hw.struct<x: i8, y: i4>) {
  %r = seq.compreg.ce %d, %clk, %en reset %rst, %v : !hw.struct<x: i8, y: i4>
  hw.output %r : !hw.struct<x: i8, y: i4>
}
";

// a register of an array with an asynchronous reset
const ARRAY: &[u8] = b"
hw.module @T(in %clk : !seq.clock, in %rst : i1, in %d : !hw.array<2xi8>, out q : !hw.array<2xi8>) {
  %z = hw.aggregate_constant [9 : i8, 10 : i8] : !hw.array<2xi8>
  %r = seq.firreg %d clock %clk reset async %rst, %z : !hw.array<2xi8>
  hw.output %r : !hw.array<2xi8>
}
";

// two registers, each with a clock of its own
const TWO_CLOCKS: &[u8] = b"
hw.module @T(in %a : !seq.clock, in %b : !seq.clock, in %d : i4, out p : i4, out q : i4) {
  %r = seq.compreg %d, %a : i4
  %s = seq.compreg %r, %b : i4
  hw.output %r, %s : i4, i4
}
";

// a register with an asynchronous reset
const ASYNC_RESET: &[u8] = b"
hw.module @T(in %clk : !seq.clock, in %rst : i1, in %d : i8, out q : i8) {
  %z = hw.constant 9 : i8
  %r = seq.firreg %d clock %clk reset async %rst, %z : i8
  hw.output %r : i8
}
";

// the most bits that a value may have
const WIDE: &[u8] = b"
hw.module @T(in %a : i128, out b : i128) {
  hw.output %a : i128
}
";

const CASES: [Case; 24] = [
    Case {
        name: "two registers",
        design: TWO_REGISTERS,
        top: b"Two",
        steps: b"state 8'h5 8'h6\n1'h1 1'h0 1'h1 8'h11\n1'h1 1'h0 1'h0 8'h22\n1'h1 1'h1 1'h0 8'h33\n1'h0 1'h1 1'h1 8'h44\n",
        lines: b"8'h5 8'h6\n8'h11 8'h5\n8'h11 8'h5\n8'h9 8'h9\n",
        refused: None,
    },
    Case {
        name: "a private module, and empty lines",
        design: TWO_REGISTERS,
        top: b"Reg",
        steps: b"\nstate 8'hfF\n\n1'h1 1'h0 1'h1 8'h11\n \n1'h0 1'h0 1'h0 8'h0",
        lines: b"8'hFF\n8'h11\n",
        refused: None,
    },
    Case {
        name: "a content alone",
        design: TWO_REGISTERS,
        top: b"Two",
        steps: b"state 8'h5 8'h6",
        lines: b"",
        refused: None,
    },
    Case {
        name: "no such module",
        design: TWO_REGISTERS,
        top: b"Three",
        steps: b"",
        lines: b"",
        refused: Some(SimRefusal::NoModule),
    },
    Case {
        name: "one literal of two",
        design: TWO_REGISTERS,
        top: b"Two",
        steps: b"state 8'h5",
        lines: b"",
        refused: Some(SimRefusal::BadSteps(StepRefusal {
            line: 1,
            cause: StepCause::WrongCount,
        })),
    },
    Case {
        name: "no state",
        design: TWO_REGISTERS,
        top: b"Two",
        steps: b"1'h1 1'h0 1'h1 8'h11\n",
        lines: b"",
        refused: Some(SimRefusal::BadSteps(StepRefusal {
            line: 1,
            cause: StepCause::BadLine,
        })),
    },
    Case {
        name: "no line",
        design: TWO_REGISTERS,
        top: b"Two",
        steps: b"",
        lines: b"",
        refused: Some(SimRefusal::BadSteps(StepRefusal {
            line: 1,
            cause: StepCause::BadLine,
        })),
    },
    Case {
        name: "a wide literal",
        design: TWO_REGISTERS,
        top: b"Two",
        steps: b"state 8'h5 9'h1FF",
        lines: b"",
        refused: Some(SimRefusal::BadSteps(StepRefusal {
            line: 1,
            cause: StepCause::WrongWidth,
        })),
    },
    Case {
        name: "a value that does not fit",
        design: TWO_REGISTERS,
        top: b"Two",
        steps: b"state 8'h5 8'h6\n1'h1 1'h0 1'h1 8'h100",
        lines: b"",
        refused: Some(SimRefusal::BadSteps(StepRefusal {
            line: 2,
            cause: StepCause::BadLine,
        })),
    },
    Case {
        name: "no hexadecimal digit",
        design: TWO_REGISTERS,
        top: b"Two",
        steps: b"state 8'h5 8'h6\n1'h1 1'h0 1'h1 8'h11\n1'h1 1'h0 1'h1 8'hfg",
        lines: b"",
        refused: Some(SimRefusal::BadSteps(StepRefusal {
            line: 3,
            cause: StepCause::BadLine,
        })),
    },
    Case {
        name: "a step that is too short",
        design: TWO_REGISTERS,
        top: b"Two",
        steps: b"state 8'h5 8'h6\n1'h1 1'h0 1'h1 8'h11\n1'h1 1'h0 1'h1",
        lines: b"",
        refused: Some(SimRefusal::BadSteps(StepRefusal {
            line: 3,
            cause: StepCause::WrongCount,
        })),
    },
    Case {
        name: "no registers",
        design: ADDER,
        top: b"T",
        steps: b"state\n8'hFF 8'h02\n8'h0 8'h0\n",
        lines: b"8'h1\n8'h0\n",
        refused: None,
    },
    Case {
        name: "a content where there are no registers",
        design: ADDER,
        top: b"T",
        steps: b"state 8'h0",
        lines: b"",
        refused: Some(SimRefusal::BadSteps(StepRefusal {
            line: 1,
            cause: StepCause::WrongCount,
        })),
    },
    Case {
        name: "no inputs, so no steps",
        design: CONSTANT,
        top: b"T",
        steps: b"state\n\n \n",
        lines: b"",
        refused: None,
    },
    Case {
        name: "a step where there are no inputs",
        design: CONSTANT,
        top: b"T",
        steps: b"state\n8'h7",
        lines: b"",
        refused: Some(SimRefusal::BadSteps(StepRefusal {
            line: 2,
            cause: StepCause::WrongCount,
        })),
    },
    Case {
        name: "no outputs, so an empty line for each step",
        design: HIDDEN,
        top: b"T",
        steps: b"state 8'h5\n1'h1 8'h6\n1'h0 8'h7\n",
        lines: b"\n\n",
        refused: None,
    },
    Case {
        name: "a struct",
        design: STRUCT,
        top: b"T",
        steps: b"state 8'h5 4'h6\n1'h1 1'h0 1'h1 8'h11 4'h1 8'h9 4'hA\n1'h1 1'h0 1'h0 8'h22 4'h2 8'h9 4'hA\n1'h1 1'h1 1'h0 8'h33 4'h3 8'h9 4'hA\n1'h0 1'h1 1'h1 8'h44 4'h4 8'hB 4'hC\n",
        lines: b"8'h5 4'h6\n8'h11 4'h1\n8'h11 4'h1\n8'h9 4'hA\n",
        refused: None,
    },
    Case {
        name: "an array of which one leaf is given",
        design: ARRAY,
        top: b"T",
        steps: b"state 16'h506",
        lines: b"",
        refused: Some(SimRefusal::BadSteps(StepRefusal {
            line: 1,
            cause: StepCause::WrongCount,
        })),
    },
    Case {
        name: "an array with an asynchronous reset in the first step",
        design: ARRAY,
        top: b"T",
        steps: b"state 8'h5 8'h6\n1'h0 1'h1 8'h11 8'h51\n1'h1 1'h1 8'h22 8'h52\n1'h1 1'h0 8'h33 8'h53\n1'h0 1'h0 8'h44 8'h54\n",
        lines: b"8'h9 8'hA\n8'h9 8'hA\n8'h9 8'hA\n8'h33 8'h53\n",
        refused: None,
    },
    Case {
        name: "clocks apart",
        design: TWO_CLOCKS,
        top: b"T",
        steps: b"state 4'h1 4'h2\n1'h1 1'h0 4'h3\n1'h0 1'h1 4'h4\n1'h1 1'h1 4'h5\n1'h0 1'h0 4'h6\n",
        lines: b"4'h1 4'h2\n4'h3 4'h2\n4'h3 4'h3\n4'h5 4'h3\n",
        refused: None,
    },
    Case {
        name: "an asynchronous reset that rises twice",
        design: ASYNC_RESET,
        top: b"T",
        steps: b"state 8'h5\n1'h1 1'h0 8'h11\n1'h0 1'h1 8'h22\n1'h1 1'h1 8'h22\n1'h1 1'h0 8'h33\n1'h1 1'h1 8'h44\n1'h1 1'h0 8'h55\n1'h0 1'h0 8'h66\n",
        lines: b"8'h5\n8'h9\n8'h9\n8'h9\n8'h9\n8'h9\n8'h55\n",
        refused: None,
    },
    Case {
        name: "an asynchronous reset that was 1 before a register loads",
        design: ASYNC_RESET,
        top: b"T",
        steps: b"state 8'h5\n1'h0 1'h1 8'h11\n1'h1 1'h0 8'h22\n1'h0 1'h1 8'h33\n",
        lines: b"8'h9\n8'h9\n8'h9\n",
        refused: None,
    },
    Case {
        name: "a word of 128 bits",
        design: WIDE,
        top: b"T",
        steps: b"state\n128'hFEDCBA98765432100123456789ABCDEF\n",
        lines: b"128'hFEDCBA98765432100123456789ABCDEF\n",
        refused: None,
    },
    Case {
        name: "a module that is not there comes before a step file that is none",
        design: ADDER,
        top: b"U",
        steps: b"1'h2",
        lines: b"",
        refused: Some(SimRefusal::NoModule),
    },
];

/// The design of a text, where it is read and nothing of it is refused.
fn design_of(alloc: Global, text: &[u8]) -> Option<Verified> {
    match read_design(alloc, text) {
        Ok(design) => {
            if !is_canonical(&design) {
                return None;
            }
            verify(alloc, design).ok()
        }
        Err(_) => None,
    }
}

/// Whether an answer is what a case says.
fn is_as_said(case: &Case, answer: &Result<Text, SimFail>) -> bool {
    match answer {
        Ok(text) => case.refused.is_none() && text.as_bytes() == case.lines,
        Err(SimFail::Refused(refusal)) => case.refused == Some(*refusal),
        Err(SimFail::NoMemory) => false,
    }
}

/// Whether a case is answered as it says.
fn holds(alloc: Global, case: &Case) -> bool {
    match design_of(alloc, case.design) {
        Some(design) => is_as_said(case, &simulate(alloc, &design, case.top, case.steps)),
        None => false,
    }
}

/// The name of the first case that is answered otherwise.
fn first_other(alloc: Global) -> Option<&'static str> {
    for case in &CASES {
        if !holds(alloc, case) {
            return Some(case.name);
        }
    }
    None
}

#[test]
fn runs_are_printed_or_refused(rt: HostRuntime) -> Result<(), Fail> {
    assert_eq!(rt; first_other(rt.alloc()), None);
    Ok(())
}
