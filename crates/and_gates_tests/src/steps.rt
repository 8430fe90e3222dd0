//! Gates of modules, from their texts.
use and_gates::fail::{ExportFail, ExportFault};
use and_gates::steps::{StepGates, and_gates};
use gates::signal::{Gate, Pin, Signal};
use mlir_reader::read::read_design;
use op_verifier::{Verified, verify};
use std::alloc::Global;
use std::test::Fail;
use stored_form::is_canonical;

/// A design, and the gates of its first module: how many variables come first, the two literals of each gate, and the literals
/// of outputs and of what registers hold next; or why there are none. A literal is twice its variable, and one more where it is
/// inverted; 0 and 1 are the bits.
struct Case {
    name: &'static str,
    design: &'static [u8],
    inputs: u32,
    gates: &'static [(u32, u32)],
    signals: &'static [u32],
    fault: Option<ExportFault>,
}

const AND: &[u8] = b"
hw.module @And(in %a : i1, in %b : i1, out c : i1) {
  %0 = comb.and %a, %b : i1
  hw.output %0 : i1
}
";

const REGISTER: &[u8] = b"
hw.module @Held(in %d : i1, in %clk : !seq.clock, out q : i1) {
  %r = seq.compreg %d, %clk : i1
  hw.output %r : i1
}
";

// an enable: the next bit is the data where the enable is 1, else the old one
const ENABLED: &[u8] = b"
hw.module @Kept(in %clk : !seq.clock, in %d : i1, in %en : i1, out q : i1) {
  %r = seq.compreg.ce %d, %clk, %en : i1
  hw.output %r : i1
}
";

// a register in an instance, whose clock is the second port
const INSIDE: &[u8] = b"
hw.module @Outer(in %d : i2, in %clk : !seq.clock, out q : i2) {
  %u.q = hw.instance \"u\" @Inner(c: %clk: !seq.clock, d: %d: i2) -> (q: i2)
  hw.output %u.q : i2
}
hw.module private @Inner(in %c : !seq.clock, in %d : i2, out q : i2) {
  %r = seq.compreg %d, %c : i2
  hw.output %r : i2
}
";

const TWO_CLOCKS: &[u8] = b"
hw.module @Two(in %c : !seq.clock, in %e : !seq.clock, in %d : i1, out p : i1, out q : i1) {
  %r = seq.compreg %d, %c : i1
  %s = seq.compreg %d, %e : i1
  hw.output %r, %s : i1, i1
}
";

// the second clock clocks nothing
const SPARE_CLOCK: &[u8] = b"
hw.module @Spare(in %c : !seq.clock, in %e : !seq.clock, in %d : i1, out p : i1) {
  %r = seq.compreg %d, %e : i1
  hw.output %r : i1
}
";

const ASYNC: &[u8] = b"
hw.module @Async(in %c : !seq.clock, in %rst : i1, in %d : i1, out p : i1) {
  %z = hw.constant false
  %r = seq.firreg %d clock %c reset async %rst, %z : i1
  hw.output %r : i1
}
";

const CASES: [Case; 7] = [
    Case {
        name: "and",
        design: AND,
        inputs: 2,
        gates: &[(2, 4)],
        signals: &[6],
        fault: None,
    },
    Case {
        name: "register",
        design: REGISTER,
        inputs: 2,
        gates: &[],
        signals: &[4, 2],
        fault: None,
    },
    Case {
        name: "enable",
        design: ENABLED,
        inputs: 3,
        gates: &[(2, 4), (5, 6), (9, 11)],
        signals: &[6, 13],
        fault: None,
    },
    Case {
        name: "inside",
        design: INSIDE,
        inputs: 4,
        gates: &[],
        signals: &[6, 8, 2, 4],
        fault: None,
    },
    Case {
        name: "two clocks",
        design: TWO_CLOCKS,
        inputs: 0,
        gates: &[],
        signals: &[],
        fault: Some(ExportFault::SeveralClocks),
    },
    Case {
        name: "spare clock",
        design: SPARE_CLOCK,
        inputs: 2,
        gates: &[],
        signals: &[4, 2],
        fault: None,
    },
    Case {
        name: "asynchronous reset",
        design: ASYNC,
        inputs: 0,
        gates: &[],
        signals: &[],
        fault: Some(ExportFault::AsynchronousReset),
    },
];

/// A literal of a pin.
fn pin_literal(pin: Pin) -> u64 {
    let even = u64::from(pin.variable) * 2;
    if pin.positive { even } else { even + 1 }
}

/// A literal of a signal.
fn literal(signal: Signal) -> u64 {
    match signal {
        Signal::Fixed(bit) => u64::from(bit),
        Signal::Wire(pin) => pin_literal(pin),
    }
}

/// Whether a gate has these literals.
fn is_gate(gate: &Gate, said: (u32, u32)) -> bool {
    pin_literal(gate.first) == u64::from(said.0) && pin_literal(gate.second) == u64::from(said.1)
}

/// Whether gates have these literals, one after another.
fn are_gates(gates: &[Gate], said: &[(u32, u32)]) -> bool {
    gates.len() == said.len()
        && gates
            .iter()
            .zip(said)
            .all(|(gate, one)| is_gate(gate, *one))
}

/// Whether signals have these literals, one after another.
fn are_signals(signals: &[Signal], said: &[u32]) -> bool {
    signals.len() == said.len()
        && signals
            .iter()
            .zip(said)
            .all(|(signal, one)| literal(*signal) == u64::from(*one))
}

/// The design that a text says, where nothing of it is refused.
fn design_of(alloc: Global, text: &[u8]) -> Option<Verified> {
    let Ok(design) = read_design(alloc, text) else {
        return None;
    };
    if !is_canonical(&design) {
        return None;
    }
    verify(alloc, design).ok()
}

/// Whether the answer is what a case says.
fn is_as_said(case: &Case, answer: &Result<StepGates, ExportFail>) -> bool {
    match answer {
        Ok(made) => {
            case.fault.is_none()
                && made.step.circuit.inputs() == case.inputs
                && are_gates(made.step.circuit.as_slice(), case.gates)
                && are_signals(made.step.signals.as_slice(), case.signals)
        }
        Err(ExportFail::Refused(fault)) => case.fault == Some(*fault),
        Err(ExportFail::NoMemory) => false,
    }
}

/// Whether the gates of a case are what it says.
fn holds(alloc: Global, case: &Case) -> bool {
    let Some(design) = design_of(alloc, case.design) else {
        return false;
    };
    if design.design().module_count() == 0 {
        return false;
    }
    is_as_said(case, &and_gates(alloc, &design, 0))
}

/// The name of the first case that is answered otherwise.
fn first_other(alloc: Global) -> Option<&'static str> {
    for case in &CASES {
        if !holds(alloc, case) {
            return Some(case.name);
        }
    }
    None
}

#[test]
fn gates_are_told_or_refused(rt: HostRuntime) -> Result<(), Fail> {
    assert_eq!(rt; first_other(rt.alloc()), None);
    Ok(())
}
