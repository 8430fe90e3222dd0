//! Designs that have no text.
use crate::designs::exported;
use aiger_export::fail::ExportFail;
use diag::cause::Cause;
use diag::refusal::{Location, OpName, Refusal};
use opcode::listed::Listed;
use std::alloc::{AllocError, Global};
use std::test::Fail;

/// A design, the line of its text at which it is refused, and the cause; that of the file is at its beginning.
struct Case {
    name: &'static str,
    design: &'static [u8],
    line: u32,
    op: OpName,
    cause: Cause,
}

const MODULE: OpName = OpName::Listed(Listed::HwModule);

const CASES: [Case; 7] = [
    Case {
        name: "no module",
        design: b"",
        line: 1,
        op: OpName::File,
        cause: Cause::NotOnePublicModule,
    },
    Case {
        name: "no public module",
        design: b"
hw.module private @P() {
  hw.output
}
",
        line: 1,
        op: OpName::File,
        cause: Cause::NotOnePublicModule,
    },
    // what stands against one of them is not asked
    Case {
        name: "two public modules",
        design: b"
hw.module @Two(in %c : !seq.clock, in %e : !seq.clock, in %d : i1, out p : i1, out q : i1) {
  %r = seq.compreg %d, %c : i1
  %s = seq.compreg %d, %e : i1
  hw.output %r, %s : i1, i1
}
hw.module private @P() {
  hw.output
}
hw.module @Q() {
  hw.output
}
",
        line: 1,
        op: OpName::File,
        cause: Cause::NotOnePublicModule,
    },
    Case {
        name: "two clocks",
        design: b"
hw.module private @P() {
  hw.output
}
hw.module @Two(in %c : !seq.clock, in %e : !seq.clock, in %d : i1, out p : i1, out q : i1) {
  %r = seq.compreg %d, %c : i1
  %s = seq.compreg %d, %e : i1
  hw.output %r, %s : i1, i1
}
",
        line: 5,
        op: MODULE,
        cause: Cause::SeveralClocks,
    },
    // its instance has but one
    Case {
        name: "two clocks of instances",
        design: b"
hw.module private @Inner(in %c : !seq.clock, in %d : i1, out q : i1) {
  %r = seq.compreg %d, %c : i1
  hw.output %r : i1
}
hw.module @Outer(in %c : !seq.clock, in %e : !seq.clock, in %d : i1, out q : i1) {
  %u.q = hw.instance \"u\" @Inner(c: %c: !seq.clock, d: %d: i1) -> (q: i1)
  %v.q = hw.instance \"v\" @Inner(c: %e: !seq.clock, d: %u.q: i1) -> (q: i1)
  hw.output %v.q : i1
}
",
        line: 6,
        op: MODULE,
        cause: Cause::SeveralClocks,
    },
    Case {
        name: "two clocks and an asynchronous reset",
        design: b"
hw.module @Both(in %c : !seq.clock, in %e : !seq.clock, in %rst : i1, in %d : i1, out p : i1, out q : i1) {
  %z = hw.constant false
  %r = seq.firreg %d clock %c reset async %rst, %z : i1
  %s = seq.compreg %d, %e : i1
  hw.output %r, %s : i1, i1
}
",
        line: 2,
        op: MODULE,
        cause: Cause::SeveralClocks,
    },
    Case {
        name: "an asynchronous reset",
        design: b"
hw.module @Async(in %c : !seq.clock, in %rst : i1, in %d : i1, out p : i1) {
  %z = hw.constant false
  %r = seq.firreg %d clock %c reset async %rst, %z : i1
  hw.output %r : i1
}
",
        line: 2,
        op: MODULE,
        cause: Cause::AsynchronousReset,
    },
];

/// Whether a design is refused there for that.
fn is_refused(alloc: Global, design: &[u8], line: u32, op: OpName, cause: Cause) -> bool {
    let wanted = Refusal {
        file: 0,
        location: Location { line, col: 1 },
        op,
        cause,
    };
    match exported(alloc, design) {
        Some(Err(ExportFail::Refused(refusal))) => refusal == wanted,
        _ => false,
    }
}

/// The name of the first case that is answered otherwise.
fn first_other(alloc: Global) -> Option<&'static str> {
    for case in &CASES {
        if !is_refused(alloc, case.design, case.line, case.op, case.cause) {
            return Some(case.name);
        }
    }
    None
}

#[test]
fn designs_are_refused(rt: HostRuntime) -> Result<(), Fail> {
    assert_eq!(rt; first_other(rt.alloc()), None);
    Ok(())
}

/// How many products a module multiplies one after another: they may take 1,261 * 13 * 128 * 128 gates, 268,582,912, which is
/// more than 2^28.
const PRODUCTS: u32 = 1261;

/// A module that multiplies so many times.
fn chain(alloc: Global, count: u32) -> Result<String, AllocError> {
    let mut text = String::from_str(alloc, "")?;
    text.push_str("hw.module @m(in %a : i128, in %b : i128, out o : i128) {\n")?;
    text.push_str("  %0 = comb.mul %a, %b : i128\n")?;
    for number in 1..count {
        let before = number - 1;
        let line = format!(in alloc; "  %{number} = comb.mul %{before}, %b : i128\n")?;
        text.push_str(line.as_str())?;
    }
    let last = count.saturating_sub(1);
    let line = format!(in alloc; "  hw.output %{last} : i128\n}}\n")?;
    text.push_str(line.as_str())?;
    Ok(text)
}

#[test]
fn what_may_take_too_many_gates_is_refused(rt: HostRuntime) -> Result<(), Fail> {
    let text = chain(rt.alloc(), PRODUCTS)?;
    assert!(rt;
        is_refused(
            rt.alloc(),
            text.as_str().as_bytes(),
            1,
            MODULE,
            Cause::TooManyAndGates
        )
    );
    Ok(())
}
