//! What is not compared.
use crate::runs::{Row, first_other, run_on};
use std::alloc::{AllocError, AllocGlobal, Global};
use std::test::Fail;
use std::thread::Threads;

const MODULES: &str = "hw.module @p(in %a : i16, in %b : i16, in %c : i16, out o : i16) {
  hw.output %a : i16
}
hw.module @r(in %a : i8, out o : i1) {
  %0 = comb.extract %a from 0 : (i8) -> i1
  hw.output %0 : i1
}
hw.module @t(in %x : i16, in %y : i16, in %z : i16, out o : i8) {
  %0 = comb.extract %x from 0 : (i16) -> i8
  hw.output %0 : i8
}
hw.module @u(out o : i16, in %x : i16, in %y : i16, in %z : i16) {
  hw.output %x : i16
}
hw.module @held(in %clk : !seq.clock, in %d : i8, out q : i8) {
  %r = seq.compreg %d, %clk : i8
  hw.output %r : i8
}
hw.module @twice(in %clk : !seq.clock, in %d : i8, out q : i8) {
  %r = seq.compreg %d, %clk : i8
  %s = seq.compreg %r, %clk : i8
  hw.output %s : i8
}
hw.module @plain(in %clk : !seq.clock, in %d : i8, out q : i8) {
  hw.output %d : i8
}
";

const REFUSED: &str = "foo";

const ROWS: [Row; 14] = [
    Row {
        line: "lec f.mlir -c1 nope -c2 r",
        first: MODULES,
        second: "",
        code: 1,
        out: "",
        err: "f.mlir:1:1: error: 'builtin.module' L1: no such module\n",
    },
    Row {
        line: "lec f.mlir -c1 p -c2 nope",
        first: MODULES,
        second: "",
        code: 1,
        out: "",
        err: "f.mlir:1:1: error: 'builtin.module' L1: no such module\n",
    },
    Row {
        line: "lec f.mlir g.mlir -c1 p -c2 nope",
        first: MODULES,
        second: MODULES,
        code: 1,
        out: "",
        err: "g.mlir:1:1: error: 'builtin.module' L1: no such module\n",
    },
    // the first module is asked for first
    Row {
        line: "lec f.mlir g.mlir -c1 nope -c2 nope",
        first: MODULES,
        second: MODULES,
        code: 1,
        out: "",
        err: "f.mlir:1:1: error: 'builtin.module' L1: no such module\n",
    },
    // other inputs, other outputs
    Row {
        line: "lec f.mlir -c1 p -c2 r",
        first: MODULES,
        second: "",
        code: 1,
        out: "",
        err: "f.mlir:4:1: error: 'hw.module' L2: ports differ\n",
    },
    Row {
        line: "lec f.mlir g.mlir -c1 p -c2 t",
        first: MODULES,
        second: MODULES,
        code: 1,
        out: "",
        err: "g.mlir:8:1: error: 'hw.module' L2: ports differ\n",
    },
    // names of ports, and how inputs and outputs are mixed, decide nothing
    Row {
        line: "lec f.mlir g.mlir -c1 p -c2 u",
        first: MODULES,
        second: MODULES,
        code: 0,
        out: "c1 == c2\n",
        err: "",
    },
    // other registers
    Row {
        line: "lec f.mlir -c1 held -c2 twice",
        first: MODULES,
        second: "",
        code: 1,
        out: "",
        err: "f.mlir:19:1: error: 'hw.module' L3: registers differ\n",
    },
    Row {
        line: "lec - -c1 held -c2 plain",
        first: MODULES,
        second: "",
        code: 1,
        out: "",
        err: "<stdin>:24:1: error: 'hw.module' L3: registers differ\n",
    },
    // the first file is refused first, and before modules are looked for
    Row {
        line: "lec f.mlir g.mlir -c1 nope -c2 q",
        first: MODULES,
        second: REFUSED,
        code: 1,
        out: "",
        err: "g.mlir:1:1: error: 'foo' S3: unknown operation\n",
    },
    Row {
        line: "lec g.mlir f.mlir -c1 nope -c2 q",
        first: MODULES,
        second: REFUSED,
        code: 1,
        out: "",
        err: "g.mlir:1:1: error: 'foo' S3: unknown operation\n",
    },
    // a file that cannot be read
    Row {
        line: "lec f.mlir h.mlir -c1 p -c2 p",
        first: MODULES,
        second: "",
        code: 5,
        out: "",
        err: "circt: cannot read h.mlir\n",
    },
    // words
    Row {
        line: "lec - - -c1 p -c2 q",
        first: MODULES,
        second: "",
        code: 2,
        out: "",
        err: "circt: usage: standard input named twice\n",
    },
    Row {
        line: "lec f.mlir -c1 p -c2 q --conflict-limit 0",
        first: MODULES,
        second: "",
        code: 2,
        out: "",
        err: "circt: usage: bad arguments\n",
    },
];

#[test]
fn what_is_refused_is_told(rt: HostRuntime) -> Result<(), Fail> {
    assert_eq!(rt; first_other(&rt, &ROWS)?, None);
    Ok(())
}

/// How many products a module multiplies one after another. Two such modules take 2 * 631 * 13 * 128 * 128 gates at most, and
/// 4 for each of 128 bits: 268,796,416, which is more than 2^28.
const PRODUCTS: u32 = 631;

// A module of a name that multiplies so many times.
fn push_chain(text: &mut String, alloc: Global, name: &str, count: u32) -> Result<(), AllocError> {
    text.push_str("hw.module @")?;
    text.push_str(name)?;
    text.push_str("(in %a : i128, in %b : i128, out o : i128) {\n  %0 = comb.mul %a, %b : i128\n")?;
    for number in 1..count {
        let before = number - 1;
        let line = format!(in alloc; "  %{number} = comb.mul %{before}, %b : i128\n")?;
        text.push_str(line.as_str())?;
    }
    let last = count.saturating_sub(1);
    let line = format!(in alloc; "  hw.output %{last} : i128\n}}\n")?;
    text.push_str(line.as_str())
}

// Whether two modules that multiply so often are compared to what is told.
fn chains(
    rt: &(impl Threads + Sync + AllocGlobal),
    count: u32,
    code: u8,
    err: &str,
) -> Result<bool, AllocError> {
    let alloc = rt.alloc();
    let mut text = String::from_str(alloc, "")?;
    push_chain(&mut text, alloc, "m", count)?;
    push_chain(&mut text, alloc, "n", count)?;
    let run = run_on(
        rt,
        "lec f.mlir -c1 m -c2 n --conflict-limit 1",
        text.as_str(),
        "",
    )?;
    Ok(run.code == code && run.err.contents() == err.as_bytes())
}

#[test]
fn what_takes_too_many_gates_is_refused(rt: HostRuntime) -> Result<(), Fail> {
    let refused = "f.mlir:1:1: error: 'hw.module' L4: too many gates\n";
    assert!(rt; chains(&rt, PRODUCTS, 1, refused)?);
    Ok(())
}

/// How many modules have two instances of the one before. The last one has 2^21 times 32 registers of 128 bits: of the 2^33
/// bits each takes 4 gates, and there are more bits than a number of 32 bits can say.
const LEVELS: u32 = 21;

// An instance of the module of a number.
fn push_instance(
    text: &mut String,
    alloc: Global,
    name: &str,
    number: u32,
) -> Result<(), AllocError> {
    let line = format!(in alloc;
        "  hw.instance \"{name}\" @M{number}(clk: %clk: !seq.clock) -> ()\n"
    )?;
    text.push_str(line.as_str())
}

// A module of arrays of registers, and so many more, each with two instances of the one before.
fn push_levels(text: &mut String, alloc: Global) -> Result<(), AllocError> {
    text.push_str("hw.module @M0(in %clk : !seq.clock) {\n")?;
    text.push_str("  %r = seq.compreg %r, %clk : !hw.array<32xi128>\n  hw.output\n}\n")?;
    for before in 0..LEVELS {
        let number = before + 1;
        let head = format!(in alloc; "hw.module @M{number}(in %clk : !seq.clock) {{\n")?;
        text.push_str(head.as_str())?;
        push_instance(text, alloc, "a", before)?;
        push_instance(text, alloc, "b", before)?;
        text.push_str("  hw.output\n}\n")?;
    }
    Ok(())
}

#[test]
fn registers_of_many_instances_are_counted_without_copies(rt: HostRuntime) -> Result<(), Fail> {
    let alloc = rt.alloc();
    let mut text = String::from_str(alloc, "")?;
    push_levels(&mut text, alloc)?;
    let run = run_on(&rt, "lec f.mlir -c1 M21 -c2 M21", text.as_str(), "")?;
    let refused = "f.mlir:105:1: error: 'hw.module' L4: too many gates\n";
    assert_eq!(rt; run.code, 1);
    assert!(rt; run.err.contents() == refused.as_bytes());
    Ok(())
}
