//! Modules with registers.
use crate::runs::{Row, first_other, run_on};
use std::test::Fail;

// Two instances of a register.
pub(crate) const TWO_REGISTERS: &str =
    "hw.module private @Reg(in %clk : !seq.clock, in %rst : i1, in %en : i1, in %d : i8, out q : i8) {
  %z = hw.constant 9 : i8
  %r = seq.compreg.ce %d, %clk, %en reset %rst, %z : i8
  hw.output %r : i8
}
hw.module @Two(in %clk : !seq.clock, in %rst : i1, in %en : i1, in %d : i8, out a : i8, out b : i8) {
  %u1.q = hw.instance \"u1\" @Reg(clk: %clk: !seq.clock, rst: %rst: i1, en: %en: i1, d: %d: i8) -> (q: i8)
  %u2.q = hw.instance \"u2\" @Reg(clk: %clk: !seq.clock, rst: %rst: i1, en: %en: i1, d: %u1.q: i8) -> (q: i8)
  hw.output %u1.q, %u2.q : i8, i8
}
";

// That with the register in the place of its instances.
const TWO_FLAT: &str = "module {
  hw.module @Two(in %clk : !seq.clock, in %rst : i1, in %en : i1, in %d : i8, out a : i8, out b : i8) {
    %c9_i8 = hw.constant 9 : i8
    %u1_r = seq.compreg.ce %d, %clk, %en reset %rst, %c9_i8 : i8
    %c9_i8_0 = hw.constant 9 : i8
    %u2_r = seq.compreg.ce %u1_r, %clk, %en reset %rst, %c9_i8_0 : i8
    hw.output %u1_r, %u2_r : i8, i8
  }
}
";

// The two registers with another reset value.
const EIGHT: &str =
    "hw.module private @Reg(in %clk : !seq.clock, in %rst : i1, in %en : i1, in %d : i8, out q : i8) {
  %z = hw.constant 8 : i8
  %r = seq.compreg.ce %d, %clk, %en reset %rst, %z : i8
  hw.output %r : i8
}
hw.module @Two(in %clk : !seq.clock, in %rst : i1, in %en : i1, in %d : i8, out a : i8, out b : i8) {
  %u1.q = hw.instance \"u1\" @Reg(clk: %clk: !seq.clock, rst: %rst: i1, en: %en: i1, d: %d: i8) -> (q: i8)
  %u2.q = hw.instance \"u2\" @Reg(clk: %clk: !seq.clock, rst: %rst: i1, en: %en: i1, d: %u1.q: i8) -> (q: i8)
  hw.output %u1.q, %u2.q : i8, i8
}
";

const ROWS: [Row; 2] = [
    Row {
        line: "lec f.mlir g.mlir -c1 Two -c2 Two",
        first: TWO_REGISTERS,
        second: TWO_FLAT,
        code: 0,
        out: "c1 == c2\n",
        err: "",
    },
    Row {
        line: "lec f.mlir -c1 Two -c2 Reg",
        first: TWO_REGISTERS,
        second: "",
        code: 1,
        out: "",
        err: "f.mlir:1:1: error: 'hw.module' L2: ports differ\n",
    },
];

#[test]
fn flat_modules_are_the_same(rt: HostRuntime) -> Result<(), Fail> {
    assert_eq!(rt; first_other(&rt, &ROWS)?, None);
    Ok(())
}

// What is printed first of the two registers and those with another reset value, which differ where both reset.
const PREFIX: &str = "c1 != c2\nclk = 1'h1\nrst = 1'h1\n";

// The names that are printed below the verdict.
const NAMES: [&str; 6] = ["clk", "rst", "en", "d", "u1_r", "u2_r"];

// The name before a line's `=`.
fn name_in(line: &str) -> &str {
    match line.split_once(" = ") {
        Some((name, _)) => name,
        None => "",
    }
}

// Whether the lines below the first name these, in order.
fn are_named(text: &str, names: &[&str]) -> bool {
    let mut same = text.lines().count() == names.len().saturating_add(1);
    for (line, name) in text.lines().skip(1).zip(names) {
        same &= name_in(line) == *name;
    }
    same
}

#[test]
fn next_contents_are_compared(rt: HostRuntime) -> Result<(), Fail> {
    let line = "lec f.mlir g.mlir -c1 Two -c2 Two";
    let run = run_on(&rt, line, TWO_REGISTERS, EIGHT)?;
    let text = str::from_utf8(run.out.contents())?;
    let is_so = run.code == 3 && text.starts_with(PREFIX) && are_named(text, &NAMES);
    assert!(rt; is_so);
    Ok(())
}
