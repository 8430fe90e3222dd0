//! A module of instances against a flat one.
use crate::runs::{Row, first_other};
use std::test::Fail;

// A module that instances another one twice, which is private in one file and public in the other.
const NESTED: &str = "
hw.module private @half(in %a : i8, in %b : i8, out s : i8, out c : i8) {
  %0 = comb.xor %a, %b : i8
  %1 = comb.and %a, %b : i8
  hw.output %0, %1 : i8, i8
}
hw.module @t(in %a : i8, in %b : i8, in %d : i8, out s : i8, out c : i8) {
  %x.s, %x.c = hw.instance \"x\" @half(a: %a: i8, b: %b: i8) -> (s: i8, c: i8)
  %y.s, %y.c = hw.instance \"y\" @half(a: %x.s: i8, b: %d: i8) -> (s: i8, c: i8)
  %0 = comb.or %x.c, %y.c : i8
  hw.output %y.s, %0 : i8, i8
}
";

const FLAT: &str = "
hw.module @t(in %a : i8, in %b : i8, in %d : i8, out s : i8, out c : i8) {
  %0 = comb.xor %a, %b, %d : i8
  %1 = comb.and %a, %b : i8
  %2 = comb.and %a, %d : i8
  %3 = comb.and %b, %d : i8
  %4 = comb.or %1, %2, %3 : i8
  hw.output %0, %4 : i8, i8
}
";

const ROWS: [Row; 1] = [Row {
    line: "lec f.mlir g.mlir -c1 t -c2 t",
    first: NESTED,
    second: FLAT,
    code: 0,
    out: "c1 == c2\n",
    err: "",
}];

#[test]
fn instances_are_parts(rt: HostRuntime) -> Result<(), Fail> {
    assert_eq!(rt; first_other(&rt, &ROWS)?, None);
    Ok(())
}
