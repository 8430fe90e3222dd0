//! Worked examples of verdicts.
use crate::runs::{Row, first_other};
use std::test::Fail;

/// Modules of which some agree.
pub(crate) const WORDS: &str = "
hw.module @p(in %a : i16, in %b : i16, in %c : i16, out o : i16) {
  %0 = comb.and %a, %b : i16
  %1 = comb.and %a, %c : i16
  %2 = comb.or %0, %1 : i16
  hw.output %2 : i16
}
hw.module @q(in %a : i16, in %b : i16, in %c : i16, out o : i16) {
  %0 = comb.or %b, %c : i16
  %1 = comb.and %a, %0 : i16
  hw.output %1 : i16
}
hw.module @w(in %a : i16, in %b : i16, in %c : i16, out o : i16) {
  %0 = comb.or %b, %c : i16
  %1 = comb.or %a, %0 : i16
  hw.output %1 : i16
}
hw.module @r(in %a : i8, out o : i1) {
  %c5_i8 = hw.constant 5 : i8
  %0 = comb.icmp eq %a, %c5_i8 : i8
  hw.output %0 : i1
}
hw.module @s(in %a : i8, out o : i1) {
  %false = hw.constant false
  hw.output %false : i1
}
hw.module @x(in %a : i24, in %b : i24, in %c : i24, out o : i24) {
  %0 = comb.mul %a, %b : i24
  %1 = comb.mul %0, %c : i24
  hw.output %1 : i24
}
hw.module @y(in %a : i24, in %b : i24, in %c : i24, out o : i24) {
  %0 = comb.mul %b, %c : i24
  %1 = comb.mul %a, %0 : i24
  hw.output %1 : i24
}
hw.module @none() {
}
hw.module @nothing() {
  hw.output
}
";

const ROWS: [Row; 7] = [
    Row {
        line: "lec f.mlir -c1 p -c2 q",
        first: WORDS,
        second: WORDS,
        code: 0,
        out: "c1 == c2\n",
        err: "",
    },
    Row {
        line: "lec f.mlir g.mlir --c1=p --c2=q",
        first: WORDS,
        second: WORDS,
        code: 0,
        out: "c1 == c2\n",
        err: "",
    },
    Row {
        line: "lec - -c1 q -c2 p",
        first: WORDS,
        second: WORDS,
        code: 0,
        out: "c1 == c2\n",
        err: "",
    },
    // there is one difference alone
    Row {
        line: "lec f.mlir -c1 r -c2 s",
        first: WORDS,
        second: WORDS,
        code: 3,
        out: "c1 != c2\na = 8'h5\n",
        err: "",
    },
    Row {
        line: "lec f.mlir -c1 s -c2 r",
        first: WORDS,
        second: WORDS,
        code: 3,
        out: "c1 != c2\na = 8'h5\n",
        err: "",
    },
    // products in another order want more than ten clauses
    Row {
        line: "lec f.mlir -c1 x -c2 y --conflict-limit 10",
        first: WORDS,
        second: WORDS,
        code: 4,
        out: "unknown\n",
        err: "",
    },
    // modules without outputs agree
    Row {
        line: "lec f.mlir -c1 none -c2 nothing",
        first: WORDS,
        second: WORDS,
        code: 0,
        out: "c1 == c2\n",
        err: "",
    },
];

#[test]
fn verdicts_are_those_of_the_examples(rt: HostRuntime) -> Result<(), Fail> {
    assert_eq!(rt; first_other(&rt, &ROWS)?, None);
    Ok(())
}
