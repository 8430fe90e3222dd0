//! The texts of designs.
use crate::designs::exported;
use std::alloc::Global;
use std::test::Fail;

/// A design and its text.
struct Case {
    name: &'static str,
    design: &'static [u8],
    text: &'static [u8],
}

const CASES: [Case; 10] = [
    Case {
        name: "a conjunction",
        design: b"
hw.module @And(in %a : i1, in %b : i1, out c : i1) {
  %0 = comb.and %a, %b : i1
  hw.output %0 : i1
}
",
        text: b"aag 3 2 0 1 1\n2\n4\n6\n6 4 2\ni0 a[0]\ni1 b[0]\no0 c[0]\n",
    },
    // a latch may begin with either bit: its third field is itself
    Case {
        name: "a register",
        design: b"
hw.module @Held(in %d : i1, in %clk : !seq.clock, out q : i1) {
  %r = seq.compreg %d, %clk : i1
  hw.output %r : i1
}
",
        text: b"aag 2 1 1 1 0\n2\n4 2 4\n4\ni0 d[0]\nl0 r[0]\no0 q[0]\n",
    },
    // one clock for both registers; the bit that stands first has the greatest number
    Case {
        name: "registers in instances",
        design: b"
hw.module @Outer(in %clk : !seq.clock, in %d : i2, out q : i2) {
  %u.q = hw.instance \"u\" @Inner(c: %clk: !seq.clock, d: %d: i2) -> (q: i2)
  %v.q = hw.instance \"v\" @Inner(c: %clk: !seq.clock, d: %u.q: i2) -> (q: i2)
  hw.output %v.q : i2
}
hw.module private @Inner(in %c : !seq.clock, in %d : i2, out q : i2) {
  %r = seq.compreg %d, %c : i2
  hw.output %r : i2
}
",
        text: b"aag 6 2 4 2 0\n2\n4\n6 2 6\n8 4 8\n10 6 10\n12 8 12\n10\n12\ni0 d[1]\ni1 d[0]\nl0 u_r[1]\nl1 u_r[0]\nl2 v_r[1]\nl3 v_r[0]\no0 q[1]\no1 q[0]\n",
    },
    Case {
        name: "an enable",
        design: b"
hw.module @Kept(in %clk : !seq.clock, in %d : i1, in %en : i1, out q : i1) {
  %r = seq.compreg.ce %d, %clk, %en : i1
  hw.output %r : i1
}
",
        text: b"aag 6 2 1 1 3\n2\n4\n6 13 6\n6\n8 4 2\n10 6 5\n12 11 9\ni0 d[0]\ni1 en[0]\nl0 r[0]\no0 q[0]\n",
    },
    Case {
        name: "a clock that clocks nothing",
        design: b"
hw.module @Spare(in %c : !seq.clock, in %e : !seq.clock, in %d : i1, out p : i1) {
  %r = seq.compreg %d, %e : i1
  hw.output %r : i1
}
",
        text: b"aag 2 1 1 1 0\n2\n4 2 4\n4\ni0 d[0]\nl0 r[0]\no0 p[0]\n",
    },
    Case {
        name: "constants",
        design: b"
hw.module @Given(out k : i1, out z : i1) {
  %false = hw.constant false
  %true = hw.constant true
  hw.output %true, %false : i1, i1
}
",
        text: b"aag 0 0 0 2 0\n1\n0\no0 k[0]\no1 z[0]\n",
    },
    // a word of Verilog, a byte that no name has, a name that is taken, no name
    Case {
        name: "names",
        design: b"
hw.module @Names(in %wire : i1, in %clk : !seq.clock, in %a.b : i1, in %a_b : i1, out o : i1) {
  %0 = seq.compreg %wire, %clk : i1
  %o = seq.compreg %a.b, %clk : i1
  %1 = comb.and %0, %a_b : i1
  hw.output %1 : i1
}
",
        text: b"aag 6 3 2 1 1\n2\n4\n6\n8 2 8\n10 4 10\n12\n12 8 6\ni0 wire_0[0]\ni1 a_b[0]\ni2 a_b_0[0]\nl0 _reg[0]\nl1 o_0[0]\no0 o[0]\n",
    },
    // leaves of an array from the highest index on, of a struct from its first field on
    Case {
        name: "aggregates",
        design: b"
hw.module @Parts(in %s : !hw.struct<x: i2, y: i1>, in %clk : !seq.clock, out a : !hw.array<2xi1>) {
  %x = hw.struct_extract %s[\"x\"] : !hw.struct<x: i2, y: i1>
  %0 = comb.extract %x from 0 : (i2) -> i1
  %y = hw.struct_extract %s[\"y\"] : !hw.struct<x: i2, y: i1>
  %1 = hw.array_create %0, %y : i1
  %r = seq.compreg %1, %clk : !hw.array<2xi1>
  hw.output %r : !hw.array<2xi1>
}
",
        text: b"aag 5 3 2 2 0\n2\n4\n6\n8 4 8\n10 6 10\n8\n10\ni0 s_x[1]\ni1 s_x[0]\ni2 s_y[0]\nl0 r_1[0]\nl1 r_0[0]\no0 a_1[0]\no1 a_0[0]\n",
    },
    Case {
        name: "nothing",
        design: b"
hw.module private @Other(in %c : !seq.clock) {
  hw.output
}
hw.module @Nothing() {
  hw.output
}
",
        text: b"aag 0 0 0 0 0\n",
    },
    Case {
        name: "a number of two digits",
        design: b"
hw.module @Wide(in %d : i11, out q : i1) {
  %0 = comb.extract %d from 10 : (i11) -> i1
  hw.output %0 : i1
}
",
        text: b"aag 11 11 0 1 0\n2\n4\n6\n8\n10\n12\n14\n16\n18\n20\n22\n2\ni0 d[10]\ni1 d[9]\ni2 d[8]\ni3 d[7]\ni4 d[6]\ni5 d[5]\ni6 d[4]\ni7 d[3]\ni8 d[2]\ni9 d[1]\ni10 d[0]\no0 q[0]\n",
    },
];

/// Whether a case has its text.
fn holds(alloc: Global, case: &Case) -> bool {
    match exported(alloc, case.design) {
        Some(Ok(text)) => text.as_bytes() == case.text,
        _ => false,
    }
}

/// The name of the first case that has another one.
fn first_other(alloc: Global) -> Option<&'static str> {
    for case in &CASES {
        if !holds(alloc, case) {
            return Some(case.name);
        }
    }
    None
}

#[test]
fn designs_have_texts(rt: HostRuntime) -> Result<(), Fail> {
    assert_eq!(rt; first_other(rt.alloc()), None);
    Ok(())
}
