//! Texts in the AIGER format that are made of designs, and of which designs are made.

// The design of a latch that takes an input.
pub(crate) const LATCH_PRINTED: &str = "module {
  hw.module @aiger(in %clock : !seq.clock, in %i0 : i1, out o0 : i1) {
    %l0 = seq.compreg %i0, %clock : i1
    hw.output %l0 : i1
  }
}
";

// A gate, with names of its bits.
pub(crate) const GATE: &str = "aag 3 2 0 1 1
2
4
6
6 4 2
i0 a[0]
i1 b[0]
o0 c[0]
";

// The text of a register that takes an input.
pub(crate) const REGISTER_TEXT: &str = "aag 2 1 1 1 0
2
4 2 4
4
i0 d[0]
l0 r[0]
o0 q[0]
";
