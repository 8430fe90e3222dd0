//! The printed text of small designs.
use generator::generate;
use mlir_printer::design_text::print_design;
use std::alloc::{AllocError, Global};
use std::test::Fail;

/// A generated design and its text.
struct Case {
    seed: u32,
    modules: u32,
    text: &'static str,
}

/// Designs of the seed 7, and one of the greatest seed, of which a constant is above the signed numbers. What is drawn was computed apart.
const CASES: [Case; 4] = [
    Case {
        seed: 7,
        modules: 1,
        text: "module {
  hw.module @M0(in %clk : !seq.clock, in %rst : i1, in %a : i16, in %b : i16, out c : i16) {
    %c15648_i16 = hw.constant 15648 : i16
    %0 = comb.mul %a, %b : i16
    %1 = comb.or %0, %c15648_i16 : i16
    %2 = comb.shl %1, %0 : i16
    %q = seq.compreg %2, %clk reset %rst, %c15648_i16 : i16
    %3 = comb.xor %q, %1 : i16
    hw.output %3 : i16
  }
}
",
    },
    Case {
        seed: 7,
        modules: 2,
        text: "module {
  hw.module private @M0(in %clk : !seq.clock, in %rst : i1, in %a : i16, in %b : i16, out c : i16) {
    %c15648_i16 = hw.constant 15648 : i16
    %0 = comb.mul %a, %b : i16
    %1 = comb.or %0, %c15648_i16 : i16
    %2 = comb.shl %1, %0 : i16
    %q = seq.compreg %2, %clk reset %rst, %c15648_i16 : i16
    %3 = comb.xor %q, %1 : i16
    hw.output %3 : i16
  }
  hw.module @M1(in %clk : !seq.clock, in %rst : i1, in %a : i16, in %b : i16, out c : i16) {
    %c3233_i16 = hw.constant 3233 : i16
    %0 = comb.or %a, %b : i16
    %1 = comb.sub %0, %c3233_i16 : i16
    %2 = comb.add %1, %0 : i16
    %q = seq.compreg %2, %clk reset %rst, %c3233_i16 : i16
    %u.c = hw.instance \"u\" @M0(clk: %clk: !seq.clock, rst: %rst: i1, a: %q: i16, b: %2: i16) -> (c: i16)
    %3 = comb.xor %u.c, %1 : i16
    hw.output %3 : i16
  }
}
",
    },
    Case {
        seed: 7,
        modules: 3,
        text: "module {
  hw.module private @M0(in %clk : !seq.clock, in %rst : i1, in %a : i16, in %b : i16, out c : i16) {
    %c15648_i16 = hw.constant 15648 : i16
    %0 = comb.mul %a, %b : i16
    %1 = comb.or %0, %c15648_i16 : i16
    %2 = comb.shl %1, %0 : i16
    %q = seq.compreg %2, %clk reset %rst, %c15648_i16 : i16
    %3 = comb.xor %q, %1 : i16
    hw.output %3 : i16
  }
  hw.module @M1(in %clk : !seq.clock, in %rst : i1, in %a : i16, in %b : i16, out c : i16) {
    %c3233_i16 = hw.constant 3233 : i16
    %0 = comb.or %a, %b : i16
    %1 = comb.sub %0, %c3233_i16 : i16
    %2 = comb.add %1, %0 : i16
    %q = seq.compreg %2, %clk reset %rst, %c3233_i16 : i16
    %u.c = hw.instance \"u\" @M0(clk: %clk: !seq.clock, rst: %rst: i1, a: %q: i16, b: %2: i16) -> (c: i16)
    %3 = comb.xor %u.c, %1 : i16
    hw.output %3 : i16
  }
  hw.module @M2(in %clk : !seq.clock, in %rst : i1, in %a : i16, in %b : i16, out c : i16) {
    %c4507_i16 = hw.constant 4507 : i16
    %0 = comb.and %a, %b : i16
    %1 = comb.sub %0, %c4507_i16 : i16
    %2 = comb.add %1, %0 : i16
    %q = seq.compreg %2, %clk reset %rst, %c4507_i16 : i16
    %u.c = hw.instance \"u\" @M0(clk: %clk: !seq.clock, rst: %rst: i1, a: %q: i16, b: %2: i16) -> (c: i16)
    %3 = comb.xor %u.c, %1 : i16
    hw.output %3 : i16
  }
}
",
    },
    Case {
        seed: 4294967295,
        modules: 2,
        text: "module {
  hw.module private @M0(in %clk : !seq.clock, in %rst : i1, in %a : i16, in %b : i16, out c : i16) {
    %c15445_i16 = hw.constant 15445 : i16
    %0 = comb.shrs %a, %b : i16
    %1 = comb.and %0, %c15445_i16 : i16
    %2 = comb.shrs %1, %0 : i16
    %q = seq.compreg %2, %clk reset %rst, %c15445_i16 : i16
    %3 = comb.xor %q, %1 : i16
    hw.output %3 : i16
  }
  hw.module @M1(in %clk : !seq.clock, in %rst : i1, in %a : i16, in %b : i16, out c : i16) {
    %c-18507_i16 = hw.constant -18507 : i16
    %0 = comb.or %a, %b : i16
    %1 = comb.xor %0, %c-18507_i16 : i16
    %2 = comb.add %1, %0 : i16
    %q = seq.compreg %2, %clk reset %rst, %c-18507_i16 : i16
    %u.c = hw.instance \"u\" @M0(clk: %clk: !seq.clock, rst: %rst: i1, a: %q: i16, b: %2: i16) -> (c: i16)
    %3 = comb.xor %u.c, %1 : i16
    hw.output %3 : i16
  }
}
",
    },
];

// Whether a design is printed as the case says.
fn is_printed(alloc: Global, case: &Case) -> Result<bool, AllocError> {
    if case.modules == 0 || case.modules > 10_000 {
        return Ok(false);
    }
    let verified = generate(alloc, case.seed, case.modules)?;
    let text = print_design(alloc, &verified)?;
    Ok(text.as_bytes() == case.text.as_bytes())
}

// The first case that is printed in another way.
fn first_other(alloc: Global, cases: &[Case]) -> Result<Option<usize>, AllocError> {
    for (at, case) in cases.iter().enumerate() {
        if !is_printed(alloc, case)? {
            return Ok(Some(at));
        }
    }
    Ok(None)
}

#[test]
fn small_designs_are_printed(rt: HostRuntime) -> Result<(), Fail> {
    assert_eq!(rt; first_other(rt.alloc(), &CASES)?, None);
    Ok(())
}
