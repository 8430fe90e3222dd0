//! The printed designs of small texts.
use aiger_text::import_text::import_aiger;
use mlir_printer::design_text::print_design;
use std::alloc::{AllocError, Global};
use std::test::Fail;

/// A text and what is printed of its design, or nothing where the text is refused.
struct Case {
    text: &'static str,
    printed: &'static str,
}

/// A register; a gate of a negated input and of constants, twice the same output negated; a text that is refused.
const CASES: [Case; 3] = [
    Case {
        text: "aag 2 1 1 1 0\n2\n4 2 4\n4\n",
        printed: "module {
  hw.module @aiger(in %clock : !seq.clock, in %i0 : i1, out o0 : i1) {
    %l0 = seq.compreg %i0, %clock : i1
    hw.output %l0 : i1
  }
}
",
    },
    Case {
        text: "aag 3 1 0 3 2\n2\n7\n7\n1\n4 3 1\n6 4 0\n",
        printed: "module {
  hw.module @aiger(in %i0 : i1, out o0 : i1, out o1 : i1, out o2 : i1) {
    %true = hw.constant true
    %false = hw.constant false
    %0 = comb.xor %i0, %true : i1
    %1 = comb.and %0, %true : i1
    %2 = comb.and %1, %false : i1
    %3 = comb.xor %2, %true : i1
    %4 = comb.xor %2, %true : i1
    hw.output %3, %4, %true : i1, i1, i1
  }
}
",
    },
    Case {
        text: "aag 1 0 0 1 1\n2\n2 2 2\n",
        printed: "",
    },
];

// Whether the design of the text is printed so.
fn is_printed(alloc: Global, case: &Case) -> Result<bool, AllocError> {
    match import_aiger(alloc, case.text.as_bytes()) {
        Ok(verified) => {
            let text = print_design(alloc, &verified)?;
            Ok(text.as_bytes() == case.printed.as_bytes())
        }
        Err(_) => Ok(case.printed.is_empty()),
    }
}

#[test]
fn designs_are_printed(rt: HostRuntime) -> Result<(), Fail> {
    for case in &CASES {
        assert!(rt; is_printed(rt.alloc(), case)?);
    }
    Ok(())
}
