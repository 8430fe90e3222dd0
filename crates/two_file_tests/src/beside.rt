//! Small modules beside large ones that they do not instance.
use crate::runs::run_on;
use std::alloc::{AllocError, Global};
use std::test::Fail;

const SMALL: &str = "hw.module @p(in %a : i8, in %b : i8, out o : i8) {
  %0 = comb.xor %a, %b : i8
  hw.output %0 : i8
}
hw.module @q(in %a : i8, in %b : i8, out o : i8) {
  %0 = comb.xor %b, %a : i8
  hw.output %0 : i8
}
hw.module @M0(in %a : i1, out b : i1) {
  %0 = comb.xor %a, %a : i1
  hw.output %0 : i1
}
";

/// How many modules have two instances of the one before. Flat, the last one would have 2^23 operations.
const LEVELS: u32 = 23;

// The small modules, and the large ones.
fn all_modules(alloc: Global) -> Result<String, AllocError> {
    let mut text = String::from_str(alloc, SMALL)?;
    for before in 0..LEVELS {
        let number = before + 1;
        let module = format!(in alloc;
            "hw.module @M{number}(in %a : i1, out b : i1) {{
  %u.b = hw.instance \"u\" @M{before}(a: %a: i1) -> (b: i1)
  %v.b = hw.instance \"v\" @M{before}(a: %u.b: i1) -> (b: i1)
  hw.output %v.b : i1
}}
"
        )?;
        text.push_str(module.as_str())?;
    }
    Ok(text)
}

#[test]
fn modules_beside_those_compared_are_not_flattened(rt: HostRuntime) -> Result<(), Fail> {
    let text = all_modules(rt.alloc())?;
    let run = run_on(&rt, "lec f.mlir -c1 p -c2 q", text.as_str(), "")?;
    assert!(rt; run.is(0, "c1 == c2\n", ""));
    Ok(())
}
