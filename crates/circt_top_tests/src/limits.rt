//! The limits on the length of a text and on the size of a design, and texts that are cut.
use crate::runs::{ADDER, Failing, run_words};
use std::alloc::{AllocError, AllocGlobal, Global};
use std::test::Fail;
use std::thread::Threads;

// Modules of which each has two instances of the one before, up to the one of a number.
fn doubling_modules(alloc: Global, most: usize) -> Result<String, AllocError> {
    let mut text = String::from_str(
        alloc,
        "hw.module @M0(in %a : i1, out b : i1) {\n  hw.output %a : i1\n}\n",
    )?;
    for k in 0..most {
        let next = k + 1;
        let module = format!(in alloc;
            "hw.module @M{next}(in %a : i1, out b : i1) {{
  %u.b = hw.instance \"u\" @M{k}(a: %a: i1) -> (b: i1)
  %v.b = hw.instance \"v\" @M{k}(a: %u.b: i1) -> (b: i1)
  hw.output %v.b : i1
}}
"
        )?;
        text.push_str(module.as_str())?;
    }
    Ok(text)
}

// A module after the first 25 that has so many of them that it is 25 below the limit.
const FILLED: &str =
    "hw.module @T(in %a : i1, in %clk : !seq.clock, in %s : !hw.struct<x: i1, y: i1>) {
  %u0.b = hw.instance \"u\" @M24(a: %a: i1) -> (b: i1)
  %u1.b = hw.instance \"u\" @M21(a: %a: i1) -> (b: i1)
  %u2.b = hw.instance \"u\" @M18(a: %a: i1) -> (b: i1)
  %u3.b = hw.instance \"u\" @M15(a: %a: i1) -> (b: i1)
  %u4.b = hw.instance \"u\" @M12(a: %a: i1) -> (b: i1)
  %u5.b = hw.instance \"u\" @M9(a: %a: i1) -> (b: i1)
  %u6.b = hw.instance \"u\" @M6(a: %a: i1) -> (b: i1)
  %u7.b = hw.instance \"u\" @M3(a: %a: i1) -> (b: i1)
  %u8.b = hw.instance \"u\" @M1(a: %a: i1) -> (b: i1)
  %u9.b = hw.instance \"u\" @M1(a: %a: i1) -> (b: i1)
";

// Operations of a size of 25, of every kind.
const REST: [&str; 10] = [
    "  %r = seq.compreg.ce %a, %clk, %a reset %a, %a : i1
  %w = hw.wire %s : !hw.struct<x: i1, y: i1>
  %m = comb.mux %a, %s, %s : !hw.struct<x: i1, y: i1>
  %x = hw.struct_extract %s[\"x\"] : !hw.struct<x: i1, y: i1>
",
    "  %b = hw.bitcast %s : (!hw.struct<x: i1, y: i1>) -> i2
  %r = seq.firreg %a clock %clk : i1
  %w = hw.wire %a : i1
  %c = comb.icmp eq %a, %w : i1
  %m = comb.mux %a, %c, %w : i1
",
    "  %b = hw.bitcast %s : (!hw.struct<x: i1, y: i1>) -> !hw.array<2xi1>
  %n = hw.array_create %a, %a : i1
  %c = hw.array_concat %n, %b : !hw.array<2xi1>, !hw.array<2xi1>
  %k = hw.aggregate_constant [true, false] : !hw.array<2xi1>
",
    "  %k = hw.aggregate_constant [true, false] : !hw.array<2xi1>
  %g = hw.array_get %k[%a] : !hw.array<2xi1>, i1
  %n = hw.struct_create (%g, %a) : !hw.struct<x: i1, y: i1>
  %i = hw.struct_inject %n[\"x\"], %a : !hw.struct<x: i1, y: i1>
",
    "  %k = hw.aggregate_constant [true, false] : !hw.array<2xi1>
  %i = hw.array_inject %k[%a], %p : !hw.array<2xi1>, i1
  %e:2 = hw.struct_explode %s : !hw.struct<x: i1, y: i1>
  %p = comb.parity %a : i1
  %c = comb.concat %e#0, %e#1 : i1, i1
",
    "  %k = hw.aggregate_constant [true, false] : !hw.array<2xi1>
  %l = hw.array_slice %k[%a] : (!hw.array<2xi1>) -> !hw.array<1xi1>
  %t = hw.constant true
  %n = comb.replicate %t : (i1) -> i3
  %o = comb.or %n, %n : i3
",
    "  %r = seq.compreg %a, %clk reset %a, %a : i1
  %e = seq.compreg.ce %a, %clk, %a : i1
  %f = seq.firreg %a clock %clk reset sync %a, %e : i1
  %m = comb.mux %r, %e, %f : i1
",
    "  %r = seq.compreg.ce %s, %clk, %a : !hw.struct<x: i1, y: i1>
  %w = hw.wire %r : !hw.struct<x: i1, y: i1>
  %f = seq.firreg %w clock %clk : !hw.struct<x: i1, y: i1>
  %t = hw.constant true
",
    "  %t = hw.constant true
  %r = seq.firreg %a clock %clk reset async %a, %t : i1
  %f = seq.firreg %r clock %clk reset async %a, %t : i1
  %e = seq.compreg.ce %f, %clk, %r : i1
  %g = seq.firreg %e clock %clk : i1
",
    "  %d = comb.divu %t, %t : i1
  %t = hw.constant true
  %l = comb.shl %d, %a : i1
  %c = comb.sub %l, %a : i1
  %x = comb.extract %c from 0 : (i1) -> i1
  %v = comb.add %x, %x, %x, %x, %x, %x, %x : i1
  %p = comb.mul %v, %v, %v, %v : i1
",
];

// Whether `opt` ends with a status and an error message on a text.
fn ends_with(
    rt: &(impl Threads + Sync + AllocGlobal),
    text: &str,
    code: u8,
    message: &str,
) -> Result<bool, AllocError> {
    let run = run_words(rt, "opt", text, Failing::No)?;
    Ok(
        run.code == code
            && run.err.contents() == message.as_bytes()
            && run.out.contents().is_empty() == (code != 0),
    )
}

/// The error message on a module at line 124 that is too large.
const TOO_LARGE: &str = "<stdin>:124:1: error: 'hw.module' V22: design too large\n";

/// How a module ends, and what the program says of it.
struct End {
    text: &'static str,
    code: u8,
    message: &'static str,
}

// A module at the limit is accepted; with one constant more it is not.
const ENDS: [End; 2] = [
    End {
        text: "}\n",
        code: 0,
        message: "",
    },
    End {
        text: "  %z = hw.constant true\n}\n",
        code: 1,
        message: TOO_LARGE,
    },
];

// Whether it is said of modules and one more with these operations and this end.
fn is_told(
    rt: &(impl Threads + Sync + AllocGlobal),
    modules: &str,
    rest: &str,
    end: &End,
) -> Result<bool, AllocError> {
    let mut text = String::new(rt.alloc());
    text.push_str(modules)?;
    text.push_str(FILLED)?;
    text.push_str(rest)?;
    text.push_str(end.text)?;
    ends_with(rt, text.as_str(), end.code, end.message)
}

#[test]
fn sizes_are_told_exactly(rt: HostRuntime) -> Result<(), Fail> {
    let modules = doubling_modules(rt.alloc(), 24)?;
    for rest in REST {
        for end in &ENDS {
            assert!(rt; is_told(&rt, modules.as_str(), rest, end)?, "of {rest}");
        }
    }
    Ok(())
}

/// Commands on a text with a module that has two instances of the one before, thirty times; the 26th is the first that is too large.
const COMMANDS: [&str; 6] = [
    "opt",
    "opt --split-input-file",
    "opt --hw-flatten-modules",
    "translate --export-verilog",
    "translate --export-aiger",
    "lec - -c1 M30 -c2 M30",
];

#[test]
fn a_design_that_is_too_large_is_refused_by_all(rt: HostRuntime) -> Result<(), Fail> {
    let modules = doubling_modules(rt.alloc(), 30)?;
    for line in COMMANDS {
        let run = run_words(&rt, line, modules.as_str(), Failing::No)?;
        assert!(rt; run.is(1, "", TOO_LARGE), "by {line}");
    }
    Ok(())
}

// A text one byte longer than a text may be is refused without reading more.
#[test]
fn a_text_that_is_too_long_is_refused(rt: HostRuntime) -> Result<(), Fail> {
    let bytes = vec![in rt.alloc(); b' '; (1usize << 26) + 1]?;
    let text = str::from_utf8(bytes.as_slice())?;
    let message = "<stdin>:1:1: error: 'builtin.module' S7: text too long\n";
    assert!(rt; ends_with(&rt, text, 1, message)?);
    let import = run_words(&rt, "translate --import-aiger", text, Failing::No)?;
    assert!(rt; import.is(1, "", "<stdin>:1:1: error: 'aiger' S7: text too long\n"));
    Ok(())
}

// The first characters of the adder's text.
fn cut_text(alloc: Global, end: usize) -> Result<String, AllocError> {
    let mut text = String::new(alloc);
    for c in ADDER.chars().take(end) {
        text.push(c)?;
    }
    Ok(text)
}

// Whether the adder's text is refused after so many characters where it is no module.
fn is_cut_told(rt: &(impl Threads + Sync + AllocGlobal), end: usize) -> Result<bool, AllocError> {
    let is_whole = end == 0 || end >= 103;
    let text = cut_text(rt.alloc(), end)?;
    let run = run_words(rt, "opt", text.as_str(), Failing::No)?;
    Ok(
        run.code == u8::from(!is_whole)
            && run.out.contents().is_empty() == !is_whole
            && run.err.contents().is_empty() == is_whole,
    )
}

// The adder's text is accepted whole, without its last line end, and when nothing of it is there.
#[test]
fn a_text_that_is_cut_is_refused(rt: HostRuntime) -> Result<(), Fail> {
    assert_eq!(rt; ADDER.len(), 104);
    for end in 0..105 {
        assert!(rt; is_cut_told(&rt, end)?, "after {end}");
    }
    Ok(())
}
