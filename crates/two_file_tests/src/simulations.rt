//! Runs of modules by `sim`, and what it refuses.
use crate::register_pairs::TWO_REGISTERS;
use crate::runs::run_on;
use std::alloc::{AllocError, AllocGlobal};
use std::test::Fail;
use std::thread::Threads;

// The content of two registers, and four steps: both load, neither is enabled, both are reset, the clock stays.
const STEPS: &str = "state 8'h5 8'h6
1'h1 1'h0 1'h1 8'h11
1'h1 1'h0 1'h0 8'h22
1'h1 1'h1 1'h0 8'h33
1'h0 1'h1 1'h1 8'h44
";

const LINES: &str = "8'h5 8'h6
8'h11 8'h5
8'h11 8'h5
8'h9 8'h9
";

// Modules without a register, without an input, and without an output.
const SMALL: &str =
    "hw.module @sum(in %a : i8, in %s : !hw.struct<x: i4, y: i4>, out o : !hw.array<2xi8>, out p : i4) {
  %x = hw.struct_extract %s[\"x\"] : !hw.struct<x: i4, y: i4>
  %0 = comb.add %a, %a : i8
  %1 = hw.array_create %0, %a : i8
  hw.output %1, %x : !hw.array<2xi8>, i4
}
hw.module @five(out o : i8) {
  %c5_i8 = hw.constant 5 : i8
  hw.output %c5_i8 : i8
}
hw.module @sink(in %a : i8) {
}
";

const REFUSED: &str = "foo";

// The words of a run, the texts of `f.mlir` and of `g.mlir`, the exit status, and what is on the output, or of a refusal on the error output.
type Case = (&'static str, &'static str, &'static str, u8, &'static str);

const CASES: [Case; 19] = [
    (
        "sim f.mlir g.mlir --top Two",
        TWO_REGISTERS,
        STEPS,
        0,
        LINES,
    ),
    ("sim - g.mlir -top=Two", TWO_REGISTERS, STEPS, 0, LINES),
    // a content alone has no step
    (
        "sim f.mlir g.mlir --top Two",
        TWO_REGISTERS,
        "state 8'h5 8'h6",
        0,
        "",
    ),
    // a private module runs too
    (
        "sim f.mlir g.mlir --top Reg",
        TWO_REGISTERS,
        "state 8'h5\n\n1'h1 1'h0 1'h1 8'hfF\n 1'h0\t1'h0 1'h0 8'h0\r\n",
        0,
        "8'h5\n8'hFF\n",
    ),
    // without registers; leaves of arrays from the highest element on, of structs from the first field on
    (
        "sim f.mlir g.mlir --top sum",
        SMALL,
        "state\n8'h81 4'h3 4'h7\n8'h1 4'hF 4'h0\n",
        0,
        "8'h2 8'h81 4'h3\n8'h2 8'h1 4'hF\n",
    ),
    // a module without inputs has no steps, one without outputs has empty lines
    ("sim f.mlir g.mlir --top five", SMALL, "state\n\n", 0, ""),
    (
        "sim f.mlir g.mlir --top sink",
        SMALL,
        "state\n8'h1\n8'h2\n",
        0,
        "\n\n",
    ),
    // the design is refused first, then the module, then the first line
    (
        "sim f.mlir g.mlir --top no",
        REFUSED,
        "",
        1,
        "f.mlir:1:1: error: 'foo' S3: unknown operation\n",
    ),
    (
        "sim f.mlir g.mlir --top no",
        TWO_REGISTERS,
        "",
        1,
        "f.mlir:1:1: error: 'builtin.module' L1: no such module\n",
    ),
    (
        "sim - g.mlir --top=",
        TWO_REGISTERS,
        STEPS,
        1,
        "<stdin>:1:1: error: 'builtin.module' L1: no such module\n",
    ),
    (
        "sim f.mlir g.mlir --top Two",
        TWO_REGISTERS,
        "state 8'h5",
        1,
        "g.mlir:1:1: error: 'sim' M2: wrong number of literals\n",
    ),
    (
        "sim f.mlir g.mlir --top Two",
        TWO_REGISTERS,
        "",
        1,
        "g.mlir:1:1: error: 'sim' M1: bad line\n",
    ),
    (
        "sim f.mlir g.mlir --top Two",
        TWO_REGISTERS,
        "\n\n",
        1,
        "g.mlir:3:1: error: 'sim' M1: bad line\n",
    ),
    (
        "sim f.mlir g.mlir --top Two",
        TWO_REGISTERS,
        "1'h1 1'h0 1'h1 8'h11\n",
        1,
        "g.mlir:1:1: error: 'sim' M1: bad line\n",
    ),
    (
        "sim f.mlir g.mlir --top Two",
        TWO_REGISTERS,
        "state 8'h5 8'h100\n",
        1,
        "g.mlir:1:1: error: 'sim' M1: bad line\n",
    ),
    (
        "sim f.mlir g.mlir --top Two",
        TWO_REGISTERS,
        "state 8'h5 9'h1FF\n",
        1,
        "g.mlir:1:1: error: 'sim' M3: wrong width\n",
    ),
    (
        "sim f.mlir g.mlir --top Two",
        TWO_REGISTERS,
        "state 8'h5 8'h6\n1'h1 1'h0 1'h1 8'h11\n1'h1 1'h0 1'h1 8'hfg\n",
        1,
        "g.mlir:3:1: error: 'sim' M1: bad line\n",
    ),
    (
        "sim f.mlir g.mlir --top Two",
        TWO_REGISTERS,
        "state 8'h5 8'h6\n1'h1 1'h0 1'h1\n1'h1 1'h0 1'h1 8'hfg\n",
        1,
        "g.mlir:2:1: error: 'sim' M2: wrong number of literals\n",
    ),
    (
        "sim f.mlir - --top Two",
        TWO_REGISTERS,
        "",
        1,
        "<stdin>:1:1: error: 'sim' M1: bad line\n",
    ),
];

// Whether a run ends as its case says.
fn is_case(rt: &(impl Threads + Sync + AllocGlobal), case: &Case) -> Result<bool, AllocError> {
    let (line, first, second, code, text) = *case;
    let (out, err) = if code == 0 { (text, "") } else { ("", text) };
    Ok(run_on(rt, line, first, second)?.is(code, out, err))
}

// The number of the first case whose run ends in another way.
fn first_other_case(rt: &(impl Threads + Sync + AllocGlobal)) -> Result<Option<usize>, AllocError> {
    for number in 0..CASES.len() {
        if !is_case(rt, &CASES[number])? {
            return Ok(Some(number));
        }
    }
    Ok(None)
}

#[test]
fn runs_are_printed_or_refused(rt: HostRuntime) -> Result<(), Fail> {
    assert_eq!(rt; first_other_case(&rt)?, None);
    Ok(())
}

// A step file one byte longer than a text may be is refused without a look at its lines.
#[test]
fn a_step_file_that_is_too_long_is_refused(rt: HostRuntime) -> Result<(), Fail> {
    let text = vec![in rt.alloc(); b' '; (1usize << 26) + 1]?;
    let steps = str::from_utf8(text.as_slice())?;
    let run = run_on(&rt, "sim f.mlir g.mlir --top Two", TWO_REGISTERS, steps)?;
    assert!(rt; run.is(1, "", "g.mlir:1:1: error: 'sim' S7: text too long\n"));
    Ok(())
}
