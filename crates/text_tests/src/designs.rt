//! Texts that are read: how many modules and operations they give.
use mlir_reader::read::read_design;
use std::alloc::Global;
use std::test::Fail;

// every form of an operation, with what stands around operations
const FORMS: &str = "// a file
module @file attributes {a = 1} {
  hw.module private @Forms(in %a : i8, in %b \"b b\" : i8, in %c : i1, in %clk : !seq.clock,
      in %s : !hw.struct<x: i8, \"y y\": !hw.array<2xi4>>, in %v : !hw.array<3 x i8>, out \"o o\" : i8) attributes {m} {
    %0 = comb.add %a, %b, %a {sv.namehint = \"sum\"} : i08
    %1 = comb.mul bin %a, %b : i8
    %2 = comb.and %a : i8
    %3 = comb.or %a, %b : i8
    %4 = comb.xor %a, %later : i8
    %later = comb.sub %a, %b : i8 {k = [1 : i4, \"t\", @sym, true, [-2]], u}
    %k = hw.constant 0xF : i8
    %5 = comb.divu %a, %k : i8
    %6 = comb.modu %a, %k : i8
    %7 = comb.divs %a, %k : i8
    %8 = comb.mods %a, %k : i8
    %9 = comb.shl %a, %b : i8
    %10 = comb.shru %a, %b : i8
    %11 = comb.shrs %a, %b : i8
    %12 = comb.icmp bin slt %a, %b : i8
    %13 = comb.parity %a : i8
    %14 = comb.extract %a from 1 : (i8) -> i4
    %15 = comb.concat %a, %c : i8, i1
    %16 = comb.replicate %c : (i1) -> i8
    %17 = comb.mux %c, %a, %b : i8
    %18 = hw.constant true {e}
    %19 = hw.constant - 1 : i1
    %20 = hw.aggregate_constant [5 : i8, -1 : i8] : !hw.array<2xi8>
    %21 = hw.array_create %a, %b : i8
    %22 = hw.array_concat %v, %v : !hw.array<3xi8>, !hw.array<3xi8>
    %23 = hw.array_get %v[%i] : !hw.array<3xi8>, i2
    %24 = hw.array_slice %v[%i] : (!hw.array<3xi8>) -> !hw.array<2xi8>
    %25 = hw.array_inject %v[%i], %a : !hw.array<3xi8>, i2
    %26 = hw.struct_create (%a) : !hw.struct<x: i8>
    %27 = hw.struct_extract %s[\"x\"] : !hw.struct<x: i8, \"y y\": !hw.array<2xi4>>
    %28 = hw.struct_inject %s[\"x\"], %a : !hw.struct<x: i8, \"y y\": !hw.array<2xi4>>
    %29:2 = hw.struct_explode %s : !hw.struct<x: i8, \"y y\": !hw.array<2xi4>>
    %i = hw.bitcast %c : (i1) -> i1
    %w = hw.wire %29#0 {name = \"w w\"} : i8
    %p, %q = hw.instance \"u\" sym @inner @Other(a: %a: i8, \"b\": %29#1: i8) -> (p: i8, q: i8) {d}
    %r = seq.compreg %a, %clk reset %c, %b : i8
    %t = seq.compreg.ce %a, %clk, %c : i8
    %x = seq.firreg %a clock %clk reset sync %c, %b : i8
    %y = seq.firreg %a clock %clk reset async %c, %k : i8
    hw.output %r : i8
  }
  hw.module @\"other one\"() {
  }
}
";

// how many modules a text gives, and how many operations its first module has; 0 and 0 where it gives none
fn counts(alloc: Global, text: &[u8]) -> (u32, usize) {
    match read_design(alloc, text) {
        Ok(design) if design.module_count() > 0 => {
            (design.module_count(), design.module(0).body.op_count())
        }
        Ok(_) => (0, 0),
        Err(_) => (0, 0),
    }
}

/// A text, how many modules it gives, and how many operations its first module has.
struct Row {
    text: &'static str,
    modules: u32,
    operations: usize,
}

const ROWS: [Row; 6] = [
    Row {
        text: "",
        modules: 0,
        operations: 0,
    },
    Row {
        text: "module {}",
        modules: 0,
        operations: 0,
    },
    Row {
        text: "builtin.module {hw.module @A() {}}",
        modules: 1,
        operations: 1,
    },
    Row {
        text: "hw.module @A() {} hw.module @A(out o : i1) {}",
        modules: 2,
        operations: 1,
    },
    Row {
        text: "hw.module @A(out o : i1) {}",
        modules: 1,
        operations: 0,
    },
    Row {
        text: FORMS,
        modules: 2,
        operations: 40,
    },
];

#[test]
fn every_form_is_read(rt: HostRuntime) -> Result<(), Fail> {
    for row in &ROWS {
        let found = counts(rt.alloc(), row.text.as_bytes());
        assert_eq!(rt; found, (row.modules, row.operations), "of {}", row.text);
    }
    Ok(())
}
