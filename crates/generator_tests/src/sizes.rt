//! Large designs.
use generator::generate;
use ir_store::design::Design;
use mlir_printer::design_text::{print_and_drop, print_design};
use std::test::Fail;

// How many operations a design has.
fn operation_count(design: &Design) -> usize {
    let mut count = 0usize;
    for number in 0..design.module_count() {
        count = count.saturating_add(design.module(number).body.op_count());
    }
    count
}

// How many public modules it has.
fn public_count(design: &Design) -> usize {
    let mut count = 0usize;
    for number in 0..design.module_count() {
        if !design.module(number).private {
            count = count.saturating_add(1);
        }
    }
    count
}

#[test]
fn ten_thousand_modules_are_generated(rt: HostRuntime) -> Result<(), Fail> {
    let verified = generate(rt.alloc(), 7, 10_000)?;
    let design = verified.design();
    assert_eq!(rt; design.module_count(), 10_000);
    assert_eq!(rt; operation_count(design), 79_999);
    assert_eq!(rt; public_count(design), 5_000);
    Ok(())
}

// Several threads print 8,000 operations: the text is the one of a single thread.
#[test]
fn workers_print_the_same_text(rt: HostRuntime) -> Result<(), Fail> {
    let alone = print_design(rt.alloc(), &generate(rt.alloc(), 7, 1_000)?)?;
    for workers in [1u32, 2, 3, 4, 64] {
        let verified = generate(rt.alloc(), 7, 1_000)?;
        let text = print_and_drop(&rt, rt.alloc(), verified, workers)?;
        assert!(rt; text == alone);
    }
    Ok(())
}
