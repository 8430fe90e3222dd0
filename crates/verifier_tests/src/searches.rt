//! The searches over a design, each once with ample memory.
use crate::designs::{Row, design_of};
use design_cycles::{
    Hierarchy, first_cycle, first_recursive, first_too_large, has_distinct_symbols,
};
use ir_store::design::Design;
use std::alloc::{AllocError, Global};
use std::test::Fail;

// Whether a value depends on itself, and the first module that is too large, where no module is in itself.
fn search(alloc: Global, design: &Design) -> Result<(bool, Option<u32>), AllocError> {
    if !has_distinct_symbols(design) {
        return Err(AllocError);
    }
    let hierarchy = Hierarchy::of(alloc, design)?;
    let recursive = first_recursive(alloc, design, &hierarchy)?;
    match recursive {
        Some(_) => Err(AllocError),
        None => {
            let too_large = first_too_large(alloc, design, &hierarchy)?;
            let cyclic = first_cycle(alloc, design, &hierarchy)?;
            Ok((cyclic.is_some(), too_large))
        }
    }
}

#[test]
fn a_value_depends_on_itself(rt: HostRuntime) -> Result<(), Fail> {
    let design = design_of(rt.alloc(), &[Row::AndFirst, Row::Output])?;
    let found = search(rt.alloc(), &design)?;
    assert_eq!(rt; found, (true, None));
    Ok(())
}
