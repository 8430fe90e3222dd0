//! Tests of free names.
use fresh_names::taken_names::TakenNames;
use std::alloc::{AllocError, Global};
use std::test::Fail;

// whether a wanted name is taken as this one
fn gives(names: &mut TakenNames, wanted: &[u8], name: &[u8]) -> Result<bool, AllocError> {
    if names.len() >= 1_000_000 {
        return Ok(false);
    }
    let id = names.take(wanted)?;
    Ok(names.name(id) == name)
}

// whether the last of so many equal wishes gets this name
fn ends_with(alloc: Global, count: u32, wanted: &[u8], name: &[u8]) -> Result<bool, AllocError> {
    let mut names = TakenNames::new(alloc);
    let mut is_last = false;
    for _ in 0..count {
        is_last = gives(&mut names, wanted, name)?;
    }
    Ok(is_last)
}

#[test]
fn names_are_free(rt: HostRuntime) -> Result<(), Fail> {
    let mut names = TakenNames::new(rt.alloc());
    for (wanted, name) in [
        (b"a".as_slice(), b"a".as_slice()),
        (b"a_0".as_slice(), b"a_0".as_slice()),
        (b"a".as_slice(), b"a_1".as_slice()),
        (b"a_0".as_slice(), b"a_0_0".as_slice()),
    ] {
        assert!(rt; gives(&mut names, wanted, name)?);
    }
    Ok(())
}

#[test]
fn equal_wishes_take_linear_time(rt: HostRuntime) -> Result<(), Fail> {
    let alloc = rt.alloc();
    assert!(rt; ends_with(alloc, 10_000, b"a".as_slice(), b"a_9998".as_slice())?);
    assert!(rt; ends_with(alloc, 200_000, b"a".as_slice(), b"a_199998".as_slice())?);
    Ok(())
}
