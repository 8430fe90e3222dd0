//! Names and the first thing that each stands for.
use mlir_reader::names::{Defined, Names};
use std::alloc::AllocError;
use std::test::Fail;

// the position of the port that a name stands for
fn port_of(names: &Names<'_>, name: &[u8]) -> Option<u32> {
    match names.find(name) {
        Some(Defined::Port(position)) => Some(position),
        Some(Defined::Result(..) | Defined::Pack(..)) | None => None,
    }
}

// whether a name stands for a port, or for none, and stays so when it is given another one
fn defines(
    names: &mut Names<'_>,
    name: &'static str,
    position: u32,
    before: Option<u32>,
) -> Result<bool, AllocError> {
    let was = port_of(names, name.as_bytes()) == before;
    let again = names.define(name.as_bytes(), Defined::Port(position))?;
    let is = port_of(names, name.as_bytes()) == before.or(Some(position));
    Ok(was && again == before.is_some() && is)
}

const GIVEN: [(&str, u32); 13] = [
    ("0", 3),
    ("7", 1),
    ("00", 4),
    ("007", 15),
    ("12", 9),
    ("999999999", 2),
    ("1000000000", 6),
    ("a", 5),
    ("1a", 35),
    ("63", 8),
    ("4000", 97),
    ("99", 93),
    ("", 23),
];

#[test]
fn a_name_keeps_what_it_stood_for_first(rt: HostRuntime) -> Result<(), Fail> {
    let mut names = Names::new(rt.alloc());
    for (name, position) in GIVEN {
        assert!(rt; defines(&mut names, name, position, None)?, "in {name}");
    }
    for (name, position) in GIVEN {
        assert!(rt;
            defines(&mut names, name, 1000, Some(position))?,
            "in {name}"
        );
    }
    for name in ["1", "07", "000", "64", "1000000001", "b", "2a"] {
        assert_eq!(rt; port_of(&names, name.as_bytes()), None, "in {name}");
    }
    Ok(())
}

#[test]
fn a_number_far_above_is_kept_when_its_location_comes_near(rt: HostRuntime) -> Result<(), Fail> {
    let mut names = Names::new(rt.alloc());
    for name in [
        "90", "0", "1", "2", "3", "4", "5", "6", "7", "8", "9", "91", "93",
    ] {
        assert!(rt; defines(&mut names, name, 2, None)?, "in {name}");
    }
    assert!(rt; defines(&mut names, "90", 3, Some(2))?);
    for (name, wanted) in [
        ("90", Some(2)),
        ("91", Some(2)),
        ("92", None),
        ("93", Some(2)),
    ] {
        assert_eq!(rt; port_of(&names, name.as_bytes()), wanted, "in {name}");
    }
    Ok(())
}

#[test]
fn names_are_forgotten(rt: HostRuntime) -> Result<(), Fail> {
    let mut names = Names::new(rt.alloc());
    for position in 0..3 {
        for (name, _) in GIVEN {
            assert!(rt; defines(&mut names, name, position, None)?, "in {name}");
        }
        names.clear(rt.alloc());
        for (name, _) in GIVEN {
            assert_eq!(rt; port_of(&names, name.as_bytes()), None, "in {name}");
        }
    }
    Ok(())
}
