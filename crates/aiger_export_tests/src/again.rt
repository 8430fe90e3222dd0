//! Texts that are imported and exported again.
use aiger_export::export_aiger::export_aiger;
use aiger_text::import_text::import_aiger;
use std::alloc::Global;
use std::test::Fail;

/// A text, and what its design is exported as.
struct Case {
    text: &'static [u8],
    again: &'static [u8],
}

/// A register; a gate; negations, one of an output; a latch that begins with 1, which is not kept.
const CASES: [Case; 4] = [
    Case {
        text: b"aag 2 1 1 1 0\n2\n4 2 4\n4\ni0 d[0]\nl0 r[0]\no0 q[0]\n",
        again: b"aag 2 1 1 1 0\n2\n4 2 4\n4\ni0 i0[0]\nl0 l0[0]\no0 o0[0]\n",
    },
    Case {
        text: b"aag 3 2 0 1 1\n2\n4\n6\n6 4 2\ni0 a[0]\ni1 b[0]\no0 c[0]\n",
        again: b"aag 3 2 0 1 1\n2\n4\n6\n6 4 2\ni0 i0[0]\ni1 i1[0]\no0 o0[0]\n",
    },
    Case {
        text: b"aag 5 2 1 2 2\n2\n4\n6 11 6\n9\n3\n8 5 2\n10 8 7\nc\nmade by hand\n",
        again: b"aag 5 2 1 2 2\n2\n4\n6 11 6\n9\n3\n8 5 2\n10 8 7\ni0 i0[0]\ni1 i1[0]\nl0 l0[0]\no0 o0[0]\no1 o1[0]\n",
    },
    Case {
        text: b"aag 1 0 1 1 0\n2 3 1\n2\n",
        again: b"aag 1 0 1 1 0\n2 3 2\n2\nl0 l0[0]\no0 o0[0]\n",
    },
];

/// Whether a text is exported again as it is said.
fn holds(alloc: Global, case: &Case) -> bool {
    let Ok(design) = import_aiger(alloc, case.text) else {
        return false;
    };
    match export_aiger(alloc, &design) {
        Ok(text) => text.as_bytes() == case.again,
        Err(_) => false,
    }
}

/// The number of the first case that is exported otherwise.
fn first_other(alloc: Global) -> Option<usize> {
    for (number, case) in CASES.iter().enumerate() {
        if !holds(alloc, case) {
            return Some(number);
        }
    }
    None
}

#[test]
fn texts_are_exported_again(rt: HostRuntime) -> Result<(), Fail> {
    assert_eq!(rt; first_other(rt.alloc()), None);
    Ok(())
}
