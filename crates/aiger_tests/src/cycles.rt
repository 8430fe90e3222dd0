//! Texts with a cycle of gates.
use crate::cases::{Case, first_other};
use aiger_laws::fault::Fault;
use std::test::Fail;

const GATE_CYCLES: [Case; 5] = [
    Case {
        name: "a gate that needs itself",
        text: b"aag 1 0 0 1 1\n2\n2 2 2\n",
        line: 3,
    },
    Case {
        name: "gates that need one another",
        text: b"aag 3 1 0 1 2\n2\n4\n4 6 2\n6 2 5\n",
        line: 4,
    },
    Case {
        name: "a gate before a cycle that needs it",
        text: b"aag 3 0 0 0 3\n2 4 0\n4 6 0\n6 4 0\n",
        line: 3,
    },
    Case {
        name: "a gate between two cycles",
        text: b"aag 4 0 0 0 4\n2 4 6\n4 4 0\n6 8 8\n8 8 0\n",
        line: 3,
    },
    Case {
        name: "a cycle behind a late gate",
        text: b"aag 4 0 0 0 4\n8 0 0\n2 8 4\n4 6 8\n6 2 2\n",
        line: 3,
    },
];

#[test]
fn gates_that_need_themselves_are_refused(rt: HostRuntime) -> Result<(), Fail> {
    let other = first_other(rt.alloc(), &GATE_CYCLES, Some(Fault::GateCycle));
    assert_eq!(rt; other, None);
    Ok(())
}
