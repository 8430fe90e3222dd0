//! Texts that are read.
use crate::cases::{Case, first_other};
use std::test::Fail;

const READ: [Case; 18] = [
    Case {
        name: "a header alone",
        text: b"aag 0 0 0 0 0\n",
        line: 0,
    },
    Case {
        name: "a header that ends with the text",
        text: b"aag 0 0 0 0 0",
        line: 0,
    },
    Case {
        name: "the most variables",
        text: b"aag 2147483647 0 0 0 0\n",
        line: 0,
    },
    Case {
        name: "a conjunction",
        text: b"aag 3 2 0 1 1\n2\n4\n6\n6 4 2\ni0 a[0]\ni1 b[0]\no0 c[0]\n",
        line: 0,
    },
    Case {
        name: "a register",
        text: b"aag 2 1 1 1 0\n2\n4 2 4\n4\ni0 d[0]\nl0 r[0]\no0 q[0]\n",
        line: 0,
    },
    Case {
        name: "latches that begin with 0, 1 and either",
        text: b"aag 4 1 3 0 0\n2\n4 2 0\n6 2 1\n8 2 8\n",
        line: 0,
    },
    Case {
        name: "further fields that are 0",
        text: b"aag 0 0 0 0 0 0 0 0 0\n",
        line: 0,
    },
    Case {
        name: "constants are always there",
        text: b"aag 1 0 1 2 0\n2 1\n0\n1\n",
        line: 0,
    },
    Case {
        name: "gates in any order",
        text: b"aag 3 1 0 1 2\n2\n6\n6 4 4\n4 2 3\n",
        line: 0,
    },
    Case {
        name: "a latch that needs itself",
        text: b"aag 1 0 1 0 0\n2 3\n",
        line: 0,
    },
    Case {
        name: "a gate of constants and of equal operands",
        text: b"aag 2 0 0 0 2\n2 1 0\n4 2 2\n",
        line: 0,
    },
    Case {
        name: "comments",
        text: b"aag 0 0 0 0 0\nc\nany thing\n\n\xff\n",
        line: 0,
    },
    Case {
        name: "a comment mark that ends the text",
        text: b"aag 0 0 0 0 0\nc",
        line: 0,
    },
    Case {
        name: "a symbol whose number no line has",
        text: b"aag 0 0 0 0 0\no7 x\n",
        line: 0,
    },
    Case {
        name: "a symbol with blanks in its name",
        text: b"aag 0 0 0 0 0\ni0 a b  c\n",
        line: 0,
    },
    Case {
        name: "a symbol with an empty name",
        text: b"aag 0 0 0 0 0\ni0 \n",
        line: 0,
    },
    Case {
        name: "an output twice",
        text: b"aag 1 1 0 2 0\n2\n2\n3\n",
        line: 0,
    },
    Case {
        name: "variables that are not used",
        text: b"aag 9 1 0 1 1\n14\n18\n18 14 15\n",
        line: 0,
    },
];

#[test]
fn texts_are_read(rt: HostRuntime) -> Result<(), Fail> {
    assert_eq!(rt; first_other(rt.alloc(), &READ, None), None);
    Ok(())
}
