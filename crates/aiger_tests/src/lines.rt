//! Texts with a line that may not stand there.
use crate::cases::{Case, first_other};
use aiger_laws::fault::Fault;
use std::test::Fail;

const BAD_LINES: [Case; 38] = [
    Case {
        name: "no text",
        text: b"",
        line: 1,
    },
    Case {
        name: "an empty line",
        text: b"\naag 0 0 0 0 0\n",
        line: 1,
    },
    Case {
        name: "the binary format",
        text: b"aig 0 0 0 0 0\n",
        line: 1,
    },
    Case {
        name: "a header of four numbers",
        text: b"aag 0 0 0 0\n",
        line: 1,
    },
    Case {
        name: "a further field that is not 0",
        text: b"aag 0 0 0 0 0 1\n",
        line: 1,
    },
    Case {
        name: "five further fields",
        text: b"aag 0 0 0 0 0 0 0 0 0 0\n",
        line: 1,
    },
    Case {
        name: "two blanks in the header",
        text: b"aag  0 0 0 0 0\n",
        line: 1,
    },
    Case {
        name: "a blank behind the header",
        text: b"aag 0 0 0 0 0 \n",
        line: 1,
    },
    Case {
        name: "a CR behind the header",
        text: b"aag 0 0 0 0 0\r\n",
        line: 1,
    },
    Case {
        name: "a sign in the header",
        text: b"aag +0 0 0 0 0\n",
        line: 1,
    },
    Case {
        name: "a leading zero in the header",
        text: b"aag 00 0 0 0 0\n",
        line: 1,
    },
    Case {
        name: "a variable too many",
        text: b"aag 2147483648 0 0 0 0\n",
        line: 1,
    },
    Case {
        name: "a number above all words",
        text: b"aag 99999999999999999999999999999999999999999 0 0 0 0\n",
        line: 1,
    },
    Case {
        name: "too few variables",
        text: b"aag 2 1 1 0 1\n",
        line: 1,
    },
    Case {
        name: "great sums of lines",
        text: b"aag 5 4294967296 4294967296 0 18446744073709551615\n",
        line: 1,
    },
    Case {
        name: "many outputs",
        text: b"aag 0 0 0 99999999999999999999999999 0\n0\n",
        line: 3,
    },
    Case {
        name: "many inputs",
        text: b"aag 2147483647 2147483647 0 0 0\n",
        line: 2,
    },
    Case {
        name: "an input of two numbers",
        text: b"aag 1 1 0 0 0\n2 2\n",
        line: 2,
    },
    Case {
        name: "an input of no number",
        text: b"aag 1 1 0 0 0\n\n",
        line: 2,
    },
    Case {
        name: "an input with a leading zero",
        text: b"aag 1 1 0 0 0\n02\n",
        line: 2,
    },
    Case {
        name: "a latch of one number",
        text: b"aag 1 0 1 0 0\n2\n",
        line: 2,
    },
    Case {
        name: "a latch of four numbers",
        text: b"aag 1 0 1 0 0\n2 0 0 0\n",
        line: 2,
    },
    Case {
        name: "a latch that begins with another literal",
        text: b"aag 1 0 1 0 0\n2 2 3\n",
        line: 2,
    },
    Case {
        name: "two great numbers that are not the same",
        text: b"aag 1 0 1 0 0\n99999999999999999998 2 99999999999999999999\n",
        line: 2,
    },
    Case {
        name: "a gate of two numbers",
        text: b"aag 1 0 0 0 1\n2 0\n",
        line: 2,
    },
    Case {
        name: "a gate of four numbers",
        text: b"aag 1 0 0 0 1\n2 0 0 0\n",
        line: 2,
    },
    Case {
        name: "the text ends before its time",
        text: b"aag 2 2 0 0 0\n2\n",
        line: 3,
    },
    Case {
        name: "a line too many",
        text: b"aag 1 1 0 0 0\n2\n2\n",
        line: 3,
    },
    Case {
        name: "a comment that begins with more than c",
        text: b"aag 0 0 0 0 0\ncx\n",
        line: 2,
    },
    Case {
        name: "a comment mark and a blank",
        text: b"aag 0 0 0 0 0\nc \n",
        line: 2,
    },
    Case {
        name: "a symbol without a name",
        text: b"aag 0 0 0 0 0\ni0\n",
        line: 2,
    },
    Case {
        name: "a symbol without a number",
        text: b"aag 0 0 0 0 0\ni x\n",
        line: 2,
    },
    Case {
        name: "a symbol with a leading zero",
        text: b"aag 0 0 0 0 0\ni00 x\n",
        line: 2,
    },
    Case {
        name: "a symbol of another letter",
        text: b"aag 0 0 0 0 0\nb0 x\n",
        line: 2,
    },
    Case {
        name: "an empty line before comments",
        text: b"aag 0 0 0 0 0\n\nc\n",
        line: 2,
    },
    Case {
        name: "a bad line and a literal out of range on one line",
        text: b"aag 1 1 0 0 0\n9 9\n",
        line: 2,
    },
    Case {
        name: "out of range and defined twice on one line",
        text: b"aag 1 1 0 0 1\n2\n2 9 0\n",
        line: 1,
    },
    Case {
        name: "a bad line behind a literal that is not defined",
        text: b"aag 1 0 0 1 0\n2\nx\n",
        line: 3,
    },
];

#[test]
fn bad_lines_are_refused(rt: HostRuntime) -> Result<(), Fail> {
    let other = first_other(rt.alloc(), &BAD_LINES, Some(Fault::BadLine));
    assert_eq!(rt; other, None);
    Ok(())
}
