//! Step files.
use bits_core::Bits;
use std::alloc::{AllocError, Global};
use std::test::Fail;
use step_file::fail::{StepCause, StepFail, StepRefusal};
use step_file::step_file::{StepFile, read_steps};

/// The widths of the registers of a module, and of its inputs.
const REGISTERS: [u32; 2] = [8, 8];

const INPUTS: [u32; 4] = [1, 1, 1, 8];

/// A text, and the line and the cause of its refusal.
struct Case {
    name: &'static str,
    text: &'static [u8],
    refused: Option<StepRefusal>,
}

const CASES: [Case; 41] = [
    Case {
        name: "a content and four steps",
        text: b"state 8'h5 8'h6\n1'h1 1'h0 1'h1 8'h11\n1'h1 1'h0 1'h0 8'h22\n1'h1 1'h1 1'h0 8'h33\n1'h0 1'h1 1'h1 8'h44\n",
        refused: None,
    },
    Case {
        name: "no LF at the end",
        text: b"state 8'h5 8'h6",
        refused: None,
    },
    Case {
        name: "empty lines",
        text: b"\n \t\r\nstate 8'h5 8'h6\n\n1'h1 1'h0 1'h1 8'h11\n\n",
        refused: None,
    },
    Case {
        name: "blanks of each kind",
        text: b"\tstate\t8'h5\r 8'h6\r\n",
        refused: None,
    },
    Case {
        name: "letters in either case",
        text: b"state 8'haF 8'hFa",
        refused: None,
    },
    Case {
        name: "leading zeros of a value",
        text: b"state 8'h0000000000000000000000000000000000000000005 8'h00",
        refused: None,
    },
    Case {
        name: "one literal of two",
        text: b"state 8'h5",
        refused: Some(StepRefusal {
            line: 1,
            cause: StepCause::WrongCount,
        }),
    },
    Case {
        name: "three literals of two",
        text: b"state 8'h5 8'h6 8'h7",
        refused: Some(StepRefusal {
            line: 1,
            cause: StepCause::WrongCount,
        }),
    },
    Case {
        name: "no line",
        text: b"",
        refused: Some(StepRefusal {
            line: 1,
            cause: StepCause::BadLine,
        }),
    },
    Case {
        name: "no line with words",
        text: b"\n\n",
        refused: Some(StepRefusal {
            line: 3,
            cause: StepCause::BadLine,
        }),
    },
    Case {
        name: "no state",
        text: b"8'h5 8'h6",
        refused: Some(StepRefusal {
            line: 1,
            cause: StepCause::BadLine,
        }),
    },
    Case {
        name: "no state behind an empty line",
        text: b"\nstat 8'h5 8'h6",
        refused: Some(StepRefusal {
            line: 2,
            cause: StepCause::BadLine,
        }),
    },
    Case {
        name: "state twice",
        text: b"state 8'h5 8'h6\nstate 8'h5 8'h6",
        refused: Some(StepRefusal {
            line: 2,
            cause: StepCause::BadLine,
        }),
    },
    Case {
        name: "a wider literal",
        text: b"state 9'h1FF 8'h6",
        refused: Some(StepRefusal {
            line: 1,
            cause: StepCause::WrongWidth,
        }),
    },
    Case {
        name: "a narrower literal",
        text: b"state 8'h5 7'h6",
        refused: Some(StepRefusal {
            line: 1,
            cause: StepCause::WrongWidth,
        }),
    },
    Case {
        name: "a value that does not fit",
        text: b"state 8'h100 8'h6",
        refused: Some(StepRefusal {
            line: 1,
            cause: StepCause::BadLine,
        }),
    },
    Case {
        name: "a value of two digits in four bits",
        text: b"state 4'hF0 8'h6",
        refused: Some(StepRefusal {
            line: 1,
            cause: StepCause::BadLine,
        }),
    },
    Case {
        name: "no digit",
        text: b"state 8'hfg 8'h6",
        refused: Some(StepRefusal {
            line: 1,
            cause: StepCause::BadLine,
        }),
    },
    Case {
        name: "no digits",
        text: b"state 8'h 8'h6",
        refused: Some(StepRefusal {
            line: 1,
            cause: StepCause::BadLine,
        }),
    },
    Case {
        name: "no width",
        text: b"state 'h5 8'h6",
        refused: Some(StepRefusal {
            line: 1,
            cause: StepCause::BadLine,
        }),
    },
    Case {
        name: "no apostrophe",
        text: b"state 8h5 8'h6",
        refused: Some(StepRefusal {
            line: 1,
            cause: StepCause::BadLine,
        }),
    },
    Case {
        name: "two apostrophes",
        text: b"state 8''h5 8'h6",
        refused: Some(StepRefusal {
            line: 1,
            cause: StepCause::BadLine,
        }),
    },
    Case {
        name: "another base",
        text: b"state 8'd5 8'h6",
        refused: Some(StepRefusal {
            line: 1,
            cause: StepCause::BadLine,
        }),
    },
    Case {
        name: "a capital base",
        text: b"state 8'H5 8'h6",
        refused: Some(StepRefusal {
            line: 1,
            cause: StepCause::BadLine,
        }),
    },
    Case {
        name: "a width of 0",
        text: b"state 0'h0 8'h6",
        refused: Some(StepRefusal {
            line: 1,
            cause: StepCause::BadLine,
        }),
    },
    Case {
        name: "a width with a leading zero",
        text: b"state 08'h5 8'h6",
        refused: Some(StepRefusal {
            line: 1,
            cause: StepCause::BadLine,
        }),
    },
    Case {
        name: "a sign",
        text: b"state -8'h5 8'h6",
        refused: Some(StepRefusal {
            line: 1,
            cause: StepCause::BadLine,
        }),
    },
    Case {
        name: "an underscore",
        text: b"state 8'h0_5 8'h6",
        refused: Some(StepRefusal {
            line: 1,
            cause: StepCause::BadLine,
        }),
    },
    Case {
        name: "a width of 2^32 + 1",
        text: b"state 4294967297'h0 8'h6",
        refused: Some(StepRefusal {
            line: 1,
            cause: StepCause::WrongWidth,
        }),
    },
    Case {
        name: "a width of 2^32 + 8",
        text: b"state 4294967304'h0 8'h6",
        refused: Some(StepRefusal {
            line: 1,
            cause: StepCause::WrongWidth,
        }),
    },
    Case {
        name: "a width of 2^32 + 1 alone",
        text: b"state 4294967297'h0",
        refused: Some(StepRefusal {
            line: 1,
            cause: StepCause::WrongCount,
        }),
    },
    Case {
        name: "a width of 2^64 + 8",
        text: b"state 18446744073709551624'h0 8'h6",
        refused: Some(StepRefusal {
            line: 1,
            cause: StepCause::WrongWidth,
        }),
    },
    Case {
        name: "129 bits in a width of 129",
        text: b"state 129'h1FFFFFFFFFFFFFFFFFFFFFFFFFFFFFFFF 8'h6",
        refused: Some(StepRefusal {
            line: 1,
            cause: StepCause::WrongWidth,
        }),
    },
    Case {
        name: "130 bits in a width of 129",
        text: b"state 129'h2FFFFFFFFFFFFFFFFFFFFFFFFFFFFFFFF 8'h6",
        refused: Some(StepRefusal {
            line: 1,
            cause: StepCause::BadLine,
        }),
    },
    Case {
        name: "a bad literal among too few",
        text: b"state 8'hx",
        refused: Some(StepRefusal {
            line: 1,
            cause: StepCause::BadLine,
        }),
    },
    Case {
        name: "a wide literal among too few",
        text: b"state 9'h1",
        refused: Some(StepRefusal {
            line: 1,
            cause: StepCause::WrongCount,
        }),
    },
    Case {
        name: "a bad literal behind a wide one",
        text: b"state 9'h1 8'hx",
        refused: Some(StepRefusal {
            line: 1,
            cause: StepCause::BadLine,
        }),
    },
    Case {
        name: "a short step",
        text: b"state 8'h5 8'h6\n1'h1 1'h0 1'h1",
        refused: Some(StepRefusal {
            line: 2,
            cause: StepCause::WrongCount,
        }),
    },
    Case {
        name: "a bad step",
        text: b"state 8'h5 8'h6\n\n1'h1 1'h0 1'h1 8'h100\n",
        refused: Some(StepRefusal {
            line: 3,
            cause: StepCause::BadLine,
        }),
    },
    Case {
        name: "a wide step",
        text: b"state 8'h5 8'h6\n1'h1 1'h0 1'h1 8'h11\n1'h1 2'h0 1'h1 8'h11\n",
        refused: Some(StepRefusal {
            line: 3,
            cause: StepCause::WrongWidth,
        }),
    },
    Case {
        name: "the first of two lines",
        text: b"state 8'h5 8'h6\n1'h1\nx",
        refused: Some(StepRefusal {
            line: 2,
            cause: StepCause::WrongCount,
        }),
    },
];

/// Whether a text is refused with this cause at this line, or read where there is none.
fn is_as_said(alloc: Global, case: &Case) -> bool {
    match read_steps(alloc, &REGISTERS, &INPUTS, case.text) {
        Ok(_) => case.refused.is_none(),
        Err(StepFail::Refused(refusal)) => case.refused == Some(refusal),
        Err(StepFail::NoMemory) => false,
    }
}

/// The name of the first case that does otherwise.
fn first_other(alloc: Global, cases: &[Case]) -> Option<&'static str> {
    for case in cases {
        if !is_as_said(alloc, case) {
            return Some(case.name);
        }
    }
    None
}

#[test]
fn texts_are_read_or_refused(rt: HostRuntime) -> Result<(), Fail> {
    assert_eq!(rt; first_other(rt.alloc(), &CASES), None);
    Ok(())
}

/// Adds the values of words.
fn push_values(values: &mut Vec<u128>, words: &[Bits]) -> Result<(), AllocError> {
    for word in words {
        values.push(word.value())?;
    }
    Ok(())
}

/// The values of a step file, the content's first and then each step's.
fn values_of(alloc: Global, file: &StepFile) -> Result<Vec<u128>, AllocError> {
    let mut values = Vec::new(alloc);
    push_values(&mut values, &file.content.words)?;
    for step in &file.steps {
        push_values(&mut values, &step.words)?;
    }
    Ok(values)
}

/// The values of what was read; none where it is refused.
fn values_in(alloc: Global, read: Result<StepFile, StepFail>) -> Result<Vec<u128>, AllocError> {
    match read {
        Ok(file) => values_of(alloc, &file),
        Err(_) => Ok(Vec::new(alloc)),
    }
}

#[test]
fn values_are_those_of_the_literals(rt: HostRuntime) -> Result<(), Fail> {
    let text = b"state 8'hA5 128'hFfffffffffffffffffffffffffffffff\n1'h1 12'h00abc\n\n1'h0 12'h7\n";
    let read = read_steps(rt.alloc(), &[8, 128], &[1, 12], text);
    let values = values_in(rt.alloc(), read)?;
    let wanted: [u128; 6] = [0xA5, u128::MAX, 1, 0xABC, 0, 7];
    assert!(rt; values.as_slice() == wanted.as_slice());
    Ok(())
}

#[test]
fn a_module_without_registers_has_a_state_line(rt: HostRuntime) -> Result<(), Fail> {
    let read = read_steps(rt.alloc(), &[], &[4], b"state\n4'h3\n");
    let values = values_in(rt.alloc(), read)?;
    assert!(rt; values.as_slice() == [3u128].as_slice());
    Ok(())
}
