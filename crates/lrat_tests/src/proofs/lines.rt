//! Lines: their ends, words that are none, which of two faults comes first.
use crate::proofs::{Case, EACH, OPPOSITE, first_other};
use diag::cause::Cause;
use lrat_text::fail::CheckRefusal;
use std::test::Fail;

const CASES: [Case; 19] = [
    Case {
        name: "no LF at the end",
        formula: OPPOSITE,
        proof: b"3 0 1 2 0",
        refused: None,
    },
    Case {
        name: "no proof",
        formula: OPPOSITE,
        proof: b"",
        refused: Some(CheckRefusal {
            line: 1,
            cause: Cause::NoEmptyClause,
        }),
    },
    Case {
        name: "blank lines alone",
        formula: OPPOSITE,
        proof: b"\n \t\r\n",
        refused: Some(CheckRefusal {
            line: 3,
            cause: Cause::NoEmptyClause,
        }),
    },
    Case {
        name: "CR at the ends of lines",
        formula: EACH,
        proof: b"5 1 0 1 2 0\r\n6 0 5 3 4 0\r\n",
        refused: None,
    },
    Case {
        name: "blank lines",
        formula: EACH,
        proof: b"\n5 1 0 1 2 0\n\n6 0 5 3 4 0\n\n",
        refused: None,
    },
    Case {
        name: "a comment",
        formula: EACH,
        proof: b"c x\n",
        refused: Some(CheckRefusal {
            line: 1,
            cause: Cause::BadProofLine,
        }),
    },
    Case {
        name: "a step without its hints' end",
        formula: EACH,
        proof: b"5 1 0 1 2\n",
        refused: Some(CheckRefusal {
            line: 1,
            cause: Cause::BadProofLine,
        }),
    },
    Case {
        name: "a number alone",
        formula: EACH,
        proof: b"5\n",
        refused: Some(CheckRefusal {
            line: 1,
            cause: Cause::BadProofLine,
        }),
    },
    Case {
        name: "words behind the hints",
        formula: EACH,
        proof: b"5 1 0 1 2 0 0\n",
        refused: Some(CheckRefusal {
            line: 1,
            cause: Cause::BadProofLine,
        }),
    },
    Case {
        name: "the letter d within a step",
        formula: EACH,
        proof: b"5 1 d 0 1 2 0\n",
        refused: Some(CheckRefusal {
            line: 1,
            cause: Cause::BadProofLine,
        }),
    },
    Case {
        name: "minus zero",
        formula: EACH,
        proof: b"5 1 -0 1 2 0\n",
        refused: Some(CheckRefusal {
            line: 1,
            cause: Cause::BadProofLine,
        }),
    },
    Case {
        name: "lines behind the empty clause",
        formula: EACH,
        proof: b"5 1 0 1 2 0\n6 0 5 3 4 0\n7 1 0 1 2 0\n",
        refused: None,
    },
    Case {
        name: "a fault behind the empty clause",
        formula: EACH,
        proof: b"5 1 0 1 2 0\n6 0 5 3 4 0\n7 2 0 1 2 0\n",
        refused: Some(CheckRefusal {
            line: 3,
            cause: Cause::StepDoesNotFollow,
        }),
    },
    Case {
        name: "a bad line behind the empty clause",
        formula: EACH,
        proof: b"5 1 0 1 2 0\n6 0 5 3 4 0\nx\n",
        refused: Some(CheckRefusal {
            line: 3,
            cause: Cause::BadProofLine,
        }),
    },
    Case {
        name: "two faults in one line: a bad line and an unknown hint",
        formula: EACH,
        proof: b"4 1 0 9 0\n",
        refused: Some(CheckRefusal {
            line: 1,
            cause: Cause::BadProofLine,
        }),
    },
    Case {
        name: "two faults in one line: an unknown hint and a step that does not follow",
        formula: EACH,
        proof: b"5 1 0 3 9 0\n",
        refused: Some(CheckRefusal {
            line: 1,
            cause: Cause::UnknownClause,
        }),
    },
    Case {
        name: "two faults in two lines",
        formula: EACH,
        proof: b"5 1 0 9 0\nx\n",
        refused: Some(CheckRefusal {
            line: 1,
            cause: Cause::UnknownClause,
        }),
    },
    Case {
        name: "two faults in two lines, the other way",
        formula: EACH,
        proof: b"x\n5 1 0 9 0\n",
        refused: Some(CheckRefusal {
            line: 1,
            cause: Cause::BadProofLine,
        }),
    },
    Case {
        name: "a fault and no empty clause",
        formula: EACH,
        proof: b"5 1 0 3 0\n",
        refused: Some(CheckRefusal {
            line: 1,
            cause: Cause::StepDoesNotFollow,
        }),
    },
];

#[test]
fn lines_are_verified_or_refused(rt: HostRuntime) -> Result<(), Fail> {
    assert_eq!(rt; first_other(rt.alloc(), &CASES), None);
    Ok(())
}
