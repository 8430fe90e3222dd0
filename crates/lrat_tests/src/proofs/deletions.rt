//! Deletions: what is gone afterwards.
use crate::proofs::{Case, EACH, first_other};
use diag::cause::Cause;
use lrat_text::fail::CheckRefusal;
use std::test::Fail;

const CASES: [Case; 13] = [
    Case {
        name: "a deletion of 2^64",
        formula: EACH,
        proof: b"5 d 18446744073709551616 0\n",
        refused: Some(CheckRefusal {
            line: 1,
            cause: Cause::BadProofLine,
        }),
    },
    Case {
        name: "a deletion whose own number is 2^64",
        formula: EACH,
        proof: b"18446744073709551616 d 1 0\n",
        refused: Some(CheckRefusal {
            line: 1,
            cause: Cause::BadProofLine,
        }),
    },
    Case {
        name: "a deletion whose own number is 0",
        formula: EACH,
        proof: b"5 1 0 1 2 0\n0 d 1 2 0\n6 0 5 3 4 0\n",
        refused: None,
    },
    Case {
        name: "a deletion",
        formula: EACH,
        proof: b"5 1 0 1 2 0\n5 d 1 2 0\n6 0 5 3 4 0\n",
        refused: None,
    },
    Case {
        name: "a deletion of nothing",
        formula: EACH,
        proof: b"5 1 0 1 2 0\n5 d 0\n6 0 5 3 4 0\n",
        refused: None,
    },
    Case {
        name: "a deletion that goes on in the next line",
        formula: EACH,
        proof: b"5 d 1\n2 0\n",
        refused: Some(CheckRefusal {
            line: 1,
            cause: Cause::BadProofLine,
        }),
    },
    Case {
        name: "a clause deleted that a later hint names",
        formula: EACH,
        proof: b"5 1 0 1 2 0\n5 d 1 4 0\n6 0 5 3 4 0\n",
        refused: Some(CheckRefusal {
            line: 3,
            cause: Cause::UnknownClause,
        }),
    },
    Case {
        name: "a clause deleted twice in one line",
        formula: EACH,
        proof: b"5 d 1 1 0\n",
        refused: Some(CheckRefusal {
            line: 1,
            cause: Cause::UnknownClause,
        }),
    },
    Case {
        name: "a clause deleted twice in two lines",
        formula: EACH,
        proof: b"5 d 1 0\n5 d 1 0\n",
        refused: Some(CheckRefusal {
            line: 2,
            cause: Cause::UnknownClause,
        }),
    },
    Case {
        name: "a deletion of what is not there",
        formula: EACH,
        proof: b"5 d 9 0\n",
        refused: Some(CheckRefusal {
            line: 1,
            cause: Cause::UnknownClause,
        }),
    },
    Case {
        name: "a deletion with a minus sign",
        formula: EACH,
        proof: b"5 d -1 0\n",
        refused: Some(CheckRefusal {
            line: 1,
            cause: Cause::BadProofLine,
        }),
    },
    Case {
        name: "a step's number again after its deletion",
        formula: EACH,
        proof: b"5 1 0 1 2 0\n5 d 5 0\n5 1 0 1 2 0\n",
        refused: Some(CheckRefusal {
            line: 3,
            cause: Cause::BadProofLine,
        }),
    },
    Case {
        name: "the empty clause, deleted afterwards",
        formula: EACH,
        proof: b"5 1 0 1 2 0\n6 0 5 3 4 0\n6 d 6 0\n",
        refused: None,
    },
];

#[test]
fn deletions_are_verified_or_refused(rt: HostRuntime) -> Result<(), Fail> {
    assert_eq!(rt; first_other(rt.alloc(), &CASES), None);
    Ok(())
}
