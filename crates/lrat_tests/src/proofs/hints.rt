//! Hints: their order, what they name, which are too many.
use crate::proofs::{Case, EACH, OPPOSITE, first_other};
use diag::cause::Cause;
use lrat_text::fail::CheckRefusal;
use std::test::Fail;

const CASES: [Case; 20] = [
    Case {
        name: "one hint alone",
        formula: OPPOSITE,
        proof: b"3 0 1 0\n",
        refused: Some(CheckRefusal {
            line: 1,
            cause: Cause::StepDoesNotFollow,
        }),
    },
    Case {
        name: "hints in the order of the resolutions",
        formula: EACH,
        proof: b"5 1 0 1 2 0\n6 0 4 3 5 0\n",
        refused: Some(CheckRefusal {
            line: 2,
            cause: Cause::StepDoesNotFollow,
        }),
    },
    Case {
        name: "no hints",
        formula: EACH,
        proof: b"5 1 0 0\n",
        refused: Some(CheckRefusal {
            line: 1,
            cause: Cause::StepDoesNotFollow,
        }),
    },
    Case {
        name: "a hint that is no unit",
        formula: EACH,
        proof: b"5 1 0 3 1 2 0\n",
        refused: Some(CheckRefusal {
            line: 1,
            cause: Cause::StepDoesNotFollow,
        }),
    },
    Case {
        name: "a hint whose literal is true",
        formula: EACH,
        proof: b"5 1 0 1 1 2 0\n",
        refused: Some(CheckRefusal {
            line: 1,
            cause: Cause::StepDoesNotFollow,
        }),
    },
    Case {
        name: "a hint after the conflict",
        formula: EACH,
        proof: b"5 1 0 1 2 3 0\n6 0 5 3 4 0\n",
        refused: None,
    },
    Case {
        name: "an unknown hint after the conflict",
        formula: EACH,
        proof: b"5 1 0 1 2 9 0\n",
        refused: Some(CheckRefusal {
            line: 1,
            cause: Cause::UnknownClause,
        }),
    },
    Case {
        name: "a negative hint after the conflict",
        formula: EACH,
        proof: b"5 1 0 1 2 -3 0\n",
        refused: Some(CheckRefusal {
            line: 1,
            cause: Cause::HintOutsideProfile,
        }),
    },
    Case {
        name: "a negative hint of no clause after the conflict",
        formula: EACH,
        proof: b"5 1 0 1 2 -9 0\n",
        refused: Some(CheckRefusal {
            line: 1,
            cause: Cause::HintOutsideProfile,
        }),
    },
    Case {
        name: "a negative hint before the conflict",
        formula: EACH,
        proof: b"5 1 0 1 -3 2 0\n",
        refused: Some(CheckRefusal {
            line: 1,
            cause: Cause::HintOutsideProfile,
        }),
    },
    Case {
        name: "a negative hint first",
        formula: EACH,
        proof: b"5 1 0 -1 2 0\n",
        refused: Some(CheckRefusal {
            line: 1,
            cause: Cause::HintOutsideProfile,
        }),
    },
    Case {
        name: "a negative hint behind one that is no unit",
        formula: EACH,
        proof: b"5 1 0 3 -1 0\n",
        refused: Some(CheckRefusal {
            line: 1,
            cause: Cause::StepDoesNotFollow,
        }),
    },
    Case {
        name: "a negative hint and an unknown one",
        formula: EACH,
        proof: b"5 1 0 -1 9 0\n",
        refused: Some(CheckRefusal {
            line: 1,
            cause: Cause::UnknownClause,
        }),
    },
    Case {
        name: "the step's own number as a hint",
        formula: EACH,
        proof: b"5 1 0 1 5 0\n",
        refused: Some(CheckRefusal {
            line: 1,
            cause: Cause::UnknownClause,
        }),
    },
    Case {
        name: "a later step as a hint",
        formula: EACH,
        proof: b"5 1 0 1 6 0\n6 1 0 1 2 0\n",
        refused: Some(CheckRefusal {
            line: 1,
            cause: Cause::UnknownClause,
        }),
    },
    Case {
        name: "a hint of 2^64",
        formula: EACH,
        proof: b"5 1 0 1 18446744073709551616 0\n",
        refused: Some(CheckRefusal {
            line: 1,
            cause: Cause::BadProofLine,
        }),
    },
    Case {
        name: "a hint of 2^64 - 1",
        formula: EACH,
        proof: b"5 1 0 1 18446744073709551615 0\n",
        refused: Some(CheckRefusal {
            line: 1,
            cause: Cause::UnknownClause,
        }),
    },
    Case {
        name: "a step without hints",
        formula: EACH,
        proof: b"5 1 0\n",
        refused: Some(CheckRefusal {
            line: 1,
            cause: Cause::BadProofLine,
        }),
    },
    Case {
        name: "the empty clause of the formula as a hint",
        formula: b"p cnf 1 1\n0\n",
        proof: b"2 0 1 0\n",
        refused: None,
    },
    Case {
        name: "both literals of a variable as a hint",
        formula: b"p cnf 1 3\n1 -1 0\n1 0\n-1 0\n",
        proof: b"4 0 1 2 3 0\n",
        refused: Some(CheckRefusal {
            line: 1,
            cause: Cause::StepDoesNotFollow,
        }),
    },
];

#[test]
fn hints_are_verified_or_refused(rt: HostRuntime) -> Result<(), Fail> {
    assert_eq!(rt; first_other(rt.alloc(), &CASES), None);
    Ok(())
}
