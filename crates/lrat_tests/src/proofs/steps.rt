//! Steps: what follows, numbers, literals, the empty clause.
use crate::proofs::{Case, EACH, OPPOSITE, first_other};
use diag::cause::Cause;
use lrat_text::fail::CheckRefusal;
use std::test::Fail;

const CASES: [Case; 21] = [
    Case {
        name: "the empty clause in one step",
        formula: OPPOSITE,
        proof: b"3 0 1 2 0\n",
        refused: None,
    },
    Case {
        name: "two steps",
        formula: EACH,
        proof: b"5 1 0 1 2 0\n6 0 5 3 4 0\n",
        refused: None,
    },
    Case {
        name: "a step without the empty clause",
        formula: EACH,
        proof: b"5 1 0 1 2 0\n",
        refused: Some(CheckRefusal {
            line: 2,
            cause: Cause::NoEmptyClause,
        }),
    },
    Case {
        name: "a number that is not above the formula's",
        formula: EACH,
        proof: b"4 1 0 1 2 0\n",
        refused: Some(CheckRefusal {
            line: 1,
            cause: Cause::BadProofLine,
        }),
    },
    Case {
        name: "a number twice",
        formula: EACH,
        proof: b"5 1 0 1 2 0\n5 1 0 1 2 0\n",
        refused: Some(CheckRefusal {
            line: 2,
            cause: Cause::BadProofLine,
        }),
    },
    Case {
        name: "a number below an earlier one",
        formula: EACH,
        proof: b"9 1 0 1 2 0\n8 1 0 1 2 0\n",
        refused: Some(CheckRefusal {
            line: 2,
            cause: Cause::BadProofLine,
        }),
    },
    Case {
        name: "numbers that jump",
        formula: EACH,
        proof: b"70 1 0 1 2 0\n18446744073709551615 0 70 3 4 0\n",
        refused: None,
    },
    Case {
        name: "a number between those that jump",
        formula: EACH,
        proof: b"70 1 0 1 2 0\n71 0 69 3 4 0\n",
        refused: Some(CheckRefusal {
            line: 2,
            cause: Cause::UnknownClause,
        }),
    },
    Case {
        name: "a number of 2^64",
        formula: EACH,
        proof: b"18446744073709551616 1 0 1 2 0\n",
        refused: Some(CheckRefusal {
            line: 1,
            cause: Cause::BadProofLine,
        }),
    },
    Case {
        name: "a literal of 2^64",
        formula: EACH,
        proof: b"5 18446744073709551616 0 1 2 0\n",
        refused: Some(CheckRefusal {
            line: 1,
            cause: Cause::BadProofLine,
        }),
    },
    Case {
        name: "a number 0 of a step",
        formula: EACH,
        proof: b"0 1 0 1 2 0\n",
        refused: Some(CheckRefusal {
            line: 1,
            cause: Cause::BadProofLine,
        }),
    },
    Case {
        name: "a negative number of a step",
        formula: EACH,
        proof: b"-5 1 0 1 2 0\n",
        refused: Some(CheckRefusal {
            line: 1,
            cause: Cause::BadProofLine,
        }),
    },
    Case {
        name: "a variable above the formula's",
        formula: EACH,
        proof: b"5 1 3 0 1 2 0\n",
        refused: Some(CheckRefusal {
            line: 1,
            cause: Cause::BadProofLine,
        }),
    },
    Case {
        name: "a step with both literals of a variable",
        formula: EACH,
        proof: b"5 1 -1 0 1 2 0\n",
        refused: Some(CheckRefusal {
            line: 1,
            cause: Cause::BadProofLine,
        }),
    },
    Case {
        name: "a step with both literals of a variable, the other way",
        formula: EACH,
        proof: b"5 -2 1 2 0 1 2 0\n",
        refused: Some(CheckRefusal {
            line: 1,
            cause: Cause::BadProofLine,
        }),
    },
    Case {
        name: "a step with a literal twice",
        formula: EACH,
        proof: b"5 1 1 0 1 2 0\n6 0 5 3 4 0\n",
        refused: None,
    },
    Case {
        name: "the empty clause of the formula, which is no step",
        formula: b"p cnf 1 1\n0\n",
        proof: b"",
        refused: Some(CheckRefusal {
            line: 1,
            cause: Cause::NoEmptyClause,
        }),
    },
    Case {
        name: "a formula without clauses",
        formula: b"p cnf 1 0\n",
        proof: b"1 0 0\n",
        refused: Some(CheckRefusal {
            line: 1,
            cause: Cause::StepDoesNotFollow,
        }),
    },
    Case {
        name: "a clause of the formula twice",
        formula: b"p cnf 1 3\n1 0\n1 0\n-1 0\n",
        proof: b"4 0 2 3 0\n",
        refused: None,
    },
    Case {
        name: "a literal of the formula twice",
        formula: b"p cnf 1 2\n1 1 0\n-1 -1 -1 0\n",
        proof: b"3 0 1 2 0\n",
        refused: None,
    },
    Case {
        name: "a clause over all of 2^63 variables",
        formula: b"p cnf 9223372036854775808 2\n1 0\n-1 0\n",
        proof: b"3 0 1 2 0\n",
        refused: None,
    },
];

#[test]
fn steps_are_verified_or_refused(rt: HostRuntime) -> Result<(), Fail> {
    assert_eq!(rt; first_other(rt.alloc(), &CASES), None);
    Ok(())
}
