//! Formulas as texts.
use diag::cause::Cause;
use lrat_text::fail::{CheckFail, CheckRefusal};
use lrat_text::read_cnf::read_cnf;
use std::alloc::{AllocError, Global};
use std::test::Fail;

/// A text, and the line at which it is refused.
struct Case {
    name: &'static str,
    text: &'static [u8],
    refused: Option<u32>,
}

const CASES: [Case; 45] = [
    Case {
        name: "a formula of one clause",
        text: b"p cnf 1 1\n1 0\n",
        refused: None,
    },
    Case {
        name: "no clauses",
        text: b"p cnf 0 0\n",
        refused: None,
    },
    Case {
        name: "variables without clauses",
        text: b"p cnf 7 0",
        refused: None,
    },
    Case {
        name: "the empty clause",
        text: b"p cnf 1 1\n0\n",
        refused: None,
    },
    Case {
        name: "a clause twice",
        text: b"p cnf 2 2\n1 2 0\n1 2 0\n",
        refused: None,
    },
    Case {
        name: "a literal twice",
        text: b"p cnf 1 1\n1 1 0\n",
        refused: None,
    },
    Case {
        name: "both literals of a variable",
        text: b"p cnf 1 1\n1 -1 0\n",
        refused: None,
    },
    Case {
        name: "comments and blank lines before the header",
        text: b"c x\n\n \t\r\np cnf 1 1\n1 0\n",
        refused: None,
    },
    Case {
        name: "comments and blank lines behind the header",
        text: b"p cnf 1 2\nc 1 0\n\n1 0\ncnf\n-1 0\nc",
        refused: None,
    },
    Case {
        name: "CR at the ends of lines",
        text: b"c\r\np cnf 1 2\r\n1 0\r\n-1 0\r\n",
        refused: None,
    },
    Case {
        name: "clauses over several lines",
        text: b"p cnf 3 2\n1\n2\n0 -3 0",
        refused: None,
    },
    Case {
        name: "two clauses in a line",
        text: b"p cnf 3 2\n1 2 0 -3 0\n",
        refused: None,
    },
    Case {
        name: "blanks and tabs",
        text: b" p\t cnf  3 1 \n\t1  -2\t3 0 \n",
        refused: None,
    },
    Case {
        name: "leading zeros",
        text: b"p cnf 003 01\n01 -002 000\n",
        refused: None,
    },
    Case {
        name: "a header of 2^63 variables",
        text: b"p cnf 9223372036854775808 1\n1 0\n",
        refused: None,
    },
    Case {
        name: "a variable of 2^64 - 1",
        text: b"p cnf 18446744073709551615 1\n18446744073709551615 0\n",
        refused: None,
    },
    Case {
        name: "no text",
        text: b"",
        refused: Some(1),
    },
    Case {
        name: "no header",
        text: b"c x\n\n",
        refused: Some(3),
    },
    Case {
        name: "a clause before the header",
        text: b"1 0\np cnf 1 1\n1 0\n",
        refused: Some(1),
    },
    Case {
        name: "a header of three words",
        text: b"p cnf 1\n1 0\n",
        refused: Some(1),
    },
    Case {
        name: "a header of five words",
        text: b"p cnf 1 1 1\n1 0\n",
        refused: Some(1),
    },
    Case {
        name: "a header of another format",
        text: b"\np dnf 1 1\n1 0\n",
        refused: Some(2),
    },
    Case {
        name: "a header in upper case",
        text: b"P CNF 1 1\n1 0\n",
        refused: Some(1),
    },
    Case {
        name: "a header with a sign",
        text: b"p cnf +1 1\n1 0\n",
        refused: Some(1),
    },
    Case {
        name: "a header with a negative number",
        text: b"p cnf -1 1\n1 0\n",
        refused: Some(1),
    },
    Case {
        name: "two headers",
        text: b"p cnf 1 1\np cnf 1 1\n1 0\n",
        refused: Some(2),
    },
    Case {
        name: "a header of 2^64 variables",
        text: b"p cnf 18446744073709551616 1\n1 0\n",
        refused: Some(1),
    },
    Case {
        name: "a header of 2^64 clauses",
        text: b"p cnf 1 18446744073709551616\n1 0\n",
        refused: Some(1),
    },
    Case {
        name: "a header of 2^64 - 1 clauses",
        text: b"p cnf 1 18446744073709551615\n1 0\n",
        refused: Some(3),
    },
    Case {
        name: "a number of 2^64",
        text: b"p cnf 18446744073709551615 1\n18446744073709551616 0\n",
        refused: Some(2),
    },
    Case {
        name: "a variable above the header's",
        text: b"p cnf 2 1\n1 2\n-3 0\n",
        refused: Some(3),
    },
    Case {
        name: "a clause too many",
        text: b"p cnf 1 1\n1 0\n\n-1 0\n",
        refused: Some(4),
    },
    Case {
        name: "the first literal of a clause too many",
        text: b"p cnf 1 1\n1 0\n-1\n0\n",
        refused: Some(3),
    },
    Case {
        name: "an empty clause too many",
        text: b"p cnf 1 1\n1 0 0\n",
        refused: Some(2),
    },
    Case {
        name: "a clause too few",
        text: b"p cnf 1 2\n1 0\n",
        refused: Some(3),
    },
    Case {
        name: "a clause too few, and no end of the line",
        text: b"p cnf 1 2\n1 0",
        refused: Some(3),
    },
    Case {
        name: "a clause without its end",
        text: b"p cnf 1 1\n1\n",
        refused: Some(3),
    },
    Case {
        name: "minus zero",
        text: b"p cnf 1 1\n1 -0\n",
        refused: Some(2),
    },
    Case {
        name: "a plus sign",
        text: b"p cnf 1 1\n+1 0\n",
        refused: Some(2),
    },
    Case {
        name: "a letter in a number",
        text: b"p cnf 1 1\n1x 0\n",
        refused: Some(2),
    },
    Case {
        name: "a minus sign alone",
        text: b"p cnf 1 1\n- 1 0\n",
        refused: Some(2),
    },
    Case {
        name: "the letter d",
        text: b"p cnf 1 1\nd 0\n",
        refused: Some(2),
    },
    Case {
        name: "a comment behind a blank",
        text: b"p cnf 1 1\n c\n1 0\n",
        refused: Some(2),
    },
    Case {
        name: "a comment behind a clause",
        text: b"p cnf 1 1\n1 0 c\n",
        refused: Some(2),
    },
    Case {
        name: "two faults in two lines",
        text: b"p cnf 1 1\n2 0\nx\n",
        refused: Some(2),
    },
];

/// The line at which a text is refused.
fn refused_line(alloc: Global, text: &[u8]) -> Result<Option<u32>, CheckFail> {
    match read_cnf(alloc, text) {
        Ok(_cnf) => Ok(None),
        Err(
            CheckFail::Refused(
                CheckRefusal {
                    line,
                    cause: Cause::BadFormula,
                },
            ),
        ) => Ok(Some(line)),
        Err(fail) => Err(fail),
    }
}

/// The name of the first case that does otherwise.
fn first_other(alloc: Global, cases: &[Case]) -> Option<&'static str> {
    for case in cases {
        match refused_line(alloc, case.text) {
            Ok(line) => {
                if line != case.refused {
                    return Some(case.name);
                }
            }
            Err(_) => return Some(case.name),
        }
    }
    None
}

#[test]
fn formulas_are_read_or_refused(rt: HostRuntime) -> Result<(), Fail> {
    assert_eq!(rt; first_other(rt.alloc(), &CASES), None);
    Ok(())
}

/// The lengths of the clauses of a formula; none where it is refused.
fn lengths(alloc: Global, text: &[u8]) -> Result<Vec<usize>, AllocError> {
    let mut lengths = Vec::new(alloc);
    if let Ok(cnf) = read_cnf(alloc, text) {
        for clause in cnf.clauses() {
            lengths.push(clause.as_slice().len())?;
        }
    }
    Ok(lengths)
}

#[test]
fn a_formula_is_as_it_is_written(rt: HostRuntime) -> Result<(), Fail> {
    let read = lengths(rt.alloc(), b"p cnf 9 3\n4 -4 4 0 0\n-9\n0\n")?;
    assert_eq!(rt; read.as_slice(), [3, 0, 1].as_slice());
    Ok(())
}
