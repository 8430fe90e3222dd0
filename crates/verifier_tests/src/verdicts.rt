//! The verdicts on designs of one module.
use crate::designs::{OUT, RESET, Row, design_of};
use diag::cause::Cause;
use diag::refusal::Refusal;
use ir_store::design::Design;
use op_verifier::{VerifyFail, first_fault, verify};
use std::alloc::{AllocError, Global};
use std::test::Fail;
use stored_form::is_canonical;

/// Why a test has no verdict on a design.
#[derive(Debug, Drop)]
enum NoVerdict {
    /// Memory ran out.
    NoMemory,
    /// The design that the test builds is not in canonical form, so it may not be verified.
    NotCanonical,
    /// Two calls that give a verdict differ.
    Differs,
}

impl From<AllocError> for NoVerdict {
    fn from(_error: AllocError) -> NoVerdict {
        NoVerdict::NoMemory
    }
}

/// A body, and the line and the cause of the refusal, where the module is refused.
struct Case {
    body: &'static [Row],
    refused: Option<(u32, Cause)>,
}

const CASES: [Case; 5] = [
    Case {
        body: &[Row::And(RESET), Row::Output],
        refused: None,
    },
    // a mark on the result of a name that stands once
    Case {
        body: &[Row::MarkedAnd(OUT), Row::Output],
        refused: Some((2, Cause::Redefined)),
    },
    // an output port has no value
    Case {
        body: &[Row::And(OUT), Row::Output],
        refused: Some((2, Cause::Undefined)),
    },
    // so it resets nothing, and that is a cause of its own
    Case {
        body: &[Row::Constant, Row::Register(OUT), Row::Output],
        refused: Some((3, Cause::Undefined)),
    },
    // an output that is not the last operation
    Case {
        body: &[Row::Output, Row::And(RESET)],
        refused: Some((2, Cause::MissingOutput)),
    },
];

// The verifier's refusal of a design, where it is the first one among those of headers and operations.
fn refusal_of(alloc: Global, design: Design) -> Result<Option<Refusal>, NoVerdict> {
    let first = first_fault(alloc, &design)?;
    if !is_canonical(&design) {
        return Err(NoVerdict::NotCanonical);
    }
    match verify(alloc, design) {
        Ok(verified) => same_verdict(verified.design().module_count() == 1, first, None),
        Err(VerifyFail::Refused(refusal)) => same_verdict(true, first, Some(refusal)),
        Err(VerifyFail::NoMemory) => Err(NoVerdict::NoMemory),
    }
}

// A verdict, where it is sound and another says the same.
fn same_verdict(
    is_sound: bool,
    first: Option<Refusal>,
    refusal: Option<Refusal>,
) -> Result<Option<Refusal>, NoVerdict> {
    if is_sound && first == refusal {
        Ok(refusal)
    } else {
        Err(NoVerdict::Differs)
    }
}

// Whether a design has the refusal of a case.
fn is_told(refusal: Option<Refusal>, case: &Case) -> bool {
    match (refusal, case.refused) {
        (Some(refusal), Some((line, cause))) => refusal.location.line == line
            && refusal.cause == cause,
        (None, None) => true,
        (Some(_), None) | (None, Some(_)) => false,
    }
}

// The first case with another verdict, by its position.
fn first_other(alloc: Global, cases: &[Case]) -> Result<Option<usize>, NoVerdict> {
    for (at, case) in cases.iter().enumerate() {
        let design = design_of(alloc, case.body)?;
        if !is_told(refusal_of(alloc, design)?, case) {
            return Ok(Some(at));
        }
    }
    Ok(None)
}

#[test]
fn designs_are_accepted_or_refused(rt: HostRuntime) -> Result<(), Fail> {
    assert_eq!(rt; first_other(rt.alloc(), &CASES)?, None);
    Ok(())
}
