//! Proofs as texts.
use lrat_text::check::check;
use lrat_text::fail::{CheckFail, CheckRefusal};
use lrat_text::read_cnf::read_cnf;
use std::alloc::Global;

mod deletions;
mod hints;
mod lines;
mod steps;

/// Each clause over two variables.
pub(crate) const EACH: &[u8] = b"p cnf 2 4\n1 2 0\n1 -2 0\n-1 2 0\n-1 -2 0\n";

/// A variable and its complement.
pub(crate) const OPPOSITE: &[u8] = b"p cnf 1 2\n1 0\n-1 0\n";

/// A formula and a proof, and the cause and the line at which it is refused.
pub(crate) struct Case {
    pub(crate) name: &'static str,
    pub(crate) formula: &'static [u8],
    pub(crate) proof: &'static [u8],
    pub(crate) refused: Option<CheckRefusal>,
}

/// Whether a proof is refused with this cause at this line, or verified where there is none.
fn is_as_said(alloc: Global, case: &Case) -> bool {
    let Ok(cnf) = read_cnf(alloc, case.formula) else {
        return false;
    };
    match check(alloc, &cnf, case.proof) {
        Ok(()) => case.refused.is_none(),
        Err(CheckFail::Refused(refusal)) => case.refused == Some(refusal),
        Err(CheckFail::NoMemory) => false,
    }
}

/// The name of the first case that does otherwise.
pub(crate) fn first_other(alloc: Global, cases: &[Case]) -> Option<&'static str> {
    for case in cases {
        if !is_as_said(alloc, case) {
            return Some(case.name);
        }
    }
    None
}
