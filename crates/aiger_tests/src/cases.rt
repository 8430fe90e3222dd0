//! Cases of texts, and whether each is answered as it says.
use aiger_laws::fault::Fault;
use aiger_reader::fail::{ReadFail, Refusal};
use aiger_reader::read_aiger::read_aiger;
use std::alloc::Global;

/// A text, and the line at which it is refused; 0 where it is read.
pub(crate) struct Case {
    pub(crate) name: &'static str,
    pub(crate) text: &'static [u8],
    pub(crate) line: u32,
}

/// Whether a text is read, or refused at the line with that fault.
fn is_as_said(alloc: Global, case: &Case, said: Option<Fault>) -> bool {
    match (read_aiger(alloc, case.text), said) {
        (Ok(_text), None) => true,
        (Err(ReadFail::Refused(Refusal { line, fault })), Some(said)) => {
            line == case.line && fault == said
        }
        _ => false,
    }
}

/// The name of the first case that does otherwise.
pub(crate) fn first_other(
    alloc: Global,
    cases: &[Case],
    said: Option<Fault>,
) -> Option<&'static str> {
    for case in cases {
        if !is_as_said(alloc, case, said) {
            return Some(case.name);
        }
    }
    None
}
