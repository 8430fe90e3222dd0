//! Designs of texts, and their export.
use aiger_export::export_aiger::export_aiger;
use aiger_export::fail::ExportFail;
use io_edge::byte_text::Text;
use mlir_reader::read::read_design;
use op_verifier::{Verified, verify};
use std::alloc::Global;
use stored_form::is_canonical;

/// The design that a text says, where nothing of it is refused.
pub fn design_of(alloc: Global, text: &[u8]) -> Option<Verified> {
    let Ok(design) = read_design(alloc, text) else {
        return None;
    };
    if !is_canonical(&design) {
        return None;
    }
    verify(alloc, design).ok()
}

/// What the design that a text says is exported as, where nothing of it is refused as it is read.
pub fn exported(alloc: Global, text: &[u8]) -> Option<Result<Text, ExportFail>> {
    match design_of(alloc, text) {
        Some(design) => Some(export_aiger(alloc, &design)),
        None => None,
    }
}
