//! The pattern by which an operation goes whose results nothing uses (MLIR documentation, "Operation canonicalization").
ghost use Rattle.fold_laws.specs.Unused.{fold_unused};

use crate::pattern::Pattern;
use body_edits::purity::is_pure;
use ir_store::body::Body;
use ir_store::operation::OpId;
use std::alloc::{AllocError, Global};

/// A pure operation without uses goes.
pub struct F1;

impl Pattern for F1 {
    ghost change = { fold_unused };

    fn matches(body: &Body, op: OpId) -> bool {
        is_pure(body.op(op).kind) && body.is_unused(op)
    }

    fn apply(_alloc: Global, body: &mut Body, op: OpId) -> Result<(), AllocError> {
        body.erase(op);
        Ok(())
    }
}
