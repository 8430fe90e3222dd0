//! Patterns of the table of folds as code.

use ir_store::body::Body;
use ir_store::operation::OpId;
use std::alloc::{AllocError, Global};

/// A pattern of the table of folds: a change of a body at one of its operations (MLIR documentation, "Pattern Rewriting").
pub trait Pattern {
    ghost use Rattle.std.specs.Prelude.{◌≡◌, true, is_some, OnOk, OnErr};
    ghost use Rattle.ir_store.specs.Bodies.{ops_of};
    ghost use Rattle.fold_laws.specs.Edits.{FoldPattern};
    ghost use Rattle.body_edits.specs.FitBodies.{IsOfFit};
    ghost use Rattle.body_edits.specs.Folded.{IsFolded};
    ghost use Rattle.body_edits.specs.Views.{HasOp, body_ops, position_in};

    // The pattern.
    ghost change: { FoldPattern };

    /// Whether the pattern matches at an operation. It takes no memory.
    fn matches(body: &Body, op: OpId) -> bool
        requires fit { IsOfFit body.now }
        requires live { HasOp body.now op }
        ensures { result ≡ is_some (change (body_ops body.now) (position_in body.now op)) };

    /// Changes a body at an operation at which the pattern matches. On an error, which comes where memory that is needed is
    /// refused, the operations stay.
    fn apply(alloc: Global, body: &mut Body, op: OpId) -> Result<(), AllocError>
        requires fit { IsOfFit body.old }
        requires live { HasOp body.old op }
        requires matches { is_some (change (body_ops body.old) (position_in body.old op)) ≡ true }
        ensures folded { OnOk result (IsFolded change body.old body.new (position_in body.old op)) }
        ensures kept { OnErr result (ops_of body.new ≡ ops_of body.old) };
}
