//! Visits of operations of a body, at which patterns of the table of folds are tried.
ghost use Rattle.std.specs.Prelude.{◌≡◌, IfOk, OnOk, OnErr};
ghost use Rattle.ir_store.specs.Bodies.{ops_of};
ghost use Rattle.body_edits.specs.FitBodies.{IsOfFit};
ghost use Rattle.body_edits.specs.Folded.{Tries};
ghost use Rattle.body_edits.specs.Views.{HasOp, position_in};
ghost use Rattle.canonicalise.specs.Canonical.{table};
ghost use Rattle.canonicalise.specs.Settled.{IsSettled, AreMarks};

use crate::marks::Marks;
use comb_fold::table::{fold, matches};
use ir_store::body::Body;
use ir_store::operation::{OpId, Value};
use smallvec::SmallVec;
use std::alloc::{AllocError, Global};

/// Tries the patterns of the table at an operation, unless it is settled, and says whether one has changed the body. Where none
/// matches, the operation is settled; one that was settled joins a run. On an error, which comes where memory that is needed is
/// refused, the operations stay.
pub(crate) fn visit(
    alloc: Global,
    body: &mut Body,
    marks: &mut Marks,
    op: OpId,
) -> Result<bool, AllocError>
    requires fit { IsOfFit body.old }
    requires live { HasOp body.old op }
    requires marks { AreMarks marks.old body.old }
    ensures tries { IfOk result (Tries table body.old body.new (position_in body.old op)) }
    ensures kept { OnErr result (ops_of body.new ≡ ops_of body.old) }
    ensures settled { OnOk result (AreMarks marks.new body.new) }
{
    if marks.is_settled(op) {
        marks.join(body, op)?;
        return Ok(false);
    }
    if matches(body, op) {
        return fold_marked(alloc, body, marks, op);
    }
    marks.settle(op)?;
    Ok(false)
}

/// Makes the fold of the first pattern that matches at an operation, and marks the operations at which another one may match
/// because of it: those that used its result, those that made its operands and have no use left, and those that have the
/// only use left of one of these. Linear in its operands and in the uses of its result, beside what the pattern takes.
fn fold_marked(
    alloc: Global,
    body: &mut Body,
    marks: &mut Marks,
    op: OpId,
) -> Result<bool, AllocError>
    requires fit { IsOfFit body.old }
    requires live { HasOp body.old op }
    requires marks { AreMarks marks.old body.old }
    requires unsettled { IsSettled marks.old op.index → ⊥ }
    ensures tries { IfOk result (Tries table body.old body.new (position_in body.old op)) }
    ensures kept { OnErr result (ops_of body.new ≡ ops_of body.old) }
    ensures settled { OnOk result (AreMarks marks.new body.new) }
{
    let operands: SmallVec<Value, 4, Global> = SmallVec::from_slice(alloc, body.op(op).operands)?;
    marks.mark_users(body, Value::Result(op, 0));
    let folded = fold(alloc, body, op)?;
    marks.mark_makers(body, operands.as_slice());
    Ok(folded)
}
