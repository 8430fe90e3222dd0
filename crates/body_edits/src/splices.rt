//! The operands of an operation put in the place of one operand of another (CIRCT, Comb dialect: canonicalization of
//! operations of any number of operands).
ghost use Rattle.std.specs.Prelude.{◌≡◌, OnOk, OnErr};
ghost use Rattle.ir_store.specs.Bodies.{ops_of};
ghost use Rattle.body_edits.specs.FitBodies.{IsOfFit};
ghost use Rattle.body_edits.specs.Nests.{IsInner, IsTakenIn};
ghost use Rattle.body_edits.specs.Views.{HasOp, body_ops, position_in};

use crate::spliced::spliced_values;
use ir_store::body::Body;
use ir_store::operation::OpId;
use std::alloc::{AllocError, Global};

/// Puts the operands of the operation `inner` in the place of the operand of a number of `op`, and takes `inner` out. On an
/// error, which comes where memory that is needed is refused, the operations stay. Linear in the operands of both.
pub fn take_in(
    alloc: Global,
    body: &mut Body,
    op: OpId,
    number: usize,
    inner: OpId,
) -> Result<(), AllocError>
    requires fit { IsOfFit body.old }
    requires live { HasOp body.old op }
    requires inner { IsInner (body_ops body.old) (position_in body.old op) number (position_in body.old inner) }
    ensures taken { OnOk result (IsTakenIn body.old body.new (position_in body.old op) number (position_in body.old inner)) }
    ensures kept { OnErr result (ops_of body.new ≡ ops_of body.old) }
{
    let outer = body.op(op).operands;
    let others = body.op(inner).operands;
    let operands = spliced_values(alloc, outer, number, others)?;
    body.set_operands(op, operands.as_slice())?;
    body.erase(inner);
    Ok(())
}
