//! New operations that are put in the place of others.
ghost use Rattle.std.specs.Prelude.{◌≡◌, OnOk, OnErr};
ghost use Rattle.ir_store.specs.Bodies.{ops_of};
ghost use Rattle.ir_store.specs.Live.{AreLive};
ghost use Rattle.body_edits.specs.FitBodies.{IsOfFit};
ghost use Rattle.body_edits.specs.Replaceable.{HaveNoFurther};
ghost use Rattle.body_edits.specs.Replaced.{new_seen, HasNamed, IsReplaced};
ghost use Rattle.body_edits.specs.Views.{HasOp, body_ops, position_in};

use ir_store::body::Body;
use ir_store::operation::{NewOp, OpId, Value};
use std::alloc::AllocError;

/// Puts a new operation in the place of another one, for whose first result it then stands. On an error, which comes where
/// memory that is needed is refused, the operations stay; a body of 2^32 - 1 operations or more counts as out of memory.
/// Linear in the uses of the result and in the operands.
pub fn put_in_place(body: &mut Body, op: OpId, new: NewOp) -> Result<(), AllocError>
    requires fit { IsOfFit body.old }
    requires live { HasOp body.old op }
    requires alone { HaveNoFurther (position_in body.old op) (body_ops body.old) }
    requires named { HasNamed (body_ops body.old) (new_seen body.old new) }
    ensures replaced { OnOk result (IsReplaced body.old body.new (position_in body.old op) (new_seen body.old new)) }
    ensures operands { OnOk result (AreLive (ops_of body.new)) }
    ensures kept { OnErr result (ops_of body.new ≡ ops_of body.old) }
{
    if body.op_count() >= u32::MAX as usize {
        return Err(AllocError);
    }
    let id = body.add_op(Some(op), new)?;
    body.replace_all_uses(Value::Result(op, 0), Value::Result(id, 0));
    body.erase(op);
    Ok(())
}
