//! The edits by which patterns change a body.
ghost use Rattle.std.specs.Prelude.{◌≡◌, remove};
ghost use Rattle.edit_laws.specs.Laws.{erase_op};
ghost use Rattle.ir_store.specs.Bodies.{ids_of};
ghost use Rattle.body_edits.specs.FitBodies.{IsOfFit};
ghost use Rattle.body_edits.specs.Replaceable.{MayStand};
ghost use Rattle.body_edits.specs.Views.{HasOp, body_ops, position_in, value_ref};

use ir_store::body::Body;
use ir_store::operation::{OpId, Value};

/// Has a value stand for the first result of an operation, and takes the operation out. Linear in the uses of the result
/// and in the operands.
pub fn stand_in(body: &mut Body, op: OpId, value: Value)
    requires fit { IsOfFit body.old }
    requires live { HasOp body.old op }
    requires may { MayStand (body_ops body.old) (position_in body.old op) (value_ref body.old value) }
    ensures ops { body_ops body.new ≡ erase_op (position_in body.old op) (value_ref body.old value) (body_ops body.old) }
    ensures ids { ids_of body.new ≡ remove (ids_of body.old) (position_in body.old op) }
{
    body.replace_all_uses(Value::Result(op, 0), value);
    body.erase(op);
}
