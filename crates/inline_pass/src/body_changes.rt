//! Changes of many operations of a body.
ghost use Rattle.std.specs.Prelude.{◌≡◌, ◌<◌, ◌^◌, length, map, All, IfOk, OnOk};
ghost use Rattle.ir_store.specs.Bodies.{ids_of, ops_of};
ghost use Rattle.body_edits.specs.Views.{HasOp, body_ops};
ghost use Rattle.inline_laws.specs.Unwire.{unwire};
ghost use Rattle.inline_pass.specs.MovedOps.{without_id, with_ids, all_put_before, operands_moved, results_replaced};
ghost use Rattle.inline_pass.specs.Destinations.{AreDestinations, value_there};
ghost use Rattle.body_edits.specs.WiresOut.{StandTogether, first_position, ids_without};

use crate::moved_ops::Destinations;
use body_edits::wires::carried_value;
use ir_store::body::Body;
use ir_store::operation::{NewOp, OpId, Value};
use std::alloc::{AllocError, Global};

/// Puts operations in order before another one, and gives their ids. On an error, which comes where memory that is needed is
/// refused, the body has some of them; a body of 2^32 - 1 operations or more counts as out of memory.
pub(crate) fn put_all_before(
    alloc: Global,
    body: &mut Body,
    before: OpId,
    ops: Vec<NewOp>,
) -> Result<Vec<OpId>, AllocError>
    requires { HasOp body.old before }
    ensures many { IfOk result (λ ids. length ids.items ≡ length ops.items) }
    ensures few { IfOk result (λ ids. length ids.items < 2 ^ 32) }
    ensures put { IfOk result (λ ids. ops_of body.new ≡ all_put_before before.index (with_ids ids.items (map without_id ops.items)) (ops_of body.old)) }
{
    let mut ids = Vec::new(alloc);
    for op in ops {
        if body.op_count() >= u32::MAX as usize {
            return Err(AllocError);
        }
        ids.push(body.add_op(Some(before), op)?)?;
    }
    Ok(ids)
}

/// Gives each operand of some operations of a body, which is a value of a module, its position there. On an error, which comes
/// where memory that is needed is refused, some of them have theirs.
pub(crate) fn move_operands(
    alloc: Global,
    body: &mut Body,
    destinations: &Destinations<'_>,
    ops: &[OpId],
) -> Result<(), AllocError>
    requires destinations { AreDestinations destinations.now }
    requires live { All (HasOp body.old) ops.now }
    ensures { OnOk result (ops_of body.new ≡ operands_moved (value_there destinations.now) ops.now (ops_of body.old)) }
{
    for op in ops {
        let operands = destinations.all_moved(alloc, body.op(*op).operands)?;
        body.set_operands(*op, operands.as_slice())?;
    }
    Ok(())
}

/// Has the first results of wires stand for the results of an operation, in order.
pub(crate) fn replace_results(body: &mut Body, op: OpId, wires: &[OpId])
    requires { length wires.now < 2 ^ 32 }
    ensures { ops_of body.new ≡ results_replaced op 0 wires.now (ops_of body.old) }
{
    let mut number = 0;
    for wire in wires {
        body.replace_all_uses(Value::Result(op, number), Value::Result(*wire, 0));
        number += 1;
    }
}

/// Takes wires that stand side by side out of a body, one after another, the operand of each standing for its result.
pub(crate) fn take_wires_out(body: &mut Body, wires: &[OpId])
    requires { StandTogether wires.now (ops_of body.old) }
    ensures ids { ids_of body.new ≡ ids_without wires.now (ids_of body.old) }
    ensures ops { body_ops body.new ≡ unwire (first_position (ids_of body.old) wires.now) (length wires.now) (body_ops body.old) }
{
    for wire in wires {
        let value = carried_value(body, *wire);
        body.replace_all_uses(Value::Result(*wire, 0), value);
        body.erase(*wire);
    }
}
