//! Edits of a body that has room for them.
ghost use Rattle.std.specs.Prelude.{◌≡◌, [], ◌∷◌, length, OnOk};
ghost use Rattle.ir_store.specs.Bodies.{ops_of};
ghost use Rattle.body_edits.specs.Replaced.{IsReplaced};
ghost use Rattle.body_edits.specs.Views.{position_in};
ghost use Rattle.seq_lower.specs.NewOps.{choice_values};
ghost use Rattle.seq_lower.specs.Puts.{IsReady, MayBeOperands, HasRoom, IsPutBefore, new_with};

use crate::new_ops::{Choice, plain_operands};
use ir_store::body::Body;
use ir_store::operation::{NewOp, OpId, Value};
use std::alloc::{AllocError, Global};

/// How many operations stand for a register at most, and how many operands they have: two muxes and a register.
const OPS: u32 = 3;

const USES: u32 = 8;

/// Makes room for what stands for a register. The operations stay. On an error memory that is needed is refused; a body of
/// 2^32 - 3 operations or more counts as out of memory.
pub fn make_room(body: &mut Body) -> Result<(), AllocError>
    ensures room { OnOk result (HasRoom body.new 3 8) }
    ensures stay { ops_of body.new ≡ ops_of body.old }
{
    if body.op_count() >= u32::MAX as usize - 2 {
        return Err(AllocError);
    }
    body.reserve(OPS, USES)
}

/// Puts a mux of a choice before an operation.
pub fn put_mux(alloc: Global, body: &mut Body, op: OpId, mut mux: NewOp, choice: Choice) -> OpId
    requires ready { IsReady body.old op }
    requires operands { MayBeOperands body.old op (choice_values choice) }
    requires room { HasRoom body.old 1 3 }
    ensures { IsPutBefore body.old body.new op result (new_with body.old mux (choice_values choice)) 3 }
{
    mux.operands = choice.operands(alloc);
    put_before(body, op, mux)
}

/// Puts a register that loads a value at each edge of a clock in the place of an operation, for whose first result it then
/// stands. Linear in the uses of the result and in the operands.
pub fn put_register(
    alloc: Global,
    body: &mut Body,
    op: OpId,
    mut register: NewOp,
    next: Value,
    clock: Value,
)
    requires ready { IsReady body.old op }
    requires operands { MayBeOperands body.old op (next ∷ clock ∷ []) }
    requires room { HasRoom body.old 1 2 }
    ensures { IsReplaced body.old body.new (position_in body.old op) (new_with body.old register (next ∷ clock ∷ [])) }
{
    register.operands = plain_operands(alloc, next, clock);
    put_in_place(body, op, register);
}

/// Puts a new operation before another one. Linear in its operands.
fn put_before(body: &mut Body, op: OpId, new: NewOp) -> OpId
    requires ready { IsReady body.old op }
    requires operands { MayBeOperands body.old op new.operands.items }
    requires room { HasRoom body.old 1 (length new.operands.items) }
    ensures { IsPutBefore body.old body.new op result (new_with body.old new new.operands.items) (length new.operands.items) }
{
    match body.add_op(Some(op), new) {
        Ok(id) => id,
        Err(_) => unreachable!(),
    }
}

/// Puts a new operation in the place of another one, for whose first result it then stands. Linear in the uses of the result
/// and in the operands.
fn put_in_place(body: &mut Body, op: OpId, new: NewOp)
    requires ready { IsReady body.old op }
    requires operands { MayBeOperands body.old op new.operands.items }
    requires room { HasRoom body.old 1 (length new.operands.items) }
    ensures { IsReplaced body.old body.new (position_in body.old op) (new_with body.old new new.operands.items) }
{
    match body.add_op(Some(op), new) {
        Ok(id) => {
            body.replace_all_uses(Value::Result(op, 0), Value::Result(id, 0));
            body.erase(op);
        }
        Err(_) => unreachable!(),
    }
}
