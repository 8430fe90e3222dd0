//! The lowering of registers: muxes in the place of enables and synchronous resets.
ghost use Rattle.std.specs.Prelude.{◌≡◌, ◌&&◌, ◌∷◌, is_none, map, option_map, OnOk, OnErr};
ghost use Rattle.hw_model.specs.RegisterViews.{register_of};
ghost use Rattle.ir_store.specs.Bodies.{ids_of, ops_of, op_id, first_id};
ghost use Rattle.body_edits.specs.FitBodies.{IsOfFit};
ghost use Rattle.body_edits.specs.Views.{HasOp, body_ops, op_seen, value_ref};
ghost use Rattle.seq_lower.specs.Lowered.{clocked_register, lowered, Lowers};
ghost use Rattle.seq_lower.specs.LoweredOps.{HasRegister, IsClocked, IsLoweredIn, IsLoadedByOne, IsLoadedByTwo};
ghost use Rattle.seq_lower.specs.NewOps.{choice_values};
ghost use Rattle.seq_lower.specs.Puts.{IsReady, MayBeOperands, HasRoom};

use crate::edits::{make_room, put_mux, put_register};
use crate::new_ops::{Choice, new_mux, new_register};
use hw_model::kinds::OpKind;
use hw_model::registers::{Register, ResetBy, register_of};
use ir_store::body::{Body, Op};
use ir_store::operation::{OpId, Value};
use std::alloc::{AllocError, Global};

/// Lowers the registers of a body (CIRCT, Seq dialect: `seq.compreg`, `seq.compreg.ce`, `seq.firreg`): one with an enable
/// loads what a mux gives, the next value where it is enabled and otherwise the one that it has, one with a synchronous reset
/// what another mux gives, the reset value where it is reset; `seq.compreg.ce` becomes `seq.compreg`. Registers with an
/// asynchronous reset stay. On an error, which comes where memory that is needed is refused, the first registers are lowered.
/// Linear in the operations, and in the uses and operands of lowered registers.
pub fn lower_regs(alloc: Global, body: &mut Body) -> Result<(), AllocError>
    requires { IsOfFit body.old }
    ensures lowered { OnOk result (body_ops body.new ≡ lowered (body_ops body.old)) }
    ensures partly { OnErr result (Lowers (body_ops body.old) (body_ops body.new)) }
{
    let mut at = first_op(body);
    while let Some(op) = at {
        let next = body.next_op(op);
        lower_op(alloc, body, op)?;
        at = next;
    }
    Ok(())
}

/// The first operation.
fn first_op(body: &Body) -> Option<OpId>
    ensures { result ≡ first_id (map op_id (ids_of body.now)) }
{
    body.ops().next()
}

/// Lowers an operation, where it is a register with an enable or a synchronous reset. The error comes only when out of memory.
fn lower_op(alloc: Global, body: &mut Body, op: OpId) -> Result<(), AllocError>
    requires fit { IsOfFit body.old }
    requires live { HasOp body.old op }
    ensures lowered { OnOk result (IsLoweredIn body.old body.new op) }
    ensures kept { OnErr result (ops_of body.new ≡ ops_of body.old) }
{
    let found = body.op(op);
    match clocked_register(&found) {
        Some(register) => {
            if is_plain(&register) {
                return Ok(());
            }
            make_room(body)?;
            lower_register(alloc, body, op, register)
        }
        None => Ok(()),
    }
}

/// Whether a register has neither enable nor reset.
fn is_plain(register: &Register<Value>) -> bool
    ensures { result ≡ is_none register.now.enable && is_none register.now.reset }
{
    register.enable.is_none() && register.reset.is_none()
}

/// The register that an operation is, but for one with an asynchronous reset.
fn clocked_register(op: &Op<'_>) -> Option<Register<Value>>
    ensures { (b : Body) → option_map (register_of (value_ref b)) result ≡ clocked_register (op_seen b op.now) }
{
    match op.kind {
        OpKind::AsyncFirReg => None,
        _ => register_of(op.kind, op.operands),
    }
}

/// Lowers a register with these operands. The error comes only when out of memory.
fn lower_register(
    alloc: Global,
    body: &mut Body,
    op: OpId,
    register: Register<Value>,
) -> Result<(), AllocError>
    requires fit { IsOfFit body.old }
    requires live { HasOp body.old op }
    requires register { HasRegister body.old op register }
    requires room { HasRoom body.old 3 8 }
    ensures lowered { OnOk result (IsLoweredIn body.old body.new op) }
    ensures kept { OnErr result (ops_of body.new ≡ ops_of body.old) }
{
    match register.enable {
        Some(enable) => {
            let loaded = Choice {
                condition: enable,
                high: register.next,
                low: Value::Result(op, 0),
            };
            match register.reset {
                Some(reset) => load_by_two(alloc, body, op, loaded, reset, register.clock),
                None => load_by_one(alloc, body, op, loaded, register.clock),
            }
        }
        None => match register.reset {
            Some(reset) => {
                let loaded = Choice {
                    condition: reset.signal,
                    high: reset.value,
                    low: register.next,
                };
                load_by_one(alloc, body, op, loaded, register.clock)
            }
            None => Ok(()),
        },
    }
}

/// Has a register load what a mux gives. The error comes only when out of memory.
fn load_by_one(
    alloc: Global,
    body: &mut Body,
    op: OpId,
    loaded: Choice,
    clock: Value,
) -> Result<(), AllocError>
    requires ready { IsReady body.old op }
    requires clocked { IsClocked body.old op }
    requires values { MayBeOperands body.old op (clock ∷ choice_values loaded) }
    requires room { HasRoom body.old 3 8 }
    ensures loaded { OnOk result (IsLoadedByOne body.old body.new op loaded clock) }
    ensures kept { OnErr result (ops_of body.new ≡ ops_of body.old) }
{
    let found = body.op(op);
    let mux = new_mux(alloc, &found)?;
    let register = new_register(alloc, &found)?;
    let chosen = put_mux(alloc, body, op, mux, loaded);
    put_register(alloc, body, op, register, Value::Result(chosen, 0), clock);
    Ok(())
}

/// Has a register load what a second mux gives, the value of a reset or what a first mux gives. The error comes only when out of
/// memory.
fn load_by_two(
    alloc: Global,
    body: &mut Body,
    op: OpId,
    loaded: Choice,
    reset: ResetBy<Value>,
    clock: Value,
) -> Result<(), AllocError>
    requires ready { IsReady body.old op }
    requires clocked { IsClocked body.old op }
    requires values { MayBeOperands body.old op (clock ∷ reset.signal ∷ reset.value ∷ choice_values loaded) }
    requires room { HasRoom body.old 3 8 }
    ensures loaded { OnOk result (IsLoadedByTwo body.old body.new op loaded reset clock) }
    ensures kept { OnErr result (ops_of body.new ≡ ops_of body.old) }
{
    let found = body.op(op);
    let mux = new_mux(alloc, &found)?;
    let reset_mux = new_mux(alloc, &found)?;
    let register = new_register(alloc, &found)?;
    let first = put_mux(alloc, body, op, mux, loaded);
    let given = Choice {
        condition: reset.signal,
        high: reset.value,
        low: Value::Result(first, 0),
    };
    let second = put_mux(alloc, body, op, reset_mux, given);
    put_register(alloc, body, op, register, Value::Result(second, 0), clock);
    Ok(())
}
