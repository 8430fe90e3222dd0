//! Uses of results that instances pass through take the instances' operands.
ghost use Rattle.std.specs.Prelude.{◌≡◌, true, map, IfSome, None, OnOk, Some};
ghost use Rattle.ir_store.specs.Bodies.{ids_of, ops_of};
ghost use Rattle.ir_store.specs.BodyOps.{op_at};
ghost use Rattle.ir_store.specs.Live.{AreDistinct};
ghost use Rattle.body_edits.specs.Views.{HasOp, body_ops};
ghost use Rattle.inline_pass.specs.Callees.{callee_seen};
ghost use Rattle.inline_pass.specs.Flattening.{by_kind, by_symbol};
ghost use Rattle.inline_pass.specs.Forwarding.{IsFinal, IsPassed, InlinesAlike};
ghost use Rattle.inline_pass.specs.OperandsThere.{HaveThereFrom};

use crate::callees::{Callee, Callees, callee_of};
use crate::makers::makers_first;
use crate::moved_ops::values_joined;
use crate::passing::{given_values, passed_value, takes_own};
use ir_store::body::Body;
use ir_store::operation::{OpId, Value};
use std::alloc::{AllocError, Global};

/// Has uses of results that instances pass through take the instances' operands, those that make operands first. What is
/// then inlined is the same, and each of these uses has moved once. On an error some of them have. Linear in the body, in the
/// modules of its instances, each as often as it is instanced, and in the uses that move.
pub(crate) fn forward_all<C: Callees>(
    alloc: Global,
    body: &mut Body,
    callees: &C,
    ids: &[OpId],
) -> Result<(), AllocError>
    requires once { AreDistinct (map (λ (i : OpId). i.index) ids.now) }
    requires there { HaveThereFrom 0 (body_ops body.old) }
    ensures { OnOk result (InlinesAlike (by_symbol (C.look callees.now)) body.old body.new) }
{
    let order = makers_first(alloc, body, callees, ids)?;
    for op in order.as_slice() {
        forward(alloc, body, *op, callees)?;
    }
    Ok(())
}

/// Has uses of the results of an operation, if it is an instance of a callee, take its operands where it passes them through.
fn forward<C: Callees>(
    alloc: Global,
    body: &mut Body,
    op: OpId,
    callees: &C,
) -> Result<(), AllocError>
    requires { HaveThereFrom 0 (body_ops body.old) }
    ensures { OnOk result (InlinesAlike (by_symbol (C.look callees.now)) body.old body.new) }
{
    if !body.contains(op) {
        return Ok(());
    }
    match callee_of(callees, body.op(op).kind) {
        Some(callee) => forward_instance(alloc, body, op, callee, callees),
        None => Ok(()),
    }
}

/// Has uses of the results of an instance take its operands where it passes them through. One that takes a result of its own
/// is left as it is.
fn forward_instance<C: Callees>(
    alloc: Global,
    body: &mut Body,
    op: OpId,
    callee: Callee<'_>,
    callees: &C,
) -> Result<(), AllocError>
    requires there { HaveThereFrom 0 (body_ops body.old) }
    requires live { HasOp body.old op }
    requires is { IfSome (op_at (ops_of body.old) op.index) (λ o. by_kind (C.look callees.now) o.parts.kind ≡ Some (callee_seen callee)) }
    ensures { OnOk result (InlinesAlike (by_symbol (C.look callees.now)) body.old body.new) }
{
    let instance = body.op(op);
    if takes_own(op, instance.operands) {
        return Ok(());
    }
    let joined = values_joined(alloc, &callee.header.ports, instance.operands)?;
    let given = given_values(alloc, callee.body)?;
    let count = instance.results.as_slice().len().min(u32::MAX as usize) as u32;
    for number in 0..count {
        let value = passed_value(given.as_slice(), joined.as_slice(), number);
        forward_if_some(body, op, number, value, callees);
    }
    Ok(())
}

/// The same for one result, if the instance passes a value through to it.
fn forward_if_some<C: Callees>(
    body: &mut Body,
    op: OpId,
    number: u32,
    value: Option<Value>,
    callees: &C,
)
    requires there { HaveThereFrom 0 (body_ops body.old) }
    requires passed { IfSome value (λ v. IsPassed (C.look callees.now) (ops_of body.old) op number v) }
    ensures alike { InlinesAlike (by_symbol (C.look callees.now)) body.old body.new }
    ensures stays { op_at (ops_of body.new) op.index ≡ op_at (ops_of body.old) op.index }
{
    if let Some(value) = value {
        forward_result(body, op, number, value, callees);
    }
}

/// Has uses of a result of an instance take the value that it passes through to it, if that is final.
fn forward_result<C: Callees>(body: &mut Body, op: OpId, number: u32, value: Value, callees: &C)
    requires there { HaveThereFrom 0 (body_ops body.old) }
    requires passed { IsPassed (C.look callees.now) (ops_of body.old) op number value }
    ensures alike { InlinesAlike (by_symbol (C.look callees.now)) body.old body.new }
    ensures stays { op_at (ops_of body.new) op.index ≡ op_at (ops_of body.old) op.index }
{
    if is_final(body, value, callees) {
        body.replace_all_uses(Value::Result(op, number), value);
    }
}

/// Whether a value is no result of an instance of a callee.
fn is_final<C: Callees>(body: &Body, value: Value, callees: &C) -> bool
    ensures { result ≡ true → IsFinal (C.look callees.now) (ops_of body.now) value }
{
    match value {
        Value::Result(id, _) => body.contains(id) && is_plain(body, id, callees),
        Value::Port(_) | Value::Undefined => true,
    }
}

/// Whether an operation is no instance of a callee.
fn is_plain<C: Callees>(body: &Body, op: OpId, callees: &C) -> bool
    requires { HasOp body.now op }
    ensures { result ≡ true → IfSome (op_at (ops_of body.now) op.index) (λ o. by_kind (C.look callees.now) o.parts.kind ≡ None) }
{
    callee_of(callees, body.op(op).kind).is_none()
}
