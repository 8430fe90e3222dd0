//! Instances of private modules that become the bodies of their modules.
ghost use Rattle.std.specs.Prelude.{◌≡◌, option_map, OnOk, IfOk, IfSome};
ghost use Rattle.hw_model.specs.KindViews.{kind_of};
ghost use Rattle.ir_store.specs.Bodies.{ops_of};
ghost use Rattle.ir_store.specs.Designs.{ports_in};
ghost use Rattle.ir_store.specs.BodyOps.{op_at};
ghost use Rattle.body_edits.specs.Views.{HasOp, body_ops, position_in};
ghost use Rattle.inline_pass.specs.Callees.{callee_seen};
ghost use Rattle.inline_pass.specs.Flattening.{inline_all, by_kind, by_symbol};
ghost use Rattle.inline_pass.specs.Inlinable.{IsInlinable, IsStepAt, AreInlined, own_name};
ghost use Rattle.inline_pass.specs.MovedOps.{ArePutBefore};
ghost use Rattle.inline_pass.specs.OperandsThere.{HaveThereFrom};

use crate::body_changes::{move_operands, put_all_before, replace_results, take_wires_out};
use crate::callees::{Callee, Callees, callee_of};
use crate::forwarding::forward_all;
use crate::moved_ops::{Destinations, moved_ops, values_joined, wires_for};
use body_index::position_table::{ids_in, positions_of};
use hw_model::kinds::OpKind;
use ir_store::body::Body;
use ir_store::operation::OpId;
use std::alloc::{AllocError, Global};

/// Has each instance in a body of a module that is found among the callees become that module's body, in its place, with the
/// names of what has one after the instance's own (CIRCT, HW dialect: `hw-flatten-modules`). On an error, which comes when out
/// of memory, the body is as it then was. Linear in the body, in what is put in, and in the uses of the results of the instances:
/// along a chain of instances that pass an input through each use moves once, where the chain begins at no result of an instance
/// that is inlined too, and none of them takes a result of its own.
pub fn inline_into<C: Callees>(
    alloc: Global,
    body: &mut Body,
    callees: &C,
) -> Result<(), AllocError>
    requires { IsInlinable body.old (C.look callees.now) }
    ensures { OnOk result (body_ops body.new ≡ inline_all (by_symbol (C.look callees.now)) (body_ops body.old)) }
{
    let ids = ids_in(alloc, body)?;
    forward_all(alloc, body, callees, ids.as_slice())?;
    for id in ids.as_slice() {
        inline_op(alloc, body, *id, callees)?;
    }
    Ok(())
}

/// Inlines an operation of the body if it is an instance of a callee.
fn inline_op<C: Callees>(
    alloc: Global,
    body: &mut Body,
    op: OpId,
    callees: &C,
) -> Result<(), AllocError>
    requires there { HaveThereFrom (position_in body.old op) (body_ops body.old) }
    requires live { HasOp body.old op }
    ensures { OnOk result (IsStepAt (by_symbol (C.look callees.now)) body.old body.new (position_in body.old op)) }
{
    match callee_of(callees, body.op(op).kind) {
        Some(callee) => inline_instance(alloc, body, op, callee),
        None => Ok(()),
    }
}

/// Inlines an instance of a module.
fn inline_instance(
    alloc: Global,
    body: &mut Body,
    op: OpId,
    callee: Callee<'_>,
) -> Result<(), AllocError>
    requires there { HaveThereFrom (position_in body.old op) (body_ops body.old) }
    requires live { HasOp body.old op }
    ensures { OnOk result (AreInlined (callee_seen callee.entry) body.old body.new (position_in body.old op)) }
{
    let wires = put_inlined(alloc, body, op, callee)?;
    replace_results(body, op, wires.as_slice());
    body.erase(op);
    take_wires_out(body, wires.as_slice());
    Ok(())
}

/// Puts wires for the results of an instance, and the operations of its module, before it. The wires carry what the
/// module gives to its outputs.
fn put_inlined(
    alloc: Global,
    body: &mut Body,
    op: OpId,
    callee: Callee<'_>,
) -> Result<Vec<OpId>, AllocError>
    requires { HasOp body.old op }
    ensures { IfOk result (λ wires. IfSome (op_at (ops_of body.old) op.index) (λ o. ArePutBefore (own_name o.parts.kind) (ports_in callee.entry.header.now.ports) (ops_of callee.entry.body.now) o (ops_of body.old) (ops_of body.new) wires.items)) }
{
    let instance = body.op(op);
    let moved = moved_ops(alloc, own_name(instance.kind), callee.body)?;
    let joined = values_joined(alloc, &callee.header.ports, instance.operands)?;
    let given = moved.given.as_slice();
    let wires = wires_for(alloc, instance.results, given, instance.location)?;
    let positions = positions_of(alloc, moved.ids.as_slice())?;
    let wires = put_all_before(alloc, body, op, wires)?;
    let copies = put_all_before(alloc, body, op, moved.copies)?;
    let destinations = Destinations {
        joined: joined.as_slice(),
        ids: moved.ids.as_slice(),
        positions: positions.as_slice(),
        copies: copies.as_slice(),
    };
    move_operands(alloc, body, &destinations, wires.as_slice())?;
    move_operands(alloc, body, &destinations, copies.as_slice())?;
    Ok(wires)
}

/// The own name of an instance.
fn own_name(kind: &OpKind) -> &[u8]
    ensures { result.now ≡ own_name (kind_of kind.now) }
{
    match kind {
        OpKind::Instance(instance) => instance.name.as_bytes(),
        _ => &[],
    }
}
