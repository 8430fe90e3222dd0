//! Equal operations are merged.
ghost use Rattle.std.specs.Prelude.{◌≡◌, ◌≤◌, suc, map, take, length, option_map, IfOk, IfSome, OnOk, OnErr};
ghost use Rattle.ir_store.specs.Bodies.{ids_of, ops_of, op_id, first_id};
ghost use Rattle.body_edits.specs.FitBodies.{IsOfFit};
ghost use Rattle.body_edits.specs.Views.{HasOp, body_ops, position_in};
ghost use Rattle.cse_pass.specs.Cse.{Changes};
ghost use Rattle.cse_pass.specs.EqualOps.{equal_before, EqualFound};
ghost use Rattle.cse_pass.specs.Groups.{IsGrouping};
ghost use Rattle.cse_pass.specs.Merges.{IsMerged};
ghost use Rattle.cse_pass.specs.Sweeps.{IsVisited, IsMergedInto, IsMergeSweep};

use crate::equal_ops::find_same;
use crate::groups::Groups;
use crate::hashes::hash_of;
use body_edits::purity::is_pure;
use ir_store::body::Body;
use ir_store::operation::{OpId, Value};
use std::alloc::{AllocError, Global};

/// Merges equal pure operations, of which the first stays, until none is equal to an earlier one. On an error some are merged.
pub fn merge_equal(alloc: Global, body: &mut Body) -> Result<(), AllocError>
    requires { IsOfFit body.old }
    ensures fit { IsOfFit body.new }
    ensures merged { OnOk result (IsMerged (body_ops body.old) (body_ops body.new)) }
    ensures changes { Changes (body_ops body.old) (body_ops body.new) }
{
    while merge_sweep(alloc, body)? {}
    Ok(())
}

/// A sweep over a body, and whether an operation was merged.
fn merge_sweep(alloc: Global, body: &mut Body) -> Result<bool, AllocError>
    requires { IsOfFit body.old }
    ensures fit { IsOfFit body.new }
    ensures swept { IfOk result (λ merged. IsMergeSweep (body_ops body.old) merged (body_ops body.new)) }
    ensures changes { Changes (body_ops body.old) (body_ops body.new) }
{
    let mut groups = Groups::new(alloc);
    let mut merged = false;
    let mut position: usize = 0;
    let mut at = first_op(body);
    while let Some(op) = at {
        at = body.next_op(op);
        if visit(alloc, body, &mut groups, op, position)? {
            merged = true;
        } else {
            position += 1;
        }
    }
    Ok(merged)
}

/// The first operation.
fn first_op(body: &Body) -> Option<OpId>
    ensures { result ≡ first_id (map op_id (ids_of body.now)) }
{
    body.ops().next()
}

/// Merges an operation into the first one before it that is equal, and says whether there is one; the others are put into
/// the groups.
fn visit(
    alloc: Global,
    body: &mut Body,
    groups: &mut Groups,
    op: OpId,
    position: usize,
) -> Result<bool, AllocError>
    requires fit { IsOfFit body.old }
    requires live { HasOp body.old op }
    requires position { position ≡ position_in body.old op }
    requires grouped { IsGrouping groups.old (take position (ops_of body.old)) }
    ensures fit { IsOfFit body.new }
    ensures visited { IfOk result (λ merged. IsVisited body.old body.new groups.new position merged) }
    ensures changes { Changes (body_ops body.old) (body_ops body.new) }
{
    let Some(first) = equal_earlier(body, groups, op, position) else {
        enter(alloc, body, groups, op, position)?;
        return Ok(false);
    };
    merge(body, op, first)?;
    if groups.takes(op) {
        *groups = groups_of_first(alloc, body, position)?;
    }
    Ok(true)
}

/// The first operation that is equal to a pure one and stands before it. Linear in the operations of one hash.
fn equal_earlier(body: &Body, groups: &Groups, op: OpId, position: usize) -> Option<OpId>
    requires fit { IsOfFit body.now }
    requires live { HasOp body.now op }
    requires position { position ≡ position_in body.now op }
    requires grouped { IsGrouping groups.now (take position (ops_of body.now)) }
    ensures equal { equal_before (body_ops body.now) position ≡ option_map (position_in body.now) result }
    ensures live { IfSome result (HasOp body.now) }
{
    let own = body.op(op);
    if !is_pure(own.kind) {
        return None;
    }
    find_same(body, groups.of(hash_of(&own)), op)
}

/// Has an operation stand for a later equal one, which goes. On an error the operations stay. Linear in the operation's
/// results and, for each, in the chain of the head that they have.
pub fn merge(body: &mut Body, op: OpId, first: OpId) -> Result<(), AllocError>
    requires fit { IsOfFit body.old }
    requires live { HasOp body.old op }
    requires first { HasOp body.old first }
    requires equal { EqualFound (body_ops body.old) (position_in body.old op) (position_in body.old first) }
    ensures merged { OnOk result (IsMergedInto body.old body.new op first) }
    ensures kept { OnErr result (ops_of body.new ≡ ops_of body.old) }
{
    let Ok(count) = u32::try_from(body.op(op).results.len()) else {
        return Err(AllocError);
    };
    for number in 0..count {
        body.replace_all_uses(Value::Result(op, number), Value::Result(first, number));
    }
    body.erase(op);
    Ok(())
}

/// The groups of the first operations, so many of them.
fn groups_of_first(alloc: Global, body: &Body, count: usize) -> Result<Groups, AllocError>
    requires fit { IsOfFit body.now }
    requires within { count ≤ length (ids_of body.now) }
    ensures { IfOk result (λ groups. IsGrouping groups (take count (ops_of body.now))) }
{
    let mut groups = Groups::new(alloc);
    let mut position: usize = 0;
    let mut at = first_op(body);
    while position < count {
        let Some(op) = at else {
            return Ok(groups);
        };
        enter(alloc, body, &mut groups, op, position)?;
        at = body.next_op(op);
        position += 1;
    }
    Ok(groups)
}

/// Puts an operation into the groups of those before it, where it is pure.
fn enter(
    alloc: Global,
    body: &Body,
    groups: &mut Groups,
    op: OpId,
    position: usize,
) -> Result<(), AllocError>
    requires fit { IsOfFit body.now }
    requires live { HasOp body.now op }
    requires position { position ≡ position_in body.now op }
    requires grouped { IsGrouping groups.old (take position (ops_of body.now)) }
    ensures { OnOk result (IsGrouping groups.new (take (suc position) (ops_of body.now))) }
{
    let own = body.op(op);
    if !is_pure(own.kind) {
        return Ok(());
    }
    groups.add(alloc, hash_of(&own), op, own.operands)
}
