//! Equal operations are merged in an order in which those that make operands come before those that take them.
ghost use Rattle.std.specs.Prelude.{◌≡◌, true, IfSome};
ghost use Rattle.ir_store.specs.Bodies.{ops_of};
ghost use Rattle.body_edits.specs.FitBodies.{IsOfFit};
ghost use Rattle.body_edits.specs.Views.{HasOp, body_ops, position_in};
ghost use Rattle.cse_pass.specs.EqualOps.{EqualFound};
ghost use Rattle.cse_pass.specs.Merges.{MergesInto};
ghost use Rattle.cse_pass.specs.Orders.{stands_before, AreInOrder, IsEarlierSame};

use crate::equal_ops::are_same;
use crate::groups::Groups;
use crate::hashes::hash_of;
use crate::merges::merge;
use body_edits::purity::is_pure;
use ir_store::body::Body;
use ir_store::operation::OpId;
use std::alloc::{AllocError, Global};

/// Merges equal pure operations, each into an earlier one, in an order in which those that make operands come before those
/// that take them; some may be left. On an error some are merged. Each operation is visited once, and each use moves once, so
/// this is linear in the operations and their operands on average.
pub fn merge_along(
    alloc: Global,
    body: &mut Body,
    order: &[OpId],
    places: &[u32],
) -> Result<(), AllocError>
    requires fit { IsOfFit body.old }
    requires ordered { AreInOrder places.now body.old }
    ensures fit { IsOfFit body.new }
    ensures merges { MergesInto (body_ops body.old) (body_ops body.new) }
{
    let mut groups = Groups::new(alloc);
    for op in order {
        visit_along(alloc, body, &mut groups, *op, places)?;
    }
    Ok(())
}

/// Merges a pure operation into an equal one of the groups that stands before it, else puts it into the groups.
fn visit_along(
    alloc: Global,
    body: &mut Body,
    groups: &mut Groups,
    op: OpId,
    places: &[u32],
) -> Result<(), AllocError>
    requires fit { IsOfFit body.old }
    requires ordered { AreInOrder places.now body.old }
    ensures fit { IsOfFit body.new }
    ensures ordered { AreInOrder places.now body.new }
    ensures merges { MergesInto (body_ops body.old) (body_ops body.new) }
{
    if !body.contains(op) {
        return Ok(());
    }
    let own = body.op(op);
    if !is_pure(own.kind) {
        return Ok(());
    }
    let hash = hash_of(&own);
    let Some(first) = find_earlier(body, groups.of(hash), op, places) else {
        return groups.add(alloc, hash, op, &[]);
    };
    merge(body, op, first)
}

/// One of some ids whose operation stands before another one and is the same. Linear in the ids, and in the operands and types
/// of those that are compared.
fn find_earlier(body: &Body, ids: &[OpId], op: OpId, places: &[u32]) -> Option<OpId>
    requires { HasOp body.now op }
    ensures { IfSome result (λ first. IsEarlierSame places.now body.now op first) }
{
    for id in ids {
        if is_earlier_same(body, *id, op, places) {
            return Some(*id);
        }
    }
    None
}

/// Whether an operation is there, stands before another one and is the same.
fn is_earlier_same(body: &Body, id: OpId, op: OpId, places: &[u32]) -> bool
    requires { HasOp body.now op }
    ensures { result ≡ true → IsEarlierSame places.now body.now op id }
{
    if !body.contains(id) {
        return false;
    }
    stands_before(places, id, op) && are_same(&body.op(id), &body.op(op))
}

/// Whether a table has the operation of one id before that of another.
fn stands_before(places: &[u32], a: OpId, b: OpId) -> bool
    ensures { result ≡ stands_before places.now a b }
{
    let Some(first) = places.get(a.number() as usize) else {
        return false;
    };
    let Some(second) = places.get(b.number() as usize) else {
        return false;
    };
    *first < *second
}
