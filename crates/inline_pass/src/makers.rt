//! An order of operations in which those that make what an instance passes through come before it.
ghost use Rattle.std.specs.Prelude.{map};
ghost use Rattle.ir_store.specs.Live.{AreDistinct};

use crate::callees::{Callees, callee_of};
use crate::moved_ops::values_joined;
use crate::passing::{given_values, passed_value};
use body_index::position_table::positions_of;
use graphs::{NodeList, likely_order};
use ir_store::body::Body;
use ir_store::operation::{OpId, Value};
use std::alloc::{AllocError, Global};

/// The operations of some ids in an order in which each instance of a callee comes after the operations that make what it
/// passes through. Those that need themselves, and those that need these, are left out. Nothing is promised of the order.
pub(crate) fn makers_first<C: Callees>(
    alloc: Global,
    body: &Body,
    callees: &C,
    ids: &[OpId],
) -> Result<Vec<OpId>, AllocError>
    requires { AreDistinct (map (λ (i : OpId). i.index) ids.now) }
{
    let places = positions_of(alloc, ids)?;
    let mut makers = Vec::with_capacity(alloc, ids.len())?;
    for id in ids {
        makers.push(makers_of(alloc, body, callees, *id, places.as_slice())?)?;
    }
    let order = likely_order(alloc, makers.as_slice())?;
    ids_at(alloc, ids, order.as_slice())
}

/// The ids at some positions.
fn ids_at(alloc: Global, ids: &[OpId], places: &[u32]) -> Result<Vec<OpId>, AllocError> {
    let mut ordered = Vec::with_capacity(alloc, places.len())?;
    for place in places {
        if let Some(id) = ids.get(*place as usize) {
            ordered.push(*id)?;
        }
    }
    Ok(ordered)
}

/// The positions of the operations that make what an operation passes through.
fn makers_of<C: Callees>(
    alloc: Global,
    body: &Body,
    callees: &C,
    op: OpId,
    places: &[u32],
) -> Result<NodeList, AllocError> {
    let mut nodes = Vec::new(alloc);
    if !body.contains(op) {
        return Ok(NodeList { nodes });
    }
    let instance = body.op(op);
    if let Some(callee) = callee_of(callees, instance.kind) {
        let joined = values_joined(alloc, &callee.header.ports, instance.operands)?;
        let given = given_values(alloc, callee.body)?;
        note_makers(given.as_slice(), joined.as_slice(), places, &mut nodes)?;
    }
    Ok(NodeList { nodes })
}

/// Notes the positions of the operations that make what is passed through.
fn note_makers(
    given: &[Value],
    joined: &[Value],
    places: &[u32],
    nodes: &mut Vec<u32>,
) -> Result<(), AllocError> {
    let count = given.len().min(u32::MAX as usize) as u32;
    for number in 0..count {
        if let Some(Value::Result(id, _)) = passed_value(given, joined, number) {
            if let Some(place) = places.get(id.number() as usize) {
                nodes.push(*place)?;
            }
        }
    }
    Ok(())
}
