//! An order of operations in which those that make operands come before those that take them.
ghost use Rattle.std.specs.Prelude.{IfOk};
ghost use Rattle.cse_pass.specs.Orders.{AreInOrder};

use body_edits::purity::is_pure;
use body_index::position_table::{ids_in, positions_of};
use graphs::{NodeList, likely_order};
use ir_store::body::Body;
use ir_store::operation::{OpId, Value};
use std::alloc::{AllocError, Global};

/// The operations of a body in an order, and the positions at which they stood by the numbers of their ids.
#[derive(Drop)]
pub struct Levels {
    /// The operations by their levels.
    pub order: Vec<OpId>,
    /// The positions.
    pub places: Vec<u32>,
}

/// The operations of a body by their levels. Its cost is n log n in the operations, and linear in their operands.
pub fn levels_of(alloc: Global, body: &Body) -> Result<Levels, AllocError>
    ensures { IfOk result (λ levels. AreInOrder levels.places.items body.now) }
{
    let ids = ids_in(alloc, body)?;
    let places = positions_of(alloc, ids.as_slice())?;
    let order = by_levels(alloc, body, ids.as_slice(), places.as_slice())?;
    Ok(Levels { order, places })
}

/// Operations by their levels, those of one level in text order. A pure operation is one level above the highest one that
/// makes an operand of it, any other one has level 0. Those that need themselves, and those that need these, are left out.
/// Nothing is promised of the order.
fn by_levels(
    alloc: Global,
    body: &Body,
    ids: &[OpId],
    places: &[u32],
) -> Result<Vec<OpId>, AllocError> {
    let makers = makers_in(alloc, body, ids, places)?;
    let order = likely_order(alloc, makers.as_slice())?;
    let levels = node_levels(alloc, makers.as_slice(), order.as_slice())?;
    let mut keys = keys_of(alloc, levels.as_slice(), order.as_slice())?;
    keys.sort()?;
    ids_of_keys(alloc, ids, keys.as_slice())
}

/// Of each operation, the positions of those that make its operands, where it is pure.
fn makers_in(
    alloc: Global,
    body: &Body,
    ids: &[OpId],
    places: &[u32],
) -> Result<Vec<NodeList>, AllocError> {
    let mut makers = Vec::with_capacity(alloc, ids.len())?;
    for id in ids {
        makers.push(makers_of(alloc, body, *id, places)?)?;
    }
    Ok(makers)
}

fn makers_of(alloc: Global, body: &Body, id: OpId, places: &[u32]) -> Result<NodeList, AllocError> {
    let mut nodes = Vec::new(alloc);
    if body.contains(id) {
        let own = body.op(id);
        if is_pure(own.kind) {
            note_makers(own.operands, places, &mut nodes)?;
        }
    }
    Ok(NodeList { nodes })
}

/// Notes the positions of the operations that make operands.
fn note_makers(operands: &[Value], places: &[u32], nodes: &mut Vec<u32>) -> Result<(), AllocError> {
    for value in operands {
        if let Value::Result(id, _) = value {
            if let Some(place) = places.get(id.number() as usize) {
                nodes.push(*place)?;
            }
        }
    }
    Ok(())
}

/// The level of each node, the nodes being gone over in an order.
fn node_levels(alloc: Global, makers: &[NodeList], order: &[u32]) -> Result<Vec<u32>, AllocError> {
    let mut levels = vec![in alloc; 0u32; makers.len()]?;
    for node in order {
        if let Some(list) = makers.get(*node as usize) {
            let level = level_above(list.nodes.as_slice(), levels.as_slice());
            put(&mut levels, *node as usize, level);
        }
    }
    Ok(levels)
}

/// One level above the highest of some nodes, and 0 where there are none.
fn level_above(nodes: &[u32], levels: &[u32]) -> u32 {
    let mut level: u32 = 0;
    for node in nodes {
        if let Some(below) = levels.get(*node as usize) {
            level = level.max(below.saturating_add(1));
        }
    }
    level
}

/// Puts a number at a position that is there.
fn put(numbers: &mut Vec<u32>, at: usize, number: u32) {
    if let Some(slot) = numbers.get_mut(at) {
        *slot = number;
    }
}

/// Of each node of an order, 2^32 times its level and its number.
fn keys_of(alloc: Global, levels: &[u32], order: &[u32]) -> Result<Vec<u64>, AllocError> {
    let mut keys = Vec::with_capacity(alloc, order.len())?;
    for node in order {
        if let Some(level) = levels.get(*node as usize) {
            keys.push(u64::from(*level) * 4_294_967_296 + u64::from(*node))?;
        }
    }
    Ok(keys)
}

/// The ids at the positions that keys end with.
fn ids_of_keys(alloc: Global, ids: &[OpId], keys: &[u64]) -> Result<Vec<OpId>, AllocError> {
    let mut ordered = Vec::with_capacity(alloc, keys.len())?;
    for key in keys {
        if let Some(id) = ids.get((*key % 4_294_967_296) as usize) {
            ordered.push(*id)?;
        }
    }
    Ok(ordered)
}
