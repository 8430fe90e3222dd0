//! Modules that are too large.
ghost use Rattle.std.specs.Prelude.{◌≡◌, ◌<◌, ◌^◌, ℕ, length, map, min, IfOk, slice_get, slice_index};
ghost use Rattle.hw_model.specs.Design.{Port};
ghost use Rattle.hw_model.specs.Hierarchy.{HasNoRecursion};
ghost use Rattle.hw_model.specs.Weight.{leaf_count, body_weight as weight_of_body, weight_of};
ghost use Rattle.ir_store.specs.Bodies.{ids_of, ops_of, op_id};
ghost use Rattle.ir_store.specs.Numbered.{ops_by_position};
ghost use Rattle.ir_store.specs.Designs.{ports_in, design_of, modules_of};
ghost use Rattle.design_cycles.specs.Asked.{HasDistinctSymbols, IsTooLargeAt};
ghost use Rattle.design_cycles.specs.Calls.{call_lists};
ghost use Rattle.design_cycles.specs.Hierarchies.{IsHierarchy};
ghost use Rattle.design_cycles.specs.Positions.{FindsNumber};
ghost use Rattle.design_cycles.specs.Weighing.{kept_weight, weight_by, WeighsAt, Weighs, IsWhole};

use crate::calls::callee_of;
use crate::hierarchy::Hierarchy;
use crate::ops::read_ids;
use crate::weights::op_weight;
use body_index::op_index::op_at;
use ir_store::body::Body;
use ir_store::design::{Design, PortList};
use ir_store::operation::OpId;
use std::alloc::{AllocError, Global};

/// The first module, by its number, that is too large: its flattened weight is above 2^28. Each module is weighed once,
/// after those that it instances.
pub fn first_too_large(
    alloc: Global,
    design: &Design,
    hierarchy: &Hierarchy,
) -> Result<Option<u32>, AllocError>
    requires distinct { HasDistinctSymbols (design_of design.now) }
    requires hierarchy { IsHierarchy (design_of design.now) hierarchy.now }
    requires finite { HasNoRecursion (design_of design.now) }
    ensures { IfOk result (FindsNumber (IsTooLargeAt (design_of design.now))) }
{
    let weights = module_weights(alloc, design, hierarchy.order.nodes.as_slice())?;
    Ok(first_above(weights.as_slice(), design.module_count()))
}

/// The first of the weights that is above 2^28.
fn first_above(weights: &[u64], count: u32) -> Option<u32>
    requires { length weights.now ≡ count }
    ensures { FindsNumber (λ i. 2 ^ 28 < slice_index weights.now i) result }
{
    for number in 0..count {
        if weights[number as usize] > 1 << 28 {
            return Some(number);
        }
    }
    None
}

/// The weight of each module, or `u64::MAX` where it is more, in an order in which each is after those that it
/// instances.
fn module_weights(alloc: Global, design: &Design, order: &[u32]) -> Result<Vec<u64>, AllocError>
    requires distinct { HasDistinctSymbols (design_of design.now) }
    requires finite { HasNoRecursion (design_of design.now) }
    requires whole { IsWhole (call_lists (design_of design.now)) order.now }
    ensures count { IfOk result (λ weights. length weights.items ≡ length (modules_of design.now)) }
    ensures each { IfOk result (λ weights. (i : ℕ) → i < length (modules_of design.now) → Weighs (design_of design.now) weights.items u64.MAX i) }
{
    let mut weights = vec![in alloc; 0u64; design.module_count() as usize]?;
    let mut room = Vec::new(alloc);
    for number in order {
        let weight = module_weight(design, *number, weights.as_slice(), &mut room)?;
        weights[*number as usize] = weight;
    }
    Ok(weights)
}

/// The weight of a module, where those of the modules that it instances are kept. `room` is memory that is used again.
fn module_weight(
    design: &Design,
    number: u32,
    weights: &[u64],
    room: &mut Vec<OpId>,
) -> Result<u64, AllocError>
    requires { number < length (modules_of design.now) }
    ensures { IfOk result (λ w. w ≡ min (weight_of (weight_by (map (λ m. m.symbol) (modules_of design.now)) weights.now) (slice_get (design_of design.now) number)) u64.MAX) }
{
    let module = design.module(number);
    let inside = body_weight(design, &module.body, weights, room)?;
    Ok(port_leaves(&module.ports).saturating_add(inside))
}

/// How many leaves the ports have, or `u64::MAX` where there are more.
fn port_leaves(list: &PortList) -> u64
    ensures { result ≡ min (leaf_count (map (λ (p : Port). p.type) (ports_in list.now))) u64.MAX }
{
    let mut sum: u64 = 0;
    for port in &list.ports {
        sum = sum.saturating_add(port.ty.leaf_count());
    }
    sum
}

/// The weight of a body's operations together, or `u64::MAX` where it is more. `room` is memory that is used again.
fn body_weight(
    design: &Design,
    body: &Body,
    weights: &[u64],
    room: &mut Vec<OpId>,
) -> Result<u64, AllocError>
    ensures { IfOk result (λ w. w ≡ min (weight_of_body (weight_by (map (λ m. m.symbol) (modules_of design.now)) weights.now) (ops_by_position (ops_of body.now))) u64.MAX) }
{
    read_ids(room, body)?;
    let ids = room.as_slice();
    let mut sum: u64 = 0;
    for position in 0..ids.len() {
        sum = sum.saturating_add(weight_at(design, body, ids, position, weights));
    }
    Ok(sum)
}

/// The weight of the operation at a position.
fn weight_at(design: &Design, body: &Body, ids: &[OpId], position: usize, weights: &[u64]) -> u64
    requires all { ids.now ≡ map op_id (ids_of body.now) }
    requires within { position < length ids.now }
    ensures { WeighsAt (weight_by (map (λ m. m.symbol) (modules_of design.now)) weights.now) (ops_by_position (ops_of body.now)) position u64.MAX result }
{
    let op = op_at(body, ids, position);
    let inner = inner_weight(weights, callee_of(design, body, ids, position));
    op_weight(op.kind, op.types.as_slice(), op.operands.len(), inner)
}

/// The weight that is kept of a module, where there is one.
fn inner_weight(weights: &[u64], callee: Option<u32>) -> u64
    ensures { result ≡ kept_weight weights.now callee }
{
    match callee {
        Some(number) => weights.get(number as usize).copied().unwrap_or(0),
        None => 0,
    }
}
