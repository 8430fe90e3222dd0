//! An order of a body's operations in which each stands after those whose results it takes.
ghost use Rattle.std.specs.Prelude.{◌≡◌, ◌++◌, ◌∷◌, [], ◌<◌, Some, length, map, option_map, slice_get, IfOk, OnOk};
ghost use Rattle.graphs.specs.Graphs.{lists_of};
ghost use Rattle.ir_store.specs.Bodies.{ids_of, ops_of};
ghost use Rattle.ir_store.specs.Numbered.{position_of, ref_by, ops_by_position};
ghost use Rattle.flat_module_laws.specs.Orders.{IsOrder};
ghost use Rattle.flat_module_gates.specs.Orders.{HasOrder, makers_of, needs_of};

use crate::kinds::stands_anywhere;
use body_index::op_index::OpIndex;
use graphs::{NodeList, callees_first};
use ir_store::body::Body;
use ir_store::operation::Value;
use std::alloc::{AllocError, Global};

/// The positions of a body's operations, each after those of the operations whose results it takes, where there is such an
/// order; registers and outputs may stand anywhere. The error comes only when out of memory, for which 2^32 operations count.
/// Linear in the operations and their operands.
pub fn operation_order(alloc: Global, body: &Body) -> Result<Vec<u32>, AllocError>
    requires { HasOrder (ops_by_position (ops_of body.now)) }
    ensures { IfOk result (λ order. IsOrder (ops_by_position (ops_of body.now)) order.items) }
{
    let ops = OpIndex::of(alloc, body)?;
    let graph = graph_of(alloc, &ops)?;
    let _ = number_of(graph.len())?;
    let order = callees_first(alloc, graph.as_slice())?;
    Ok(order.nodes)
}

// Of each operation, the positions of the operations that it needs before it.
fn graph_of(alloc: Global, ops: &OpIndex<'_>) -> Result<Vec<NodeList>, AllocError>
    ensures { IfOk result (λ graph. lists_of graph.items ≡ map needs_of (ops_by_position (ops_of ops.now.body.now))) }
{
    let mut graph = Vec::with_capacity(alloc, ops.count())?;
    for position in 0..ops.count() {
        let needs = needs_at(alloc, ops, position)?;
        graph.push(needs)?;
    }
    Ok(graph)
}

// The positions of the operations that the one at a position needs before it.
fn needs_at(alloc: Global, ops: &OpIndex<'_>, position: usize) -> Result<NodeList, AllocError>
    requires { position < length (ops_by_position (ops_of ops.now.body.now)) }
    ensures { IfOk result (λ needs. option_map needs_of (slice_get (ops_by_position (ops_of ops.now.body.now)) position) ≡ Some needs.nodes.items) }
{
    let op = ops.op_at(position);
    let mut nodes = Vec::new(alloc);
    if !stands_anywhere(op.kind) {
        push_makers(ops, op.operands, &mut nodes)?;
    }
    Ok(NodeList { nodes })
}

// Adds the positions of the operations whose results values are.
fn push_makers(ops: &OpIndex<'_>, values: &[Value], nodes: &mut Vec<u32>) -> Result<(), AllocError>
    ensures { OnOk result (nodes.new.items ≡ nodes.old.items ++ makers_of (map (ref_by (position_of (ids_of ops.now.body.now))) values.now)) }
{
    for value in values {
        push_maker(ops, *value, nodes)?;
    }
    Ok(())
}

// Adds the position of the operation whose result a value is.
fn push_maker(ops: &OpIndex<'_>, value: Value, nodes: &mut Vec<u32>) -> Result<(), AllocError>
    ensures { OnOk result (nodes.new.items ≡ nodes.old.items ++ makers_of (ref_by (position_of (ids_of ops.now.body.now)) value ∷ [])) }
{
    match value {
        Value::Result(id, _) => {
            let number = number_of(ops.position(id))?;
            nodes.push(number)?;
            Ok(())
        }
        Value::Port(_) | Value::Undefined => Ok(()),
    }
}

// A position as a number of 32 bits.
fn number_of(position: usize) -> Result<u32, AllocError>
    ensures { IfOk result (λ number. number ≡ position) }
{
    u32::try_from(position).map_err(|_| AllocError)
}
