//! Which modules instance which, by their numbers.
ghost use Rattle.std.specs.Prelude.{◌≡◌, ◌<◌, length, map, IfOk};
ghost use Rattle.hw_model.specs.Hierarchy.{callee_symbols};
ghost use Rattle.ir_store.specs.Bodies.{ids_of, ops_of, op_id};
ghost use Rattle.ir_store.specs.Numbered.{ops_by_position};
ghost use Rattle.ir_store.specs.Designs.{design_of, modules_of};
ghost use Rattle.graphs.specs.Graphs.{lists_of};
ghost use Rattle.design_cycles.specs.Graphs.{AreCalled};
ghost use Rattle.design_cycles.specs.Calls.{numbers_of, call_lists, IsCalleeAt};

use crate::ops::{Sort, read_ids, sort_of};
use body_index::op_index::op_at;
use graphs::{NodeList, mark_all};
use ir_store::body::Body;
use ir_store::design::Design;
use ir_store::operation::OpId;
use std::alloc::{AllocError, Global};

/// Of each module, the numbers of those that it instances.
pub fn call_graph(alloc: Global, design: &Design) -> Result<Vec<NodeList>, AllocError>
    ensures { IfOk result (λ graph. lists_of graph.items ≡ call_lists (design_of design.now)) }
{
    let mut graph = Vec::with_capacity(alloc, design.module_count() as usize)?;
    let mut ids = Vec::new(alloc);
    for number in 0..design.module_count() {
        graph.push(calls_of(alloc, design, &design.module(number).body, &mut ids)?)?;
    }
    Ok(graph)
}

/// Of each module whether one instances it.
pub(crate) fn called_modules(alloc: Global, calls: &[NodeList]) -> Result<Vec<bool>, AllocError>
    ensures { IfOk result (λ marks. AreCalled (lists_of calls.now) marks.items) }
{
    let mut marks = vec![in alloc; false; calls.len()]?;
    let mut waiting = Vec::new(alloc);
    for list in calls {
        mark_all(list.nodes.as_slice(), &mut marks, &mut waiting)?;
    }
    Ok(marks)
}

/// The numbers of the modules that a body instances. `room` is memory that is used again.
fn calls_of(
    alloc: Global,
    design: &Design,
    body: &Body,
    room: &mut Vec<OpId>,
) -> Result<NodeList, AllocError>
    ensures { IfOk result (λ list. list.nodes.items ≡ numbers_of (map (λ m. m.symbol) (modules_of design.now)) (callee_symbols (ops_by_position (ops_of body.now)))) }
{
    read_ids(room, body)?;
    let ids = room.as_slice();
    let mut nodes = Vec::new(alloc);
    for position in 0..ids.len() {
        if let Some(number) = callee_of(design, body, ids, position) {
            nodes.push(number)?;
        }
    }
    Ok(NodeList { nodes })
}

/// The number of the module that the operation at a position instances.
pub(crate) fn callee_of(design: &Design, body: &Body, ids: &[OpId], position: usize) -> Option<u32>
    requires all { ids.now ≡ map op_id (ids_of body.now) }
    requires within { position < length ids.now }
    ensures { IsCalleeAt (map (λ m. m.symbol) (modules_of design.now)) (ops_by_position (ops_of body.now)) position result }
{
    match sort_of(op_at(body, ids, position).kind) {
        Sort::Calls(instance) => design.find(instance.symbol.as_bytes()),
        Sort::Register | Sort::Gives | Sort::Made => None,
    }
}
