//! Combinational cycles.
ghost use Rattle.std.specs.Prelude.{◌≡◌, ◌<◌, ℕ, length, map, IfOk, MatchBool, true};
ghost use Rattle.hw_model.specs.Hierarchy.{HasNoRecursion};
ghost use Rattle.ir_store.specs.Designs.{design_of, modules_of};
ghost use Rattle.wiring.specs.Wiring.{Depends};
ghost use Rattle.design_cycles.specs.Asked.{HasDistinctSymbols, IsCyclicAt};
ghost use Rattle.graphs.specs.Graphs.{lists_of, edges, has_mark};
ghost use Rattle.design_cycles.specs.Graphs.{ReturnsWithin};
ghost use Rattle.design_cycles.specs.Hierarchies.{IsHierarchy};
ghost use Rattle.design_cycles.specs.Nodes.{bit_sets_by};
ghost use Rattle.design_cycles.specs.Positions.{Finds, FindsOp, ids_at, symbol_at};
ghost use Rattle.design_cycles.specs.Summing.{KnowsCallees};

use crate::calls::called_modules;
use crate::hierarchy::Hierarchy;
use crate::in_order::are_in_order;
use crate::layout::{Span, Summary};
use crate::op_site::OpSite;
use crate::ops::read_ids;
use crate::summaries::summaries_of;
use crate::wired::wires_of;
use graphs::{NodeList, callees_first, is_open, reached_from};
use ir_store::design::Design;
use ir_store::operation::OpId;
use std::alloc::{AllocError, Global};

/// The first operation in text order with a result that depends on itself in its own module's flattening, by operations
/// that are not registers. No instance is expanded: each module that is instanced is summed up once, by the inputs that
/// each of its outputs depends on. None where no value of any module does, at any path of instances.
pub fn first_cycle(
    alloc: Global,
    design: &Design,
    hierarchy: &Hierarchy,
) -> Result<Option<OpSite>, AllocError>
    requires distinct { HasDistinctSymbols (design_of design.now) }
    requires hierarchy { IsHierarchy (design_of design.now) hierarchy.now }
    requires finite { HasNoRecursion (design_of design.now) }
    ensures found { IfOk result (Finds (modules_of design.now) (IsCyclicAt (design_of design.now))) }
{
    let called = called_modules(alloc, hierarchy.calls.as_slice())?;
    let order = hierarchy.order.nodes.as_slice();
    let summaries = summaries_of(alloc, design, order, called.as_slice())?;
    let mut room = Vec::new(alloc);
    for module in 0..design.module_count() {
        if let Some(op) = first_in_module(alloc, design, module, summaries.as_slice(), &mut room)? {
            return Ok(Some(OpSite { module, op }));
        }
    }
    Ok(None)
}

/// The first operation of a module with a result that depends on itself, where the summaries of the modules that it
/// instances are known. Where each operation takes what stands before it there is none, and no graph is made. `room` is
/// memory that is used again.
fn first_in_module(
    alloc: Global,
    design: &Design,
    number: u32,
    summaries: &[Summary],
    room: &mut Vec<OpId>,
) -> Result<Option<OpId>, AllocError>
    requires distinct { HasDistinctSymbols (design_of design.now) }
    requires within { number < length (modules_of design.now) }
    requires inner { KnowsCallees (design_of design.now) (bit_sets_by (map (λ m. m.symbol) (modules_of design.now)) summaries.now) (symbol_at (modules_of design.now) number) }
    ensures { IfOk result (FindsOp (IsCyclicAt (design_of design.now) number) (ids_at (modules_of design.now) number)) }
{
    let body = &design.module(number).body;
    read_ids(room, body)?;
    if are_in_order(body, room.as_slice()) {
        return Ok(None);
    }
    first_by_wires(alloc, design, number, summaries)
}

/// The same, by the graph of the module.
fn first_by_wires(
    alloc: Global,
    design: &Design,
    number: u32,
    summaries: &[Summary],
) -> Result<Option<OpId>, AllocError>
    requires distinct { HasDistinctSymbols (design_of design.now) }
    requires within { number < length (modules_of design.now) }
    requires inner { KnowsCallees (design_of design.now) (bit_sets_by (map (λ m. m.symbol) (modules_of design.now)) summaries.now) (symbol_at (modules_of design.now) number) }
    ensures { IfOk result (FindsOp (IsCyclicAt (design_of design.now) number) (ids_at (modules_of design.now) number)) }
{
    let wired = wires_of(alloc, design, design.module(number), summaries)?;
    let order = callees_first(alloc, wired.graph.as_slice())?;
    for position in 0..wired.ids.len() {
        let span = wired.layout.spans[position];
        if has_cycle(alloc, wired.graph.as_slice(), span, order.placed.as_slice())? {
            return Ok(Some(wired.ids[position]));
        }
    }
    Ok(None)
}

/// Whether one of the nodes depends on itself. One that has a position in an order does not.
fn has_cycle(
    alloc: Global,
    graph: &[NodeList],
    span: Span,
    placed: &[bool],
) -> Result<bool, AllocError>
    requires count { length placed.now ≡ length graph.now }
    requires placed { (v : ℕ) → has_mark placed.now v ≡ true → Depends (edges (lists_of graph.now)) v v → ⊥ }
    ensures { IfOk result (λ found. MatchBool found (ReturnsWithin (lists_of graph.now) span.start span.size) (ReturnsWithin (lists_of graph.now) span.start span.size → ⊥)) }
{
    for node in span.start..span.start + span.size {
        if is_open(placed, node) && needs_itself(alloc, graph, node)? {
            return Ok(true);
        }
    }
    Ok(false)
}

/// Whether a node depends on itself.
fn needs_itself(alloc: Global, graph: &[NodeList], node: u32) -> Result<bool, AllocError>
    requires { node < length graph.now }
    ensures { IfOk result (λ needs. MatchBool needs (Depends (edges (lists_of graph.now)) node node) (Depends (edges (lists_of graph.now)) node node → ⊥)) }
{
    let marks = reached_from(alloc, graph, graph[node as usize].nodes.as_slice())?;
    Ok(marks[node as usize])
}
