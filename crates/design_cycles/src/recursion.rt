//! Modules within themselves.
ghost use Rattle.std.specs.Prelude.{◌≡◌, ◌<◌, length, IfOk, MatchBool, None};
ghost use Rattle.hw_model.specs.Hierarchy.{HasNoRecursion};
ghost use Rattle.ir_store.specs.Designs.{design_of, modules_of};
ghost use Rattle.design_cycles.specs.Asked.{HasDistinctSymbols, IsRecursiveAt};
ghost use Rattle.design_cycles.specs.Calls.{call_lists};
ghost use Rattle.graphs.specs.Graphs.{lists_of};
ghost use Rattle.design_cycles.specs.Graphs.{LeadsTo};
ghost use Rattle.design_cycles.specs.Hierarchies.{IsHierarchy};
ghost use Rattle.design_cycles.specs.Positions.{Finds, FindsOp, ids_at};

use crate::calls::callee_of;
use crate::hierarchy::Hierarchy;
use crate::op_site::OpSite;
use body_index::position_table::ids_in;
use graphs::{NodeList, is_open, reached_from};
use ir_store::design::Design;
use ir_store::operation::OpId;
use std::alloc::{AllocError, Global};

/// The first instance in text order that lies on a cycle of modules: its module is the one that it instances, or is
/// within that one. None where no module is within itself.
pub fn first_recursive(
    alloc: Global,
    design: &Design,
    hierarchy: &Hierarchy,
) -> Result<Option<OpSite>, AllocError>
    requires distinct { HasDistinctSymbols (design_of design.now) }
    requires hierarchy { IsHierarchy (design_of design.now) hierarchy.now }
    ensures found { IfOk result (Finds (modules_of design.now) (IsRecursiveAt (design_of design.now))) }
    ensures none { IfOk result (λ position. position ≡ None → HasNoRecursion (design_of design.now)) }
{
    let graph = hierarchy.calls.as_slice();
    for module in 0..design.module_count() {
        if is_open(hierarchy.order.placed.as_slice(), module) {
            if let Some(op) = first_returning(alloc, design, module, graph)? {
                return Ok(Some(OpSite { module, op }));
            }
        }
    }
    Ok(None)
}

/// The first instance of a module that lies on a cycle of modules.
fn first_returning(
    alloc: Global,
    design: &Design,
    number: u32,
    graph: &[NodeList],
) -> Result<Option<OpId>, AllocError>
    requires distinct { HasDistinctSymbols (design_of design.now) }
    requires within { number < length (modules_of design.now) }
    requires calls { lists_of graph.now ≡ call_lists (design_of design.now) }
    ensures { IfOk result (FindsOp (IsRecursiveAt (design_of design.now) number) (ids_at (modules_of design.now) number)) }
{
    let body = &design.module(number).body;
    let ids = ids_in(alloc, body)?;
    for position in 0..ids.len() {
        let callee = callee_of(design, body, ids.as_slice(), position);
        if leads_to(alloc, graph, callee, number)? {
            return Ok(Some(ids[position]));
        }
    }
    Ok(None)
}

/// Whether `node` is `from` or is reached from it.
fn leads_to(
    alloc: Global,
    graph: &[NodeList],
    from: Option<u32>,
    node: u32,
) -> Result<bool, AllocError>
    requires { node < length graph.now }
    ensures { IfOk result (λ leads. MatchBool leads (LeadsTo (lists_of graph.now) from node) (LeadsTo (lists_of graph.now) from node → ⊥)) }
{
    match from {
        Some(start) => Ok(reached_from(alloc, graph, &[start])?[node as usize]),
        None => Ok(false),
    }
}
