//! The modules that a module reaches by instances.
ghost use Rattle.std.specs.Prelude.{◌≡◌, ◌<◌, ◌∷◌, [], length, IfOk};
ghost use Rattle.std.specs.List.{filter};
ghost use Rattle.hw_model.specs.Hierarchy.{HasNoRecursion};
ghost use Rattle.ir_store.specs.Designs.{design_of, modules_of};
ghost use Rattle.graphs.specs.Graphs.{has_mark, AreReached};
ghost use Rattle.design_cycles.specs.Asked.{HasDistinctSymbols};
ghost use Rattle.design_cycles.specs.Calls.{call_lists};
ghost use Rattle.module_sums.specs.Sums.{IsBelow};

use design_cycles::{call_graph, module_order};
use graphs::{is_marked, reached_from};
use ir_store::design::Design;
use std::alloc::{AllocError, Global};

/// The numbers of a module and of all that it reaches by instances, each after those that it instances. The error is out of
/// memory.
#[tactic(auto, using(crate::proofs::Filtered::modules_reached))]
pub fn modules_below(alloc: Global, design: &Design, top: u32) -> Result<Vec<u32>, AllocError>
    requires distinct { HasDistinctSymbols (design_of design.now) }
    requires finite { HasNoRecursion (design_of design.now) }
    requires there { top < length (modules_of design.now) }
    ensures { IfOk result (λ nodes. IsBelow (call_lists (design_of design.now)) top nodes.items) }
{
    let marks = reached_modules(alloc, design, top)?;
    let order = module_order(alloc, design)?;
    marked_nodes(alloc, order.as_slice(), marks.as_slice())
}

// Of each module, whether one reaches it by instances.
fn reached_modules(alloc: Global, design: &Design, top: u32) -> Result<Vec<bool>, AllocError>
    ensures { IfOk result (λ marks. AreReached (call_lists (design_of design.now)) (top ∷ []) marks.items) }
{
    let graph = call_graph(alloc, design)?;
    reached_from(alloc, graph.as_slice(), &[top])
}

// Those of nodes that have their mark.
fn marked_nodes(alloc: Global, nodes: &[u32], marks: &[bool]) -> Result<Vec<u32>, AllocError>
    ensures { IfOk result (λ kept. kept.items ≡ filter (has_mark marks.now) nodes.now) }
{
    let mut kept = Vec::new(alloc);
    for node in nodes {
        if is_marked(marks, *node) {
            kept.push(*node)?;
        }
    }
    Ok(kept)
}
