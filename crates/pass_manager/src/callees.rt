//! Which modules each module comes after.
ghost use Rattle.std.specs.Prelude.{◌≡◌, length, map, IfOk};
ghost use Rattle.sched_core.specs.Runs.{AreCallees};
ghost use Rattle.ir_store.specs.Designs.{design_of, modules_of};
ghost use Rattle.design_cycles.specs.Calls.{call_lists};
ghost use Rattle.acceptance_laws.specs.Keeps.{IsFit};

use design_cycles::call_graph;
use ir_store::design::Design;
use std::alloc::{AllocError, Global};

/// Of each module the numbers of those that it instances, as often as it does.
pub(crate) fn callee_lists(alloc: Global, design: &Design) -> Result<Vec<Vec<u32>>, AllocError>
    requires { IsFit (design_of design.now) }
    ensures are { IfOk result (λ lists. AreCallees (map (λ row. row.items) lists.items)) }
    ensures lists { IfOk result (λ lists. map (λ row. row.items) lists.items ≡ call_lists (design_of design.now)) }
    ensures count { IfOk result (λ lists. length lists.items ≡ length (modules_of design.now)) }
{
    let graph = call_graph(alloc, design)?;
    let mut lists = Vec::with_capacity(alloc, graph.len())?;
    for list in graph {
        lists.push(list.nodes)?;
    }
    Ok(lists)
}
