//! The hierarchy of a design, which all questions about it share.
ghost use Rattle.std.specs.Prelude.{IfOk};
ghost use Rattle.hw_model.specs.Hierarchy.{HasNoRecursion};
ghost use Rattle.ir_store.specs.Designs.{design_of};
ghost use Rattle.design_cycles.specs.Asked.{HasDistinctSymbols};
ghost use Rattle.design_cycles.specs.Calls.{call_lists};
ghost use Rattle.design_cycles.specs.Hierarchies.{IsHierarchy};
ghost use Rattle.design_cycles.specs.Weighing.{IsWhole};

use crate::calls::call_graph;
use graphs::{NodeList, Order, callees_first};
use ir_store::design::Design;
use std::alloc::{AllocError, Global};

/// Which modules instance which, and the longest order in which each stands after those that it instances. It is made
/// once, in one pass over the operations. Contracts see it by `IsHierarchy`.
#[derive(Drop)]
pub struct Hierarchy {
    pub(crate) calls: Vec<NodeList>,
    pub(crate) order: Order,
}

impl Hierarchy {
    /// The hierarchy of a design.
    pub fn of(alloc: Global, design: &Design) -> Result<Hierarchy, AllocError>
        ensures { IfOk result (IsHierarchy (design_of design.now)) }
    {
        let calls = call_graph(alloc, design)?;
        let order = callees_first(alloc, calls.as_slice())?;
        Ok(Hierarchy { calls, order })
    }
}

/// The numbers of all modules of a design in which no module reaches itself by instances, each after those that it
/// instances. The error is out of memory.
pub fn module_order(alloc: Global, design: &Design) -> Result<Vec<u32>, AllocError>
    requires distinct { HasDistinctSymbols (design_of design.now) }
    requires finite { HasNoRecursion (design_of design.now) }
    ensures { IfOk result (λ order. IsWhole (call_lists (design_of design.now)) order.items) }
{
    let order = Hierarchy::of(alloc, design)?.order;
    Ok(order.nodes)
}
