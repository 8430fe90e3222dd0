//! The graph of a module's values, with what tells its nodes.
ghost use Rattle.std.specs.Prelude.{◌≡◌, ◌<◌, ◌^◌, length, map, IfOk, OnOk};
ghost use Rattle.ir_store.specs.Bodies.{ids_of, ops_of, op_id};
ghost use Rattle.ir_store.specs.Numbered.{ops_by_position};
ghost use Rattle.ir_store.specs.Designs.{modules_of};
ghost use Rattle.graphs.specs.Graphs.{lists_of};
ghost use Rattle.design_cycles.specs.Nodes.{bit_sets_by, sizes_in, body_lists, IsLayout};

use crate::layout::{Layout, Summary};
use crate::wires::{Scope, graph_of, layout_of};
use body_index::position_table::ids_in;
use graphs::NodeList;
use ir_store::design::{Design, Module};
use ir_store::operation::OpId;
use std::alloc::{AllocError, Global};

/// A module's operations, where their values stand, and what each value needs.
#[derive(Drop)]
pub(crate) struct Wired {
    /// The ids of the operations in text order.
    pub(crate) ids: Vec<OpId>,
    /// Where the values stand.
    pub(crate) layout: Layout,
    /// What each node needs.
    pub(crate) graph: Vec<NodeList>,
}

/// The graph of a module, where the summaries of those that it instances are known.
pub(crate) fn wires_of(
    alloc: Global,
    design: &Design,
    one: &Module,
    summaries: &[Summary],
) -> Result<Wired, AllocError>
    ensures ids { IfOk result (λ w. w.ids.items ≡ map op_id (ids_of one.now.body)) }
    ensures layout { IfOk result (λ w. IsLayout (length one.now.ports.ports.items) (sizes_in (bit_sets_by (map (λ m. m.symbol) (modules_of design.now)) summaries.now) (ops_by_position (ops_of one.now.body))) (ids_of one.now.body) w.layout) }
    ensures graph { IfOk result (λ w. lists_of w.graph.items ≡ body_lists (length one.now.ports.ports.items) (bit_sets_by (map (λ m. m.symbol) (modules_of design.now)) summaries.now) (ops_by_position (ops_of one.now.body))) }
    ensures small { OnOk result (length one.now.ports.ports.items < 2 ^ 32) }
{
    let ids = ids_in(alloc, &one.body)?;
    let scope = Scope {
        design,
        summaries,
        body: &one.body,
        ids: ids.as_slice(),
    };
    let ports = one.ports.ports.len();
    let layout = layout_of(alloc, &scope, ports)?;
    let graph = graph_of(alloc, &scope, ports, &layout)?;
    Ok(Wired { ids, layout, graph })
}
