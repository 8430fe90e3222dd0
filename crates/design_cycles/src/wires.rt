//! The graph of a body's values: what each needs, without a register between, each instance standing for what its module's
//! outputs depend on.
ghost use Rattle.std.specs.Prelude.{◌≡◌, ◌<◌, ◌+◌, ◌^◌, ◌++◌, length, map, IfOk, OnOk, option_and_then};
ghost use Rattle.std.specs.Option.{option_map};
ghost use Rattle.ir_store.specs.Bodies.{ids_of, ops_of, op_id};
ghost use Rattle.ir_store.specs.Designs.{modules_of};
ghost use Rattle.ir_store.specs.Numbered.{ops_by_position};
ghost use Rattle.std.specs.Prelude.{slice_get};
ghost use Rattle.graphs.specs.Graphs.{lists_of, times_over};
ghost use Rattle.design_cycles.specs.Nodes.{bit_sets_at as bit_sets_kept, bit_sets_by, HasSize, sizes_in, AreSpans, IsLayout, span_node, value_node, value_nodes, picked_values, body_lists, lists_at};

use crate::layout::{Layout, Span, Summary};
use crate::ops::{Sort, sort_of};
use body_index::op_index::op_at;
use body_index::position_table::positions_of;
use graphs::{NodeList, empty_lists};
use ir_store::body::Body;
use ir_store::design::Design;
use ir_store::operation::{OpId, Value};
use std::alloc::{AllocError, Global};

/// A body's operations by their positions, in a design of whose modules summaries are known.
#[derive(Clone, Copy)]
pub(crate) struct Scope<'d> {
    /// The design.
    pub(crate) design: &'d Design,
    /// What is kept of its modules.
    pub(crate) summaries: &'d [Summary],
    /// The body.
    pub(crate) body: &'d Body,
    /// The ids of its operations in text order.
    pub(crate) ids: &'d [OpId],
    ghost all: { ids.now ≡ map op_id (ids_of body.now) },
}

/// The node of a value, where it has one.
pub(crate) fn node_of(layout: &Layout, value: Value) -> Option<u32>
    ensures { result ≡ value_node layout.now value }
{
    match value {
        Value::Port(port) => (port < layout.ports).then_some(port),
        Value::Result(id, number) => match layout.positions.get(id.number() as usize) {
            Some(position) => node_in(layout.spans.get(*position as usize), number),
            None => None,
        },
        Value::Undefined => None,
    }
}

/// The node of a result of an operation with these nodes.
fn node_in(span: Option<&Span>, number: u32) -> Option<u32>
    ensures { result ≡ span_node (option_map (λ s. s.now) span.entry) number }
{
    match span {
        Some(span) if number < span.size => Some(span.start + number),
        _ => None,
    }
}

/// How many results of the operation at a position need others.
fn size_at(scope: &Scope<'_>, position: usize) -> usize
    requires { position < length scope.now.ids.now }
    ensures { HasSize (bit_sets_by (map (λ m. m.symbol) (modules_of scope.now.design.now)) scope.now.summaries.now) (ops_by_position (ops_of scope.now.body.now)) position result }
{
    let op = op_at(scope.body, scope.ids, position);
    match sort_of(op.kind) {
        Sort::Register | Sort::Gives => 0,
        Sort::Made => op.results.len(),
        Sort::Calls(instance) => {
            bit_sets_at(
                scope.summaries,
                scope.design.find(instance.symbol.as_bytes()),
            )
            .len()
        }
    }
}

/// The lists of a module's summary, where there is one.
fn bit_sets_at(summaries: &[Summary], number: Option<u32>) -> &[NodeList]
    ensures { lists_of result.now ≡ bit_sets_kept summaries.now number }
{
    match number {
        Some(number) => match summaries.get(number as usize) {
            Some(summary) => summary.outputs.as_slice(),
            None => &[],
        },
        None => &[],
    }
}

/// The nodes of each operation's results, in order, after those of the ports.
fn spans_of(alloc: Global, scope: &Scope<'_>, ports: u32) -> Result<Vec<Span>, AllocError>
    ensures { IfOk result (λ spans. AreSpans ports (sizes_in (bit_sets_by (map (λ m. m.symbol) (modules_of scope.now.design.now)) scope.now.summaries.now) (ops_by_position (ops_of scope.now.body.now))) spans.items) }
{
    let mut spans = Vec::with_capacity(alloc, scope.ids.len())?;
    let mut start = ports;
    for position in 0..scope.ids.len() {
        let count = size_at(scope, position);
        let Ok(size) = u32::try_from(count) else {
            return Err(AllocError);
        };
        let Some(next) = start.checked_add(size) else {
            return Err(AllocError);
        };
        spans.push(Span { start, size })?;
        start = next;
    }
    Ok(spans)
}

/// Which values of a body have nodes. A body with 2^32 values or more wants more memory than there is.
pub(crate) fn layout_of(
    alloc: Global,
    scope: &Scope<'_>,
    ports: usize,
) -> Result<Layout, AllocError>
    ensures layout { IfOk result (IsLayout ports (sizes_in (bit_sets_by (map (λ m. m.symbol) (modules_of scope.now.design.now)) scope.now.summaries.now) (ops_by_position (ops_of scope.now.body.now))) (ids_of scope.now.body.now)) }
    ensures small { OnOk result (ports < 2 ^ 32) }
{
    let Ok(ports) = u32::try_from(ports) else {
        return Err(AllocError);
    };
    let spans = spans_of(alloc, scope, ports)?;
    let positions = positions_of(alloc, scope.ids)?;
    Ok(Layout {
        ports,
        spans,
        positions,
    })
}

/// What each node needs.
pub(crate) fn graph_of(
    alloc: Global,
    scope: &Scope<'_>,
    ports: usize,
    layout: &Layout,
) -> Result<Vec<NodeList>, AllocError>
    requires { IsLayout ports (sizes_in (bit_sets_by (map (λ m. m.symbol) (modules_of scope.now.design.now)) scope.now.summaries.now) (ops_by_position (ops_of scope.now.body.now))) (ids_of scope.now.body.now) layout.now }
    ensures { IfOk result (λ graph. lists_of graph.items ≡ body_lists ports (bit_sets_by (map (λ m. m.symbol) (modules_of scope.now.design.now)) scope.now.summaries.now) (ops_by_position (ops_of scope.now.body.now))) }
{
    let mut graph = empty_lists(alloc, ports)?;
    for position in 0..scope.ids.len() {
        push_op(alloc, scope, position, layout, &mut graph)?;
    }
    Ok(graph)
}

/// Appends what each result of the operation at a position needs.
fn push_op(
    alloc: Global,
    scope: &Scope<'_>,
    position: usize,
    layout: &Layout,
    graph: &mut Vec<NodeList>,
) -> Result<(), AllocError>
    requires within { position < length scope.now.ids.now }
    requires layout { IsLayout layout.now.ports (sizes_in (bit_sets_by (map (λ m. m.symbol) (modules_of scope.now.design.now)) scope.now.summaries.now) (ops_by_position (ops_of scope.now.body.now))) (ids_of scope.now.body.now) layout.now }
    ensures { IfOk result (λ _. lists_of graph.new.items ≡ lists_of graph.old.items ++ lists_at layout.now.ports (bit_sets_by (map (λ m. m.symbol) (modules_of scope.now.design.now)) scope.now.summaries.now) (ops_by_position (ops_of scope.now.body.now)) position) }
{
    let op = op_at(scope.body, scope.ids, position);
    match sort_of(op.kind) {
        Sort::Register | Sort::Gives => Ok(()),
        Sort::Made => push_made(alloc, layout, op.operands, op.results.len(), graph),
        Sort::Calls(instance) => {
            let bit_sets = bit_sets_at(
                scope.summaries,
                scope.design.find(instance.symbol.as_bytes()),
            );
            push_instance(alloc, layout, op.operands, bit_sets, graph)
        }
    }
}

/// Appends the operands of an operation, once for each of its results.
fn push_made(
    alloc: Global,
    layout: &Layout,
    operands: &[Value],
    count: usize,
    graph: &mut Vec<NodeList>,
) -> Result<(), AllocError>
    ensures { IfOk result (λ _. lists_of graph.new.items ≡ lists_of graph.old.items ++ times_over count (value_nodes layout.now operands.now)) }
{
    for _ in 0..count {
        graph.push(NodeList {
            nodes: nodes_of(alloc, layout, operands)?,
        })?;
    }
    Ok(())
}

/// Appends the operands of an instance that each output depends on.
fn push_instance(
    alloc: Global,
    layout: &Layout,
    operands: &[Value],
    outputs: &[NodeList],
    graph: &mut Vec<NodeList>,
) -> Result<(), AllocError>
    ensures { IfOk result (λ _. lists_of graph.new.items ≡ lists_of graph.old.items ++ map (picked_values layout.now operands.now) (lists_of outputs.now)) }
{
    for output in outputs {
        graph.push(NodeList {
            nodes: picked_nodes(alloc, layout, operands, output.nodes.as_slice())?,
        })?;
    }
    Ok(())
}

/// The nodes of values, where they have any.
fn nodes_of(alloc: Global, layout: &Layout, values: &[Value]) -> Result<Vec<u32>, AllocError>
    ensures { IfOk result (λ nodes. nodes.items ≡ value_nodes layout.now values.now) }
{
    let mut nodes = Vec::new(alloc);
    for value in values {
        if let Some(node) = node_of(layout, *value) {
            nodes.push(node)?;
        }
    }
    Ok(nodes)
}

/// The nodes of the operands of these numbers, where they have any.
fn picked_nodes(
    alloc: Global,
    layout: &Layout,
    operands: &[Value],
    numbers: &[u32],
) -> Result<Vec<u32>, AllocError>
    ensures { IfOk result (λ nodes. nodes.items ≡ picked_values layout.now operands.now numbers.now) }
{
    let mut nodes = Vec::new(alloc);
    for number in numbers {
        if let Some(node) = picked_node(layout, operands, *number) {
            nodes.push(node)?;
        }
    }
    Ok(nodes)
}

/// The node of the operand of a number, where it has one.
fn picked_node(layout: &Layout, operands: &[Value], number: u32) -> Option<u32>
    ensures { result ≡ option_and_then (value_node layout.now) (slice_get operands.now number) }
{
    match operands.get(number as usize) {
        Some(value) => node_of(layout, *value),
        None => None,
    }
}
