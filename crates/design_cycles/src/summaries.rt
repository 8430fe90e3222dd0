//! Summaries of modules: of each output the inputs that it depends on, without expanding an instance.
ghost use Rattle.std.specs.Prelude.{◌≡◌, ◌<◌, ◌^◌, length, map, IfOk};
ghost use Rattle.hw_model.specs.Types.{Name};
ghost use Rattle.hw_model.specs.Design.{output_refs};
ghost use Rattle.ir_store.specs.Bodies.{ids_of, ops_of, op_id};
ghost use Rattle.ir_store.specs.Numbered.{ops_by_position, position_of, ref_by};
ghost use Rattle.ir_store.specs.Designs.{port_of, design_of, modules_of};
ghost use Rattle.design_cycles.specs.Asked.{HasDistinctSymbols};
ghost use Rattle.design_cycles.specs.Calls.{call_lists};
ghost use Rattle.graphs.specs.Graphs.{lists_of};
ghost use Rattle.design_cycles.specs.Graphs.{AreCalled};
ghost use Rattle.design_cycles.specs.Positions.{symbol_at};
ghost use Rattle.design_cycles.specs.Weighing.{IsWhole};
ghost use Rattle.design_cycles.specs.Nodes.{bit_sets_by, value_node};
ghost use Rattle.design_cycles.specs.Summing.{inputs_from, reached_numbers, AreInputs, AreOutputs, KnowsCallees, IsSummed};

use crate::bit_set_lists::bit_set_lists;
use crate::bit_sets::BIT_SET_BITS;
use crate::in_order::are_in_order;
use crate::layout::{Layout, Summary};
use crate::ops::{Sort, sort_of};
use crate::wired::{Wired, wires_of};
use crate::wires::node_of;
use body_index::op_index::op_at;
use graphs::{NodeList, is_marked, likely_order, reached_from};
use ir_store::body::Body;
use ir_store::design::{Design, Port};
use ir_store::operation::{OpId, Value};
use std::alloc::{AllocError, Global};

/// The summaries of the modules that are instanced, in an order in which each is after those that it instances.
pub(crate) fn summaries_of(
    alloc: Global,
    design: &Design,
    order: &[u32],
    called: &[bool],
) -> Result<Vec<Summary>, AllocError>
    requires distinct { HasDistinctSymbols (design_of design.now) }
    requires whole { IsWhole (call_lists (design_of design.now)) order.now }
    requires called { AreCalled (call_lists (design_of design.now)) called.now }
    ensures { IfOk result (λ summaries. (top : Name) → KnowsCallees (design_of design.now) (bit_sets_by (map (λ m. m.symbol) (modules_of design.now)) summaries.items) top) }
{
    let mut summaries = empty_summaries(alloc, design.module_count())?;
    for number in order {
        if called[*number as usize] {
            let summary = summary_of(alloc, design, *number, summaries.as_slice())?;
            summaries[*number as usize] = summary;
        }
    }
    Ok(summaries)
}

/// So many summaries of modules without outputs.
fn empty_summaries(alloc: Global, count: u32) -> Result<Vec<Summary>, AllocError>
    ensures { IfOk result (λ summaries. length summaries.items ≡ count) }
{
    let mut summaries = Vec::with_capacity(alloc, count as usize)?;
    for _ in 0..count {
        summaries.push(Summary {
            outputs: Vec::new(alloc),
        })?;
    }
    Ok(summaries)
}

/// The summary of a module, where those of the modules that it instances are known.
fn summary_of(
    alloc: Global,
    design: &Design,
    number: u32,
    summaries: &[Summary],
) -> Result<Summary, AllocError>
    requires distinct { HasDistinctSymbols (design_of design.now) }
    requires within { number < length (modules_of design.now) }
    requires inner { KnowsCallees (design_of design.now) (bit_sets_by (map (λ m. m.symbol) (modules_of design.now)) summaries.now) (symbol_at (modules_of design.now) number) }
    ensures { IfOk result (λ summary. IsSummed (design_of design.now) (lists_of summary.outputs.items) number) }
{
    let module = design.module(number);
    let wired = wires_of(alloc, design, module, summaries)?;
    let inputs = input_ports(alloc, module.ports.ports.as_slice())?;
    let given = outputs_of(&module.body, wired.ids.as_slice());
    let outputs = lists_of_outputs(alloc, &module.body, &wired, inputs.as_slice(), given)?;
    Ok(Summary { outputs })
}

/// Of each value of a body the numbers of the inputs that it depends on or is: from each value on, or where they are many
/// by bit sets, so that the body is gone over once for each of them, or for each 64 inputs. A body with a cycle, which has
/// no order, is gone over from each value on, since bit sets might change in as many passes as it has nodes.
fn lists_of_outputs(
    alloc: Global,
    body: &Body,
    wired: &Wired,
    inputs: &[u32],
    values: &[Value],
) -> Result<Vec<NodeList>, AllocError>
    requires ids { wired.now.ids.items ≡ map op_id (ids_of body.now) }
    requires nodes { length wired.now.graph.items < 2 ^ 32 }
    requires small { length inputs.now < 2 ^ 32 }
    ensures { IfOk result (λ lists. AreOutputs (lists_of wired.now.graph.items) inputs.now (map (value_node wired.now.layout) values.now) (lists_of lists.items)) }
{
    let graph = wired.graph.as_slice();
    if are_few(values.len(), inputs.len()) {
        return output_lists(alloc, graph, &wired.layout, inputs, values);
    }
    if are_in_order(body, wired.ids.as_slice()) {
        return bit_set_lists(alloc, graph, &wired.layout, &[], inputs, values);
    }
    let order = likely_order(alloc, graph)?;
    if order.len() < graph.len() {
        return output_lists(alloc, graph, &wired.layout, inputs, values);
    }
    bit_set_lists(
        alloc,
        graph,
        &wired.layout,
        order.as_slice(),
        inputs,
        values,
    )
}

/// Whether so many values are walked from sooner one by one than the body is gone over for each bit set of inputs.
fn are_few(values: usize, inputs: usize) -> bool {
    values / 4 <= inputs / BIT_SET_BITS
}

/// The values that a module gives to its outputs: the operands of its first `hw.output`.
fn outputs_of<'b>(body: &'b Body, ids: &[OpId]) -> &'b [Value]
    requires { ids.now ≡ map op_id (ids_of body.now) }
    ensures { map (ref_by (position_of (ids_of body.now))) result.now ≡ output_refs (ops_by_position (ops_of body.now)) }
{
    for position in 0..ids.len() {
        let op = op_at(body, ids, position);
        if let Sort::Gives = sort_of(op.kind) {
            return op.operands;
        }
    }
    &[]
}

/// The positions of the inputs among ports.
fn input_ports(alloc: Global, ports: &[Port]) -> Result<Vec<u32>, AllocError>
    requires { length ports.now < 2 ^ 32 }
    ensures { IfOk result (λ inputs. inputs.items ≡ inputs_from 0 (map port_of ports.now)) }
{
    let mut inputs = Vec::new(alloc);
    for position in 0..ports.len() {
        if !ports[position].out {
            inputs.push(position as u32)?;
        }
    }
    Ok(inputs)
}

/// Of each value the numbers of the inputs that it depends on or is.
fn output_lists(
    alloc: Global,
    graph: &[NodeList],
    layout: &Layout,
    inputs: &[u32],
    values: &[Value],
) -> Result<Vec<NodeList>, AllocError>
    requires small { length inputs.now < 2 ^ 32 }
    ensures { IfOk result (λ lists. AreOutputs (lists_of graph.now) inputs.now (map (value_node layout.now) values.now) (lists_of lists.items)) }
{
    let mut lists = Vec::with_capacity(alloc, values.len())?;
    for value in values {
        lists.push(inputs_of(alloc, graph, inputs, node_of(layout, *value))?)?;
    }
    Ok(lists)
}

/// The numbers of the inputs that a node depends on or is.
fn inputs_of(
    alloc: Global,
    graph: &[NodeList],
    inputs: &[u32],
    node: Option<u32>,
) -> Result<NodeList, AllocError>
    requires { length inputs.now < 2 ^ 32 }
    ensures { IfOk result (λ list. AreInputs (lists_of graph.now) inputs.now node list.nodes.items) }
{
    match node {
        Some(start) => {
            let marks = reached_from(alloc, graph, &[start])?;
            marked_inputs(alloc, inputs, marks.as_slice())
        }
        None => Ok(NodeList {
            nodes: Vec::new(alloc),
        }),
    }
}

/// The numbers of the inputs whose ports have their marks.
fn marked_inputs(alloc: Global, inputs: &[u32], marks: &[bool]) -> Result<NodeList, AllocError>
    requires { length inputs.now < 2 ^ 32 }
    ensures { IfOk result (λ list. list.nodes.items ≡ reached_numbers marks.now 0 inputs.now) }
{
    let mut nodes = Vec::new(alloc);
    for number in 0..inputs.len() {
        if is_marked(marks, inputs[number]) {
            nodes.push(number as u32)?;
        }
    }
    Ok(NodeList { nodes })
}
