//! The inputs that a module's outputs depend on, by bit sets, 64 inputs at a time.
ghost use Rattle.std.specs.Prelude.{◌≡◌, ◌<◌, ◌≤◌, ◌+◌, ◌^◌, length, map, IfOk, OnOk};
ghost use Rattle.graphs.specs.Graphs.{lists_of};
ghost use Rattle.design_cycles.specs.Nodes.{value_node};
ghost use Rattle.design_cycles.specs.Summing.{AreOutputs};
ghost use Rattle.design_cycles.specs.BitSets.{AddsBits, AddsBitSets};

use crate::bit_sets::{BIT_SET_BITS, bit_set_of, bit_sets_of};
use crate::layout::Layout;
use crate::wires::node_of;
use graphs::{NodeList, all_numbers, empty_lists};
use ir_store::operation::Value;
use std::alloc::{AllocError, Global};

/// Of each value the numbers of the inputs that it depends on or is. The graph is gone over once for each 64 inputs, over
/// the nodes of `guess` first; beside the lists one bit set of 64 bits is kept for each node.
pub(crate) fn bit_set_lists(
    alloc: Global,
    graph: &[NodeList],
    layout: &Layout,
    guess: &[u32],
    inputs: &[u32],
    values: &[Value],
) -> Result<Vec<NodeList>, AllocError>
    requires nodes { length graph.now < 2 ^ 32 }
    requires small { length inputs.now < 2 ^ 32 }
    ensures { IfOk result (λ lists. AreOutputs (lists_of graph.now) inputs.now (map (value_node layout.now) values.now) (lists_of lists.items)) }
{
    let all = all_numbers(alloc, graph.len() as u32)?;
    let mut lists = empty_lists(alloc, values.len())?;
    let mut left = inputs;
    let mut first = 0;
    while !left.is_empty() {
        let (part, rest) = left.split_at(BIT_SET_BITS.min(left.len()));
        let bit_sets = bit_sets_of(alloc, graph, guess, all.as_slice(), part)?;
        let count = part.len() as u32;
        push_bit_sets(
            layout,
            values,
            bit_sets.as_slice(),
            first,
            count,
            &mut lists,
        )?;
        first += count;
        left = rest;
    }
    Ok(lists)
}

/// Appends to the list of each value the numbers of the bits of its bit set, the first having a number.
fn push_bit_sets(
    layout: &Layout,
    values: &[Value],
    bit_sets: &[u64],
    first: u32,
    count: u32,
    lists: &mut Vec<NodeList>,
) -> Result<(), AllocError>
    requires few { count ≤ 64 }
    requires fits { first + count < 2 ^ 32 }
    requires each { length lists.old.items ≡ length values.now }
    ensures { OnOk result (AddsBitSets bit_sets.now (map (value_node layout.now) values.now) first count (lists_of lists.old.items) (lists_of lists.new.items)) }
{
    for k in 0..values.len() {
        let bit_set = bit_set_of(bit_sets, node_of(layout, values[k]));
        let list = &mut lists[k];
        push_bits(bit_set, first, count, &mut list.nodes)?;
    }
    Ok(())
}

/// Appends the numbers of the bits of a bit set, the first having a number.
fn push_bits(bit_set: u64, first: u32, count: u32, numbers: &mut Vec<u32>) -> Result<(), AllocError>
    requires few { count ≤ 64 }
    requires fits { first + count < 2 ^ 32 }
    ensures { OnOk result (AddsBits bit_set first count numbers.old.items numbers.new.items) }
{
    if bit_set == 0 {
        return Ok(());
    }
    for x in 0..count {
        if (bit_set >> x) & 1 == 1 {
            numbers.push(first + x)?;
        }
    }
    Ok(())
}
