//! Bit sets: of each node of a graph, which of some inputs it depends on or is, one bit for each input.
ghost use Rattle.std.specs.Prelude.{◌≡◌, ◌<◌, ◌≤◌, ℕ, ◌∷◌, [], length, IfOk};
ghost use Rattle.wiring.specs.Wiring.{In};
ghost use Rattle.graphs.specs.Graphs.{lists_of};
ghost use Rattle.design_cycles.specs.BitSets.{bit_set_at, bit_set_of, JoinsBitSets, Spreads, Settles, GivesBits, AreBitSets};

use graphs::NodeList;
use std::alloc::{AllocError, Global};

/// How many inputs have bits in a bit set.
pub(crate) const BIT_SET_BITS: usize = 64;

/// Of each node, which of at most 64 inputs it depends on or is: bit x of its bit set stands for input x. Goes over the nodes
/// of `guess` and then over `all` until no bit set changes, so that where each node of the two stands after all that it needs,
/// each edge is followed twice or three times.
pub(crate) fn bit_sets_of(
    alloc: Global,
    graph: &[NodeList],
    guess: &[u32],
    all: &[u32],
    inputs: &[u32],
) -> Result<Vec<u64>, AllocError>
    requires few { length inputs.now ≤ 64 }
    requires all { (v : ℕ) → v < length graph.now → In v all.now }
    ensures { IfOk result (λ bit_sets. AreBitSets (lists_of graph.now) inputs.now bit_sets.items) }
{
    let mut bit_sets = vec![in alloc; 0; graph.len()]?;
    give_bits(inputs, &mut bit_sets);
    settle(graph, guess, all, &mut bit_sets);
    Ok(bit_sets)
}

/// Sets in the bit set of each input the bit of its own.
fn give_bits(inputs: &[u32], bit_sets: &mut [u64])
    requires { length inputs.now ≤ 64 }
    ensures { GivesBits inputs.now bit_sets.old bit_sets.new }
{
    for x in 0..inputs.len() {
        let node = inputs[x] as usize;
        if node < bit_sets.len() {
            bit_sets[node] |= 1 << x;
        }
    }
}

/// Adds to the bit set of each node the bit sets of what it needs, until no bit set changes.
fn settle(graph: &[NodeList], guess: &[u32], all: &[u32], bit_sets: &mut [u64])
    requires count { length bit_sets.old ≡ length graph.now }
    requires all { (v : ℕ) → v < length graph.now → In v all.now }
    ensures { Settles (lists_of graph.now) bit_sets.old bit_sets.new }
{
    let _ = spread(graph, guess, bit_sets);
    loop {
        if !spread(graph, all, bit_sets) {
            return;
        }
    }
}

/// Adds to the bit set of each of the nodes the bit sets of what it needs, one node after another, and says whether a bit set changed.
fn spread(graph: &[NodeList], nodes: &[u32], bit_sets: &mut [u64]) -> bool
    requires { length bit_sets.old ≡ length graph.now }
    ensures { Spreads (lists_of graph.now) nodes.now bit_sets.old bit_sets.new result }
{
    let mut changed = false;
    for node in nodes {
        if add_needs(graph, *node, bit_sets) {
            changed = true;
        }
    }
    changed
}

/// Adds to the bit set of a node the bit sets of what it needs, and says whether it changed.
fn add_needs(graph: &[NodeList], node: u32, bit_sets: &mut [u64]) -> bool
    requires { length bit_sets.old ≡ length graph.now }
    ensures { Spreads (lists_of graph.now) (node ∷ []) bit_sets.old bit_sets.new result }
{
    match graph.get(node as usize) {
        Some(list) => {
            let own = bit_set_at(bit_sets, node);
            let bit_set = own | bit_set_union(list.nodes.as_slice(), bit_sets);
            if bit_set == own {
                return false;
            }
            bit_sets[node as usize] = bit_set;
            true
        }
        None => false,
    }
}

/// The bits of the bit sets of all of the nodes.
fn bit_set_union(nodes: &[u32], bit_sets: &[u64]) -> u64
    ensures { JoinsBitSets bit_sets.now nodes.now result }
{
    let mut bit_set = 0;
    for node in nodes {
        bit_set |= bit_set_at(bit_sets, *node);
    }
    bit_set
}

/// The bit set of a node; what is not there has an empty one.
fn bit_set_at(bit_sets: &[u64], node: u32) -> u64
    ensures { result ≡ bit_set_at bit_sets.now node }
{
    match bit_sets.get(node as usize) {
        Some(bit_set) => *bit_set,
        None => 0,
    }
}

/// The bit set of a node, where there is one.
pub(crate) fn bit_set_of(bit_sets: &[u64], node: Option<u32>) -> u64
    ensures { result ≡ bit_set_of bit_sets.now node }
{
    match node {
        Some(node) => bit_set_at(bit_sets, node),
        None => 0,
    }
}
