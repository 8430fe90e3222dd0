//! Orders of a graph's nodes in which each stands after all that it needs.
ghost use Rattle.std.specs.Prelude.{◌≡◌, ◌<◌, ◌^◌, ℕ, [], length, IfOk, MatchBool};
ghost use Rattle.wiring.specs.Wiring.{In};
ghost use Rattle.graphs.specs.Graphs.{lists_of, times_over};
ghost use Rattle.graphs.specs.Orders.{IsOrder, AreMarked, HasOpen, CanBePlaced, MustWait, Placed};

use crate::graph::{NodeList, is_open};
use std::alloc::{AllocError, Global};

/// Nodes in order, and of each node of the graph whether it is among them.
#[derive(Drop)]
pub struct Order {
    /// The nodes, each after all that it needs.
    pub nodes: Vec<u32>,
    /// Whether each node of the graph is among them.
    pub placed: Vec<bool>,
}

/// The longest order: a node that is not in it needs one that is not. The order is guessed first, and each node is
/// placed only once all that it needs is found placed.
pub fn callees_first(alloc: Global, graph: &[NodeList]) -> Result<Order, AllocError>
    requires { length graph.now < 2 ^ 32 }
    ensures order { IfOk result (λ o. IsOrder (lists_of graph.now) o.placed.items o.nodes.items) }
    ensures longest { IfOk result (λ o. (v : ℕ) → v < length graph.now → MustWait (lists_of graph.now) o.placed.items v) }
{
    let guess = likely_order(alloc, graph)?;
    let all = all_numbers(alloc, graph.len() as u32)?;
    let mut placed = vec![in alloc; false; graph.len()]?;
    let mut nodes = Vec::new(alloc);
    place_all(
        graph,
        guess.as_slice(),
        all.as_slice(),
        &mut placed,
        &mut nodes,
    )?;
    Ok(Order { nodes, placed })
}

/// Goes over the guess, and then over the candidates until none can be placed.
fn place_all(
    graph: &[NodeList],
    guess: &[u32],
    candidates: &[u32],
    placed: &mut [bool],
    nodes: &mut Vec<u32>,
) -> Result<(), AllocError>
    requires { IsOrder (lists_of graph.now) placed.old nodes.old.items }
    ensures order { IfOk result (λ _. IsOrder (lists_of graph.now) placed.new nodes.new.items) }
    ensures done { IfOk result (λ _. (v : ℕ) → In v candidates.now → MustWait (lists_of graph.now) placed.new v) }
{
    let _ = place(graph, guess, placed, nodes)?;
    loop {
        if !place(graph, candidates, placed, nodes)? {
            return Ok(());
        }
    }
}

/// Positions each candidate all whose needs are placed, and says whether there was one.
fn place(
    graph: &[NodeList],
    candidates: &[u32],
    placed: &mut [bool],
    nodes: &mut Vec<u32>,
) -> Result<bool, AllocError>
    requires { IsOrder (lists_of graph.now) placed.old nodes.old.items }
    ensures order { IfOk result (λ _. IsOrder (lists_of graph.now) placed.new nodes.new.items) }
    ensures changed { IfOk result (λ changed. Placed (lists_of graph.now) candidates.now placed.old placed.new changed) }
{
    let mut changed = false;
    for node in candidates {
        if can_be_placed(graph, *node, placed) {
            nodes.push(*node)?;
            placed[*node as usize] = true;
            changed = true;
        }
    }
    Ok(changed)
}

/// Whether the node is not placed, and all that it needs is.
fn can_be_placed(graph: &[NodeList], node: u32, placed: &[bool]) -> bool
    requires { length placed.now ≡ length graph.now }
    ensures { MatchBool result (CanBePlaced (lists_of graph.now) placed.now node) (MustWait (lists_of graph.now) placed.now node) }
{
    is_open(placed, node) && are_marked(graph[node as usize].nodes.as_slice(), placed)
}

/// Whether the nodes that are there have their marks.
fn are_marked(nodes: &[u32], marks: &[bool]) -> bool
    ensures { MatchBool result (AreMarked nodes.now marks.now) (HasOpen nodes.now marks.now) }
{
    for node in nodes {
        if is_open(marks, *node) {
            return false;
        }
    }
    true
}

/// The numbers below `count`.
pub fn all_numbers(alloc: Global, count: u32) -> Result<Vec<u32>, AllocError>
    ensures { IfOk result (λ numbers. (v : ℕ) → v < count → In v numbers.items) }
{
    let mut numbers = Vec::with_capacity(alloc, count as usize)?;
    for number in 0..count {
        numbers.push(number)?;
    }
    Ok(numbers)
}

/// A guess at such an order, by counting for each node what of its needs is not placed (A. B. Kahn, Topological sorting
/// of large networks, 1962). Nothing is promised of it.
pub fn likely_order(alloc: Global, graph: &[NodeList]) -> Result<Vec<u32>, AllocError> {
    let users = users_of(alloc, graph)?;
    let mut missing = need_counts(alloc, graph)?;
    let mut order = free_nodes(alloc, missing.as_slice())?;
    for next in 0..graph.len() {
        let Some(node) = order.get(next).copied() else {
            break;
        };
        if let Some(list) = users.get(node as usize) {
            release(list.nodes.as_slice(), &mut missing, &mut order)?;
        }
    }
    Ok(order)
}

/// Of each node, the nodes that need it, as often as they do.
fn users_of(alloc: Global, graph: &[NodeList]) -> Result<Vec<NodeList>, AllocError> {
    let mut users = empty_lists(alloc, graph.len())?;
    for (number, list) in graph.iter().enumerate() {
        let user = u32::try_from(number).unwrap_or(u32::MAX);
        note_user(user, list.nodes.as_slice(), &mut users)?;
    }
    Ok(users)
}

/// Notes a user of nodes.
fn note_user(user: u32, nodes: &[u32], users: &mut Vec<NodeList>) -> Result<(), AllocError> {
    for node in nodes {
        if let Some(list) = users.get_mut(*node as usize) {
            list.nodes.push(user)?;
        }
    }
    Ok(())
}

/// So many empty lists.
pub fn empty_lists(alloc: Global, count: usize) -> Result<Vec<NodeList>, AllocError>
    ensures { IfOk result (λ lists. lists_of lists.items ≡ times_over count []) }
{
    let mut lists = Vec::with_capacity(alloc, count)?;
    for _ in 0..count {
        lists.push(NodeList {
            nodes: Vec::new(alloc),
        })?;
    }
    Ok(lists)
}

/// How many nodes each node needs.
fn need_counts(alloc: Global, graph: &[NodeList]) -> Result<Vec<usize>, AllocError> {
    let mut counts = Vec::with_capacity(alloc, graph.len())?;
    for list in graph {
        counts.push(list.nodes.len())?;
    }
    Ok(counts)
}

/// The nodes that miss nothing.
fn free_nodes(alloc: Global, missing: &[usize]) -> Result<Vec<u32>, AllocError> {
    let mut nodes = Vec::with_capacity(alloc, missing.len())?;
    for (number, count) in missing.iter().enumerate() {
        if *count == 0 {
            nodes.push(u32::try_from(number).unwrap_or(u32::MAX))?;
        }
    }
    Ok(nodes)
}

/// Takes one from what each of `users` misses, and appends those that then miss nothing.
fn release(users: &[u32], missing: &mut [usize], order: &mut Vec<u32>) -> Result<(), AllocError> {
    for user in users {
        if let Some(count) = missing.get_mut(*user as usize) {
            *count = count.saturating_sub(1);
            if *count == 0 {
                order.push(*user)?;
            }
        }
    }
    Ok(())
}
