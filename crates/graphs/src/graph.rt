//! Nodes by their numbers, with the nodes that each leads to, and which nodes are reached from which.
ghost use Rattle.std.specs.Prelude.{◌≡◌, ◌<◌, ◌↔◌, false, length, IfOk, IsTrue};
ghost use Rattle.graphs.specs.Graphs.{lists_of, has_mark, AreReached};
ghost use Rattle.graphs.specs.Marks.{MarksAll};

use std::alloc::{AllocError, Global};

/// Nodes by their numbers.
#[derive(Drop)]
pub struct NodeList {
    /// The numbers.
    pub nodes: Vec<u32>,
}

/// Of each node, whether it is reached from one of `starts`, in any number of steps.
pub fn reached_from(
    alloc: Global,
    graph: &[NodeList],
    starts: &[u32],
) -> Result<Vec<bool>, AllocError>
    ensures { IfOk result (λ marks. AreReached (lists_of graph.now) starts.now marks.items) }
{
    let mut marks = vec![in alloc; false; graph.len()]?;
    let mut waiting = Vec::new(alloc);
    mark_all(starts, &mut marks, &mut waiting)?;
    while let Some(node) = waiting.pop() {
        mark_all(
            graph[node as usize].nodes.as_slice(),
            &mut marks,
            &mut waiting,
        )?;
    }
    Ok(marks)
}

/// Marks `nodes`, and lets those wait that had no mark. What is not there gets none.
pub fn mark_all(nodes: &[u32], marks: &mut [bool], waiting: &mut Vec<u32>) -> Result<(), AllocError>
    ensures { IfOk result (λ _. MarksAll nodes.now marks.old marks.new waiting.old.items waiting.new.items) }
{
    for node in nodes {
        if is_open(marks, *node) {
            waiting.push(*node)?;
            marks[*node as usize] = true;
        }
    }
    Ok(())
}

/// Whether the node has its mark.
pub fn is_marked(marks: &[bool], node: u32) -> bool
    ensures { result ≡ has_mark marks.now node }
{
    match marks.get(node as usize) {
        Some(mark) => *mark,
        None => false,
    }
}

/// Whether the node is there and has no mark.
pub fn is_open(marks: &[bool], node: u32) -> bool
    ensures { IsTrue result ↔ ((node < length marks.now) × (has_mark marks.now node ≡ false)) }
{
    match marks.get(node as usize) {
        Some(mark) => !*mark,
        None => false,
    }
}
