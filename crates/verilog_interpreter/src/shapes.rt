//! Widths and signs of expressions (IEEE 1364-2005, 5.4: bit lengths; 5.5: signed expressions): from the parts to the whole,
//! then from the whole to the parts that stand in its context.

use crate::fault::{Fault, require, require_some};
use crate::tree::{Context, Node, Operator};
use std::alloc::Global;

/// A width and a sign.
#[derive(Clone, Copy)]
pub struct Shape {
    pub width: u32,
    pub is_signed: bool,
}

fn unsigned_shape(width: u32) -> Shape {
    Shape {
        width,
        is_signed: false,
    }
}

// The greater width, signed where both are.
fn common(a: Shape, b: Shape) -> Shape {
    Shape {
        width: a.width.max(b.width),
        is_signed: a.is_signed && b.is_signed,
    }
}

// The own width and sign of a part, from those of the parts before it.
fn shape_of(node: &Node, shapes: &[Shape]) -> Option<Shape> {
    match *node {
        Node::Net { width, .. } | Node::Select { width, .. } => Some(unsigned_shape(width)),
        Node::Literal { word, is_signed } => Some(Shape {
            width: word.width(),
            is_signed,
        }),
        Node::Joined { before, part } => joined_shape(before, part, shapes),
        Node::Repeated { count, part } => {
            let part = shapes.get(part)?;
            Some(unsigned_shape(part.width.checked_mul(count)?))
        }
        Node::Cast { is_signed, operand } => Some(Shape {
            width: shapes.get(operand)?.width,
            is_signed,
        }),
        Node::Odd { .. } => Some(unsigned_shape(1)),
        Node::Binary {
            operator,
            left,
            right,
        } => binary_shape(operator, *shapes.get(left)?, *shapes.get(right)?),
        Node::Choice { yes, no, .. } => Some(common(*shapes.get(yes)?, *shapes.get(no)?)),
    }
}

// The shape of a concatenation.
fn joined_shape(before: Option<usize>, part: usize, shapes: &[Shape]) -> Option<Shape> {
    let part = shapes.get(part)?;
    match before {
        None => Some(unsigned_shape(part.width)),
        Some(before) => {
            let before = shapes.get(before)?;
            Some(unsigned_shape(before.width.checked_add(part.width)?))
        }
    }
}

// The shape of a binary operator between operands.
fn binary_shape(operator: Operator, left: Shape, right: Shape) -> Option<Shape> {
    match operator.context() {
        Context::BothOperands => Some(common(left, right)),
        Context::LeftOperand => Some(left),
        Context::NoOperand => Some(unsigned_shape(1)),
    }
}

/// The own width and sign of each part.
///
/// `Unreadable` where a part has no bits, or more than 128.
pub fn own_shapes(alloc: Global, nodes: &[Node]) -> Result<Vec<Shape>, Fault> {
    let mut shapes = Vec::new(alloc);
    for node in nodes {
        let shape = require_some(shape_of(node, shapes.as_slice()))?;
        require(shape.width > 0 && shape.width <= 128)?;
        shapes.push(shape)?;
    }
    Ok(shapes)
}

// Puts a shape at a position.
fn put(contexts: &mut Vec<Shape>, at: usize, shape: Shape) {
    if let Some(slot) = contexts.get_mut(at) {
        *slot = shape;
    }
}

// Hands the width and sign that are pushed to a part down to its own parts.
fn push_down(node: &Node, pushed: Shape, shapes: &[Shape], contexts: &mut Vec<Shape>) {
    match *node {
        Node::Binary {
            operator,
            left,
            right,
        } => push_to_operands(operator, left, right, pushed, shapes, contexts),
        Node::Choice { yes, no, .. } => {
            put(contexts, yes, pushed);
            put(contexts, no, pushed);
        }
        _ => (),
    }
}

// Hands a width and a sign down to the operands of a binary operator.
fn push_to_operands(
    operator: Operator,
    left: usize,
    right: usize,
    pushed: Shape,
    shapes: &[Shape],
    contexts: &mut Vec<Shape>,
) {
    match operator.context() {
        Context::BothOperands => {
            put(contexts, left, pushed);
            put(contexts, right, pushed);
        }
        Context::LeftOperand => put(contexts, left, pushed),
        Context::NoOperand => {
            if let (Some(a), Some(b)) = (shapes.get(left), shapes.get(right)) {
                let both = common(*a, *b);
                put(contexts, left, both);
                put(contexts, right, both);
            }
        }
    }
}

/// The width and sign under which each part is valued, the whole under the given width at least.
pub fn pushed_shapes(
    alloc: Global,
    nodes: &[Node],
    shapes: &[Shape],
    width: u32,
) -> Result<Vec<Shape>, Fault> {
    let mut contexts = Vec::from_slice(alloc, shapes)?;
    if let Some(whole) = contexts.last_mut() {
        whole.width = whole.width.max(width);
    }
    for at in (0..nodes.len()).rev() {
        let node = require_some(nodes.get(at))?;
        let pushed = require_some(contexts.get(at).copied())?;
        push_down(node, pushed, shapes, &mut contexts);
    }
    Ok(contexts)
}
