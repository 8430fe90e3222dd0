//! Values of expressions (IEEE 1364-2005, 5.4: bit lengths; 5.5: signed expressions), by the widths and signs of their parts.
//! Words have 1 to 128 bits.

use crate::fault::{Fault, require_some};
use crate::shapes::{Shape, own_shapes, pushed_shapes};
use crate::tree::{Context, Expression, Node, Operator};
use bits_core::Bits;
use std::alloc::Global;
use std::cmp::Ordering;

/// The values of the names of a module that are known: those of all nets, and where the module's begin.
#[derive(Clone, Copy)]
pub struct Scope<'n> {
    pub nets: &'n [Option<Bits>],
    pub start: usize,
}

impl<'n> Scope<'n> {
    /// The value of a name, if it is known.
    pub fn value(&self, net: usize) -> Option<Bits> {
        let at = self.start.checked_add(net)?;
        match self.nets.get(at) {
            Some(Some(word)) => Some(*word),
            _ => None,
        }
    }
}

/// A word as one of this many bits, extended by its sign where it is read as signed; None where it has more.
pub fn extend(word: Bits, shape: Shape) -> Option<Bits> {
    let width = word.width();
    if shape.width > 128 || shape.width < width {
        return None;
    }
    if shape.width == width {
        return Some(word);
    }
    let fill = if shape.is_signed && word.is_negative() {
        u128::MAX << width
    } else {
        0
    };
    Some(Bits::truncate(shape.width, word.value() | fill))
}

/// The lowest bits of a word; None where it has fewer.
pub fn low_bits(word: Bits, width: u32) -> Option<Bits> {
    if width == 0 || width > word.width() {
        return None;
    }
    Some(word.extract(0, width))
}

// Bits of a word.
fn select(word: Bits, low: u32, width: u32) -> Option<Bits> {
    let end = low.checked_add(width)?;
    if width == 0 || end > word.width() {
        return None;
    }
    Some(word.extract(low, width))
}

// One word after another.
fn concat_words(high: Option<Bits>, low: Bits) -> Option<Bits> {
    let Some(high) = high else {
        return Some(low);
    };
    if high.width() + low.width() > 128 {
        return None;
    }
    Some(high.concat(&low))
}

// Copies of a word, one after another.
fn replicate(word: Bits, count: u32) -> Option<Bits> {
    let mut all = None;
    for _ in 0..count {
        all = Some(concat_words(all, word)?);
    }
    all
}

/// Whether a bit of a word is 1.
pub fn is_true(word: Bits) -> bool {
    word.value() != 0
}

// An arithmetic or bitwise operator between words of one width.
fn arithmetic(operator: Operator, is_signed: bool, a: Bits, b: Bits) -> Option<Bits> {
    if a.width() != b.width() {
        return None;
    }
    match operator {
        Operator::Times => Some(a.mul(&b)),
        Operator::Over if is_signed => Some(a.divs(&b)),
        Operator::Over => Some(a.divu(&b)),
        Operator::Modulo if is_signed => Some(a.mods(&b)),
        Operator::Modulo => Some(a.modu(&b)),
        Operator::Plus => Some(a.add(&b)),
        Operator::Minus => Some(a.sub(&b)),
        Operator::And => Some(a.and(&b)),
        Operator::Xor => Some(a.xor(&b)),
        Operator::Or => Some(a.or(&b)),
        _ => None,
    }
}

// A shift of a word by the number of another one.
fn shift(operator: Operator, is_signed: bool, a: Bits, b: Bits) -> Option<Bits> {
    match operator {
        Operator::LeftShift => Some(a.shl(&b)),
        Operator::RightShift => Some(a.shru(&b)),
        Operator::SignedRightShift if is_signed => Some(a.shrs(&b)),
        Operator::SignedRightShift => Some(a.shru(&b)),
        _ => None,
    }
}

// Whether words of one width compare so.
fn compare(operator: Operator, is_signed: bool, a: Bits, b: Bits) -> Option<bool> {
    if a.width() != b.width() {
        return None;
    }
    let order = a.cmp(&b, is_signed);
    match operator {
        Operator::Below => Some(order == Ordering::Less),
        Operator::AtMost => Some(order != Ordering::Greater),
        Operator::Above => Some(order == Ordering::Greater),
        Operator::AtLeast => Some(order != Ordering::Less),
        Operator::Equals => Some(order == Ordering::Equal),
        Operator::Differs => Some(order != Ordering::Equal),
        _ => None,
    }
}

// What is known of the parts of an expression before one of them: their own shapes, and their values.
#[derive(Clone, Copy)]
struct Parts<'p> {
    shapes: &'p [Shape],
    values: &'p [Bits],
}

impl<'p> Parts<'p> {
    fn value(&self, at: usize) -> Option<Bits> {
        self.values.get(at).copied()
    }

    fn is_signed(&self, at: usize) -> Option<bool> {
        Some(self.shapes.get(at)?.is_signed)
    }

    // A binary operator under a width and a sign.
    fn binary(&self, operator: Operator, left: usize, right: usize, pushed: Shape) -> Option<Bits> {
        let a = self.value(left)?;
        let b = self.value(right)?;
        match operator.context() {
            Context::BothOperands => arithmetic(operator, pushed.is_signed, a, b),
            Context::LeftOperand => shift(operator, pushed.is_signed, a, b),
            Context::NoOperand => {
                let is_signed = self.is_signed(left)? && self.is_signed(right)?;
                let holds = compare(operator, is_signed, a, b)?;
                extend(Bits::from(holds), pushed)
            }
        }
    }

    // The value of a part that no context reaches, by its own width.
    fn own_value(&self, node: &Node, scope: &Scope) -> Option<Bits> {
        match *node {
            Node::Net { net, .. } => scope.value(net),
            Node::Select { net, low, width } => select(scope.value(net)?, low, width),
            Node::Literal { word, .. } => Some(word),
            Node::Joined { before: None, part } => self.value(part),
            Node::Joined {
                before: Some(before),
                part,
            } => concat_words(self.value(before), self.value(part)?),
            Node::Repeated { count, part } => replicate(self.value(part)?, count),
            Node::Cast { operand, .. } => self.value(operand),
            Node::Odd { operand } => Some(self.value(operand)?.parity()),
            Node::Binary { .. } | Node::Choice { .. } => None,
        }
    }

    // The value of a part under a width and a sign.
    fn pushed_value(&self, node: &Node, pushed: Shape, scope: &Scope) -> Option<Bits> {
        match *node {
            Node::Binary {
                operator,
                left,
                right,
            } => self.binary(operator, left, right, pushed),
            Node::Choice { condition, yes, no } => {
                if is_true(self.value(condition)?) {
                    self.value(yes)
                } else {
                    self.value(no)
                }
            }
            _ => extend(self.own_value(node, scope)?, pushed),
        }
    }
}

/// The value of an expression where the context has this many bits at least, by its own sign.
///
/// `Unreadable` where a name has no value yet, or a part has more than 128 bits.
pub fn value_under(
    alloc: Global,
    expression: &Expression,
    width: u32,
    scope: &Scope,
) -> Result<Bits, Fault> {
    let nodes = expression.nodes.as_slice();
    let shapes = own_shapes(alloc, nodes)?;
    let contexts = pushed_shapes(alloc, nodes, shapes.as_slice(), width)?;
    let mut values = Vec::new(alloc);
    for (at, node) in nodes.iter().enumerate() {
        let pushed = require_some(contexts.get(at).copied())?;
        let parts = Parts {
            shapes: shapes.as_slice(),
            values: values.as_slice(),
        };
        let value = require_some(parts.pushed_value(node, pushed, scope))?;
        values.push(value)?;
    }
    require_some(values.last().copied())
}

/// What an assignment of an expression gives to a name of this many bits.
pub fn assigned_value(
    alloc: Global,
    expression: &Expression,
    width: u32,
    scope: &Scope,
) -> Result<Bits, Fault> {
    let value = value_under(alloc, expression, width, scope)?;
    require_some(low_bits(value, width))
}

/// Whether all names of an expression have values.
pub fn is_known(expression: &Expression, scope: &Scope) -> bool {
    for node in expression.nodes.as_slice() {
        let known = match *node {
            Node::Net { net, .. } | Node::Select { net, .. } => scope.value(net).is_some(),
            _ => true,
        };
        if !known {
            return false;
        }
    }
    true
}
