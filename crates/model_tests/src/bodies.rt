//! Bodies that are changed step by step, with ample memory.

use crate::body_changes::{Change, OPERANDS, ORDERS, Operand, Run};
use crate::use_changes::USES;
use Change::{DropAt, Erase, Insert, Put, Replace, Set};
use Operand::{Port, Sum, Undefined};
use diag::refusal::Location;
use hw_model::kinds::OpKind;
use io_edge::byte_text::Text;
use ir_store::body::Body;
use ir_store::dictionary::Dictionary;
use ir_store::operation::{NewOp, NewResultList, OpId, TyList, UsePosition, Value};
use smallvec::SmallVec;
use std::alloc::{AllocError, Global};
use std::test::Fail;

fn value_of(operand: Operand) -> Value {
    match operand {
        Port(position) => Value::Port(position),
        Sum(op) => Value::Result(OpId::nth(op), 0),
        Undefined => Value::Undefined,
    }
}

fn values_of(alloc: Global, operands: &[Operand]) -> Result<Vec<Value>, AllocError> {
    let mut values = Vec::new(alloc);
    for operand in operands {
        values.push(value_of(*operand))?;
    }
    Ok(values)
}

// A sum of these operands, without results.
fn operation(alloc: Global, operands: &[Value]) -> Result<NewOp, AllocError> {
    Ok(NewOp {
        kind: OpKind::Add,
        operands: SmallVec::from_slice(alloc, operands)?,
        types: TyList::new(),
        results: NewResultList::new(),
        named: 0,
        name: Text::new(alloc),
        dictionary: Dictionary::new(alloc),
        bin: false,
        location: Location::start(),
    })
}

// Each of these changes the body where the change may be made, and says whether it was.

pub(crate) fn put(
    alloc: Global,
    body: &mut Body,
    before: Option<u32>,
    operands: &[Value],
) -> Result<bool, AllocError> {
    if body.op_count() >= 1000 {
        return Ok(false);
    }
    match before {
        Some(number) => {
            let other = OpId::nth(number);
            if !body.contains(other) {
                return Ok(false);
            }
            let _ = body.add_op(Some(other), operation(alloc, operands)?)?;
        }
        None => {
            let _ = body.add_op(None, operation(alloc, operands)?)?;
        }
    }
    Ok(true)
}

pub(crate) fn erase(body: &mut Body, op: OpId) -> bool {
    let may = body.contains(op) && body.is_unused(op);
    if may {
        body.erase(op);
    }
    may
}

fn insert(body: &mut Body, op: OpId, at: u32, value: Value) -> Result<bool, AllocError> {
    let may = body.contains(op) && at as usize <= body.op(op).operands.len();
    if may {
        body.insert_operand(op, at, value)?;
    }
    Ok(may)
}

fn set_operand(body: &mut Body, op: OpId, at: u32, value: Value) -> bool {
    let may = body.contains(op) && (at as usize) < body.op(op).operands.len();
    if may {
        body.set_operand(op, at, value);
    }
    may
}

fn drop_operand(body: &mut Body, op: OpId, at: u32) -> bool {
    let may = body.contains(op) && (at as usize) < body.op(op).operands.len();
    if may {
        body.drop_operand(op, at);
    }
    may
}

fn apply_change(alloc: Global, body: &mut Body, change: Change) -> Result<bool, AllocError> {
    match change {
        Put { before, operands } => {
            let values = values_of(alloc, operands)?;
            put(alloc, body, before, values.as_slice())
        }
        Erase { op } => Ok(erase(body, OpId::nth(op))),
        Insert { op, at, value } => insert(body, OpId::nth(op), at, value_of(value)),
        Set { op, at, value } => Ok(set_operand(body, OpId::nth(op), at, value_of(value))),
        DropAt { op, at } => Ok(drop_operand(body, OpId::nth(op), at)),
        Replace { from, to } => {
            body.replace_all_uses(value_of(from), value_of(to));
            Ok(true)
        }
    }
}

fn has(body: &Body, op: OpId, operands: &[Value]) -> bool {
    body.contains(op) && body.op(op).operands == operands
}

// Whether the body has just these operations in this order, with their operands.
fn has_ops(
    alloc: Global,
    body: &Body,
    ops: &[(u32, &'static [Operand])],
) -> Result<bool, AllocError> {
    let mut left = body.ops();
    for (number, operands) in ops {
        let id = OpId::nth(*number);
        let values = values_of(alloc, operands)?;
        if left.next() != Some(id) || !has(body, id, values.as_slice()) {
            return Ok(false);
        }
    }
    Ok(left.next().is_none())
}

// whether one of the positions is this operand
fn is_among(position: UsePosition, positions: &[(u32, u32)]) -> bool {
    for (op, at) in positions {
        if position.op == OpId::nth(*op) && position.at == *at {
            return true;
        }
    }
    false
}

// Whether the value is used at just these positions, in some order.
fn is_used_at(body: &Body, value: Value, positions: &[(u32, u32)]) -> bool {
    let mut count = 0usize;
    for position in body.uses(value) {
        if !is_among(position, positions) {
            return false;
        }
        count = count.saturating_add(1);
    }
    count == positions.len()
}

// Whether the walk over the uses of a value gives the positions that are told at once, in their order.
fn is_walked(body: &Body, value: Value) -> bool {
    let mut at = body.first_use(value);
    for position in body.uses(value) {
        let Some(id) = at else {
            return false;
        };
        if body.use_at(id) != position {
            return false;
        }
        at = body.next_use(id);
    }
    at.is_none()
}

// The body after the changes of a run; none where one of them is made or not made against the table.
fn body_of(alloc: Global, run: &Run) -> Result<Option<Body>, AllocError> {
    let mut body = Body::new(alloc);
    for (change, may) in run.changes {
        if apply_change(alloc, &mut body, *change)? != *may {
            return Ok(None);
        }
    }
    Ok(Some(body))
}

// Whether a body is what a run gives.
fn is_given(alloc: Global, run: &Run, body: &Body) -> Result<bool, AllocError> {
    for (operand, positions) in run.uses {
        let value = value_of(*operand);
        if !is_used_at(body, value, positions) || !is_walked(body, value) {
            return Ok(false);
        }
    }
    has_ops(alloc, body, run.ops)
}

// Whether a run gives what the table says, and the copy of the body is the same.
fn is_well(alloc: Global, run: &Run) -> Result<bool, AllocError> {
    let Some(body) = body_of(alloc, run)? else {
        return Ok(false);
    };
    let copy = body.try_clone(alloc)?;
    Ok(is_given(alloc, run, &body)? && is_given(alloc, run, &copy)?)
}

// the first run that gives something else, by its position
fn first_other(alloc: Global, runs: &[Run]) -> Result<Option<usize>, AllocError> {
    for (at, run) in runs.iter().enumerate() {
        if !is_well(alloc, run)? {
            return Ok(Some(at));
        }
    }
    Ok(None)
}

#[test]
fn operands_change_where_they_are_named(rt: HostRuntime) -> Result<(), Fail> {
    assert_eq!(rt; first_other(rt.alloc(), &OPERANDS)?, None);
    Ok(())
}

#[test]
fn operations_stand_in_text_order(rt: HostRuntime) -> Result<(), Fail> {
    assert_eq!(rt; first_other(rt.alloc(), &ORDERS)?, None);
    Ok(())
}

#[test]
fn uses_follow_their_values(rt: HostRuntime) -> Result<(), Fail> {
    assert_eq!(rt; first_other(rt.alloc(), &USES)?, None);
    Ok(())
}
