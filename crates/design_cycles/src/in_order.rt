//! Bodies in which each operation takes what stands before it.
ghost use Rattle.std.specs.Prelude.{◌≡◌, ◌<◌, ℕ, length, map, MatchBool};
ghost use Rattle.std.specs.List.{list_all};
ghost use Rattle.ir_store.specs.Bodies.{ids_of, ops_of, op_id};
ghost use Rattle.ir_store.specs.Numbered.{ops_by_position};
ghost use Rattle.design_cycles.specs.InOrder.{is_at_its_number, is_before, StandsAfter, IsInOrder, IsLate};

use crate::ops::{Sort, sort_of};
use body_index::op_index::op_at;
use ir_store::body::Body;
use ir_store::operation::{OpId, Value};

/// Whether each operation but a register takes ports and results of operations before it alone, `ids` being those of all.
/// Where it says no, an operation has an operand that is not told to stand before it: in a body whose ids are not numbered
/// in text order it may.
pub(crate) fn are_in_order(body: &Body, ids: &[OpId]) -> bool
    requires { ids.now ≡ map op_id (ids_of body.now) }
    ensures { MatchBool result (IsInOrder (ops_by_position (ops_of body.now))) ((j : ℕ) × IsLate body.now ids.now j) }
{
    for position in 0..ids.len() {
        if !stands_after(body, ids, position) {
            return false;
        }
    }
    true
}

/// Whether the operation at a position is a register, or takes ports and results of operations before it alone.
fn stands_after(body: &Body, ids: &[OpId], position: usize) -> bool
    requires all { ids.now ≡ map op_id (ids_of body.now) }
    requires within { position < length ids.now }
    ensures { MatchBool result (StandsAfter (ops_by_position (ops_of body.now)) position) (IsLate body.now ids.now position) }
{
    let op = op_at(body, ids, position);
    if let Sort::Register = sort_of(op.kind) {
        return true;
    }
    are_before(op.operands, ids, position)
}

/// Whether each value is none of the results of the operations from a position on.
fn are_before(values: &[Value], ids: &[OpId], position: usize) -> bool
    ensures { result ≡ list_all (is_before ids.now position) values.now }
{
    for value in values {
        if !is_before(*value, ids, position) {
            return false;
        }
    }
    true
}

/// Whether a value is none of the results of the operations from a position on: it is no result, or its operation stands
/// before, at the number of its id.
fn is_before(value: Value, ids: &[OpId], position: usize) -> bool
    ensures { result ≡ is_before ids.now position value }
{
    match value {
        Value::Result(id, _) => (id.number() as usize) < position && is_at_its_number(id, ids),
        Value::Port(_) | Value::Undefined => true,
    }
}

/// Whether an id stands at its own number.
fn is_at_its_number(id: OpId, ids: &[OpId]) -> bool
    ensures { result ≡ is_at_its_number ids.now id.index }
{
    match ids.get(id.number() as usize) {
        Some(other) => other.number() == id.number(),
        None => false,
    }
}
