//! What the module of an instance passes through from its inputs to its outputs.
ghost use Rattle.std.specs.Prelude.{◌≡◌, IfOk, Some, slice_get};
ghost use Rattle.std.specs.List.{list_any};
ghost use Rattle.ir_store.specs.Bodies.{ops_of};
ghost use Rattle.ir_store.specs.BodyOps.{is_of};
ghost use Rattle.body_edits.specs.WiresOut.{value_or_undefined};
ghost use Rattle.inline_pass.specs.Forwarding.{passed_value, joined_to};
ghost use Rattle.inline_pass.specs.MovedOps.{output_values};

use crate::moved_ops::is_output;
use ir_store::body::Body;
use ir_store::operation::{OpId, Value};
use std::alloc::{AllocError, Global};

/// The values that a module gives to its outputs.
pub(crate) fn given_values(alloc: Global, body: &Body) -> Result<Vec<Value>, AllocError>
    ensures { IfOk result (λ given. given.items ≡ output_values (ops_of body.now)) }
{
    for id in body.ops() {
        let op = body.op(id);
        if is_output(op.kind) {
            let given = Vec::from_slice(alloc, op.operands)?;
            return Ok(given);
        }
    }
    Ok(Vec::new(alloc))
}

/// What is joined to the port that a module gives to the output of a number, if it gives a port.
pub(crate) fn passed_value(given: &[Value], joined: &[Value], number: u32) -> Option<Value>
    ensures { result ≡ passed_value given.now joined.now number }
{
    match given.get(number as usize) {
        Some(value) => joined_to(joined, *value),
        None => None,
    }
}

/// What is joined to a port.
fn joined_to(joined: &[Value], value: Value) -> Option<Value>
    ensures { result ≡ joined_to joined.now (Some value) }
{
    match value {
        Value::Port(port) => Some(joined_at(joined, port)),
        Value::Result(_, _) | Value::Undefined => None,
    }
}

/// What is joined to the port of a number.
fn joined_at(joined: &[Value], port: u32) -> Value
    ensures { result ≡ value_or_undefined (slice_get joined.now port) }
{
    match joined.get(port as usize) {
        Some(value) => *value,
        None => Value::Undefined,
    }
}

/// Whether one of the values is a result of an operation.
pub(crate) fn takes_own(op: OpId, values: &[Value]) -> bool
    ensures { result ≡ list_any (is_of op.index) values.now }
{
    values.iter().any(|value| is_of(op, *value))
}

/// Whether a value is a result of an operation.
fn is_of(op: OpId, value: Value) -> bool
    ensures { result ≡ is_of op.index value }
{
    match value {
        Value::Result(id, _) => id.number() == op.number(),
        Value::Port(_) | Value::Undefined => false,
    }
}
