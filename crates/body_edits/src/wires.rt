//! Wires of a body, and what they carry.
ghost use Rattle.std.specs.Prelude.{◌≡◌};
ghost use Rattle.ir_store.specs.Bodies.{ops_of};
ghost use Rattle.body_edits.specs.Views.{HasOp};
ghost use Rattle.body_edits.specs.WiresOut.{carried_value, other_value};

use ir_store::body::Body;
use ir_store::operation::{OpId, Value};

/// What a wire carries: its first operand, unless that is its own result.
pub fn carried_value(body: &Body, wire: OpId) -> Value
    requires { HasOp body.now wire }
    ensures { result ≡ carried_value wire.index (ops_of body.now) }
{
    match body.op(wire).operands.first() {
        Some(value) => other_than(wire, *value),
        None => Value::Undefined,
    }
}

/// The value, unless it is a result of an operation.
fn other_than(op: OpId, value: Value) -> Value
    ensures { result ≡ other_value op.index value }
{
    match value {
        Value::Result(id, _) => {
            if id.number() == op.number() {
                Value::Undefined
            } else {
                value
            }
        }
        Value::Port(_) | Value::Undefined => value,
    }
}
