//! The widths of operands.
ghost use Rattle.std.specs.Prelude.{◌≡◌, map, IfOk, slice_get};
ghost use Rattle.hw_model.specs.Flat.{width_of};
ghost use Rattle.hw_model.specs.Sound.{input_type, type_in};
ghost use Rattle.hw_model.specs.Design.{result_type};
ghost use Rattle.ir_store.specs.Bodies.{ids_of, ops_of};
ghost use Rattle.ir_store.specs.Designs.{ports_in};
ghost use Rattle.ir_store.specs.Numbered.{position_of, ref_by, ops_by_position};
ghost use Rattle.body_index.specs.OpIndexes.{op_view};
ghost use Rattle.operation_gates.specs.Prices.{first_width};
ghost use Rattle.flat_module_laws.specs.FlatPrices.{operand_widths};

use body_index::op_index::OpIndex;
use flat_module_gates::widths::bits_of;
use ir_store::body::Op;
use ir_store::design::PortList;
use ir_store::operation::Value;
use std::alloc::{AllocError, Global};

/// A body with the ports of its module.
#[derive(Clone, Copy)]
pub(crate) struct Typed<'t> {
    /// The ports.
    pub(crate) ports: &'t PortList,
    /// The operations.
    pub(crate) ops: &'t OpIndex<'t>,
}

/// The width of the first operand; 0 where there is none. One of 2^32 bits wants more memory than there is.
pub(crate) fn first_width(body: &Typed<'_>, operands: &[Value]) -> Result<u32, AllocError>
    ensures { IfOk result (λ w. w ≡ first_width (operand_widths (ports_in body.now.ports.now) (ops_by_position (ops_of body.now.ops.now.body.now)) (map (ref_by (position_of (ids_of body.now.ops.now.body.now))) operands.now))) }
{
    match operands {
        [] => Ok(0),
        [first, ..] => value_width(body, *first),
    }
}

// The width of a value; 0 of what is none.
fn value_width(body: &Typed<'_>, value: Value) -> Result<u32, AllocError>
    ensures { IfOk result (λ w. w ≡ width_of (type_in (ports_in body.now.ports.now) (ops_by_position (ops_of body.now.ops.now.body.now)) (ref_by (position_of (ids_of body.now.ops.now.body.now)) value))) }
{
    match value {
        Value::Port(port) => port_width(body.ports, port as usize),
        Value::Result(id, number) => {
            let position = body.ops.position(id);
            if position < body.ops.count() {
                result_width(&body.ops.op_at(position), number as usize)
            } else {
                Ok(0)
            }
        }
        Value::Undefined => Ok(0),
    }
}

// The width of an input among ports; 0 of what is none.
fn port_width(ports: &PortList, position: usize) -> Result<u32, AllocError>
    ensures { IfOk result (λ w. w ≡ width_of (input_type (slice_get (ports_in ports.now) position))) }
{
    match ports.ports.get(position) {
        Some(port) if !port.out => bits_of(&port.ty),
        _ => Ok(0),
    }
}

// The width of a result of an operation; 0 where it has none of that number.
fn result_width(op: &Op<'_>, number: usize) -> Result<u32, AllocError>
    ensures { (b : _) → IfOk result (λ w. w ≡ width_of (result_type (op_view b op.now) number)) }
{
    match op.results.as_slice().get(number) {
        Some(found) => bits_of(&found.ty),
        None => Ok(0),
    }
}
