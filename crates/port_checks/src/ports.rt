//! Ports of one module, and values that are ports.
ghost use Rattle.std.specs.Prelude.{◌≡◌, map, option_map, slice_get};
ghost use Rattle.hw_model.specs.TypeViews.{type_of};
ghost use Rattle.ir_store.specs.Designs.{port_of};
ghost use Rattle.port_checks.specs.ResetPorts.{is_bit_type, is_bit_input};
ghost use Rattle.port_checks.specs.Joins.{bit_port};
ghost use Rattle.port_checks.specs.Seen.{ref_seen};

use hw_model::types::Ty;
use ir_store::design::Port;
use ir_store::operation::Value;

/// The number of the port that a value is, where that is an input of type i1.
pub(crate) fn bit_port(ports: &[Port], value: Option<Value>) -> Option<u32>
    ensures { result ≡ bit_port (map port_of ports.now) (option_map ref_seen value) }
{
    match value {
        Some(Value::Port(port)) if is_bit_input(ports, port as usize) => Some(port),
        _ => None,
    }
}

/// Whether the port of a number is an input of type i1.
fn is_bit_input(ports: &[Port], number: usize) -> bool
    ensures { result ≡ is_bit_input (slice_get (map port_of ports.now) number) }
{
    match ports.get(number) {
        Some(port) => !port.out && is_bit(&port.ty),
        None => false,
    }
}

/// Whether a type is i1.
fn is_bit(ty: &Ty) -> bool
    ensures { result ≡ is_bit_type (type_of ty.now) }
{
    match ty {
        Ty::Int(width) => *width == 1,
        Ty::Clock | Ty::Array(..) | Ty::Struct(_) => false,
    }
}
