//! Whether designs are in canonical form.
ghost use Rattle.std.specs.Prelude.{◌↔◌, ◌^◌, ◌<◌, map, IsTrue};
ghost use Rattle.ir_store.specs.Designs.{design_of, module_of, numbered_module, port_of};
ghost use Rattle.stored_form.specs.Bytes.{Each};
ghost use Rattle.stored_form.specs.Canonical.{IsCanonical, IsCanonicalModule, IsCanonicalPort};

use crate::bytes::are_bytes;
use crate::dictionaries::is_kept_dictionary;
use crate::operations::are_canonical_ops;
use crate::types::is_any_type;
use ir_store::design::{Design, Module, Port};
use opcode::listed::Listed;

/// More ports, and more operations, than a module in canonical form may have.
const TOO_MANY: usize = 1 << 32;

/// Whether a design is in canonical form, so that it may be verified. It takes no memory, and the time of one walk over the
/// design.
pub fn is_canonical(design: &Design) -> bool
    ensures { IsTrue result ↔ IsCanonical (design_of design.now) }
{
    for number in 0..design.module_count() {
        if !is_canonical_module(design.module(number)) {
            return false;
        }
    }
    true
}

/// Whether a module is in canonical form.
fn is_canonical_module(module: &Module) -> bool
    ensures { IsTrue result ↔ IsCanonicalModule (numbered_module (module_of «module».now)) }
{
    let ports = &module.ports.ports;
    are_bytes(module.symbol.as_bytes());
    are_few(ports.len(), module.body.op_count())
        && (are_canonical_ports(ports)
            && (is_kept_dictionary(Listed::HwModule, &module.dictionary)
                && are_canonical_ops(&module.body)))
}

/// Whether there are fewer ports and operations than the limit.
fn are_few(ports: usize, operations: usize) -> bool
    ensures { IsTrue result ↔ ((ports < 2 ^ 32) × (operations < 2 ^ 32)) }
{
    ports < TOO_MANY && operations < TOO_MANY
}

/// Whether each port is in canonical form.
fn are_canonical_ports(ports: &[Port]) -> bool
    ensures { IsTrue result ↔ Each IsCanonicalPort (map port_of ports.now) }
{
    for port in ports {
        if !is_canonical_port(port) {
            return false;
        }
    }
    true
}

/// Whether a port is in canonical form.
fn is_canonical_port(port: &Port) -> bool
    ensures { IsTrue result ↔ IsCanonicalPort (port_of port.now) }
{
    are_bytes(port.name.as_bytes());
    is_any_type(&port.ty)
}
