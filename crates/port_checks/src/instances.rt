//! The checks of an instance against the module that it names.
ghost use Rattle.std.specs.Prelude.{◌≡◌, map, Some};
ghost use Rattle.std.specs.Cmp.Lexicographic.{pointwise};
ghost use Rattle.hw_model.specs.TypeViews.{type_of};
ghost use Rattle.hw_model.specs.KindViews.{kind_of, instance_of};
ghost use Rattle.hw_model.specs.Design.{same_name, instance_in};
ghost use Rattle.hw_model.specs.SameType.{same_type};
ghost use Rattle.ir_store.specs.Designs.{port_of, design_of};
ghost use Rattle.port_checks.specs.InstanceChecks.{port_names, port_types, names_ports, instance_cause};

use diag::cause::Cause;
use hw_model::kinds::{Instance, OpKind};
use hw_model::types::Ty;
use io_edge::byte_text::Text;
use ir_store::design::{Design, Port};

/// Why an instance with these written types is refused by the module that it names; nothing for other kinds.
pub fn instance_cause(design: &Design, kind: &OpKind, types: &[Ty]) -> Option<Cause>
    ensures { result ≡ instance_cause (design_of design.now) (map type_of types.now) (instance_in (kind_of kind.now)) }
{
    match kind {
        OpKind::Instance(instance) => call_cause(design, instance, types),
        _ => None,
    }
}

/// Why an instance is refused by the module that it names.
fn call_cause(design: &Design, instance: &Instance, types: &[Ty]) -> Option<Cause>
    ensures { result ≡ instance_cause (design_of design.now) (map type_of types.now) (Some (instance_of instance.now)) }
{
    match design.find(instance.symbol.as_bytes()) {
        None => Some(Cause::UnknownModule),
        Some(number) => {
            let ports = &design.module(number).ports.ports;
            if names_ports(instance, types, ports) {
                None
            } else {
                Some(Cause::InstancePorts)
            }
        }
    }
}

/// Whether an instance names the ports of a module, in order and with their types: first the inputs, then the outputs.
fn names_ports(instance: &Instance, types: &[Ty], ports: &[Port]) -> bool
    ensures { result ≡ names_ports (instance_of instance.now) (map type_of types.now) (map port_of ports.now) }
{
    let (inputs, outputs) = types.split_at(instance.inputs.len().min(types.len()));
    (are_names(&instance.inputs, ports, false) && are_names(&instance.outputs, ports, true))
        && (are_types(inputs, ports, false) && are_types(outputs, ports, true))
}

/// Whether names are those of the ports of one direction, in order.
fn are_names(names: &[Text], ports: &[Port], out: bool) -> bool
    ensures { result ≡ pointwise same_name names.now (port_names out (map port_of ports.now)) }
{
    let mut rest = names;
    for port in ports {
        if port.out == out {
            match rest.split_first() {
                Some((first, others)) if *first == port.name => rest = others,
                Some(_) | None => return false,
            }
        }
    }
    rest.is_empty()
}

/// Whether types are those of the ports of one direction, in order.
pub fn are_types(types: &[Ty], ports: &[Port], out: bool) -> bool
    ensures { result ≡ pointwise same_type (map type_of types.now) (port_types out (map port_of ports.now)) }
{
    let mut rest = types;
    for port in ports {
        if port.out == out {
            match rest.split_first() {
                Some((first, others)) if *first == port.ty => rest = others,
                Some(_) | None => return false,
            }
        }
    }
    rest.is_empty()
}
