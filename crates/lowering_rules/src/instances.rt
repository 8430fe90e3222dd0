//! Instances with the names of the leaves of their modules' ports.
ghost use Rattle.std.specs.Prelude.{◌≡◌, true, false, map, option_map, IfOk};
ghost use Rattle.hw_model.specs.Kinds.Kind.{instance as instance_kind_of};
ghost use Rattle.hw_model.specs.KindViews.{kind_of, instance_of};
ghost use Rattle.hw_model.specs.Design.{find_module};
ghost use Rattle.ir_store.specs.Designs.{port_of, ports_in, design_of};
ghost use Rattle.port_checks.specs.InstanceChecks.{port_names};
ghost use Rattle.lowering_rules.specs.Callees.{AreCallees, module_leaves};
ghost use Rattle.lowering_rules.specs.LoweringRules.{named_by};

use hw_model::kinds::{Instance, OpKind};
use io_edge::byte_text::Text;
use ir_store::design::{Design, Port, PortList};
use std::alloc::{AllocError, Global};

/// The modules that instances name, with the leaves of their ports.
#[derive(Clone, Copy)]
pub struct Callees<'d> {
    /// The design.
    pub design: &'d Design,
    /// The leaves of the ports of each module.
    pub ports: &'d [PortList],
}

/// The kind of an instance, with the names of the leaves of its module's ports.
pub fn instance_kind(
    alloc: Global,
    callees: &Callees<'_>,
    instance: &Instance,
) -> Result<OpKind, AllocError>
    requires { AreCallees callees.now }
    ensures { IfOk result (λ kind. kind_of kind ≡ named_by (instance_of instance.now) (find_module (design_of callees.now.design.now) instance.now.symbol)) }
{
    match callees.leaves_of(instance.symbol.as_bytes()) {
        Some(list) => kind_with(alloc, with_ports(alloc, instance, &list.ports)?),
        None => kind_with(alloc, instance.try_clone(alloc)?),
    }
}

impl<'d> Callees<'d> {
    // The leaves of the ports of the first module of a symbol.
    fn leaves_of(self, symbol: &[u8]) -> Option<&'d PortList>
        requires { AreCallees self }
        ensures { option_map (λ list. ports_in list.now) result ≡ option_map module_leaves (find_module (design_of self.entry.design.now) symbol.now) }
    {
        let number = self.design.find(symbol)?;
        self.ports.get(number as usize)
    }
}

// The kind of an instance.
fn kind_with(alloc: Global, instance: Instance) -> Result<OpKind, AllocError>
    ensures { IfOk result (λ kind. kind_of kind ≡ instance_kind_of (instance_of instance)) }
{
    Ok(OpKind::Instance(Box::new(alloc, instance)?))
}

// An instance with the names of these ports.
fn with_ports(alloc: Global, instance: &Instance, ports: &[Port]) -> Result<Instance, AllocError>
    ensures { IfOk result (λ copy. instance_of copy ≡ record (instance_of instance.now) { inputs = port_names false (map port_of ports.now); outputs = port_names true (map port_of ports.now) }) }
{
    let mut copy = instance.try_clone(alloc)?;
    copy.inputs = port_names(alloc, false, ports)?;
    copy.outputs = port_names(alloc, true, ports)?;
    Ok(copy)
}

// The names of the ports of one way.
fn port_names(alloc: Global, out: bool, ports: &[Port]) -> Result<Vec<Text>, AllocError>
    ensures { IfOk result (λ names. names.items ≡ port_names out (map port_of ports.now)) }
{
    let mut names = Vec::new(alloc);
    for port in ports {
        if port.out == out {
            names.push(port.name.try_clone(alloc)?)?;
        }
    }
    Ok(names)
}
