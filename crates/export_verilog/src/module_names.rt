//! The names of a module's things.
ghost use Rattle.std.specs.Prelude.{◌≡◌, ◌++◌, map, IfOk, OnOk};
ghost use Rattle.hw_model.specs.Design.{Port as seen};
ghost use Rattle.ir_store.specs.Designs.{port_of};
ghost use Rattle.name_legalise.specs.Legal.{legal_after};
ghost use Rattle.name_legalise.specs.LegalViews.{legal_names};
ghost use Rattle.verilog_expr.specs.Scopes.{scope_ports, scope_ops};
ghost use Rattle.verilog_expr.specs.PartTables.{AreWires};
ghost use Rattle.export_verilog.specs.ModuleNames.{AreModuleNames};
ghost use Rattle.export_verilog.specs.PortValues.{port_value, port_values};
ghost use Rattle.export_verilog.specs.ScopeModules.{scope_module};

use crate::body_names::add_ops;
use crate::op_names::add_name;
use io_edge::byte_text::Text;
use ir_store::design::Port;
use name_legalise::names::Names;
use std::alloc::{AllocError, Global};
use verilog_expr::scope::Scope;
use verilog_expr::value_names::ValueNames;
use verilog_expr::wires::Wires;

/// The names of a module's things.
#[derive(Drop)]
pub struct ModuleNames {
    /// Of its ports, in order.
    pub ports: Vec<Text>,
    /// Of its values.
    pub values: ValueNames,
    /// The operations' own names, which instances have.
    pub own: Vec<Text>,
}

// The name of the value of a port of some name, where it has one: an output port has none.
fn value_name(alloc: Global, port: &Port, name: &Text) -> Result<Option<Text>, AllocError>
    ensures { IfOk result (λ value. value ≡ port_value (port_of port.now) name.now) }
{
    if port.out {
        return Ok(None);
    }
    let copy = name.try_clone(alloc)?;
    Ok(Some(copy))
}

// Adds the names of ports, and of their values, and gives the ports' names.
fn add_ports(
    alloc: Global,
    names: &mut Names,
    values: &mut ValueNames,
    ports: &[Port],
) -> Result<Vec<Text>, AllocError>
    ensures names { OnOk result (legal_names names.new ≡ legal_names names.old ++ legal_after (legal_names names.old) (map (λ (p : seen). p.name) (map port_of ports.now))) }
    ensures list { IfOk result (λ list. list.items ≡ legal_after (legal_names names.old) (map (λ (p : seen). p.name) (map port_of ports.now))) }
    ensures values { OnOk result (values.new.ports.items ≡ values.old.ports.items ++ port_values (map port_of ports.now) (legal_after (legal_names names.old) (map (λ (p : seen). p.name) (map port_of ports.now)))) }
    ensures ops { OnOk result (values.new.ops ≡ values.old.ops) }
{
    let mut list = Vec::new(alloc);
    for port in ports {
        let name = add_name(alloc, names, port.name.as_bytes())?;
        values.push_port(value_name(alloc, port, &name)?)?;
        list.push(name)?;
    }
    Ok(list)
}

/// The names of a module's things, by its ports and its body. The error is out of memory, as with more than
/// 4,000,000,000 names.
pub fn module_names(
    alloc: Global,
    scope: &Scope<'_>,
    wires: &Wires,
    ports: &[Port],
) -> Result<ModuleNames, AllocError>
    requires wires { AreWires (scope_ports scope.now) (scope_ops scope.now) wires.now.wires.items }
    requires ports { map port_of ports.now ≡ scope_ports scope.now }
    ensures { IfOk result (λ n. AreModuleNames (scope_module scope.now) n.ports.items n.values n.own.items) }
{
    let mut names = Names::new(alloc);
    let mut values = ValueNames::new(alloc);
    let listed = add_ports(alloc, &mut names, &mut values, ports)?;
    let own = add_ops(alloc, &mut names, &mut values, scope, wires)?;
    Ok(ModuleNames {
        ports: listed,
        values,
        own,
    })
}
