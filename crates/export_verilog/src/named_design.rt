//! A design with the names of its modules and of their ports.
ghost use Rattle.std.specs.Prelude.{◌≡◌, map, option_map, IfOk};
ghost use Rattle.ir_store.specs.Designs.{design_of, port_of};
ghost use Rattle.export_verilog.specs.Exported.{symbol_names};
ghost use Rattle.export_verilog.specs.NamedDesigns.{AreNamesWhere, ArePortsNamed};

use crate::called::{called_modules, is_marked};
use crate::legal_names::{port_names, symbol_names};
use io_edge::byte_text::Text;
use ir_store::design::{Design, Port};
use std::alloc::{AllocError, Global};

/// The names of the ports of a module, or none of a module that no instance calls.
#[derive(Drop)]
pub struct PortNames {
    /// The names, in order.
    pub names: Option<Vec<Text>>,
}

/// A design with the legal names of its modules and of their ports.
#[derive(Drop)]
pub struct NamedDesign<'d> {
    /// The design.
    pub design: &'d Design,
    /// The names of the modules, in order.
    pub symbols: Vec<Text>,
    /// The names of the ports of each module that an instance calls, in order.
    pub ports: Vec<PortNames>,
    ghost symbols_are: { symbols.items ≡ symbol_names (design_of design.now) },
    ghost ports_are: { ArePortsNamed (design_of design.now) ports.items },
}

impl<'d> NamedDesign<'d> {
    ghost use Rattle.std.specs.Prelude.{◌≡◌, IfOk};
    ghost use Rattle.ir_store.specs.Designs.{design_of};

    /// A design with the names that Verilog gives to its modules and to their ports. The error comes only where memory
    /// runs out.
    pub fn of(alloc: Global, design: &'d Design) -> Result<NamedDesign<'d>, AllocError>
        ensures { IfOk result (λ all. design_of all.design.now ≡ design_of design.now) }
    {
        let symbols = symbol_names(alloc, design)?;
        let ports = names_of_ports(alloc, design)?;
        Ok(NamedDesign {
            design,
            symbols,
            ports,
        })
    }
}

/// The names of the ports of a module, where they are there.
pub fn names_in(list: &PortNames) -> Option<&[Text]>
    ensures { option_map (λ (n : _). n.now) result ≡ option_map (λ (n : _). n.items) list.now.names }
{
    match &list.names {
        Some(names) => Some(names.as_slice()),
        None => None,
    }
}

// The names of ports, where they are wanted.
fn names_where(alloc: Global, wanted: bool, ports: &[Port]) -> Result<PortNames, AllocError>
    ensures { IfOk result (λ list. AreNamesWhere (map port_of ports.now) (option_map (λ (n : _). n.items) list.names)) }
{
    if !wanted {
        return Ok(PortNames { names: None });
    }
    let names = port_names(alloc, ports)?;
    Ok(PortNames { names: Some(names) })
}

// The names of the ports of each module that an instance calls.
fn names_of_ports(alloc: Global, design: &Design) -> Result<Vec<PortNames>, AllocError>
    ensures { IfOk result (λ ports. ArePortsNamed (design_of design.now) ports.items) }
{
    let called = called_modules(alloc, design)?;
    let mut ports = Vec::with_capacity(alloc, design.module_count() as usize)?;
    for number in 0..design.module_count() {
        let wanted = is_marked(called.as_slice(), number);
        let list = names_where(alloc, wanted, design.module(number).ports.ports.as_slice())?;
        ports.push(list)?;
    }
    Ok(ports)
}
