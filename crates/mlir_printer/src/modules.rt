//! Modules, as they are printed.
ghost use Rattle.std.specs.Prelude.{◌≡◌, ◌≤◌, ◌++◌, map, length, min, drop, OnOk};
ghost use Rattle.hw_model.specs.TypeViews.{type_of};
ghost use Rattle.ir_store.specs.Designs.{port_of, module_of, numbered_module};
ghost use Rattle.mlir_printer.specs.Commas.{commas};
ghost use Rattle.mlir_printer.specs.Modules.{input_port_bytes, output_port_bytes, port_name_bytes, port_bytes, private_bytes, header_bytes, module_bytes};
ghost use Rattle.mlir_printer.specs.Naming.{input_count};
ghost use Rattle.printing_laws.specs.NameHints.{port_name_hint};
ghost use Rattle.mlir_printer.specs.Texts.{port_shown, ports_shown, module_shown};
ghost use Rattle.mlir_printer.specs.Shown.{header_shown};
ghost use Rattle.mlir_printer.specs.Views.{names_held};

use crate::commas::push_comma;
use crate::dictionaries::push_dictionary;
use crate::elements::push_value_name;
use crate::operations::{push_operations, saturating_add};
use crate::strings::{push_name, push_string, push_symbol};
use crate::types::push_type;
use crate::value_names::ValueNames;
use io_edge::byte_text::Text;
use ir_store::design::{Module, Port};
use std::alloc::{AllocError, Global};

// Adds the name of a port, where it is not called as its value.
#[tactic(auto, unfolding(crate::specs::Modules::port_name_bytes))]
fn push_port_name(out: &mut Text, value: &[u8], name: &[u8]) -> Result<(), AllocError>
    ensures { OnOk result (out.new ≡ out.old ++ port_name_bytes value.now name.now) }
{
    if value == name {
        return Ok(());
    }
    out.push_bytes(b" ")?;
    push_string(out, name)?;
    Ok(())
}

// Adds an input port whose value is called so.
#[tactic(auto, unfolding(crate::specs::Modules::input_port_bytes))]
fn push_input_port(out: &mut Text, value: &[u8], port: &Port) -> Result<(), AllocError>
    ensures { OnOk result (out.new ≡ out.old ++ input_port_bytes value.now port.now.name (type_of port.now.ty)) }
{
    out.push_bytes(b"in ")?;
    push_value_name(out, value)?;
    push_port_name(out, value, port.name.as_bytes())?;
    out.push_bytes(b" : ")?;
    push_type(out, &port.ty)?;
    Ok(())
}

// Adds an output port.
#[tactic(auto, unfolding(crate::specs::Modules::output_port_bytes))]
fn push_output_port(out: &mut Text, port: &Port) -> Result<(), AllocError>
    ensures { OnOk result (out.new ≡ out.old ++ output_port_bytes port.now.name (type_of port.now.ty)) }
{
    out.push_bytes(b"out ")?;
    push_name(out, port.name.as_bytes())?;
    out.push_bytes(b" : ")?;
    push_type(out, &port.ty)?;
    Ok(())
}

// Adds a port, before whose name so many others stand.
fn push_port(
    out: &mut Text,
    names: &ValueNames,
    first: usize,
    port: &Port,
) -> Result<(), AllocError>
    ensures { OnOk result (out.new ≡ out.old ++ port_bytes (port_shown (drop first (names_held names.now)) (port_of port.now))) }
{
    if port.out {
        push_output_port(out, port)?;
    } else {
        push_input_port(out, names.nth(first), port)?;
    }
    Ok(())
}

// How many names a port takes: an input one.
fn port_names(port: &Port) -> usize
    ensures count { result ≡ length (port_name_hint (port_of port.now)) }
    ensures few { result ≤ 1 }
{
    if port.out { 0 } else { 1 }
}

// Adds ports with commas between them.
fn push_ports(out: &mut Text, names: &ValueNames, ports: &[Port]) -> Result<(), AllocError>
    ensures { OnOk result (out.new ≡ out.old ++ commas port_bytes (ports_shown (names_held names.now) (map port_of ports.now))) }
{
    let mut first = 0;
    for (i, port) in ports.iter().enumerate() {
        push_comma(out, i)?;
        push_port(out, names, first, port)?;
        first += port_names(port);
    }
    Ok(())
}

// How many names the ports take; where there are more than a u32 can say, the greatest.
fn input_count(ports: &[Port]) -> u32
    ensures { result ≡ min (input_count (map port_of ports.now)) u32.MAX }
{
    let mut count: u32 = 0;
    for port in ports {
        count = saturating_add(count, port_names(port));
    }
    count
}

// Adds `private `, or nothing.
#[tactic(auto, unfolding(crate::specs::Modules::private_bytes))]
fn push_private(out: &mut Text, private: bool) -> Result<(), AllocError>
    ensures { OnOk result (out.new ≡ out.old ++ private_bytes private) }
{
    if private {
        out.push_bytes(b"private ")?;
    }
    Ok(())
}

// Adds the first line of a module.
#[tactic(auto, using(std::proofs::Common::append_assoc), unfolding(crate::specs::Modules::header_bytes))]
fn push_header(out: &mut Text, names: &ValueNames, one: &Module) -> Result<(), AllocError>
    ensures { OnOk result (out.new ≡ out.old ++ header_bytes (header_shown (names_held names.now) (module_of one.now))) }
{
    out.push_bytes(b"  hw.module ")?;
    push_private(out, one.private)?;
    push_symbol(out, one.symbol.as_bytes())?;
    out.push_bytes(b"(")?;
    push_ports(out, names, &one.ports.ports)?;
    out.push_bytes(b")")?;
    push_dictionary(out, b" attributes ", &one.dictionary.entries)?;
    out.push_bytes(b" {\n")?;
    Ok(())
}

/// Adds a module.
pub fn push_module(alloc: Global, out: &mut Text, one: &Module) -> Result<(), AllocError>
    ensures { OnOk result (out.new ≡ out.old ++ module_bytes (module_shown (numbered_module (module_of one.now)))) }
{
    let _ = push_with_names(alloc, ValueNames::empty(alloc), out, one)?;
    Ok(())
}

/// Adds a module, and gives the names of its values. The memory of the names `room` is used again.
pub fn push_with_names(
    alloc: Global,
    room: ValueNames,
    out: &mut Text,
    one: &Module,
) -> Result<ValueNames, AllocError>
    ensures { OnOk result (out.new ≡ out.old ++ module_bytes (module_shown (numbered_module (module_of one.now)))) }
{
    let names = ValueNames::again(alloc, room, one)?;
    push_header(out, &names, one)?;
    push_operations(out, &names, input_count(&one.ports.ports), &one.body)?;
    out.push_bytes(b"  }\n")?;
    Ok(names)
}
