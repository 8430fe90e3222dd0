//! Ports.
ghost use Rattle.std.specs.Prelude.{◌≡◌, ◌≤◌, ◌^◌, ◌++◌, [], ◌∷◌, length, map, IfOk, OnOk};
ghost use Rattle.hw_model.specs.TypeViews.{type_of};
ghost use Rattle.ir_store.specs.Designs.{port_of, ports_in};
ghost use Rattle.aiger_design.specs.Operations.{port_named};
ghost use Rattle.aiger_design.specs.Built.{input_ports, output_ports, imported_ports};
ghost use Rattle.aiger_reader.specs.Kept.{tree_of};
ghost use Rattle.aiger_reader.specs.Told.{line_count};

use crate::names::numbered;
use aiger_reader::text::AigerText;
use hw_model::types::Ty;
use io_edge::byte_text::Text;
use ir_store::design::{Port, PortList};
use std::alloc::{AllocError, Global};

/// The ports of the module of a text.
pub(crate) fn ports_of_text(alloc: Global, text: &AigerText) -> Result<PortList, AllocError>
    requires { line_count (tree_of text.now) ≤ 2 ^ 26 }
    ensures { IfOk result (λ list. ports_in list ≡ imported_ports (tree_of text.now)) }
{
    let mut ports = Vec::new(alloc);
    if !text.latches.is_empty() {
        ports.push(port_named(Text::of(alloc, b"clock")?, false, Ty::Clock))?;
    }
    add_inputs(alloc, &mut ports, &text.inputs)?;
    add_outputs(alloc, &mut ports, &text.outputs)?;
    Ok(PortList { ports })
}

/// Adds a port for each input.
fn add_inputs(alloc: Global, ports: &mut Vec<Port>, inputs: &[u32]) -> Result<(), AllocError>
    requires { length inputs.now ≤ 2 ^ 26 }
    ensures { OnOk result (map port_of ports.new.items ≡ map port_of ports.old.items ++ input_ports 0 inputs.now) }
{
    let mut k = 0;
    let mut rest = inputs;
    while let Some((_literal, others)) = rest.split_first() {
        ports.push(port_named(numbered(alloc, b'i', k)?, false, Ty::Int(1)))?;
        k += 1;
        rest = others;
    }
    Ok(())
}

/// Adds a port for each output.
fn add_outputs(alloc: Global, ports: &mut Vec<Port>, outputs: &[u32]) -> Result<(), AllocError>
    requires { length outputs.now ≤ 2 ^ 26 }
    ensures { OnOk result (map port_of ports.new.items ≡ map port_of ports.old.items ++ output_ports 0 outputs.now) }
{
    let mut k = 0;
    let mut rest = outputs;
    while let Some((_literal, others)) = rest.split_first() {
        ports.push(port_named(numbered(alloc, b'o', k)?, true, Ty::Int(1)))?;
        k += 1;
        rest = others;
    }
    Ok(())
}

/// A port that no other has the name of.
fn port_named(name: Text, out: bool, ty: Ty) -> Port
    ensures { port_of result ≡ port_named name out (type_of ty) }
{
    Port {
        name,
        out,
        ty,
        again: false,
    }
}
