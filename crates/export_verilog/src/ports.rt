//! The ports of a module.
ghost use Rattle.std.specs.Prelude.{◌≡◌, ◌<◌, ◌^◌, ◌++◌, [], map, length, OnOk};
ghost use Rattle.hw_model.specs.Types.{width};
ghost use Rattle.ir_store.specs.Designs.{port_of};
ghost use Rattle.export_verilog.specs.Layout.{port_text, ports_text};
ghost use Rattle.export_verilog.specs.Written.{AreNarrow, line_end, port_named, ports_named, ports_left};
ghost use Rattle.verilog_model.specs.Grammar.{direction};

use crate::lines::push_ranged;
use io_edge::byte_text::Text;
use ir_store::design::Port;
use std::alloc::AllocError;

// The direction of a port (IEEE 1364-2005, 12.3.3: port declarations).
fn direction(is_output: bool) -> &'static [u8]
    ensures { result.now ≡ direction is_output }
{
    if is_output { b"output" } else { b"input" }
}

/// What stands after a line of a list: a comma where others are left.
pub fn line_end(are_left: bool) -> &'static [u8]
    ensures { result.now ≡ line_end are_left }
{
    if are_left { b",\n" } else { b"\n" }
}

// Adds a port under a name, and what stands after it.
#[tactic(auto, using(std::proofs::Common::append_assoc), unfolding(crate::specs::Layout::port_text))]
fn push_port(out: &mut Text, port: &Port, name: &[u8], following: &[u8]) -> Result<(), AllocError>
    requires narrow { width (port_of port.now).type < 2 ^ 64 }
    ensures { OnOk result (out.new ≡ out.old ++ port_text (port_named name.now (port_of port.now)) following.now) }
{
    out.push_bytes(b"  ")?;
    out.push_bytes(direction(port.out))?;
    out.push_bytes(b" wire ")?;
    push_ranged(out, port.ty.width(), name, following)?;
    Ok(())
}

// Adds the lines of ports under names.
fn push_lines(out: &mut Text, names: &[Text], ports: &[Port]) -> Result<(), AllocError>
    requires count { length names.now ≡ length ports.now }
    requires narrow { AreNarrow (map port_of ports.now) }
    ensures { OnOk result (out.new ≡ out.old ++ ports_left (ports_named names.now (map port_of ports.now)) []) }
{
    for i in 0..ports.len() {
        push_port(
            out,
            &ports[i],
            names[i].as_bytes(),
            line_end(i + 1 < ports.len()),
        )?;
    }
    Ok(())
}

/// Adds the list of a module's ports under their names, and the end of the module's first line.
pub fn push_ports(out: &mut Text, names: &[Text], ports: &[Port]) -> Result<(), AllocError>
    requires count { length names.now ≡ length ports.now }
    requires narrow { AreNarrow (map port_of ports.now) }
    ensures { OnOk result (out.new ≡ out.old ++ ports_text (ports_named names.now (map port_of ports.now)) []) }
{
    if ports.len() == 0 {
        out.push_bytes(b";\n")?;
    } else {
        out.push_bytes(b"(\n")?;
        push_lines(out, names, ports)?;
        out.push_bytes(b");\n")?;
    }
    Ok(())
}
