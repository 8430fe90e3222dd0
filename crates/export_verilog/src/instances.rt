//! Instances of modules.
ghost use Rattle.std.specs.Prelude.{◌≡◌, ◌++◌, [], OnOk, codes, cond, length, map};
ghost use Rattle.hw_model.specs.Design.Ref.{result as result_ref};
ghost use Rattle.ir_store.specs.Designs.{port_of};
ghost use Rattle.ir_store.specs.Numbered.{position_of};
ghost use Rattle.verilog_expr.specs.Scopes.{scope_ids, scope_ref};
ghost use Rattle.verilog_expr.specs.Named.{named_of};
ghost use Rattle.verilog_model.specs.Tree.Item.{instance};
ghost use Rattle.export_verilog.specs.Layout.{item_text};
ghost use Rattle.export_verilog.specs.Identifiers.{name_or_nothing};
ghost use Rattle.export_verilog.specs.Lowerings.{own_place};
ghost use Rattle.export_verilog.specs.Values.{value_expr};
ghost use Rattle.export_verilog.specs.Written.{head_text, connections_end};
ghost use Rattle.export_verilog.specs.Joined.{connections_from};

use crate::connections::push_connections;
use crate::module_writer::ModuleWriter;
use io_edge::byte_text::Text;
use ir_store::design::Port;
use ir_store::operation::{OpId, Value};
use std::alloc::AllocError;

// Adds the names of an instance and of its module, and an open parenthesis (IEEE 1364-2005, 12.1.2: module instantiation).
#[tactic(auto, using(std::proofs::Common::append_assoc), unfolding(crate::specs::Written::head_text))]
fn push_head(out: &mut Text, callee: &[u8], name: &[u8]) -> Result<(), AllocError>
    ensures { OnOk result (out.new ≡ out.old ++ head_text callee.now name.now) }
{
    out.push_bytes(b"  ")?;
    out.push_bytes(callee)?;
    out.push_bytes(b" ")?;
    out.push_bytes(name)?;
    out.push_bytes(b" (")?;
    Ok(())
}

// Adds what stands after the open parenthesis of an instance, before its connections: nothing where it has none.
fn push_begin(out: &mut Text, are_some: bool) -> Result<(), AllocError>
    ensures { OnOk result (out.new ≡ out.old ++ cond are_some (codes "\n") []) }
{
    if are_some {
        out.push_bytes(b"\n")?;
    }
    Ok(())
}

// Adds the end of an instance, with blanks before it where it has connections.
#[tactic(auto, unfolding(crate::specs::Written::connections_end))]
fn push_end(out: &mut Text, are_some: bool) -> Result<(), AllocError>
    ensures { OnOk result (out.new ≡ out.old ++ connections_end are_some) }
{
    if are_some {
        out.push_bytes(b"  ")?;
    }
    out.push_bytes(b");\n")?;
    Ok(())
}

/// The names that stand at the head of an instance.
#[derive(Clone, Copy)]
pub struct InstanceHead<'n> {
    /// The name of its module.
    pub module: &'n [u8],
    /// Its own name.
    pub name: &'n [u8],
}

/// Adds an instance of a module, whose ports have names, under its own name (12.1.2: module instantiation). The error is
/// out of memory.
pub fn push_instance(
    writer: &ModuleWriter<'_>,
    out: &mut Text,
    id: OpId,
    operands: &[Value],
    ports: &[Port],
    port_names: &[Text],
    head: &InstanceHead<'_>,
) -> Result<(), AllocError>
    requires { length port_names.now ≡ length ports.now }
    ensures { OnOk result (out.new ≡ out.old ++ item_text (instance head.now.module.now head.now.name.now (connections_from (value_expr writer.now.scope writer.now.names.values (own_place writer.now.options)) (λ k. name_or_nothing (named_of writer.now.names.values (result_ref (position_of (scope_ids writer.now.scope) id.index) k))) 0 port_names.now (map port_of ports.now) (map (scope_ref writer.now.scope) operands.now))) []) }
{
    push_head(out, head.module, head.name)?;
    push_begin(out, ports.len() > 0)?;
    push_connections(writer, out, id, operands, ports, port_names)?;
    push_end(out, ports.len() > 0)?;
    Ok(())
}
