//! The assignments of a body.
ghost use Rattle.std.specs.Prelude.{◌≡◌, ◌++◌, [], drop, map, OnOk};
ghost use Rattle.verilog_model.specs.Tree.Item.{assign};
ghost use Rattle.verilog_expr.specs.Expressions.{own_expr};
ghost use Rattle.verilog_expr.specs.Scopes.{scope_ports, scope_ops, scope_ref};
ghost use Rattle.verilog_expr.specs.Named.{named_of};
ghost use Rattle.export_verilog.specs.Exported.{expr_or_none};
ghost use Rattle.export_verilog.specs.Identifiers.{name_or_nothing};
ghost use Rattle.export_verilog.specs.Layout.{item_text};
ghost use Rattle.export_verilog.specs.Lowerings.{load_place};
ghost use Rattle.export_verilog.specs.Values.{value_expr};

use crate::connections::operand_text;
use crate::lines::push_assign;
use crate::module_writer::ModuleWriter;
use crate::places::load_place;
use crate::values::{defined_text, name_text};
use io_edge::byte_text::Text;
use ir_store::operation::Value;
use std::alloc::AllocError;

/// Adds the assignment of a value's own operation to its wire (IEEE 1364-2005, 6.1: continuous assignments). The error is
/// out of memory.
pub fn push_net(writer: &ModuleWriter<'_>, out: &mut Text, value: Value) -> Result<(), AllocError>
    ensures { OnOk result (out.new ≡ out.old ++ item_text (assign (name_or_nothing (named_of writer.now.names.values (scope_ref writer.now.scope value))) (own_expr (named_of writer.now.names.values) (scope_ports writer.now.scope) (scope_ops writer.now.scope) (value_expr writer.now.scope writer.now.names.values) (load_place writer.now.options) (scope_ref writer.now.scope value))) []) }
{
    let name = name_text(writer, value);
    let text = defined_text(writer, value)?;
    push_assign(out, name, text.as_bytes())?;
    Ok(())
}

/// Adds the assignment of an operand of the module's output, by its number, to an output port with a name. The error is
/// out of memory.
pub fn push_output(
    writer: &ModuleWriter<'_>,
    out: &mut Text,
    operands: &[Value],
    number: usize,
    name: &[u8],
) -> Result<(), AllocError>
    ensures { OnOk result (out.new ≡ out.old ++ item_text (assign name.now (expr_or_none (value_expr writer.now.scope writer.now.names.values (load_place writer.now.options)) (map (scope_ref writer.now.scope) (drop number operands.now)))) []) }
{
    let text = operand_text(writer, operands, number, load_place(writer.options))?;
    push_assign(out, name, text.as_bytes())?;
    Ok(())
}
