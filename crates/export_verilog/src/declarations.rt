//! The declarations of a body.
ghost use Rattle.std.specs.Prelude.{◌≡◌, ◌++◌, [], OnOk};
ghost use Rattle.ir_store.specs.Numbered.{position_of};
ghost use Rattle.verilog_expr.specs.Scopes.{scope_ids, scope_ref};
ghost use Rattle.export_verilog.specs.Layout.{item_text, items_text};
ghost use Rattle.export_verilog.specs.Values.{value_wire, value_variable, value_wires, declared_items};
ghost use Rattle.export_verilog.specs.EmissionViews.{emission_seen};

use crate::lines::{push_reg, push_wire};
use crate::module_writer::ModuleWriter;
use crate::name_hints::Emission;
use crate::values::name_text;
use io_edge::byte_text::Text;
use ir_store::operation::{OpId, Value};
use std::alloc::AllocError;

// Adds the declaration of the wire of a value.
fn push_value_wire(
    writer: &ModuleWriter<'_>,
    out: &mut Text,
    value: Value,
) -> Result<(), AllocError>
    ensures { OnOk result (out.new ≡ out.old ++ item_text (value_wire writer.now.scope writer.now.names.values (scope_ref writer.now.scope value)) []) }
{
    push_wire(out, writer.scope.width(value), name_text(writer, value))?;
    Ok(())
}

// Adds the declaration of the variable of a value.
fn push_value_variable(
    writer: &ModuleWriter<'_>,
    out: &mut Text,
    value: Value,
) -> Result<(), AllocError>
    ensures { OnOk result (out.new ≡ out.old ++ item_text (value_variable writer.now.scope writer.now.names.values (scope_ref writer.now.scope value)) []) }
{
    push_reg(out, writer.scope.width(value), name_text(writer, value))?;
    Ok(())
}

// Adds the declarations of the wires of so many results of an operation.
fn push_wires(
    writer: &ModuleWriter<'_>,
    out: &mut Text,
    id: OpId,
    count: u32,
) -> Result<(), AllocError>
    ensures { OnOk result (out.new ≡ out.old ++ items_text (value_wires writer.now.scope writer.now.names.values (position_of (scope_ids writer.now.scope) id.index) 0 count) []) }
{
    for number in 0..count {
        push_value_wire(writer, out, Value::Result(id, number))?;
    }
    Ok(())
}

/// Adds the declarations of an operation of a role with so many results (IEEE 1364-2005, 3.2: net and variable
/// declarations). The error is out of memory.
#[tactic(auto, unfolding(crate::specs::Layout::items_text))]
pub fn push_declared(
    writer: &ModuleWriter<'_>,
    out: &mut Text,
    id: OpId,
    count: u32,
    emission: Emission,
) -> Result<(), AllocError>
    ensures { OnOk result (out.new ≡ out.old ++ items_text (declared_items writer.now.scope writer.now.names.values (position_of (scope_ids writer.now.scope) id.index) count (emission_seen emission)) []) }
{
    match emission {
        Emission::Inline => {}
        Emission::Wire => push_value_wire(writer, out, Value::Result(id, 0))?,
        Emission::Reg => push_value_variable(writer, out, Value::Result(id, 0))?,
        Emission::Instance => push_wires(writer, out, id, count)?,
    }
    Ok(())
}
