//! The items of a module.
ghost use Rattle.std.specs.Prelude.{◌≡◌, ◌++◌, [], map, OnOk};
ghost use Rattle.hw_model.specs.Design.{is_output_kind, output_refs};
ghost use Rattle.hw_model.specs.KindViews.{kind_of};
ghost use Rattle.ir_store.specs.Designs.{design_of};
ghost use Rattle.verilog_expr.specs.Scopes.{scope_ports, scope_ops, scope_ref};
ghost use Rattle.export_verilog.specs.Layout.{items_text};
ghost use Rattle.export_verilog.specs.Identifiers.{each};
ghost use Rattle.export_verilog.specs.Exported.{declares, states, output_assigns, vitems};
ghost use Rattle.export_verilog.specs.ScopeModules.{scope_module};

use crate::assigns::push_output;
use crate::module_writer::ModuleWriter;
use crate::name_hints::emission_of;
use crate::statements::{push_declarations, push_statements};
use hw_model::kinds::OpKind;
use io_edge::byte_text::Text;
use ir_store::operation::Value;
use std::alloc::AllocError;
use verilog_expr::scope::Scope;

// Whether a kind is `hw.output`.
fn is_output_kind(kind: &OpKind) -> bool
    ensures { result ≡ is_output_kind (kind_of kind.now) }
{
    match kind {
        OpKind::Output => true,
        _ => false,
    }
}

// The operands of the first `hw.output` of a body; none where there is none.
fn output_operands<'m>(scope: &Scope<'m>) -> &'m [Value]
    ensures { map (scope_ref scope.now) result.now ≡ output_refs (scope_ops scope.now) }
{
    for position in 0..scope.count() {
        let op = scope.op_at(position);
        if is_output_kind(op.kind) {
            return op.operands;
        }
    }
    &[]
}

// Adds the declarations of all operations, in their order.
fn push_all_declarations(writer: &ModuleWriter<'_>, out: &mut Text) -> Result<(), AllocError>
    ensures { OnOk result (out.new ≡ out.old ++ items_text (each (declares (scope_module writer.now.scope)) 0 (scope_ops writer.now.scope)) []) }
{
    for position in 0..writer.scope.count() {
        let op = writer.scope.op_at(position);
        let emission = emission_of(op.kind, writer.wires.has_wire(position));
        push_declarations(writer, out, writer.scope.id_at(position), &op, emission)?;
    }
    Ok(())
}

// Adds the statements of all operations, in their order.
fn push_all_statements(writer: &ModuleWriter<'_>, out: &mut Text) -> Result<(), AllocError>
    ensures { OnOk result (out.new ≡ out.old ++ items_text (each (states writer.now.options (design_of writer.now.design.now.design.now) (scope_module writer.now.scope)) 0 (scope_ops writer.now.scope)) []) }
{
    for position in 0..writer.scope.count() {
        let op = writer.scope.op_at(position);
        let emission = emission_of(op.kind, writer.wires.has_wire(position));
        push_statements(
            writer,
            out,
            writer.scope.id_at(position),
            position,
            &op,
            emission,
        )?;
    }
    Ok(())
}

// Adds an assignment to each output port, of the operand of its turn.
fn push_outputs(
    writer: &ModuleWriter<'_>,
    out: &mut Text,
    operands: &[Value],
) -> Result<(), AllocError>
    ensures { OnOk result (out.new ≡ out.old ++ items_text (output_assigns writer.now.options (scope_module writer.now.scope) 0 (scope_ports writer.now.scope) (map (scope_ref writer.now.scope) operands.now)) []) }
{
    let ports = writer.scope.ports();
    let mut number: usize = 0;
    for position in 0..ports.len() {
        if ports[position].out {
            let name = writer.names.ports[position].as_bytes();
            push_output(writer, out, operands, number, name)?;
            number += 1;
        }
    }
    Ok(())
}

/// Adds the items of a module: the declarations in the order of its operations, then their statements, then an
/// assignment to each output port. The error is out of memory.
pub fn push_items(writer: &ModuleWriter<'_>, out: &mut Text) -> Result<(), AllocError>
    ensures { OnOk result (out.new ≡ out.old ++ items_text (vitems writer.now.options (design_of writer.now.design.now.design.now) (scope_module writer.now.scope)) []) }
{
    push_all_declarations(writer, out)?;
    push_all_statements(writer, out)?;
    push_outputs(writer, out, output_operands(&writer.scope))?;
    Ok(())
}
