//! The connections of instances.
ghost use Rattle.std.specs.Prelude.{◌≡◌, ◌<◌, ◌+◌, ◌^◌, ◌++◌, [], cond, drop, length, map, IfOk, OnOk};
ghost use Rattle.hw_model.specs.Design.Ref.{result as result_ref};
ghost use Rattle.ir_store.specs.Designs.{port_of};
ghost use Rattle.ir_store.specs.Numbered.{position_of};
ghost use Rattle.verilog_expr.specs.Scopes.{scope_ids, scope_ref};
ghost use Rattle.verilog_expr.specs.Named.{named_of};
ghost use Rattle.verilog_model.specs.Text.{expr_text};
ghost use Rattle.export_verilog.specs.Layout.{connection_text};
ghost use Rattle.export_verilog.specs.Exported.{expr_or_none};
ghost use Rattle.export_verilog.specs.Identifiers.{name_or_nothing};
ghost use Rattle.export_verilog.specs.Lowerings.{own_place};
ghost use Rattle.export_verilog.specs.Values.{value_expr};
ghost use Rattle.export_verilog.specs.Written.{connections_left, written_connection};
ghost use Rattle.export_verilog.specs.Joined.{connections_from};

use crate::module_writer::ModuleWriter;
use crate::places::own_place;
use crate::ports::line_end;
use crate::values::{name_text, used_text};
use io_edge::byte_text::Text;
use ir_store::design::Port;
use ir_store::operation::{OpId, Value};
use std::alloc::AllocError;
use verilog_expr::extending::Extending;

// One more where it is asked for.
fn count_if(number: usize, more: bool) -> usize
    requires { number + 1 < 2 ^ 64 }
    ensures { result ≡ cond more (number + 1) number }
{
    if more { number + 1 } else { number }
}

// The text of an operand by its number, with zero extensions as `extending` says; of one that is not there, that of no expression.
#[tactic(auto, unfolding(verilog_model::specs::Text::expr_text))]
pub fn operand_text(
    writer: &ModuleWriter<'_>,
    operands: &[Value],
    number: usize,
    extending: Extending,
) -> Result<Text, AllocError>
    ensures { IfOk result (λ text. text ≡ expr_text (expr_or_none (value_expr writer.now.scope writer.now.names.values extending) (map (scope_ref writer.now.scope) (drop number operands.now))) []) }
{
    match operands.get(number) {
        Some(value) => used_text(writer, *value, extending),
        None => Text::of(writer.alloc, b"0'h0"),
    }
}

// The name of a result of an operation.
fn result_text(writer: &ModuleWriter<'_>, id: OpId, number: usize) -> Result<Text, AllocError>
    ensures { IfOk result (λ text. text ≡ name_or_nothing (named_of writer.now.names.values (result_ref (position_of (scope_ids writer.now.scope) id.index) number))) }
{
    let Ok(number) = u32::try_from(number) else {
        return Err(AllocError);
    };
    Text::of(writer.alloc, name_text(writer, Value::Result(id, number)))
}

// What a port of an instance is joined to: an output to a result, an input to an operand.
fn joined_text(
    writer: &ModuleWriter<'_>,
    id: OpId,
    operands: &[Value],
    is_output: bool,
    results: usize,
    inputs: usize,
) -> Result<Text, AllocError>
    ensures { IfOk result (λ text. text ≡ cond is_output (name_or_nothing (named_of writer.now.names.values (result_ref (position_of (scope_ids writer.now.scope) id.index) results))) (expr_text (expr_or_none (value_expr writer.now.scope writer.now.names.values (own_place writer.now.options)) (map (scope_ref writer.now.scope) (drop inputs operands.now))) [])) }
{
    if is_output {
        result_text(writer, id, results)
    } else {
        operand_text(writer, operands, inputs, own_place(writer.options))
    }
}

// Adds the connection of a port to an expression that is already written, and what stands after it (12.3.6: connecting
// module instance ports by name).
#[tactic(auto, using(std::proofs::Common::append_assoc), unfolding(crate::specs::Layout::connection_text, verilog_model::specs::Text::expr_text))]
fn push_connection(
    out: &mut Text,
    port: &[u8],
    value: &[u8],
    following: &[u8],
) -> Result<(), AllocError>
    ensures { OnOk result (out.new ≡ out.old ++ connection_text (written_connection port.now value.now) following.now) }
{
    out.push_bytes(b"    .")?;
    out.push_bytes(port)?;
    out.push_bytes(b"(")?;
    out.push_bytes(value)?;
    out.push_bytes(b")")?;
    out.push_bytes(following)?;
    Ok(())
}

/// Adds the connections of an instance to the ports of its module, which have names. The error is out of
/// memory.
pub fn push_connections(
    writer: &ModuleWriter<'_>,
    out: &mut Text,
    id: OpId,
    operands: &[Value],
    ports: &[Port],
    port_names: &[Text],
) -> Result<(), AllocError>
    requires { length port_names.now ≡ length ports.now }
    ensures { OnOk result (out.new ≡ out.old ++ connections_left (connections_from (value_expr writer.now.scope writer.now.names.values (own_place writer.now.options)) (λ k. name_or_nothing (named_of writer.now.names.values (result_ref (position_of (scope_ids writer.now.scope) id.index) k))) 0 port_names.now (map port_of ports.now) (map (scope_ref writer.now.scope) operands.now)) []) }
{
    let mut results: usize = 0;
    let mut inputs: usize = 0;
    for j in 0..ports.len() {
        let is_output = ports[j].out;
        let value = joined_text(writer, id, operands, is_output, results, inputs)?;
        push_connection(
            out,
            port_names[j].as_bytes(),
            value.as_bytes(),
            line_end(j + 1 < ports.len()),
        )?;
        results = count_if(results, is_output);
        inputs = count_if(inputs, !is_output);
    }
    Ok(())
}
