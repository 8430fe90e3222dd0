//! The statements of registers: the `always` block of each, with its expressions.
ghost use Rattle.std.specs.Prelude.{◌≡◌, ◌++◌, [], None, Some, option_map, OnOk};
ghost use Rattle.hw_model.specs.Flat.{register_in, async_reset_in};
ghost use Rattle.hw_model.specs.RegisterViews.{reset_by_of, register_of};
ghost use Rattle.verilog_model.specs.Tree.Item.{always};
ghost use Rattle.verilog_expr.specs.Scopes.{scope_ref, op_read};
ghost use Rattle.verilog_expr.specs.declared.scope.Scope.{Scope};
ghost use Rattle.verilog_expr.specs.Named.{named_of};
ghost use Rattle.export_verilog.specs.Layout.{item_text, items_text};
ghost use Rattle.export_verilog.specs.Written.{written_block};
ghost use Rattle.export_verilog.specs.Lowerings.{load_place, own_place};
ghost use Rattle.export_verilog.specs.Values.{value_expr, value_literal, used_text, reset_text};
ghost use Rattle.export_verilog.specs.Statements.{register_item, register_items};

use crate::always_blocks::{Clocked, Reset, push_always, push_async};
use crate::module_writer::ModuleWriter;
use crate::places::{load_place, own_place};
use crate::values::{literal_text, name_text, used_text};
use hw_model::registers::{Register, ResetBy, async_reset_of, register_of};
use io_edge::byte_text::Text;
use ir_store::body::Op;
use ir_store::operation::Value;
use std::alloc::AllocError;

/// The register that an operation of a body is.
pub fn register_in(op: &Op<'_>) -> Option<Register<Value>>
    ensures { (scope : Scope) → option_map (register_of (scope_ref scope)) result ≡ register_in (op_read scope op.now) }
{
    register_of(op.kind, op.operands)
}

/// What resets the register without its clock that an operation of a body is, and to what.
pub fn async_reset_in(op: &Op<'_>) -> Option<ResetBy<Value>>
    ensures { (scope : Scope) → option_map (reset_by_of (scope_ref scope)) result ≡ async_reset_in (op_read scope op.now) }
{
    async_reset_of(op.kind, op.operands)
}

// Adds the block of a register of which all but the reset is written.
fn push_reset<'t>(
    writer: &ModuleWriter<'_>,
    out: &mut Text,
    clock: &[u8],
    target: &'t [u8],
    next: &'t [u8],
    enable: Option<&'t [u8]>,
    reset: Option<ResetBy<Value>>,
) -> Result<(), AllocError>
    ensures { OnOk result (out.new ≡ out.old ++ item_text (always clock.now (written_block target.now next.now (option_map (λ e. e.now) enable.entry) (option_map (reset_text writer.now.options writer.now.scope writer.now.names.values) (option_map (reset_by_of (scope_ref writer.now.scope)) reset)))) []) }
{
    match reset {
        None => push_always(
            out,
            clock,
            &Clocked {
                target,
                next,
                enable,
                reset: None,
            },
        )?,
        Some(by) => {
            let signal = used_text(writer, by.signal, own_place(writer.options))?;
            let value = used_text(writer, by.value, load_place(writer.options))?;
            let written = Reset {
                signal: signal.as_bytes(),
                value: value.as_bytes(),
            };
            push_always(
                out,
                clock,
                &Clocked {
                    target,
                    next,
                    enable,
                    reset: Some(written),
                },
            )?;
        }
    }
    Ok(())
}

// Adds the block of a register under its name that only its clock loads.
fn push_parts(
    writer: &ModuleWriter<'_>,
    out: &mut Text,
    target: &[u8],
    register: &Register<Value>,
) -> Result<(), AllocError>
    ensures { OnOk result (out.new ≡ out.old ++ item_text (register_item (named_of writer.now.names.values) (value_expr writer.now.scope writer.now.names.values (own_place writer.now.options)) (value_expr writer.now.scope writer.now.names.values (load_place writer.now.options)) (value_literal writer.now.scope) target.now None (register_of (scope_ref writer.now.scope) register.now)) []) }
{
    let clock = name_text(writer, register.clock);
    let next = used_text(writer, register.next, load_place(writer.options))?;
    match register.enable {
        None => push_reset(
            writer,
            out,
            clock,
            target,
            next.as_bytes(),
            None,
            register.reset,
        )?,
        Some(value) => {
            let enable = used_text(writer, value, own_place(writer.options))?;
            push_reset(
                writer,
                out,
                clock,
                target,
                next.as_bytes(),
                Some(enable.as_bytes()),
                register.reset,
            )?;
        }
    }
    Ok(())
}

// Adds the block of a register under its name that a reset resets without its clock.
fn push_reset_parts(
    writer: &ModuleWriter<'_>,
    out: &mut Text,
    target: &[u8],
    register: &Register<Value>,
    by: ResetBy<Value>,
) -> Result<(), AllocError>
    ensures { OnOk result (out.new ≡ out.old ++ item_text (register_item (named_of writer.now.names.values) (value_expr writer.now.scope writer.now.names.values (own_place writer.now.options)) (value_expr writer.now.scope writer.now.names.values (load_place writer.now.options)) (value_literal writer.now.scope) target.now (Some (reset_by_of (scope_ref writer.now.scope) by)) (register_of (scope_ref writer.now.scope) register.now)) []) }
{
    let clock = name_text(writer, register.clock);
    let signal = name_text(writer, by.signal);
    let next = used_text(writer, register.next, load_place(writer.options))?;
    let value = literal_text(writer, by.value)?;
    push_async(
        out,
        clock,
        target,
        next.as_bytes(),
        signal,
        value.as_bytes(),
    )?;
    Ok(())
}

// Adds the block of a register under its name, which an asynchronous reset resets or not.
fn push_item(
    writer: &ModuleWriter<'_>,
    out: &mut Text,
    target: &[u8],
    register: &Register<Value>,
    by: Option<ResetBy<Value>>,
) -> Result<(), AllocError>
    ensures { OnOk result (out.new ≡ out.old ++ item_text (register_item (named_of writer.now.names.values) (value_expr writer.now.scope writer.now.names.values (own_place writer.now.options)) (value_expr writer.now.scope writer.now.names.values (load_place writer.now.options)) (value_literal writer.now.scope) target.now (option_map (reset_by_of (scope_ref writer.now.scope)) by) (register_of (scope_ref writer.now.scope) register.now)) []) }
{
    match by {
        None => push_parts(writer, out, target, register)?,
        Some(by) => push_reset_parts(writer, out, target, register, by)?,
    }
    Ok(())
}

/// Adds the statement of an operation that is a register, under its name (IEEE 1364-2005, 9.2.2: nonblocking
/// assignments). The error is out of memory.
#[tactic(auto, unfolding(crate::specs::Layout::items_text))]
pub fn push_register(
    writer: &ModuleWriter<'_>,
    out: &mut Text,
    target: &[u8],
    op: &Op<'_>,
) -> Result<(), AllocError>
    ensures { OnOk result (out.new ≡ out.old ++ items_text (register_items (named_of writer.now.names.values) (value_expr writer.now.scope writer.now.names.values (own_place writer.now.options)) (value_expr writer.now.scope writer.now.names.values (load_place writer.now.options)) (value_literal writer.now.scope) target.now (async_reset_in (op_read writer.now.scope op.now)) (register_in (op_read writer.now.scope op.now))) []) }
{
    if let Some(register) = register_in(op) {
        push_item(writer, out, target, &register, async_reset_in(op))?;
    }
    Ok(())
}
