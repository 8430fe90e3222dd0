//! The expressions of a body's values, written on their own.
ghost use Rattle.std.specs.Prelude.{◌≡◌, IfOk};
ghost use Rattle.verilog_expr.specs.Scopes.{scope_ref};
ghost use Rattle.verilog_expr.specs.Named.{named_of};
ghost use Rattle.export_verilog.specs.Identifiers.{name_or_nothing};
ghost use Rattle.export_verilog.specs.Lowerings.{load_place};
ghost use Rattle.export_verilog.specs.Values.{used_text, defined_text, literal_text};

use crate::module_writer::ModuleWriter;
use crate::places::load_place;
use io_edge::byte_text::Text;
use ir_store::operation::Value;
use std::alloc::{AllocError, Global};
use verilog_expr::expr::{Expr, write_expr};
use verilog_expr::extending::Extending;

// The bytes of an expression.
fn bytes_of(alloc: Global, expr: &Expr) -> Result<Text, AllocError>
    ensures { IfOk result (λ text. text ≡ expr.now.text) }
{
    let mut text = Text::new(alloc);
    write_expr(expr, &mut text)?;
    Ok(text)
}

/// The expression of a value where it is used, with zero extensions as `extending` says. The error is out of memory.
pub fn used_text(
    writer: &ModuleWriter<'_>,
    value: Value,
    extending: Extending,
) -> Result<Text, AllocError>
    ensures { IfOk result (λ text. text ≡ used_text writer.now.scope writer.now.names.values extending (scope_ref writer.now.scope value)) }
{
    let expr = Expr::build(
        writer.alloc,
        &writer.scope,
        &writer.names.values,
        value,
        extending,
    )?;
    bytes_of(writer.alloc, &expr)
}

/// What is assigned to a value's own name. The error is out of memory.
pub fn defined_text(writer: &ModuleWriter<'_>, value: Value) -> Result<Text, AllocError>
    ensures { IfOk result (λ text. text ≡ defined_text writer.now.scope writer.now.names.values (load_place writer.now.options) (scope_ref writer.now.scope value)) }
{
    let expr = Expr::define(
        writer.alloc,
        &writer.scope,
        &writer.names.values,
        value,
        load_place(writer.options),
    )?;
    bytes_of(writer.alloc, &expr)
}

/// The literal of the constant that a value is, whether or not it has a name. The error is out of memory.
pub fn literal_text(writer: &ModuleWriter<'_>, value: Value) -> Result<Text, AllocError>
    ensures { IfOk result (λ text. text ≡ literal_text writer.now.scope (scope_ref writer.now.scope value)) }
{
    let expr = Expr::constant(writer.alloc, &writer.scope, value)?;
    bytes_of(writer.alloc, &expr)
}

/// The name of a value, or no bytes where it has none.
pub fn name_text<'n>(writer: &'n ModuleWriter<'_>, value: Value) -> &'n [u8]
    ensures { result.now ≡ name_or_nothing (named_of writer.now.names.values (scope_ref writer.now.scope value)) }
{
    match writer.names.values.name(&writer.scope, value) {
        Some(name) => name,
        None => &[],
    }
}
