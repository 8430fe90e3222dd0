//! The text of the expression of a value.
ghost use Rattle.std.specs.Prelude.{◌≡◌, ◌++◌, ◌<◌, [], map, option_map, OnOk, OnErr};
ghost use Rattle.verilog_expr.specs.Building.{no_expr};
ghost use Rattle.verilog_expr.specs.Expressions.{own_expr, constant_expr};
ghost use Rattle.verilog_model.specs.Text.{expr_text};
ghost use Rattle.verilog_expr.specs.Scopes.{scope_ports, scope_ops, scope_ref};
ghost use Rattle.verilog_expr.specs.Forms.{in_position, form_text};
ghost use Rattle.verilog_expr.specs.Extensions.{alone_under};
ghost use Rattle.verilog_expr.specs.Places.{alone_in};
ghost use Rattle.verilog_expr.specs.Templates.{template_text};
ghost use Rattle.verilog_expr.specs.ExprNode.{expr_at, exprs_to, placed_at, shown_at, text_or, select_text, shown_values};

use crate::extending::Extending;
use crate::form::{Form, asks_level, asks_unsigned, push_after, push_before};
use crate::info::{alone_at, info_at, only_name, push_close, push_open, wrap_for};
use crate::node::{ExprNode, constant_at, node_at};
use crate::places::place_at;
use crate::scope::Scope;
use crate::template::Template;
use crate::value_names::ValueNames;
use io_edge::byte_text::Text;
use ir_store::operation::Value;
use std::alloc::{AllocError, Global};
use verilog_model::{push_decimal, push_literal};

// Adds some bits of a name.
fn push_select(out: &mut Text, name: Option<&[u8]>, low: u32, width: u64) -> Result<(), AllocError>
    ensures { OnOk result (out.new ≡ out.old ++ select_text (option_map (λ n. n.now) name.entry) low width) }
{
    let Some(name) = name else {
        push_missing(out)?;
        return Ok(());
    };
    out.push_bytes(name)?;
    out.push_bytes(b"[")?;
    if width != 1 {
        push_decimal(out, (u128::from(low) + u128::from(width)).saturating_sub(1))?;
        out.push_bytes(b":")?;
    }
    push_decimal(out, u128::from(low))?;
    out.push_bytes(b"]")?;
    Ok(())
}

// Adds what stands where there is no expression.
#[tactic(auto, unfolding(verilog_model::specs::Text::expr_text))]
fn push_missing(out: &mut Text) -> Result<(), AllocError>
    ensures { OnOk result (out.new ≡ out.old ++ expr_text no_expr []) }
{
    out.push_bytes(b"0'h0")?;
    Ok(())
}

// The first of operands, for those whose form shows it alone, or all.
fn operands_in_text(form: Form, operands: &[Value]) -> &[Value]
    ensures { result.now ≡ shown_values form operands.now }
{
    match form {
        Form::UnsignedDivision(_, _, _) | Form::SignedDivision(_, _, _) => {
            &operands[..operands.len().min(1)]
        }
        _ => operands,
    }
}

// Adds the expression of a value, down to a depth, in a position that asks for an unsigned one or not and for so much binding
// strength.
#[cycle(expr)]
fn push_value(
    out: &mut Text,
    scope: &Scope<'_>,
    names: &ValueNames,
    value: Value,
    extending: Extending,
    unsigned: bool,
    level: u8,
    depth: usize,
) -> Result<(), AllocError>
    requires { level < 12 }
    ensures { OnOk result (out.new ≡ out.old ++ expr_text (in_position unsigned level (expr_at scope.now names.now depth extending value)) []) }
{
    let seen = info_at(scope, names, value, extending, depth);
    let wrap = wrap_for(unsigned, level, &seen);
    push_open(out, wrap)?;
    push_bare(out, scope, names, value, extending, depth)?;
    push_close(out, wrap)?;
    Ok(())
}

// Adds the expression of a value, down to a depth.
#[cycle(expr)]
fn push_bare(
    out: &mut Text,
    scope: &Scope<'_>,
    names: &ValueNames,
    value: Value,
    extending: Extending,
    depth: usize,
) -> Result<(), AllocError>
    ensures { OnOk result (out.new ≡ out.old ++ expr_text (expr_at scope.now names.now depth extending value) []) }
{
    if depth == 0 {
        push_missing(out)?;
        return Ok(());
    }
    if let Some(name) = names.name(scope, value) {
        out.push_bytes(name)?;
        return Ok(());
    }
    let node = node_at(scope, value);
    push_node(out, scope, names, &node, extending, depth - 1)?;
    Ok(())
}

// Adds the expression of an operation over its operands, each down to a depth: that of a zero extension is its second
// operand where the context gives the full width.
#[cycle(expr)]
fn push_node(
    out: &mut Text,
    scope: &Scope<'_>,
    names: &ValueNames,
    node: &ExprNode<'_>,
    extending: Extending,
    depth: usize,
) -> Result<(), AllocError>
    ensures { OnOk result (out.new ≡ out.old ++ text_or (alone_under extending (alone_in (scope_ports scope.now) (scope_ops scope.now) (exprs_to scope.now names.now depth) node.now.template (map (scope_ref scope.now) node.now.operands.now))) (template_text node.now.template (placed_at scope.now names.now depth extending node.now.template node.now.operands.now 0 node.now.operands.now))) }
{
    if let Some(operand) = alone_at(scope, names, node, extending, depth) {
        push_bare(out, scope, names, operand, Extending::Off, depth)?;
        return Ok(());
    }
    push_template(
        out,
        scope,
        names,
        node.template,
        node.operands,
        extending,
        depth,
    )?;
    Ok(())
}

// Adds the expression of a template over operands, each down to a depth.
#[cycle(expr)]
fn push_template(
    out: &mut Text,
    scope: &Scope<'_>,
    names: &ValueNames,
    template: Template,
    operands: &[Value],
    extending: Extending,
    depth: usize,
) -> Result<(), AllocError>
    ensures { OnOk result (out.new ≡ out.old ++ template_text template (placed_at scope.now names.now depth extending template operands.now 0 operands.now)) }
{
    match template {
        Template::Missing => push_missing(out)?,
        Template::Number(width, number) => push_literal(out, width, false, number)?,
        Template::Select(low, width) => {
            let name = only_name(scope, names, operands, extending, depth);
            push_select(out, name, low, width)?;
        }
        Template::Operands(form) => {
            push_form(
                out,
                scope,
                names,
                form,
                operands_in_text(form, operands),
                extending,
                depth,
            )?;
        }
    }
    Ok(())
}

// Adds operands in their form, each down to a depth.
#[cycle(expr)]
fn push_form(
    out: &mut Text,
    scope: &Scope<'_>,
    names: &ValueNames,
    form: Form,
    operands: &[Value],
    extending: Extending,
    depth: usize,
) -> Result<(), AllocError>
    ensures { OnOk result (out.new ≡ out.old ++ form_text form 0 (shown_at scope.now names.now depth extending form operands.now 0 operands.now)) }
{
    for (i, operand) in operands.iter().enumerate() {
        push_before(out, form, i)?;
        push_value(
            out,
            scope,
            names,
            *operand,
            place_at(scope, names, form, operands, i, extending, depth),
            asks_unsigned(form, i),
            asks_level(form, i),
            depth,
        )?;
    }
    push_after(out, form)?;
    Ok(())
}

// How deep an expression may be: one more than the greatest height of a value without a wire.
const DEPTH: usize = 65;

/// The text of an expression. Contracts see it by its field.
#[derive(Drop)]
pub struct Expr {
    text: Text,
}

impl Expr {
    ghost use Rattle.std.specs.Prelude.{suc, length, IfOk};
    ghost use Rattle.verilog_expr.specs.Expressions.{expr_to};
    ghost use Rattle.verilog_expr.specs.Spilling.{height_limit};
    ghost use Rattle.verilog_expr.specs.Named.{named_of};

    /// The expression that stands for a value where it is used: its name where it has one, or else that of its operation
    /// (IEEE 1364-2005, 5.1), with zero extensions as `extending` says. No value may have more than 128 bits. The error is out
    /// of memory.
    pub fn build(
        alloc: Global,
        scope: &Scope<'_>,
        names: &ValueNames,
        value: Value,
        extending: Extending,
    ) -> Result<Expr, AllocError>
        ensures { IfOk result (λ e. e.text ≡ expr_text (expr_to (named_of names.now) (scope_ports scope.now) (scope_ops scope.now) (suc height_limit) extending (scope_ref scope.now value)) []) }
    {
        let mut text = Text::new(alloc);
        push_bare(&mut text, scope, names, value, extending, DEPTH)?;
        Ok(Expr { text })
    }

    /// The expression of a value's own operation, which is assigned to its name where it has one; of a wire that of its
    /// operand; with zero extensions as `extending` says. No value may have more than 128 bits. The error is out of memory.
    pub fn define(
        alloc: Global,
        scope: &Scope<'_>,
        names: &ValueNames,
        value: Value,
        extending: Extending,
    ) -> Result<Expr, AllocError>
        ensures { IfOk result (λ e. e.text ≡ expr_text (own_expr (named_of names.now) (scope_ports scope.now) (scope_ops scope.now) (λ x r. expr_to (named_of names.now) (scope_ports scope.now) (scope_ops scope.now) (suc height_limit) x r) extending (scope_ref scope.now value)) []) }
    {
        let mut text = Text::new(alloc);
        let node = node_at(scope, value);
        push_node(&mut text, scope, names, &node, extending, DEPTH)?;
        Ok(Expr { text })
    }

    /// The literal of the constant that a value is, whether or not it has a name; of any other value that of 0. No value may
    /// have more than 128 bits. The error is out of memory.
    pub fn constant(alloc: Global, scope: &Scope<'_>, value: Value) -> Result<Expr, AllocError>
        ensures { IfOk result (λ e. e.text ≡ expr_text (constant_expr (scope_ports scope.now) (scope_ops scope.now) (scope_ref scope.now value)) []) }
    {
        let mut text = Text::new(alloc);
        let bits = scope.width(value);
        let number = constant_at(scope, value, bits);
        push_literal(&mut text, bits, false, number)?;
        Ok(Expr { text })
    }

    /// How many bytes the text has.
    pub fn length(&self) -> usize
        ensures { result ≡ length self.now.text }
    {
        self.text.len()
    }
}

/// Adds an expression to a text. The error is out of memory; the text then stays as it was.
pub fn write_expr(expr: &Expr, into: &mut Text) -> Result<(), AllocError>
    ensures ok { OnOk result (into.new ≡ into.old ++ expr.now.text) }
    ensures err { OnErr result (into.new ≡ into.old) }
{
    into.push_bytes(expr.text.as_bytes())
}
