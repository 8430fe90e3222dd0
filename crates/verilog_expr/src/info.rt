//! What the expression of a value is seen to be before it is written, and how it goes into a position.
ghost use Rattle.std.specs.Prelude.{◌≡◌, ◌++◌, [], map, option_map, false, None, OnOk};
ghost use Rattle.verilog_model.specs.Grammar.{level};
ghost use Rattle.verilog_model.specs.Expression.{is_signed};
ghost use Rattle.verilog_expr.specs.Scopes.{scope_ports, scope_ops, scope_ref};
ghost use Rattle.verilog_expr.specs.Extensions.{is_simple, alone_under};
ghost use Rattle.verilog_expr.specs.Places.{is_braces, alone_in};
ghost use Rattle.verilog_expr.specs.Templates.{template_signed, template_level, form_signed, form_level, sole_name, name_of_one, no_name, first_simple, template_simple};
ghost use Rattle.verilog_expr.specs.ExprNode.{expr_at, exprs_to, IsOnly, wrap_for, open_text, close_text};
ghost use Rattle.verilog_expr.specs.declared.extending.Extending.TheVariants.{Off};

use crate::extending::Extending;
use crate::form::{Form, strength};
use crate::node::{ExprNode, is_zero, node_at};
use crate::scope::Scope;
use crate::template::Template;
use crate::value_names::ValueNames;
use io_edge::byte_text::Text;
use ir_store::operation::Value;
use std::alloc::AllocError;

/// What an expression is seen to be: a name, or else signed or not and how strongly it binds.
#[derive(Drop)]
pub(crate) struct SubexprInfo<'n> {
    /// The name.
    pub(crate) name: Option<&'n [u8]>,
    /// Whether it is signed.
    pub(crate) is_signed: bool,
    /// How strongly it binds.
    pub(crate) level: u8,
}

/// How an expression is put into a position.
#[derive(Clone, Copy)]
pub(crate) enum Wrap {
    /// As it is.
    Bare,
    /// Made unsigned.
    Unsigned,
    /// In parentheses.
    Paren,
}

// Whether an expression of a form is signed, its operands aside.
fn form_signed(form: Form) -> bool
    ensures { result ≡ form_signed form [] }
{
    match form {
        Form::SignedShift(_) | Form::SignedDivision(_, _, _) => true,
        _ => false,
    }
}

// How strongly an expression of a form binds, its operands aside.
fn form_level(form: Form) -> u8
    ensures { result ≡ form_level form [] }
{
    match form {
        Form::Chain(operator)
        | Form::SignedPair(operator)
        | Form::UnsignedShift(operator)
        | Form::SignedShift(operator)
        | Form::UnsignedDivision(operator, _, _)
        | Form::SignedDivision(operator, _, _) => strength(operator),
        Form::Parity => 10,
        Form::Choice => 1,
        _ => 11,
    }
}

/// What the expression of a value is seen to be.
#[cycle(info)]
pub(crate) fn info_at<'n>(
    scope: &Scope<'_>,
    names: &'n ValueNames,
    value: Value,
    extending: Extending,
    depth: usize,
) -> SubexprInfo<'n>
    ensures name { option_map (λ n. n.now) result.name ≡ sole_name (expr_at scope.now names.now depth extending value) }
    ensures signed { result.is_signed ≡ is_signed (expr_at scope.now names.now depth extending value) }
    ensures level { result.level ≡ level (expr_at scope.now names.now depth extending value) }
{
    if depth == 0 {
        return plain(None);
    }
    if let Some(name) = names.name(scope, value) {
        return plain(Some(name));
    }
    let node = node_at(scope, value);
    if let Some(operand) = alone_at(scope, names, &node, extending, depth - 1) {
        return info_at(scope, names, operand, Extending::Off, depth - 1);
    }
    if let Some(operand) = only_operand(&node) {
        return info_at(scope, names, operand, extending, depth - 1);
    }
    node_info(&node)
}

/// The operand that an expression is alone, written with all zeros: of a zero extension the second one, where the context
/// gives the full width.
#[cycle(info)]
pub(crate) fn alone_at(
    scope: &Scope<'_>,
    names: &ValueNames,
    node: &ExprNode<'_>,
    extending: Extending,
    depth: usize,
) -> Option<Value>
    ensures { option_map (expr_at scope.now names.now depth Off) result ≡ alone_under extending (alone_in (scope_ports scope.now) (scope_ops scope.now) (exprs_to scope.now names.now depth) node.now.template (map (scope_ref scope.now) node.now.operands.now)) }
{
    match extending {
        Extending::Off | Extending::Own => None,
        Extending::Given => extended_at(scope, names, node, depth),
    }
}

// The second operand of a zero extension.
#[cycle(info)]
fn extended_at(
    scope: &Scope<'_>,
    names: &ValueNames,
    node: &ExprNode<'_>,
    depth: usize,
) -> Option<Value>
    ensures { option_map (expr_at scope.now names.now depth Off) result ≡ alone_in (scope_ports scope.now) (scope_ops scope.now) (exprs_to scope.now names.now depth) node.now.template (map (scope_ref scope.now) node.now.operands.now) }
{
    match node.operands {
        [zero, operand] => {
            if is_braces(node.template)
                && (is_zero(scope, *zero) && is_simple(scope, names, *operand, depth))
            {
                Some(*operand)
            } else {
                None
            }
        }
        _ => None,
    }
}

/// Whether the expression of a value, written with all zeros, is a name or an unsigned literal.
#[cycle(info)]
pub(crate) fn is_simple(scope: &Scope<'_>, names: &ValueNames, value: Value, depth: usize) -> bool
    ensures { result ≡ is_simple (expr_at scope.now names.now depth Off value) }
{
    if depth == 0 {
        return true;
    }
    if let Some(_name) = names.name(scope, value) {
        return true;
    }
    let node = node_at(scope, value);
    is_simple_template(scope, names, node.template, node.operands, depth - 1)
}

// Whether the expression of a template over operands, written with all zeros, is a name or an unsigned literal.
#[cycle(info)]
fn is_simple_template(
    scope: &Scope<'_>,
    names: &ValueNames,
    template: Template,
    operands: &[Value],
    depth: usize,
) -> bool
    ensures { result ≡ template_simple template (map (expr_at scope.now names.now depth Off) operands.now) }
{
    match template {
        Template::Missing | Template::Number(_, _) => true,
        Template::Select(_, _) => has_no_name(scope, names, operands, depth),
        Template::Operands(Form::Same) => is_simple_first(scope, names, operands, depth),
        Template::Operands(_) => false,
    }
}

// Whether the first of operands is a name or an unsigned literal.
#[cycle(info)]
fn is_simple_first(scope: &Scope<'_>, names: &ValueNames, operands: &[Value], depth: usize) -> bool
    ensures { result ≡ first_simple (map (expr_at scope.now names.now depth Off) operands.now) }
{
    match operands {
        [operand, ..] => is_simple(scope, names, *operand, depth),
        [] => false,
    }
}

// Whether operands are other than one name.
#[cycle(info)]
fn has_no_name(scope: &Scope<'_>, names: &ValueNames, operands: &[Value], depth: usize) -> bool
    ensures { result ≡ no_name (name_of_one (map (expr_at scope.now names.now depth Off) operands.now)) }
{
    match only_name(scope, names, operands, Extending::Off, depth) {
        Some(_name) => false,
        None => true,
    }
}

/// The name that the only one of operands is, down to a depth.
#[cycle(info)]
pub(crate) fn only_name<'n>(
    scope: &Scope<'_>,
    names: &'n ValueNames,
    operands: &[Value],
    extending: Extending,
    depth: usize,
) -> Option<&'n [u8]>
    ensures { option_map (λ n. n.now) result ≡ name_of_one (map (expr_at scope.now names.now depth extending) operands.now) }
{
    match operands {
        [operand] => info_at(scope, names, *operand, extending, depth).name,
        _ => None,
    }
}

// Whether the operands of a template stand in braces.
fn is_braces(template: Template) -> bool
    ensures { result ≡ is_braces template }
{
    match template {
        Template::Operands(Form::Braces) => true,
        _ => false,
    }
}

// The operand that an expression is, where nothing is written round it.
fn only_operand(node: &ExprNode<'_>) -> Option<Value>
    ensures { IsOnly node.now.template node.now.operands.now result }
{
    match node.template {
        Template::Operands(Form::Same) => node.operands.first().copied(),
        _ => None,
    }
}

// What an expression is seen to be that is no operand as it is.
fn node_info<'n>(node: &ExprNode<'_>) -> SubexprInfo<'n>
    ensures name { option_map (λ n. n.now) result.name ≡ None }
    ensures signed { result.is_signed ≡ template_signed node.now.template [] }
    ensures level { result.level ≡ template_level node.now.template [] }
{
    match node.template {
        Template::Operands(form) => SubexprInfo {
            name: None,
            is_signed: form_signed(form),
            level: form_level(form),
        },
        _ => plain(None),
    }
}

// What a name is seen to be, or a literal.
fn plain<'n>(name: Option<&'n [u8]>) -> SubexprInfo<'n>
    ensures name { option_map (λ n. n.now) result.name ≡ option_map (λ n. n.now) name.entry }
    ensures signed { result.is_signed ≡ false }
    ensures level { result.level ≡ 11 }
{
    SubexprInfo {
        name,
        is_signed: false,
        level: 11,
    }
}

/// How an expression goes into a position.
pub(crate) fn wrap_for(unsigned: bool, level: u8, seen: &SubexprInfo<'_>) -> Wrap
    ensures { result ≡ wrap_for unsigned level seen.now.is_signed seen.now.level }
{
    if unsigned && seen.is_signed {
        Wrap::Unsigned
    } else if level > seen.level {
        Wrap::Paren
    } else {
        Wrap::Bare
    }
}

/// Adds what opens a position.
pub(crate) fn push_open(out: &mut Text, wrap: Wrap) -> Result<(), AllocError>
    ensures { OnOk result (out.new ≡ out.old ++ open_text wrap) }
{
    match wrap {
        Wrap::Bare => {}
        Wrap::Unsigned => out.push_bytes(b"$unsigned(")?,
        Wrap::Paren => out.push_bytes(b"(")?,
    }
    Ok(())
}

/// Adds what closes a position.
pub(crate) fn push_close(out: &mut Text, wrap: Wrap) -> Result<(), AllocError>
    ensures { OnOk result (out.new ≡ out.old ++ close_text wrap) }
{
    match wrap {
        Wrap::Bare => {}
        Wrap::Unsigned | Wrap::Paren => out.push_bytes(b")")?,
    }
    Ok(())
}
