//! The template of the expression of a value's own operation, and the operands that it is over.
ghost use Rattle.std.specs.Prelude.{◌≡◌, ◌<◌, [], map, is_some};
ghost use Rattle.hw_model.specs.Design.{Ref, result_type};
ghost use Rattle.ir_store.specs.Bodies.{op_id, read_op};
ghost use Rattle.ir_store.specs.Numbered.{op_by};
ghost use Rattle.verilog_expr.specs.Extensions.{is_zero_in};
ghost use Rattle.verilog_expr.specs.Expressions.{constant_of, divisor_in, op_at, value_width};
ghost use Rattle.verilog_expr.specs.Scopes.{scope_ports, scope_ops, scope_ref, op_read};
ghost use Rattle.verilog_expr.specs.ExprNode.{IsNodeOf, IsOpOf, IsResultOf, head_width};
ghost use Rattle.verilog_expr.specs.declared.template.Template.TheVariants.{Missing};

use crate::scope::{Scope, result_width};
use crate::template::{Template, constant_number, template_for};
use hw_model::kinds::OpKind;
use ir_store::body::Op;
use ir_store::operation::Value;

/// The template of an expression, and the operands that it is over.
#[derive(Drop)]
pub(crate) struct ExprNode<'m> {
    /// The template.
    pub(crate) template: Template,
    /// The operands.
    pub(crate) operands: &'m [Value],
}

/// The number that a value always has in so many bits, or 0.
pub(crate) fn constant_at(scope: &Scope<'_>, value: Value, width: u64) -> u128
    requires { width < 129 }
    ensures { result ≡ constant_of (op_at (scope_ops scope.now) (scope_ref scope.now value)) width }
{
    let Some(position) = scope.result_position(value) else {
        return 0;
    };
    match scope.op_at(position).kind {
        OpKind::Constant(constant) => constant_number(width, *constant),
        _ => 0,
    }
}

/// Whether a value is a constant that is 0.
pub(crate) fn is_zero(scope: &Scope<'_>, value: Value) -> bool
    ensures { result ≡ is_zero_in (op_at (scope_ops scope.now) (scope_ref scope.now value)) (value_width (scope_ports scope.now) (scope_ops scope.now) (scope_ref scope.now value)) }
{
    let Some(position) = scope.result_position(value) else {
        return false;
    };
    match scope.op_at(position).kind {
        OpKind::Constant(constant) => {
            let bits = scope.width(value);
            constant_number(bits, *constant) == 0
        }
        _ => false,
    }
}

// The number that the second of two operands always has.
fn divisor_in(scope: &Scope<'_>, operands: &[Value], width: u64) -> u128
    requires { width < 129 }
    ensures { result ≡ divisor_in (scope_ops scope.now) width (map (scope_ref scope.now) operands.now) }
{
    if operands.len() != 2 {
        return 0;
    }
    constant_at(scope, operands[1], width)
}

// The bits of the first of operands, or 0.
fn head_width(scope: &Scope<'_>, operands: &[Value]) -> u64
    ensures { result ≡ head_width (scope_ports scope.now) (scope_ops scope.now) (map (scope_ref scope.now) operands.now) }
{
    match operands.first() {
        Some(value) => scope.width(*value),
        None => 0,
    }
}

/// The template of the expression of a value's own operation, and its operands.
pub(crate) fn node_at<'m>(scope: &Scope<'m>, value: Value) -> ExprNode<'m>
    ensures { IsNodeOf scope.now (scope_ref scope.now value) result.template result.operands.now }
{
    let Value::Result(id, number) = value else {
        return nothing_node();
    };
    match scope.op(id) {
        Some(op) => result_node(scope, &op, number),
        None => nothing_node(),
    }
}

// What has no expression of its own.
fn nothing_node<'m>() -> ExprNode<'m>
    ensures template { result.template ≡ Missing }
    ensures operands { result.operands.now ≡ [] }
{
    ExprNode {
        template: Template::Missing,
        operands: &[],
    }
}

// Whether an operation has a result of this number.
fn has_result(op: &Op<'_>, number: u32) -> bool
    ensures { result ≡ is_some (result_type (op_by (λ i. i) (read_op (op_id 0) op.now)) number) }
{
    (number as usize) < op.results.len()
}

// The template of the expression of an operation's result, and the operands.
fn result_node<'m>(scope: &Scope<'m>, op: &Op<'m>, number: u32) -> ExprNode<'m>
    requires { IsOpOf scope.now (op_read scope.now op.now) }
    ensures { (r : Ref) → IsResultOf scope.now (op_read scope.now op.now) number r → IsNodeOf scope.now r result.template result.operands.now }
{
    if !has_result(op, number) {
        return nothing_node();
    }
    let width = result_width(op, number);
    let divisor = divisor_in(scope, op.operands, width);
    let head = head_width(scope, op.operands);
    ExprNode {
        template: template_for(op.kind, width, head, divisor, op.operands.len()),
        operands: op.operands,
    }
}
