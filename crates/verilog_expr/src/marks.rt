//! Which values of a body are used twice, cut or joined to an instance, by one pass over all operands.
ghost use Rattle.std.specs.Prelude.{◌≡◌, ◌<◌, ℕ, length, map, IfOk, is_some};
ghost use Rattle.hw_model.specs.Design.{instance_in};
ghost use Rattle.hw_model.specs.Design.Ref.{result as result_of};
ghost use Rattle.hw_model.specs.KindViews.{kind_of};
ghost use Rattle.verilog_expr.specs.Spilling.{is_narrower};
ghost use Rattle.verilog_expr.specs.Expressions.{value_width};
ghost use Rattle.verilog_expr.specs.Scopes.{scope_ports, scope_ops, scope_ref};
ghost use Rattle.verilog_expr.specs.Marks.{AreMarks, mark_at, note_use, one_use, after_operands};

use crate::scope::{Scope, result_width};
use hw_model::kinds::OpKind;
use ir_store::body::Op;
use ir_store::operation::Value;
use std::alloc::{AllocError, Global};

/// How the first result of an operation is used.
#[derive(Clone, Copy)]
pub struct Mark {
    /// How many positions name it, at most two.
    pub uses: u8,
    /// Whether a narrower extract takes bits of it.
    pub cut: bool,
    /// Whether an instance has it as an operand.
    pub joined: bool,
}

// Whether an operation with a result of so many bits takes fewer bits than its operand has.
fn is_narrower(kind: &OpKind, width: u64, operand_width: u64) -> bool
    ensures { result ≡ is_narrower (kind_of kind.now) width operand_width }
{
    match kind {
        OpKind::Extract(_) => width < operand_width,
        _ => false,
    }
}

// Whether an operation is an instance.
fn is_instance(kind: &OpKind) -> bool
    ensures { result ≡ is_some (instance_in (kind_of kind.now)) }
{
    match kind {
        OpKind::Instance(_) => true,
        _ => false,
    }
}

// The mark after one more use.
fn note_use(mark: Mark, cut: bool, joined: bool) -> Mark
    requires { mark.uses < 3 }
    ensures { result ≡ note_use cut joined mark }
{
    Mark {
        uses: (mark.uses + 1).min(2),
        cut: mark.cut || cut,
        joined: mark.joined || joined,
    }
}

// Notes one use of a value by an operation with a result of so many bits.
fn mark_value(scope: &Scope<'_>, value: Value, kind: &OpKind, width: u64, marks: &mut [Mark])
    requires count { length marks.old ≡ length (scope_ops scope.now) }
    requires few { (i : ℕ) → (mark_at marks.old i).uses < 3 }
    ensures marks { (i : ℕ) → i < length marks.old → mark_at marks.new i ≡ one_use (result_of i 0) (is_narrower (kind_of kind.now) width (value_width (scope_ports scope.now) (scope_ops scope.now) (result_of i 0))) (is_some (instance_in (kind_of kind.now))) (scope_ref scope.now value) (mark_at marks.old i) }
    ensures few { (i : ℕ) → (mark_at marks.new i).uses < 3 }
{
    if let Some(position) = scope.result_position(value) {
        let cut = is_narrower(kind, width, scope.width(value));
        marks[position] = note_use(marks[position], cut, is_instance(kind));
    }
}

// Notes the uses of an operation's operands.
fn mark_operands(
    scope: &Scope<'_>,
    operands: &[Value],
    kind: &OpKind,
    width: u64,
    marks: &mut [Mark],
)
    requires count { length marks.old ≡ length (scope_ops scope.now) }
    requires few { (i : ℕ) → (mark_at marks.old i).uses < 3 }
    ensures marks { (i : ℕ) → i < length marks.old → mark_at marks.new i ≡ after_operands (result_of i 0) (is_narrower (kind_of kind.now) width (value_width (scope_ports scope.now) (scope_ops scope.now) (result_of i 0))) (is_some (instance_in (kind_of kind.now))) (map (scope_ref scope.now) operands.now) (mark_at marks.old i) }
    ensures few { (i : ℕ) → (mark_at marks.new i).uses < 3 }
{
    for value in operands {
        mark_value(scope, *value, kind, width, marks);
    }
}

/// The mark of each operation's first result, by its position.
pub fn marks_of(alloc: Global, scope: &Scope<'_>) -> Result<Vec<Mark>, AllocError>
    ensures count { IfOk result (λ ms. length ms.items ≡ length (scope_ops scope.now)) }
    ensures marks { IfOk result (λ ms. AreMarks (scope_ports scope.now) (scope_ops scope.now) ms.items) }
{
    let count = scope.count();
    let none = Mark {
        uses: 0,
        cut: false,
        joined: false,
    };
    let mut marks = vec![in alloc; none; count]?;
    for position in 0..count {
        let op = scope.op_at(position);
        mark_operands(
            scope,
            op.operands,
            op.kind,
            result_width(&op, 0),
            marks.as_mut_slice(),
        );
    }
    Ok(marks)
}
