//! Patterns by which an operation of any number of operands has others.
ghost use Rattle.std.specs.Prelude.{◌≡◌, ◌<◌, true, Some, is_some, option_map, length, slice_get, IfSome, IfOk, OnOk, OnErr};
ghost use Rattle.ir_store.specs.Bodies.{ops_of};
ghost use Rattle.ir_store.specs.BodyOps.{HasOperand};
ghost use Rattle.fold_laws.specs.Fewer.{by_operands};
ghost use Rattle.body_edits.specs.FitBodies.{IsOfFit};
ghost use Rattle.body_edits.specs.Folded.{IsFolded};
ghost use Rattle.body_edits.specs.OperandEdits.{IsWithin, IsOperandEdit, operands_after, operands_there, changed_there};
ghost use Rattle.body_edits.specs.Views.{HasOp, body_ops, position_in};
ghost use Rattle.body_edits.specs.declared.operands.OperandEdit.TheVariants.{Drop, DropBoth, MoveLast};

use crate::site::Site;
use hw_model::families::{Family, Variadic};
use ir_store::body::Body;
use ir_store::operation::OpId;
use std::alloc::AllocError;

/// A change of the operands of an operation.
#[derive(Clone, Copy)]
pub enum OperandEdit {
    /// The operand of a position goes.
    Drop(usize),
    /// The operands of two positions go, the first before the second.
    DropBoth(usize, usize),
    /// The operand of a position becomes the last.
    MoveLast(usize),
}

/// A pattern of the table of folds by which an operation of any number of operands has others.
pub trait OperandPattern {
    ghost use Rattle.fold_laws.specs.Fewer.{Operands};
    ghost use Rattle.hw_model.specs.FamilyViews.{variadic_of};
    ghost use Rattle.ir_store.specs.Bodies.{ops_of, read_op};
    ghost use Rattle.ir_store.specs.BodyOps.{op_at};
    ghost use Rattle.body_edits.specs.Sites.{IsReadableSite, ops_at, refs_at};

    // The operands that an operation has after the change.
    ghost operands: { Operands };

    /// The change of the operands of the operation `id`, which is of a kind, where the pattern matches.
    fn edit(site: &Site<'_>, id: OpId, kind: Variadic) -> Option<OperandEdit>
        requires readable { IsReadableSite site.now }
        requires own { op_at (ops_of site.now.body.now) id.index ≡ Some (read_op id site.now.op) }
        ensures operands { option_map (λ e. operands_after e (refs_at site.now)) result ≡ operands (ops_at site.now) (variadic_of kind) (refs_at site.now) }
        ensures within { IfSome result (IsWithin (length (refs_at site.now))) };
}

/// Whether a pattern that changes operands matches at an operation.
pub fn operands_match<R: OperandPattern>(body: &Body, op: OpId) -> bool
    requires fit { IsOfFit body.now }
    requires live { HasOp body.now op }
    ensures { result ≡ is_some (by_operands R.operands (body_ops body.now) (position_in body.now op)) }
{
    edit_at::<R>(body, op).is_some()
}

/// Changes the operands of an operation at which a pattern matches that does so. On an error, which comes where memory that is
/// needed is refused, the operations stay. Linear in the operands, besides the search for the change.
pub fn apply_operands<R: OperandPattern>(body: &mut Body, op: OpId) -> Result<(), AllocError>
    requires fit { IsOfFit body.old }
    requires live { HasOp body.old op }
    requires matches { is_some (by_operands R.operands (body_ops body.old) (position_in body.old op)) ≡ true }
    ensures folded { OnOk result (IsFolded (by_operands R.operands) body.old body.new (position_in body.old op)) }
    ensures kept { OnErr result (ops_of body.new ≡ ops_of body.old) }
{
    match edit_at::<R>(body, op) {
        Some(edit) => edit_operands(body, op, edit),
        None => unreachable!(),
    }
}

/// The change of the operands of an operation, where a pattern matches that changes them.
fn edit_at<R: OperandPattern>(body: &Body, op: OpId) -> Option<OperandEdit>
    requires fit { IsOfFit body.now }
    requires live { HasOp body.now op }
    ensures operands { option_map (λ e. operands_after e (operands_there (slice_get (body_ops body.now) (position_in body.now op)))) result ≡ changed_there R.operands (body_ops body.now) (position_in body.now op) }
    ensures within { IfSome result (IsWithin (length (operands_there (slice_get (body_ops body.now) (position_in body.now op))))) }
{
    let site = Site::at(body, op);
    match site.op.kind.family() {
        Family::Variadic(kind) => R::edit(&site, op, kind),
        _ => None,
    }
}

/// Changes the operands of an operation. On an error, which comes where memory that is needed is refused, the operations
/// stay. Linear in the operands.
fn edit_operands(body: &mut Body, op: OpId, edit: OperandEdit) -> Result<(), AllocError>
    requires live { HasOp body.old op }
    requires within { IsWithin (length (operands_there (slice_get (body_ops body.old) (position_in body.old op)))) edit }
    ensures ok { OnOk result (IsOperandEdit edit body.old body.new (position_in body.old op)) }
    ensures kept { OnErr result (ops_of body.new ≡ ops_of body.old) }
{
    match edit {
        OperandEdit::Drop(at) => drop_one(body, op, at),
        OperandEdit::DropBoth(first, second) => drop_both(body, op, first, second),
        OperandEdit::MoveLast(at) => move_last(body, op, at),
    }
}

/// Takes an operand out.
fn drop_one(body: &mut Body, op: OpId, at: usize) -> Result<(), AllocError>
    requires live { HasOp body.old op }
    requires within { HasOperand (ops_of body.old) op.index at }
    ensures ok { OnOk result (IsOperandEdit (Drop at) body.old body.new (position_in body.old op)) }
    ensures kept { OnErr result (ops_of body.new ≡ ops_of body.old) }
{
    let at = operand_position(at)?;
    body.drop_operand(op, at);
    Ok(())
}

/// Takes two operands out, the first before the second.
fn drop_both(body: &mut Body, op: OpId, first: usize, second: usize) -> Result<(), AllocError>
    requires live { HasOp body.old op }
    requires order { first < second }
    requires within { HasOperand (ops_of body.old) op.index second }
    ensures ok { OnOk result (IsOperandEdit (DropBoth first second) body.old body.new (position_in body.old op)) }
    ensures kept { OnErr result (ops_of body.new ≡ ops_of body.old) }
{
    let first = operand_position(first)?;
    let second = operand_position(second)?;
    body.drop_operand(op, second);
    body.drop_operand(op, first);
    Ok(())
}

/// Moves an operand after the others.
fn move_last(body: &mut Body, op: OpId, at: usize) -> Result<(), AllocError>
    requires live { HasOp body.old op }
    requires within { HasOperand (ops_of body.old) op.index at }
    ensures ok { OnOk result (IsOperandEdit (MoveLast at) body.old body.new (position_in body.old op)) }
    ensures kept { OnErr result (ops_of body.new ≡ ops_of body.old) }
{
    let operands = body.op(op).operands;
    let value = operands[at];
    let end = operand_position(operands.len())?;
    let at = operand_position(at)?;
    body.insert_operand(op, end, value)?;
    body.drop_operand(op, at);
    Ok(())
}

/// A position as operands of a body have them. A body with 2^32 operands or more wants more memory than there is.
pub fn operand_position(at: usize) -> Result<u32, AllocError>
    ensures { IfOk result (λ position. position ≡ at) }
{
    u32::try_from(at).map_err(|_| AllocError)
}
