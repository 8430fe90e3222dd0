//! Sweeps over a body.
ghost use Rattle.std.specs.Prelude.{◌≡◌, true, Some, map, Contains, IfOk, IfSome, OnOk, OnErr};
ghost use Rattle.ir_store.specs.Bodies.{ids_of, op_id, first_id};
ghost use Rattle.fold_laws.specs.Fold.{IsSmaller};
ghost use Rattle.body_edits.specs.FitBodies.{IsOfFit};
ghost use Rattle.body_edits.specs.Views.{body_ops};
ghost use Rattle.canonicalise.specs.Canonical.{table, IsCanonicalOf, Leads};
ghost use Rattle.canonicalise.specs.Dues.{after_some, IsDue};
ghost use Rattle.canonicalise.specs.Settled.{AreMarks};
ghost use Rattle.canonicalise.specs.Sweeps.{IsSwept};

use crate::marks::Marks;
use crate::visits::visit;
use ir_store::body::Body;
use ir_store::operation::OpId;
use std::alloc::{AllocError, Global};

/// Brings a body into its canonical form: sweeps over its operations in text order, at each of which the first pattern of the
/// table of folds that matches changes the body, until none matches or the operation is gone; the last sweep changes
/// nothing. On an error, which comes where memory that is needed is refused, some of the folds are made (MLIR
/// documentation, "Operation canonicalization"). Beside what the folds take, the first sweep is linear in the operations, and
/// each later one takes about the root of their number, and as much again for each operation at which a pattern may match anew.
pub fn canonicalize(alloc: Global, body: &mut Body) -> Result<(), AllocError>
    requires { IsOfFit body.old }
    ensures canonical { OnOk result (IsCanonicalOf (body_ops body.old) (body_ops body.new)) }
    ensures partly { OnErr result (Leads table (body_ops body.old) (body_ops body.new)) }
{
    let mut marks = Marks::new(alloc, body.op_count());
    while sweep(alloc, body, &mut marks)? {}
    Ok(())
}

/// A sweep over a body, in which patterns are tried at the operations that are not settled, and whether it changed something. It
/// passes over runs of settled ones, each in one step.
fn sweep(alloc: Global, body: &mut Body, marks: &mut Marks) -> Result<bool, AllocError>
    requires fit { IsOfFit body.old }
    requires marks { AreMarks marks.old body.old }
    ensures fit { IsOfFit body.new }
    ensures swept { IfOk result (λ changed. IsSwept table (body_ops body.old) changed (body_ops body.new)) }
    ensures leads { Leads table (body_ops body.old) (body_ops body.new) }
    ensures smaller { IfOk result (λ changed. changed ≡ true → IsSmaller (body_ops body.new) (body_ops body.old)) }
    ensures settled { OnOk result (AreMarks marks.new body.new) }
{
    let mut changed = false;
    let mut at = first_op(body);
    while let Some(first) = at {
        let op = marks.end_of(body, first);
        let next = body.next_op(op);
        let second = after(body, next);
        if visit(alloc, body, marks, op)? {
            changed = true;
            at = due(body, op, next, second);
        } else {
            at = next;
        }
    }
    Ok(changed)
}

/// The first operation.
fn first_op(body: &Body) -> Option<OpId>
    ensures { result ≡ first_id (map op_id (ids_of body.now)) }
{
    body.ops().next()
}

/// The operation after another one, where there are both.
fn after(body: &Body, op: Option<OpId>) -> Option<OpId>
    requires { IfSome op (λ o. Contains (ids_of body.now) o.index) }
    ensures { result ≡ after_some (ids_of body.now) op }
{
    match op {
        Some(op) => body.next_op(op),
        None => None,
    }
}

/// The operation that a sweep visits after a fold at one: that one, where it is still there, or else the first that is there
/// of the two that stood after it.
fn due(body: &Body, op: OpId, next: Option<OpId>, second: Option<OpId>) -> Option<OpId>
    ensures stays { Contains (ids_of body.now) op.index → result ≡ Some op }
    ensures goes { (Contains (ids_of body.now) op.index → ⊥) → IsDue (ids_of body.now) next second result }
{
    if body.contains(op) {
        return Some(op);
    }
    match next {
        Some(other) if !body.contains(other) => second,
        _ => next,
    }
}
