//! Pure operations without uses go.
ghost use Rattle.std.specs.Prelude.{◌≡◌, remove, cond, is_some, IfOk, OnOk};
ghost use Rattle.fold_laws.specs.Unused.{fold_unused};
ghost use Rattle.ir_store.specs.Bodies.{ids_of};
ghost use Rattle.body_edits.specs.FitBodies.{IsOfFit};
ghost use Rattle.body_edits.specs.Views.{HasOp, body_ops, position_in};
ghost use Rattle.cse_pass.specs.Cse.{Changes};
ghost use Rattle.cse_pass.specs.Trims.{trim_at, TrimsInto, IsTrimmed};
ghost use Rattle.cse_pass.specs.Sweeps.{IsTrimSweep};

use body_edits::purity::is_pure;
use body_index::position_table::ids_in;
use ir_store::body::Body;
use ir_store::operation::OpId;
use std::alloc::{AllocError, Global};

/// Takes pure operations without uses out, until each has a use. On an error some are out.
pub fn trim(alloc: Global, body: &mut Body) -> Result<(), AllocError>
    requires { IsOfFit body.old }
    ensures trimmed { OnOk result (IsTrimmed (body_ops body.old) (body_ops body.new)) }
    ensures changes { Changes (body_ops body.old) (body_ops body.new) }
{
    while trim_sweep(alloc, body)? {}
    Ok(())
}

/// Takes operations out that are pure and without uses, those of an order from the last on; some may be left. Linear in the
/// order, and for each in its operands and in the chain of the head that its results have.
pub fn trim_along(body: &mut Body, order: &[OpId])
    requires { IsOfFit body.old }
    ensures fit { IsOfFit body.new }
    ensures trims { TrimsInto (body_ops body.old) (body_ops body.new) }
{
    let mut left = order.len();
    while left > 0 {
        left -= 1;
        trim_there(body, order[left]);
    }
}

/// Takes an operation out, where it is there, pure and without uses.
fn trim_there(body: &mut Body, op: OpId)
    requires { IsOfFit body.old }
    ensures fit { IsOfFit body.new }
    ensures trims { TrimsInto (body_ops body.old) (body_ops body.new) }
{
    if body.contains(op) {
        let _ = trim_at(body, op);
    }
}

/// A sweep over a body from the last operation to the first, and whether an operation went.
fn trim_sweep(alloc: Global, body: &mut Body) -> Result<bool, AllocError>
    requires { IsOfFit body.old }
    ensures fit { IsOfFit body.new }
    ensures swept { IfOk result (λ erased. IsTrimSweep (body_ops body.old) erased (body_ops body.new)) }
    ensures changes { Changes (body_ops body.old) (body_ops body.new) }
{
    let ids = ids_in(alloc, body)?;
    let mut erased = false;
    let mut left = ids.len();
    while left > 0 {
        left -= 1;
        if trim_at(body, ids[left]) {
            erased = true;
        }
    }
    Ok(erased)
}

/// Takes an operation out, where it is pure and has no use, and says whether it did.
pub fn trim_at(body: &mut Body, op: OpId) -> bool
    requires fit { IsOfFit body.old }
    requires live { HasOp body.old op }
    ensures fit { IsOfFit body.new }
    ensures ops { body_ops body.new ≡ trim_at (position_in body.old op) (body_ops body.old) }
    ensures ids { ids_of body.new ≡ cond result (remove (ids_of body.old) (position_in body.old op)) (ids_of body.old) }
    ensures erased { result ≡ is_some (fold_unused (body_ops body.old) (position_in body.old op)) }
{
    if is_pure(body.op(op).kind) && body.is_unused(op) {
        body.erase(op);
        return true;
    }
    false
}
