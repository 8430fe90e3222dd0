//! Pure operations of aggregate types without uses go.
ghost use Rattle.std.specs.Prelude.{◌≡◌, ◌<◌, true, false, length, slice_get, None, IfOk, OnOk};
ghost use Rattle.fold_laws.specs.Unused.{fold_unused};
ghost use Rattle.ir_store.specs.Bodies.{ids_of};
ghost use Rattle.body_edits.specs.FitBodies.{IsOfFit};
ghost use Rattle.body_edits.specs.Views.{HasOp, body_ops, position_in};
ghost use Rattle.cse_pass.specs.UnusedAggregates.{makes_aggregate, AggregateTrims, HasNoUnusedAggregate, IsWithoutUnusedAggregates};

use crate::levels::levels_of;
use crate::trims::trim_at;
use body_index::position_table::ids_in;
use ir_store::body::Body;
use ir_store::operation::OpId;
use lowering_rules::leaf_types::is_scalar;
use std::alloc::{AllocError, Global};

/// Takes pure operations that make aggregates out, where they have no uses, until each has one. On an error, which comes only when out
/// of memory, some are out. A body that has none costs a walk over its operations; else n log n in the operations, linear in their
/// operands, but for operations that need themselves.
pub fn trim_aggregates(alloc: Global, body: &mut Body) -> Result<(), AllocError>
    requires { IsOfFit body.old }
    ensures trimmed { OnOk result (IsWithoutUnusedAggregates (body_ops body.old) (body_ops body.new)) }
    ensures trims { AggregateTrims (body_ops body.old) (body_ops body.new) }
{
    while trim_aggregate_sweep(alloc, body)? {
        let levels = levels_of(alloc, body)?;
        trim_aggregates_along(body, levels.order.as_slice());
    }
    Ok(())
}

// A sweep over a body from the last operation to the first, and whether an operation went.
fn trim_aggregate_sweep(alloc: Global, body: &mut Body) -> Result<bool, AllocError>
    requires { IsOfFit body.old }
    ensures fit { IsOfFit body.new }
    ensures trims { AggregateTrims (body_ops body.old) (body_ops body.new) }
    ensures fewer { IfOk result (λ any. any ≡ true → length (body_ops body.new) < length (body_ops body.old)) }
    ensures none { IfOk result (λ any. any ≡ false → HasNoUnusedAggregate (body_ops body.new)) }
{
    let ids = ids_in(alloc, body)?;
    let mut any = false;
    let mut left = ids.len();
    while left > 0 {
        left -= 1;
        if trim_aggregate(body, ids[left]) {
            any = true;
        }
    }
    Ok(any)
}

// Takes such operations out, those of an order from the last on; some may be left.
fn trim_aggregates_along(body: &mut Body, order: &[OpId])
    requires { IsOfFit body.old }
    ensures fit { IsOfFit body.new }
    ensures trims { AggregateTrims (body_ops body.old) (body_ops body.new) }
{
    let mut left = order.len();
    while left > 0 {
        left -= 1;
        let _ = trim_aggregate(body, order[left]);
    }
}

// Takes an operation out, where it is there, pure and without uses, and makes an aggregate, and says whether it did.
fn trim_aggregate(body: &mut Body, op: OpId) -> bool
    requires { IsOfFit body.old }
    ensures fit { IsOfFit body.new }
    ensures trims { AggregateTrims (body_ops body.old) (body_ops body.new) }
    ensures fewer { result ≡ true → length (body_ops body.new) < length (body_ops body.old) }
    ensures ops { result ≡ false → body_ops body.new ≡ body_ops body.old }
    ensures ids { result ≡ false → ids_of body.new ≡ ids_of body.old }
    ensures none { result ≡ false → HasOp body.old op → makes_aggregate (slice_get (body_ops body.old) (position_in body.old op)) ≡ true → fold_unused (body_ops body.old) (position_in body.old op) ≡ None }
{
    if body.contains(op) && makes_aggregate(body, op) {
        return trim_at(body, op);
    }
    false
}

// Whether an operation makes an aggregate.
fn makes_aggregate(body: &Body, op: OpId) -> bool
    requires { HasOp body.now op }
    ensures { result ≡ makes_aggregate (slice_get (body_ops body.now) (position_in body.now op)) }
{
    match body.op(op).results.as_slice().first() {
        Some(one) => !is_scalar(&one.ty),
        None => false,
    }
}
