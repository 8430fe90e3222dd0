//! Constants that are put in the place of operations.
ghost use Rattle.std.specs.Prelude.{◌≡◌, true, Some, is_some, slice_get, option_map, IfOk, OnOk, OnErr};
ghost use Rattle.hw_model.specs.TypeViews.{type_of};
ghost use Rattle.ir_store.specs.Bodies.{ops_of};
ghost use Rattle.ir_store.specs.OperationViews.{location_of, results_in};
ghost use Rattle.body_edits.specs.FitBodies.{IsOfFit};
ghost use Rattle.body_edits.specs.Replaceable.{HaveNoFurther};
ghost use Rattle.body_edits.specs.Replaced.{first_type_at, IsNumberOp, HasNumber};
ghost use Rattle.body_edits.specs.Views.{HasOp, body_ops, position_in};

use crate::in_place::put_in_place;
use diag::refusal::Location;
use hw_model::kinds::{Integer, OpKind};
use hw_model::types::Ty;
use ir_store::body::Body;
use ir_store::operation::{NewOp, NewResultList, OpId};
use std::alloc::{AllocError, Global};

/// Puts an `hw.constant` of a number in the place of an operation, for whose first result it then stands and whose type
/// it has. On an error, which comes where memory that is needed is refused, the operations stay; a body of 2^32 - 1
/// operations or more counts as out of memory. Linear in the uses of the result and in the operands.
pub fn put_number(alloc: Global, body: &mut Body, op: OpId, number: u128) -> Result<(), AllocError>
    requires fit { IsOfFit body.old }
    requires live { HasOp body.old op }
    requires typed { is_some (first_type_at (body_ops body.old) (position_in body.old op)) ≡ true }
    requires alone { HaveNoFurther (position_in body.old op) (body_ops body.old) }
    ensures has { OnOk result (HasNumber body.old body.new (position_in body.old op) number) }
    ensures kept { OnErr result (ops_of body.new ≡ ops_of body.old) }
{
    let found = body.op(op);
    match first_type(found.results) {
        Some(ty) => {
            let constant = number_op(alloc, number, ty, found.location)?;
            put_in_place(body, op, constant)
        }
        None => unreachable!(),
    }
}

/// The type of the first of some results.
pub fn first_type(results: &NewResultList) -> Option<&Ty>
    ensures { option_map (λ t. type_of t.now) result ≡ option_map (λ r. r.type) (slice_get (results_in results.now) 0) }
{
    match results.as_slice().first() {
        Some(first) => Some(&first.ty),
        None => None,
    }
}

/// The `hw.constant` of a number and a type, at a location of the text.
pub fn number_op(
    alloc: Global,
    number: u128,
    ty: &Ty,
    location: Location,
) -> Result<NewOp, AllocError>
    ensures { IfOk result (λ op. IsNumberOp number (type_of ty.now) (location_of location) op) }
{
    let kind = OpKind::Constant(Integer::NonNegative(number));
    NewOp::of_type(alloc, kind, &[], ty, location)
}
