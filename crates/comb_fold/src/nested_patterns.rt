//! The patterns by which an operation takes in another one that made an operand of it and has no other use.
ghost use Rattle.std.specs.Prelude.{◌≡◌, option_map};
ghost use Rattle.body_edits.specs.FitBodies.{IsOfFit};
ghost use Rattle.body_edits.specs.Nests.{nested_seen, same_nested_at};
ghost use Rattle.body_edits.specs.Views.{HasOp, body_ops, position_in};

use crate::pattern::Pattern;
use body_edits::nested::{InnerKind, NestedOp, first_nested};
use body_edits::site::Site;
use body_edits::splices::take_in;
use hw_model::families::Family;
use ir_store::body::Body;
use ir_store::operation::OpId;
use std::alloc::{AllocError, Global};

/// `comb.add`, `comb.mul`, `comb.and`, `comb.or`, `comb.xor` takes the operands of the first operand's operation of its kind
/// with one use.
pub struct F16;

impl Pattern for F16 {
    ghost use Rattle.fold_laws.specs.Nested.{fold_nested_operand};

    ghost change = { fold_nested_operand };

    fn matches(body: &Body, op: OpId) -> bool {
        same_nested(body, op).is_some()
    }

    fn apply(alloc: Global, body: &mut Body, op: OpId) -> Result<(), AllocError> {
        match same_nested(body, op) {
            Some(nested) => {
                let number = nested.number;
                let inner = nested.id;
                take_in(alloc, body, op, number, inner)
            }
            None => unreachable!(),
        }
    }
}

/// The first operation of its kind that made an operand of an operation of any number of operands, and has no other use.
fn same_nested(body: &Body, op: OpId) -> Option<NestedOp<'_>>
    requires fit { IsOfFit body.now }
    requires live { HasOp body.now op }
    ensures { option_map (nested_seen body.now) result ≡ same_nested_at (body_ops body.now) (position_in body.now op) }
{
    let site = Site::at(body, op);
    match site.op.kind.family() {
        Family::Variadic(kind) => first_nested(&site, op, InnerKind::Variadic(kind)),
        _ => None,
    }
}
