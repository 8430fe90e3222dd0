//! The pattern by which an operation of any number of operands has one constant in the place of two (CIRCT, Comb dialect:
//! canonicalization of its operations).
ghost use Rattle.std.specs.Prelude.{◌≡◌, ◌<◌, [], true, Some, is_some, position, OnOk, OnErr};
ghost use Rattle.ir_store.specs.Bodies.{ops_of};
ghost use Rattle.ir_store.specs.BodyOps.{HasOperand};
ghost use Rattle.ir_store.specs.OperationViews.{new_parts};
ghost use Rattle.fold_laws.specs.Fold.{is_constant_in};
ghost use Rattle.body_edits.specs.FitBodies.{IsOfFit};
ghost use Rattle.comb_fold.specs.Joins.{two_of_kind, first_two, joined_of_kind, AreEven, IsPutIn, HasJoined};
ghost use Rattle.body_edits.specs.Readable.{IsReadable};
ghost use Rattle.body_edits.specs.Replaced.{first_type_at, plain_op};
ghost use Rattle.body_edits.specs.Sites.{ops_at, ref_at, refs_at, kind_at, IsReadableSite};
ghost use Rattle.body_edits.specs.Views.{HasOp, body_ops, position_in, value_ref};

use crate::pattern::Pattern;
use body_edits::numbers::{first_type, number_op};
use body_edits::operands::operand_position;
use body_edits::reading::constant_of;
use body_edits::site::Site;
use hw_model::families::Family;
use hw_model::integer_values::op_value;
use ir_store::body::Body;
use ir_store::operation::{NewOp, OpId, Value};
use std::alloc::{AllocError, Global};

/// The positions of two operands.
#[derive(Clone, Copy)]
struct Two {
    first: usize,
    second: usize,
}

/// `comb.add`, `comb.mul`, `comb.and`, `comb.or`, `comb.xor` with two constants has the constant of their value in the place
/// of the second one.
pub struct F14;

impl Pattern for F14 {
    ghost use Rattle.fold_laws.specs.ConstantOperands.{fold_two_constants};

    ghost change = { fold_two_constants };

    fn matches(body: &Body, op: OpId) -> bool {
        let site = Site::at(body, op);
        match first_type(site.op.results) {
            Some(_) => two_constants(&site).is_some(),
            None => false,
        }
    }

    fn apply(alloc: Global, body: &mut Body, op: OpId) -> Result<(), AllocError> {
        let site = Site::at(body, op);
        match two_constants(&site) {
            Some(two) => {
                let number = joined_number(&site, two);
                join(alloc, body, op, two, number)
            }
            None => unreachable!(),
        }
    }
}

/// The first two constants among the operands of an operation of any number of them. Linear in the operands.
fn two_constants(site: &Site<'_>) -> Option<Two>
    requires { IsReadableSite site.now }
    ensures { result ≡ two_of_kind (kind_at site.now) (λ v. is_constant_in (ops_at site.now) (ref_at site.now v)) site.now.op.operands.now }
{
    match site.op.kind.family() {
        Family::Variadic(_) => first_two(site.body, site.op.operands),
        _ => None,
    }
}

/// The first two constants among values.
fn first_two(body: &Body, values: &[Value]) -> Option<Two>
    requires { IsReadable body.now }
    ensures { result ≡ first_two (λ v. is_constant_in (body_ops body.now) (value_ref body.now v)) values.now }
{
    match first_constant(body, values) {
        Some(first) => match first_constant(body, &values[first + 1..]) {
            Some(between) => {
                let second = first + 1 + between;
                Some(Two { first, second })
            }
            None => None,
        },
        None => None,
    }
}

/// The position of the first constant among values.
fn first_constant(body: &Body, values: &[Value]) -> Option<usize>
    requires { IsReadable body.now }
    ensures { result ≡ position (λ v. is_constant_in (body_ops body.now) (value_ref body.now v)) values.now }
{
    values
        .iter()
        .position(|value| constant_of(body, *value).is_some())
}

/// The number of the value of an operation on its first two constants.
fn joined_number(site: &Site<'_>, two: Two) -> u128
    requires readable { IsReadableSite site.now }
    requires even { AreEven (ops_at site.now) (refs_at site.now) }
    requires two { Some two ≡ two_of_kind (kind_at site.now) (λ v. is_constant_in (ops_at site.now) (ref_at site.now v)) site.now.op.operands.now }
    ensures { Some result ≡ joined_of_kind (ops_at site.now) (kind_at site.now) (refs_at site.now) }
{
    let values = site.op.operands;
    match constant_of(site.body, values[two.first]) {
        Some(x) => match constant_of(site.body, values[two.second]) {
            Some(y) => {
                let width = x.width();
                op_value(site.op.kind, width, &[x, y]).value()
            }
            None => unreachable!(),
        },
        None => unreachable!(),
    }
}

/// Puts the `hw.constant` of a number before an operation, in the place of two of its operands. It has the type of its first
/// result.
fn join(alloc: Global, body: &mut Body, op: OpId, two: Two, number: u128) -> Result<(), AllocError>
    requires fit { IsOfFit body.old }
    requires live { HasOp body.old op }
    requires typed { is_some (first_type_at (body_ops body.old) (position_in body.old op)) ≡ true }
    requires order { two.first < two.second }
    requires within { HasOperand (ops_of body.old) op.index two.second }
    ensures joined { OnOk result (HasJoined body.old body.new (position_in body.old op) two number) }
    ensures kept { OnErr result (ops_of body.new ≡ ops_of body.old) }
{
    let first = operand_position(two.first)?;
    let second = operand_position(two.second)?;
    let found = body.op(op);
    match first_type(found.results) {
        Some(ty) => {
            let constant = number_op(alloc, number, ty, found.location)?;
            put_joined(body, op, first, second, constant)
        }
        None => unreachable!(),
    }
}

/// Puts a new operation without operands before another one, in the place of two of its operands: the first goes. A body of
/// 2^32 - 1 operations or more counts as out of memory.
fn put_joined(
    body: &mut Body,
    op: OpId,
    first: u32,
    second: u32,
    new: NewOp,
) -> Result<(), AllocError>
    requires fit { IsOfFit body.old }
    requires live { HasOp body.old op }
    requires order { first < second }
    requires within { HasOperand (ops_of body.old) op.index second }
    requires none { new.operands.items ≡ [] }
    ensures put { OnOk result (IsPutIn body.old body.new (position_in body.old op) first second (plain_op (new_parts new))) }
    ensures kept { OnErr result (ops_of body.new ≡ ops_of body.old) }
{
    if body.op_count() >= u32::MAX as usize {
        return Err(AllocError);
    }
    let id = body.add_op(Some(op), new)?;
    body.set_operand(op, second, Value::Result(id, 0));
    body.drop_operand(op, first);
    Ok(())
}
