//! Patterns by which an operation that always gives one number becomes a constant.
ghost use Rattle.std.specs.Prelude.{◌≡◌, true, is_some, OnOk, OnErr};
ghost use Rattle.bits_core.specs.Word.{bit};
ghost use Rattle.hw_model.specs.KindViews.{predicate_of};
ghost use Rattle.ir_store.specs.Bodies.{ops_of};
ghost use Rattle.fold_laws.specs.Numbers.{by_number, holds_of_equals, sub_self, xor_self, shift_out, rest_by_one, icmp_self, fold_sub_self, fold_xor_self, fold_shift_out, fold_mod_one, fold_icmp_self};
ghost use Rattle.fold_laws.proofs.NumberPatterns.{sub_self_makes, xor_self_makes, shift_out_makes, rest_by_one_makes, icmp_self_makes};
ghost use Rattle.body_edits.specs.FitBodies.{IsOfFit};
ghost use Rattle.body_edits.specs.Folded.{IsFolded};
ghost use Rattle.body_edits.specs.Views.{HasOp, body_ops, position_in};

use crate::pattern::Pattern;
use body_edits::constants::Test;
use body_edits::numbers::{first_type, put_number};
use body_edits::site::Site;
use hw_model::kinds::{OpKind, Predicate};
use ir_store::body::Body;
use ir_store::operation::OpId;
use std::alloc::{AllocError, Global};

/// An operation that always gives one number.
pub trait Numbered {
    ghost use Rattle.std.specs.Prelude.{◌≡◌};
    ghost use Rattle.hw_model.specs.Types.{HwType};
    ghost use Rattle.fold_laws.specs.Numbers.{Numbering};
    ghost use Rattle.fold_laws.proofs.Numbered.{IsNumbering};
    ghost use Rattle.body_edits.specs.Sites.{IsReadableSite, number_of};

    // The number.
    ghost numbering: { Numbering };

    /// The number of an operation, where it gives one.
    fn number(site: &Site<'_>) -> Option<u128>
        requires { IsReadableSite site.now }
        ensures { (t : HwType) → result ≡ number_of numbering t site.now };

    // It is one of an operation of one result, which has an integer's type.
    ghost makes: { IsNumbering numbering };
}

/// Whether the pattern by which an operation becomes the constant of its number matches.
fn has_number<N: Numbered>(body: &Body, op: OpId) -> bool
    requires fit { IsOfFit body.now }
    requires live { HasOp body.now op }
    ensures { result ≡ is_some (by_number N.numbering (body_ops body.now) (position_in body.now op)) }
{
    let site = Site::at(body, op);
    match first_type(site.op.results) {
        Some(_) => N::number(&site).is_some(),
        None => false,
    }
}

/// Has an operation become the constant of its number.
fn become_number<N: Numbered>(alloc: Global, body: &mut Body, op: OpId) -> Result<(), AllocError>
    requires fit { IsOfFit body.old }
    requires live { HasOp body.old op }
    requires matches { is_some (by_number N.numbering (body_ops body.old) (position_in body.old op)) ≡ true }
    ensures folded { OnOk result (IsFolded (by_number N.numbering) body.old body.new (position_in body.old op)) }
    ensures kept { OnErr result (ops_of body.new ≡ ops_of body.old) }
{
    let site = Site::at(body, op);
    match N::number(&site) {
        Some(number) => put_number(alloc, body, op, number),
        None => unreachable!(),
    }
}

/// `sub x, x` becomes 0.
pub struct F18;

impl Numbered for F18 {
    ghost numbering = { sub_self };

    ghost makes = { sub_self_makes };

    fn number(site: &Site<'_>) -> Option<u128> {
        match site.op.kind {
            OpKind::Sub => site.number_of_same(0),
            _ => None,
        }
    }
}

impl Pattern for F18 {
    ghost change = { fold_sub_self };

    fn matches(body: &Body, op: OpId) -> bool {
        has_number::<F18>(body, op)
    }

    fn apply(alloc: Global, body: &mut Body, op: OpId) -> Result<(), AllocError> {
        become_number::<F18>(alloc, body, op)
    }
}

/// `xor x, x` becomes 0.
pub struct XorSelf;

impl Numbered for XorSelf {
    ghost numbering = { xor_self };

    ghost makes = { xor_self_makes };

    fn number(site: &Site<'_>) -> Option<u128> {
        match site.op.kind {
            OpKind::Xor => site.number_of_same(0),
            _ => None,
        }
    }
}

impl Pattern for XorSelf {
    ghost change = { fold_xor_self };

    fn matches(body: &Body, op: OpId) -> bool {
        has_number::<XorSelf>(body, op)
    }

    fn apply(alloc: Global, body: &mut Body, op: OpId) -> Result<(), AllocError> {
        become_number::<XorSelf>(alloc, body, op)
    }
}

/// `shl`, `shru` by a constant of the width or more becomes 0.
pub struct F20;

impl Numbered for F20 {
    ghost numbering = { shift_out };

    ghost makes = { shift_out_makes };

    fn number(site: &Site<'_>) -> Option<u128> {
        match site.op.kind {
            OpKind::Shl | OpKind::Shru => site.number_where(Test::ShiftsOut, 0),
            _ => None,
        }
    }
}

impl Pattern for F20 {
    ghost change = { fold_shift_out };

    fn matches(body: &Body, op: OpId) -> bool {
        has_number::<F20>(body, op)
    }

    fn apply(alloc: Global, body: &mut Body, op: OpId) -> Result<(), AllocError> {
        become_number::<F20>(alloc, body, op)
    }
}

/// `modu`, `mods` by 1 becomes 0.
pub struct F22;

impl Numbered for F22 {
    ghost numbering = { rest_by_one };

    ghost makes = { rest_by_one_makes };

    fn number(site: &Site<'_>) -> Option<u128> {
        match site.op.kind {
            OpKind::Modu | OpKind::Mods => site.number_where(Test::One, 0),
            _ => None,
        }
    }
}

impl Pattern for F22 {
    ghost change = { fold_mod_one };

    fn matches(body: &Body, op: OpId) -> bool {
        has_number::<F22>(body, op)
    }

    fn apply(alloc: Global, body: &mut Body, op: OpId) -> Result<(), AllocError> {
        become_number::<F22>(alloc, body, op)
    }
}

/// `icmp x, x` becomes true for `eq`, `ceq`, `weq`, `sle`, `sge`, `ule`, `uge`, false for other predicates.
pub struct F23;

impl Numbered for F23 {
    ghost numbering = { icmp_self };

    ghost makes = { icmp_self_makes };

    fn number(site: &Site<'_>) -> Option<u128> {
        match site.op.kind {
            OpKind::Icmp(predicate) => site.number_of_same(number_of_equals(*predicate)),
            _ => None,
        }
    }
}

impl Pattern for F23 {
    ghost change = { fold_icmp_self };

    fn matches(body: &Body, op: OpId) -> bool {
        has_number::<F23>(body, op)
    }

    fn apply(alloc: Global, body: &mut Body, op: OpId) -> Result<(), AllocError> {
        become_number::<F23>(alloc, body, op)
    }
}

/// 1 where a predicate holds of a value and itself, else 0.
fn number_of_equals(predicate: Predicate) -> u128
    ensures { result ≡ bit (holds_of_equals (predicate_of predicate)) }
{
    match predicate {
        Predicate::Eq | Predicate::Ceq | Predicate::Weq => 1,
        Predicate::Sle | Predicate::Sge | Predicate::Ule | Predicate::Uge => 1,
        Predicate::Ne | Predicate::Cne | Predicate::Wne => 0,
        Predicate::Slt | Predicate::Sgt | Predicate::Ult | Predicate::Ugt => 0,
    }
}
