//! Patterns by which a value stands for the only result of an operation, which goes (CIRCT, Comb and HW dialects: folds of their
//! operations).
ghost use Rattle.std.specs.Prelude.{◌≡◌, true, is_some, option_map};
ghost use Rattle.fold_laws.specs.Standing.{Stand, by_stand, single_operand, absorbing_and, absorbing_or, absorbing_mul, sub_zero, shift_zero, div_one, mux_constant, mux_same, mux_bool, full_extract, fold_single_operand, fold_and_zero, fold_or_ones, fold_mul_zero, fold_sub_zero, fold_shift_zero, fold_div_one, fold_mux_constant, fold_mux_same, fold_mux_bool, fold_full_extract};
ghost use Rattle.fold_laws.specs.Table.{fold_trivial};
ghost use Rattle.comb_fold.specs.Choices.{trivial};
ghost use Rattle.body_edits.specs.FitBodies.{IsOfFit};
ghost use Rattle.body_edits.specs.Folded.{IsFolded};
ghost use Rattle.comb_fold.specs.Patterns.{StandsInFit};
ghost use Rattle.body_edits.specs.Sites.{ref_at, stand_of, IsReadableSite};
ghost use Rattle.body_edits.specs.Views.{HasOp, body_ops, position_in};

use crate::pattern::Pattern;
use body_edits::constants::Test;
use body_edits::edits::stand_in;
use body_edits::site::Site;
use hw_model::families::{Division, Family, Variadic};
use ir_store::body::Body;
use ir_store::operation::{OpId, Value};
use std::alloc::{AllocError, Global};

/// What chooses the value that stands for the only result of an operation.
pub trait Standing {
    // The choice, by positions.
    ghost stand: { Stand };

    /// The value that stands for the result of an operation; None where none does. It takes no memory.
    fn value(site: &Site<'_>) -> Option<Value>
        requires { IsReadableSite site.now }
        ensures { option_map (ref_at site.now) result ≡ stand_of stand site.now };
}

/// Whether a value stands for the result of an operation.
pub fn has_value<S: Standing>(body: &Body, op: OpId) -> bool
    requires fit { IsOfFit body.now }
    requires live { HasOp body.now op }
    ensures { result ≡ is_some (by_stand S.stand (body_ops body.now) (position_in body.now op)) }
{
    S::value(&Site::at(body, op)).is_some()
}

/// Has the value that is chosen stand for the result of an operation, and takes the operation out.
pub fn stand_chosen<S: Standing>(body: &mut Body, op: OpId)
    requires fit { IsOfFit body.old }
    requires live { HasOp body.old op }
    requires matches { is_some (by_stand S.stand (body_ops body.old) (position_in body.old op)) ≡ true }
    requires may { StandsInFit S.stand }
    ensures { IsFolded (by_stand S.stand) body.old body.new (position_in body.old op) }
{
    match S::value(&Site::at(body, op)) {
        Some(value) => stand_in(body, op, value),
        None => unreachable!(),
    }
}

/// `comb.add`, `comb.mul`, `comb.and`, `comb.or`, `comb.xor` of one operand becomes that operand.
pub struct F3;

impl Standing for F3 {
    ghost stand = { single_operand };

    fn value(site: &Site<'_>) -> Option<Value> {
        match site.op.kind.family() {
            Family::Variadic(_) => site.only_operand(),
            _ => None,
        }
    }
}

impl Pattern for F3 {
    ghost change = { fold_single_operand };

    fn matches(body: &Body, op: OpId) -> bool {
        has_value::<F3>(body, op)
    }

    #[tactic(auto, using(crate::proofs::PatternsInFit::single_operand_in_fit))]
    fn apply(_alloc: Global, body: &mut Body, op: OpId) -> Result<(), AllocError> {
        stand_chosen::<F3>(body, op);
        Ok(())
    }
}

/// `comb.and` with an operand 0 becomes that operand.
pub struct F9;

impl Standing for F9 {
    ghost stand = { absorbing_and };

    fn value(site: &Site<'_>) -> Option<Value> {
        match site.op.kind.family() {
            Family::Variadic(Variadic::And) => site.first_operand(Test::Zero),
            _ => None,
        }
    }
}

impl Pattern for F9 {
    ghost change = { fold_and_zero };

    fn matches(body: &Body, op: OpId) -> bool {
        has_value::<F9>(body, op)
    }

    #[tactic(auto, using(crate::proofs::PatternsInFit::absorbing_and_in_fit))]
    fn apply(_alloc: Global, body: &mut Body, op: OpId) -> Result<(), AllocError> {
        stand_chosen::<F9>(body, op);
        Ok(())
    }
}

/// `comb.or` with an operand of ones becomes that operand.
pub struct F10;

impl Standing for F10 {
    ghost stand = { absorbing_or };

    fn value(site: &Site<'_>) -> Option<Value> {
        match site.op.kind.family() {
            Family::Variadic(Variadic::Or) => site.first_operand(Test::Ones),
            _ => None,
        }
    }
}

impl Pattern for F10 {
    ghost change = { fold_or_ones };

    fn matches(body: &Body, op: OpId) -> bool {
        has_value::<F10>(body, op)
    }

    #[tactic(auto, using(crate::proofs::PatternsInFit::absorbing_or_in_fit))]
    fn apply(_alloc: Global, body: &mut Body, op: OpId) -> Result<(), AllocError> {
        stand_chosen::<F10>(body, op);
        Ok(())
    }
}

/// `comb.mul` with an operand 0 becomes that operand.
pub struct F11;

impl Standing for F11 {
    ghost stand = { absorbing_mul };

    fn value(site: &Site<'_>) -> Option<Value> {
        match site.op.kind.family() {
            Family::Variadic(Variadic::Mul) => site.first_operand(Test::Zero),
            _ => None,
        }
    }
}

impl Pattern for F11 {
    ghost change = { fold_mul_zero };

    fn matches(body: &Body, op: OpId) -> bool {
        has_value::<F11>(body, op)
    }

    #[tactic(auto, using(crate::proofs::PatternsInFit::absorbing_mul_in_fit))]
    fn apply(_alloc: Global, body: &mut Body, op: OpId) -> Result<(), AllocError> {
        stand_chosen::<F11>(body, op);
        Ok(())
    }
}

/// `comb.sub` of x and 0 becomes x.
pub struct F17;

impl Standing for F17 {
    ghost stand = { sub_zero };

    fn value(site: &Site<'_>) -> Option<Value> {
        match site.op.kind.family() {
            Family::Sub => site.first_where(Test::Zero),
            _ => None,
        }
    }
}

impl Pattern for F17 {
    ghost change = { fold_sub_zero };

    fn matches(body: &Body, op: OpId) -> bool {
        has_value::<F17>(body, op)
    }

    #[tactic(auto, using(crate::proofs::PatternsInFit::sub_zero_in_fit))]
    fn apply(_alloc: Global, body: &mut Body, op: OpId) -> Result<(), AllocError> {
        stand_chosen::<F17>(body, op);
        Ok(())
    }
}

/// `comb.shl`, `comb.shru`, `comb.shrs` of x by 0 becomes x.
pub struct F19;

impl Standing for F19 {
    ghost stand = { shift_zero };

    fn value(site: &Site<'_>) -> Option<Value> {
        match site.op.kind.family() {
            Family::Shift(_) => site.first_where(Test::Zero),
            _ => None,
        }
    }
}

impl Pattern for F19 {
    ghost change = { fold_shift_zero };

    fn matches(body: &Body, op: OpId) -> bool {
        has_value::<F19>(body, op)
    }

    #[tactic(auto, using(crate::proofs::PatternsInFit::shift_zero_in_fit))]
    fn apply(_alloc: Global, body: &mut Body, op: OpId) -> Result<(), AllocError> {
        stand_chosen::<F19>(body, op);
        Ok(())
    }
}

/// `comb.divu`, `comb.divs` of x by 1 becomes x.
pub struct F21;

impl Standing for F21 {
    ghost stand = { div_one };

    fn value(site: &Site<'_>) -> Option<Value> {
        match site.op.kind.family() {
            Family::Division(Division::Divu | Division::Divs) => site.first_where(Test::One),
            _ => None,
        }
    }
}

impl Pattern for F21 {
    ghost change = { fold_div_one };

    fn matches(body: &Body, op: OpId) -> bool {
        has_value::<F21>(body, op)
    }

    #[tactic(auto, using(crate::proofs::PatternsInFit::div_one_in_fit))]
    fn apply(_alloc: Global, body: &mut Body, op: OpId) -> Result<(), AllocError> {
        stand_chosen::<F21>(body, op);
        Ok(())
    }
}

/// `comb.mux` with a constant condition becomes the chosen operand.
pub struct F24;

impl Standing for F24 {
    ghost stand = { mux_constant };

    fn value(site: &Site<'_>) -> Option<Value> {
        match site.op.kind.family() {
            Family::Mux => site.chosen_operand(),
            _ => None,
        }
    }
}

impl Pattern for F24 {
    ghost change = { fold_mux_constant };

    fn matches(body: &Body, op: OpId) -> bool {
        has_value::<F24>(body, op)
    }

    #[tactic(auto, using(crate::proofs::PatternsInFit::mux_constant_in_fit))]
    fn apply(_alloc: Global, body: &mut Body, op: OpId) -> Result<(), AllocError> {
        stand_chosen::<F24>(body, op);
        Ok(())
    }
}

/// `comb.mux` of x and x becomes x.
pub struct F25;

impl Standing for F25 {
    ghost stand = { mux_same };

    fn value(site: &Site<'_>) -> Option<Value> {
        match site.op.kind.family() {
            Family::Mux => site.same_choice(),
            _ => None,
        }
    }
}

impl Pattern for F25 {
    ghost change = { fold_mux_same };

    fn matches(body: &Body, op: OpId) -> bool {
        has_value::<F25>(body, op)
    }

    #[tactic(auto, using(crate::proofs::PatternsInFit::mux_same_in_fit))]
    fn apply(_alloc: Global, body: &mut Body, op: OpId) -> Result<(), AllocError> {
        stand_chosen::<F25>(body, op);
        Ok(())
    }
}

/// `comb.mux` of true and false becomes its condition.
pub struct F26;

impl Standing for F26 {
    ghost stand = { mux_bool };

    fn value(site: &Site<'_>) -> Option<Value> {
        match site.op.kind.family() {
            Family::Mux => site.condition(),
            _ => None,
        }
    }
}

impl Pattern for F26 {
    ghost change = { fold_mux_bool };

    fn matches(body: &Body, op: OpId) -> bool {
        has_value::<F26>(body, op)
    }

    #[tactic(auto, using(crate::proofs::PatternsInFit::mux_bool_in_fit))]
    fn apply(_alloc: Global, body: &mut Body, op: OpId) -> Result<(), AllocError> {
        stand_chosen::<F26>(body, op);
        Ok(())
    }
}

/// `comb.extract` of the whole width of x becomes x.
pub struct F27;

impl Standing for F27 {
    ghost stand = { full_extract };

    fn value(site: &Site<'_>) -> Option<Value> {
        match site.op.kind.family() {
            Family::Extract(_) => site.whole_operand(),
            _ => None,
        }
    }
}

impl Pattern for F27 {
    ghost change = { fold_full_extract };

    fn matches(body: &Body, op: OpId) -> bool {
        has_value::<F27>(body, op)
    }

    #[tactic(auto, using(crate::proofs::PatternsInFit::full_extract_in_fit))]
    fn apply(_alloc: Global, body: &mut Body, op: OpId) -> Result<(), AllocError> {
        stand_chosen::<F27>(body, op);
        Ok(())
    }
}

/// `comb.concat` of one operand, `comb.replicate` of x to its own width and `hw.bitcast` of x to its own type become their
/// operand.
pub struct F31;

impl Standing for F31 {
    ghost stand = { trivial };

    fn value(site: &Site<'_>) -> Option<Value> {
        match site.op.kind.family() {
            Family::Concat => site.only_operand(),
            Family::Replicate | Family::Bitcast => site.whole_operand(),
            _ => None,
        }
    }
}

impl Pattern for F31 {
    ghost change = { fold_trivial };

    fn matches(body: &Body, op: OpId) -> bool {
        has_value::<F31>(body, op)
    }

    fn apply(_alloc: Global, body: &mut Body, op: OpId) -> Result<(), AllocError> {
        stand_chosen::<F31>(body, op);
        Ok(())
    }
}
