//! The patterns by which an operation of any number of operands has others.

use crate::pattern::Pattern;
use body_edits::constants::Test;
use body_edits::operand_choices::{
    with_constant_last, without_constant, without_pair, without_repeat,
};
use body_edits::operands::{OperandEdit, OperandPattern, apply_operands, operands_match};
use body_edits::site::Site;
use hw_model::families::Variadic;
use ir_store::body::Body;
use ir_store::operation::OpId;
use std::alloc::{AllocError, Global};

/// `comb.add` of two operands or more drops its first operand 0.
pub struct F4;

impl OperandPattern for F4 {
    ghost use Rattle.fold_laws.specs.Fewer.{add_zero};

    ghost operands = { add_zero };

    fn edit(site: &Site<'_>, _id: OpId, kind: Variadic) -> Option<OperandEdit> {
        match kind {
            Variadic::Add => without_constant(site, Test::Zero),
            _ => None,
        }
    }
}

impl Pattern for F4 {
    ghost use Rattle.fold_laws.specs.Fewer.{fold_add_zero};

    ghost change = { fold_add_zero };

    fn matches(body: &Body, op: OpId) -> bool {
        operands_match::<F4>(body, op)
    }

    fn apply(_alloc: Global, body: &mut Body, op: OpId) -> Result<(), AllocError> {
        apply_operands::<F4>(body, op)
    }
}

/// `comb.or` of two operands or more drops its first operand 0.
pub struct F5;

impl OperandPattern for F5 {
    ghost use Rattle.fold_laws.specs.Fewer.{or_zero};

    ghost operands = { or_zero };

    fn edit(site: &Site<'_>, _id: OpId, kind: Variadic) -> Option<OperandEdit> {
        match kind {
            Variadic::Or => without_constant(site, Test::Zero),
            _ => None,
        }
    }
}

impl Pattern for F5 {
    ghost use Rattle.fold_laws.specs.Fewer.{fold_or_zero};

    ghost change = { fold_or_zero };

    fn matches(body: &Body, op: OpId) -> bool {
        operands_match::<F5>(body, op)
    }

    fn apply(_alloc: Global, body: &mut Body, op: OpId) -> Result<(), AllocError> {
        apply_operands::<F5>(body, op)
    }
}

/// `comb.xor` of two operands or more drops its first operand 0.
pub struct F6;

impl OperandPattern for F6 {
    ghost use Rattle.fold_laws.specs.Fewer.{xor_zero};

    ghost operands = { xor_zero };

    fn edit(site: &Site<'_>, _id: OpId, kind: Variadic) -> Option<OperandEdit> {
        match kind {
            Variadic::Xor => without_constant(site, Test::Zero),
            _ => None,
        }
    }
}

impl Pattern for F6 {
    ghost use Rattle.fold_laws.specs.Fewer.{fold_xor_zero};

    ghost change = { fold_xor_zero };

    fn matches(body: &Body, op: OpId) -> bool {
        operands_match::<F6>(body, op)
    }

    fn apply(_alloc: Global, body: &mut Body, op: OpId) -> Result<(), AllocError> {
        apply_operands::<F6>(body, op)
    }
}

/// `comb.and` of two operands or more drops its first operand of ones.
pub struct F7;

impl OperandPattern for F7 {
    ghost use Rattle.fold_laws.specs.Fewer.{and_ones};

    ghost operands = { and_ones };

    fn edit(site: &Site<'_>, _id: OpId, kind: Variadic) -> Option<OperandEdit> {
        match kind {
            Variadic::And => without_constant(site, Test::Ones),
            _ => None,
        }
    }
}

impl Pattern for F7 {
    ghost use Rattle.fold_laws.specs.Fewer.{fold_and_ones};

    ghost change = { fold_and_ones };

    fn matches(body: &Body, op: OpId) -> bool {
        operands_match::<F7>(body, op)
    }

    fn apply(_alloc: Global, body: &mut Body, op: OpId) -> Result<(), AllocError> {
        apply_operands::<F7>(body, op)
    }
}

/// `comb.mul` of two operands or more drops its first operand 1.
pub struct F8;

impl OperandPattern for F8 {
    ghost use Rattle.fold_laws.specs.Fewer.{mul_one};

    ghost operands = { mul_one };

    fn edit(site: &Site<'_>, _id: OpId, kind: Variadic) -> Option<OperandEdit> {
        match kind {
            Variadic::Mul => without_constant(site, Test::One),
            _ => None,
        }
    }
}

impl Pattern for F8 {
    ghost use Rattle.fold_laws.specs.Fewer.{fold_mul_one};

    ghost change = { fold_mul_one };

    fn matches(body: &Body, op: OpId) -> bool {
        operands_match::<F8>(body, op)
    }

    fn apply(_alloc: Global, body: &mut Body, op: OpId) -> Result<(), AllocError> {
        apply_operands::<F8>(body, op)
    }
}

/// `comb.and` and `comb.or` drop an operand that stands earlier too.
pub struct F12;

impl OperandPattern for F12 {
    ghost use Rattle.fold_laws.specs.Fewer.{repeated_operand};

    ghost operands = { repeated_operand };

    fn edit(site: &Site<'_>, id: OpId, kind: Variadic) -> Option<OperandEdit> {
        match kind {
            Variadic::And | Variadic::Or => without_repeat(site, id),
            _ => None,
        }
    }
}

impl Pattern for F12 {
    ghost use Rattle.fold_laws.specs.Fewer.{fold_repeated};

    ghost change = { fold_repeated };

    fn matches(body: &Body, op: OpId) -> bool {
        operands_match::<F12>(body, op)
    }

    fn apply(_alloc: Global, body: &mut Body, op: OpId) -> Result<(), AllocError> {
        apply_operands::<F12>(body, op)
    }
}

/// `comb.xor` of three operands or more drops two equal ones.
pub struct XorPair;

impl OperandPattern for XorPair {
    ghost use Rattle.fold_laws.specs.Fewer.{xor_pair};

    ghost operands = { xor_pair };

    fn edit(site: &Site<'_>, id: OpId, kind: Variadic) -> Option<OperandEdit> {
        match kind {
            Variadic::Xor => without_pair(site, id),
            _ => None,
        }
    }
}

impl Pattern for XorPair {
    ghost use Rattle.fold_laws.specs.Fewer.{fold_xor_pair};

    ghost change = { fold_xor_pair };

    fn matches(body: &Body, op: OpId) -> bool {
        operands_match::<XorPair>(body, op)
    }

    fn apply(_alloc: Global, body: &mut Body, op: OpId) -> Result<(), AllocError> {
        apply_operands::<XorPair>(body, op)
    }
}

/// `comb.add`, `comb.mul`, `comb.and`, `comb.or` and `comb.xor` with a constant before another operand have the first such constant
/// as their last operand.
pub struct F15;

impl OperandPattern for F15 {
    ghost use Rattle.fold_laws.specs.ConstantOperands.{constant_last};

    ghost operands = { constant_last };

    fn edit(site: &Site<'_>, _id: OpId, _kind: Variadic) -> Option<OperandEdit> {
        with_constant_last(site)
    }
}

impl Pattern for F15 {
    ghost use Rattle.fold_laws.specs.ConstantOperands.{fold_constant_last};

    ghost change = { fold_constant_last };

    fn matches(body: &Body, op: OpId) -> bool {
        operands_match::<F15>(body, op)
    }

    fn apply(_alloc: Global, body: &mut Body, op: OpId) -> Result<(), AllocError> {
        apply_operands::<F15>(body, op)
    }
}
