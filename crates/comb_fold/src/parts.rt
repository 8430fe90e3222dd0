//! Patterns by which a part of what was made of parts is that part (CIRCT, Comb and HW dialects: folds of their operations).
ghost use Rattle.fold_laws.specs.Parts.{extract_part, fold_extract_part};
ghost use Rattle.fold_laws.specs.Table.{fold_made_part};
ghost use Rattle.comb_fold.specs.Choices.{made_part};

use crate::pattern::Pattern;
use crate::standing::{Standing, has_value, stand_chosen};
use body_edits::site::Site;
use hw_model::families::{ArrayOp, Family, StructOp};
use ir_store::body::Body;
use ir_store::operation::{OpId, Value};
use std::alloc::{AllocError, Global};

/// `comb.extract` that covers exactly one operand of a `comb.concat` becomes that operand.
pub struct F29;

impl Standing for F29 {
    ghost stand = { extract_part };

    fn value(site: &Site<'_>) -> Option<Value> {
        match site.op.kind.family() {
            Family::Extract(low) => site.covered_operand(low),
            _ => None,
        }
    }
}

impl Pattern for F29 {
    ghost change = { fold_extract_part };

    fn matches(body: &Body, op: OpId) -> bool {
        has_value::<F29>(body, op)
    }

    #[tactic(auto, using(crate::proofs::PatternsInFit::extract_part_in_fit))]
    fn apply(_alloc: Global, body: &mut Body, op: OpId) -> Result<(), AllocError> {
        stand_chosen::<F29>(body, op);
        Ok(())
    }
}

/// `hw.struct_extract` of what `hw.struct_create` made and `hw.array_get` of what `hw.array_create` made become the operand.
pub struct F32;

impl Standing for F32 {
    ghost stand = { made_part };

    fn value(site: &Site<'_>) -> Option<Value> {
        match site.op.kind.family() {
            Family::Struct(StructOp::Extract(name)) => site.made_field(name),
            Family::Array(ArrayOp::Get) => site.made_element(),
            _ => None,
        }
    }
}

impl Pattern for F32 {
    ghost change = { fold_made_part };

    fn matches(body: &Body, op: OpId) -> bool {
        has_value::<F32>(body, op)
    }

    fn apply(_alloc: Global, body: &mut Body, op: OpId) -> Result<(), AllocError> {
        stand_chosen::<F32>(body, op);
        Ok(())
    }
}
