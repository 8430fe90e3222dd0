//! The pattern of two equal operands of `comb.xor`.

use crate::numbered::XorSelf;
use crate::operand_patterns::XorPair;
use crate::pattern::Pattern;
use ir_store::body::Body;
use ir_store::operation::OpId;
use std::alloc::{AllocError, Global};

/// `comb.xor` drops two equal operands where it has others, and else becomes 0.
pub struct F13;

impl Pattern for F13 {
    ghost use Rattle.fold_laws.specs.Table.{fold_xor_equal};

    ghost change = { fold_xor_equal };

    fn matches(body: &Body, op: OpId) -> bool {
        XorPair::matches(body, op) || XorSelf::matches(body, op)
    }

    fn apply(alloc: Global, body: &mut Body, op: OpId) -> Result<(), AllocError> {
        if XorPair::matches(body, op) {
            XorPair::apply(alloc, body, op)
        } else {
            XorSelf::apply(alloc, body, op)
        }
    }
}
