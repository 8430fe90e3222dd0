//! The elimination of common subexpressions of a body.
ghost use Rattle.std.specs.Prelude.{OnOk, OnErr};
ghost use Rattle.body_edits.specs.FitBodies.{IsOfFit};
ghost use Rattle.body_edits.specs.Views.{body_ops};
ghost use Rattle.cse_pass.specs.Cse.{IsCseOf, Changes};

use crate::along::merge_along;
use crate::levels::levels_of;
use crate::merges::merge_equal;
use crate::trims::{trim, trim_along};
use ir_store::body::Body;
use std::alloc::{AllocError, Global};

/// Merges equal pure operations of a body, of which the first in text order stays, until none is equal to an earlier one;
/// then pure operations without uses go, until each has a use (MLIR documentation, "Passes": `cse`). Names, dictionaries and
/// the mark `bin` do not count: those of the first stay. On an error, which comes where memory that is needed is refused,
/// some of the changes are made; an operation of 2^32 results or more counts as out of memory.
///
/// Operations are merged first in an order in which those that make operands come before those that take them, in n log n
/// steps and linear in the operands on average. Then sweeps in text order merge what is left, which as a rule is nothing but
/// where operations need themselves; a sweep is linear in the operations and their operands on average, but where an operation is
/// merged that an earlier pure one names: then what is known of the earlier ones is collected anew.
pub fn cse(alloc: Global, body: &mut Body) -> Result<(), AllocError>
    requires { IsOfFit body.old }
    ensures cse { OnOk result (IsCseOf (body_ops body.old) (body_ops body.new)) }
    ensures partly { OnErr result (Changes (body_ops body.old) (body_ops body.new)) }
{
    let levels = levels_of(alloc, body)?;
    merge_along(
        alloc,
        body,
        levels.order.as_slice(),
        levels.places.as_slice(),
    )?;
    merge_equal(alloc, body)?;
    trim_along(body, levels.order.as_slice());
    trim(alloc, body)
}
