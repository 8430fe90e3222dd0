//! Passes that change the body of each module by itself.

use canonicalise::canonicalize::canonicalize;
use cse_pass::cse::cse;
use ir_store::body::Body;
use seq_lower::registers::lower_regs;
use std::alloc::{AllocError, Global};

/// A pass that works on bodies (MLIR documentation, "Pass infrastructure": operation passes).
pub trait BodyPass {
    ghost use Rattle.std.specs.Prelude.{List, OnOk};
    ghost use Rattle.hw_model.specs.Design.{Op};
    ghost use Rattle.body_edits.specs.FitBodies.{IsOfFit};
    ghost use Rattle.body_edits.specs.Views.{body_ops};

    // What it makes of a body.
    ghost makes: { List Op → List Op → Type 0 };

    /// Works on a body. The error comes only when out of memory.
    fn run(alloc: Global, body: &mut Body) -> Result<(), AllocError>
        requires { IsOfFit body.old }
        ensures { OnOk result (makes (body_ops body.old) (body_ops body.new)) };
}

/// `canonicalize`: each body gets its canonical form.
pub struct CanonicalForm;

impl BodyPass for CanonicalForm {
    ghost use Rattle.canonicalise.specs.Canonical.{IsCanonicalOf};

    ghost makes = { IsCanonicalOf };

    fn run(alloc: Global, body: &mut Body) -> Result<(), AllocError> {
        canonicalize(alloc, body)
    }
}

/// `cse`: equal operations of each body are merged, and those without uses go.
pub struct CommonSubexpressions;

impl BodyPass for CommonSubexpressions {
    ghost use Rattle.cse_pass.specs.Cse.{IsCseOf};

    ghost makes = { IsCseOf };

    fn run(alloc: Global, body: &mut Body) -> Result<(), AllocError> {
        cse(alloc, body)
    }
}

/// `seq-lower-regs`: each enable and each synchronous reset of a register becomes a mux.
pub struct LoweredRegisters;

impl BodyPass for LoweredRegisters {
    ghost use Rattle.seq_lower.specs.Lowered.{IsLoweredOf};

    ghost makes = { IsLoweredOf };

    fn run(alloc: Global, body: &mut Body) -> Result<(), AllocError> {
        lower_regs(alloc, body)
    }
}
