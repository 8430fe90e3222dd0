//! Why a design has no text in the AIGER format.
use diag::refusal::Refusal;
use std::alloc::AllocError;

/// Why a design has no text in the AIGER format.
#[derive(Clone, Copy, PartialEq, Eq)]
pub enum ExportFail {
    /// It is refused.
    Refused(Refusal),
    /// There was no memory.
    NoMemory,
}

impl From<AllocError> for ExportFail {
    ghost use Rattle.std.specs.Prelude.{◌≡◌};
    ghost use Rattle.aiger_export.specs.declared.fail.ExportFail.TheVariants.{NoMemory};

    ghost from_gives = { λ _ fail. fail ≡ NoMemory };

    fn from(_error: AllocError) -> ExportFail {
        ExportFail::NoMemory
    }
}
