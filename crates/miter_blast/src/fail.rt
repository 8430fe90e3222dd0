//! Why two modules are not compared.
use diag::refusal::Refusal;
use std::alloc::AllocError;

/// Why two modules are not compared.
#[derive(Clone, Copy, PartialEq, Eq)]
pub enum MiterFail {
    /// They are refused.
    Refused(Refusal),
    /// There was no memory.
    NoMemory,
}

impl From<AllocError> for MiterFail {
    ghost use Rattle.std.specs.Prelude.{◌≡◌};
    ghost use Rattle.miter_blast.specs.declared.fail.MiterFail.TheVariants.{NoMemory};

    ghost from_gives = { λ _ fail. fail ≡ NoMemory };

    fn from(_error: AllocError) -> MiterFail {
        MiterFail::NoMemory
    }
}
