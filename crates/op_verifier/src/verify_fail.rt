//! Why a design is not taken.
use diag::refusal::Refusal;
use std::alloc::AllocError;

/// Why a design is not taken.
#[derive(Clone, Copy)]
pub enum VerifyFail {
    /// The first thing in it that is refused.
    Refused(Refusal),
    /// There is not enough memory.
    NoMemory,
}

impl From<AllocError> for VerifyFail {
    ghost use Rattle.std.specs.Prelude.{◌≡◌};
    ghost use Rattle.op_verifier.specs.declared.verify_fail.VerifyFail.TheVariants.{NoMemory};

    ghost from_gives = { λ _ fail. fail ≡ NoMemory };

    fn from(_fail: AllocError) -> VerifyFail {
        VerifyFail::NoMemory
    }
}
