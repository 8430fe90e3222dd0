//! Why a formula is not read or a proof is not verified.
use diag::cause::Cause;
use std::alloc::AllocError;

/// A refusal: why, and the line of the text, from 1.
#[derive(Clone, Copy, PartialEq, Eq)]
pub struct CheckRefusal {
    pub line: u32,
    pub cause: Cause,
}

/// Why a formula is not read or a proof is not verified.
#[derive(Clone, Copy)]
pub enum CheckFail {
    /// The first thing in the text that is refused.
    Refused(CheckRefusal),
    /// There is not enough memory.
    NoMemory,
}

impl From<AllocError> for CheckFail {
    ghost use Rattle.std.specs.Prelude.{◌≡◌};
    ghost use Rattle.lrat_text.specs.declared.fail.CheckFail.TheVariants.{NoMemory};

    ghost from_gives = { λ _ fail. fail ≡ NoMemory };

    fn from(_fail: AllocError) -> CheckFail {
        CheckFail::NoMemory
    }
}
