//! Why a text gives no design.
use diag::refusal::Refusal;
use std::alloc::{AllocError, AllocFailed};

/// Why a text gives no design.
#[derive(Clone, Copy)]
pub enum ReadFail {
    /// The first thing in it that is refused.
    Refused(Refusal),
    /// There is not enough memory.
    NoMemory,
}

impl From<AllocError> for ReadFail {
    ghost use Rattle.std.specs.Prelude.{◌≡◌};
    ghost use Rattle.mlir_syntax.specs.declared.fail.ReadFail.TheVariants.{NoMemory};

    ghost from_gives = { λ _ fail. fail ≡ NoMemory };

    fn from(_fail: AllocError) -> ReadFail {
        ReadFail::NoMemory
    }
}

impl<T: Drop> From<AllocFailed<T>> for ReadFail {
    ghost use Rattle.std.specs.Prelude.{◌≡◌};
    ghost use Rattle.mlir_syntax.specs.declared.fail.ReadFail.TheVariants.{NoMemory};

    ghost from_gives = { λ _ fail. fail ≡ NoMemory };

    fn from(_fail: AllocFailed<T>) -> ReadFail {
        ReadFail::NoMemory
    }
}
