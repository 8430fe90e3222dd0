//! Why a value is refused.
use std::alloc::{AllocError, AllocFailed};

/// Why the interpreter gives no value.
#[derive(Clone, Copy, Debug)]
pub enum Refusal {
    /// There is not enough memory.
    NoMemory,
    /// A word is not one that the operation takes, an integer is not of 1 to 128 bits, or a number of bits or of instances
    /// is too large to count.
    NotFitting,
}

impl From<AllocError> for Refusal {
    ghost use Rattle.std.specs.Prelude.{◌≡◌};
    ghost use Rattle.operation_values.specs.declared.refusal.Refusal.TheVariants.{NoMemory};

    ghost from_gives = { λ _ fail. fail ≡ NoMemory };

    fn from(_fail: AllocError) -> Refusal {
        Refusal::NoMemory
    }
}

impl<T: Drop> From<AllocFailed<T>> for Refusal {
    ghost use Rattle.std.specs.Prelude.{◌≡◌};
    ghost use Rattle.operation_values.specs.declared.refusal.Refusal.TheVariants.{NoMemory};

    ghost from_gives = { λ _ fail. fail ≡ NoMemory };

    fn from(_fail: AllocFailed<T>) -> Refusal {
        Refusal::NoMemory
    }
}
