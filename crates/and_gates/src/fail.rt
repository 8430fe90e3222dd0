//! Why the gates of a module are not told.
use std::alloc::AllocError;

/// What a module has for which its gates cannot be told.
#[derive(Clone, Copy, PartialEq, Eq)]
pub enum ExportFault {
    /// Registers with several clocks.
    SeveralClocks,
    /// A register that is reset without its clock.
    AsynchronousReset,
    /// More gates, or more inputs and registers, than may be.
    TooManyGates,
}

/// Why the gates of a module are not told.
#[derive(Clone, Copy, PartialEq, Eq)]
pub enum ExportFail {
    /// It is refused.
    Refused(ExportFault),
    /// There was no memory.
    NoMemory,
}

impl From<AllocError> for ExportFail {
    ghost use Rattle.std.specs.Prelude.{◌≡◌};
    ghost use Rattle.and_gates.specs.declared.fail.ExportFail.TheVariants.{NoMemory};

    ghost from_gives = { λ _ fail. fail ≡ NoMemory };

    fn from(_error: AllocError) -> ExportFail {
        ExportFail::NoMemory
    }
}
