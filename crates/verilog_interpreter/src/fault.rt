//! Why a text is not run.
use std::alloc::{AllocError, AllocFailed};

/// Why the reader or the machine gives nothing.
#[derive(Clone, Copy, PartialEq, Eq)]
pub enum Fault {
    /// There is not enough memory.
    NoMemory,
    /// The text is none that is read, a word is wider than 128 bits, the inputs or the content do not fit, or a net
    /// depends on itself.
    Unreadable,
}

impl From<AllocError> for Fault {
    ghost use Rattle.std.specs.Prelude.{◌≡◌};
    ghost use Rattle.verilog_interpreter.specs.declared.fault.Fault.TheVariants.{NoMemory};

    ghost from_gives = { λ _ fail. fail ≡ NoMemory };

    fn from(_fail: AllocError) -> Fault {
        Fault::NoMemory
    }
}

impl<T: Drop> From<AllocFailed<T>> for Fault {
    ghost use Rattle.std.specs.Prelude.{◌≡◌};
    ghost use Rattle.verilog_interpreter.specs.declared.fault.Fault.TheVariants.{NoMemory};

    ghost from_gives = { λ _ fail. fail ≡ NoMemory };

    fn from(_fail: AllocFailed<T>) -> Fault {
        Fault::NoMemory
    }
}

/// What is there, or the fault that it is not.
pub fn require_some<T: Drop>(found: Option<T>) -> Result<T, Fault> {
    match found {
        Some(value) => Ok(value),
        None => Err(Fault::Unreadable),
    }
}

/// The fault of a text where something does not hold.
pub fn require(holds: bool) -> Result<(), Fault> {
    if holds {
        Ok(())
    } else {
        Err(Fault::Unreadable)
    }
}
