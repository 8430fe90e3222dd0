//! Why a text is not read.
use aiger_laws::fault::Fault;
use std::alloc::AllocError;

/// A refusal: why, and the line of the text, from 1.
#[derive(Clone, Copy, Debug, PartialEq, Eq)]
pub struct Refusal {
    pub line: u32,
    pub fault: Fault,
}

/// Why a text is not read.
#[derive(Clone, Copy, Debug, PartialEq, Eq)]
pub enum ReadFail {
    /// More bytes than a text may have.
    TooLong,
    /// The first thing in the text that is refused.
    Refused(Refusal),
    /// There is not enough memory.
    NoMemory,
}

impl From<AllocError> for ReadFail {
    ghost use Rattle.std.specs.Prelude.{◌≡◌};
    ghost use Rattle.aiger_reader.specs.declared.fail.ReadFail.TheVariants.{NoMemory};

    ghost from_gives = { λ _ fail. fail ≡ NoMemory };

    fn from(_fail: AllocError) -> ReadFail {
        ReadFail::NoMemory
    }
}
