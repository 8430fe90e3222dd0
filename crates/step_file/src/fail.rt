//! Why a step file is not read.
use std::alloc::AllocError;

/// The cause of a refusal.
#[derive(Clone, Copy, Debug, PartialEq, Eq)]
pub enum StepCause {
    /// More bytes than a text may have.
    TooLong,
    /// A word that is no literal, or the first line does not begin with `state`, or there is none.
    BadLine,
    /// More or fewer literals than leaves.
    WrongCount,
    /// A literal of another width than its leaf.
    WrongWidth,
}

/// A refusal: why, and the line of the text, from 1.
#[derive(Clone, Copy, Debug, PartialEq, Eq)]
pub struct StepRefusal {
    pub line: u32,
    pub cause: StepCause,
}

/// Why a step file is not read.
#[derive(Clone, Copy)]
pub enum StepFail {
    /// The first thing in the text that is refused.
    Refused(StepRefusal),
    /// There is not enough memory.
    NoMemory,
}

impl From<AllocError> for StepFail {
    ghost use Rattle.std.specs.Prelude.{◌≡◌};
    ghost use Rattle.step_file.specs.declared.fail.StepFail.TheVariants.{NoMemory};

    ghost from_gives = { λ _ fail. fail ≡ NoMemory };

    fn from(_fail: AllocError) -> StepFail {
        StepFail::NoMemory
    }
}
