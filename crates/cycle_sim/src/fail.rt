//! Why a module is not run.
use std::alloc::AllocError;
use step_file::fail::StepRefusal;

/// What is refused of a run.
#[derive(Clone, Copy, PartialEq, Eq)]
pub enum SimRefusal {
    /// There is no module of the symbol.
    NoModule,
    /// The first line of the step file that is none.
    BadSteps(StepRefusal),
}

/// Why a module is not run.
#[derive(Clone, Copy)]
pub enum SimFail {
    /// The first thing that is refused.
    Refused(SimRefusal),
    /// There is not enough memory.
    NoMemory,
}

impl From<AllocError> for SimFail {
    ghost use Rattle.std.specs.Prelude.{◌≡◌};
    ghost use Rattle.cycle_sim.specs.declared.fail.SimFail.TheVariants.{NoMemory};

    ghost from_gives = { λ _ fail. fail ≡ NoMemory };

    fn from(_fail: AllocError) -> SimFail {
        SimFail::NoMemory
    }
}
