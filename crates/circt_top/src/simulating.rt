//! The run of a module.
ghost use Rattle.std.specs.Prelude.{◌≡◌};
ghost use Rattle.command_line.specs.Line.Work.{simulation};
ghost use Rattle.circt_top.specs.Outcome.{GivesText};
ghost use Rattle.circt_top.specs.Simulations.{step_cause, run_refusal, run_failure};

use crate::accepting::accept;
use crate::made::{OutcomeFail, first_input, line_refusal, second_input};
use cycle_sim::fail::{SimFail, SimRefusal};
use cycle_sim::simulate;
use diag::cause::Cause;
use diag::refusal::{Location, OpName, Refusal};
use io_edge::byte_text::Text;
use std::alloc::Global;
use step_file::fail::StepCause;

/// The lines of the run of the module of a symbol of the first input, by the content and the steps that the second one says.
pub(crate) fn run_module(alloc: Global, top: &str, sources: &[Text]) -> Result<Text, OutcomeFail>
    ensures { GivesText (simulation top.now) sources.now result }
{
    let verified = match accept(alloc, first_input(sources)) {
        Ok(verified) => verified,
        Err(fail) => return Err(fail.in_file(0)),
    };
    match simulate(alloc, &verified, top.as_bytes(), second_input(sources)) {
        Ok(text) => Ok(text),
        Err(fail) => Err(run_failure(fail)),
    }
}

// Why no text is made of a run.
fn run_failure(fail: SimFail) -> OutcomeFail
    ensures { result ≡ run_failure fail }
{
    match fail {
        SimFail::Refused(refusal) => OutcomeFail::Refused(run_refusal(refusal)),
        SimFail::NoMemory => OutcomeFail::NoMemory,
    }
}

// What is refused of a run: the first input as a whole, or a line of the second one.
fn run_refusal(refusal: SimRefusal) -> Refusal
    ensures { result ≡ run_refusal refusal }
{
    match refusal {
        SimRefusal::NoModule => Refusal {
            file: 0,
            location: Location::start(),
            op: OpName::File,
            cause: Cause::NoSuchModule,
        },
        SimRefusal::BadSteps(steps) => {
            line_refusal(OpName::Sim, 1, steps.line, step_cause(steps.cause))
        }
    }
}

// The cause of a refusal of a step file.
fn step_cause(cause: StepCause) -> Cause
    ensures { result ≡ step_cause cause }
{
    match cause {
        StepCause::TooLong => Cause::TooLong,
        StepCause::BadLine => Cause::BadStepLine,
        StepCause::WrongCount => Cause::LiteralCount,
        StepCause::WrongWidth => Cause::LiteralWidth,
    }
}
