//! The check of a proof of others.
ghost use Rattle.std.specs.Prelude.{◌≡◌};
ghost use Rattle.command_line.specs.Line.Work.{proof_check};
ghost use Rattle.circt_top.specs.Checks.{check_failure};
ghost use Rattle.circt_top.specs.Outcome.{GivesText};

use crate::made::{OutcomeFail, first_input, line_refusal, second_input};
use diag::refusal::OpName;
use io_edge::byte_text::Text;
use lrat_text::check::check;
use lrat_text::fail::CheckFail;
use lrat_text::read_cnf::read_cnf;
use std::alloc::Global;

/// The text that says that the second input is a proof over the formula of the first one in which the empty clause is a step
/// (LRAT: Cruz-Filipe, Heule, Hunt, Kaufmann and Schneider-Kamp, 2017).
pub(crate) fn check_proof(alloc: Global, sources: &[Text]) -> Result<Text, OutcomeFail>
    ensures { GivesText proof_check sources.now result }
{
    let cnf = match read_cnf(alloc, first_input(sources)) {
        Ok(cnf) => cnf,
        Err(fail) => return Err(check_failure(0, fail)),
    };
    match check(alloc, &cnf, second_input(sources)) {
        Ok(()) => Ok(Text::of(alloc, b"verified\n")?),
        Err(fail) => Err(check_failure(1, fail)),
    }
}

// Why no text is made of the input of this number.
fn check_failure(number: u32, fail: CheckFail) -> OutcomeFail
    ensures { result ≡ check_failure number fail }
{
    match fail {
        CheckFail::Refused(refusal) => {
            OutcomeFail::Refused(line_refusal(OpName::Check, number, refusal.line, refusal.cause))
        }
        CheckFail::NoMemory => OutcomeFail::NoMemory,
    }
}
