//! The design of a text in the AIGER format, as MLIR text.
ghost use Rattle.std.specs.Prelude.{◌≡◌, ℕ, List};
ghost use Rattle.command_line.specs.Line.Work.{aiger_import};
ghost use Rattle.circt_top.specs.Accepting.{first_input};
ghost use Rattle.circt_top.specs.Imports.{import_failure};
ghost use Rattle.circt_top.specs.Outcome.{GivesText};

use crate::aiger_causes::{aiger_cause, aiger_operation};
use crate::made::{OutcomeFail, line_refusal};
use crate::outcome::print_made;
use crate::translation::Means;
use aiger_reader::fail::ReadFail;
use aiger_text::import_text::import_aiger;
use diag::cause::Cause;
use io_edge::byte_text::Text;
use pass_manager::gate::Gate;
use pass_pipeline::pipeline::Pipeline;
use std::thread::Threads;

/// The text of what passes make of the design that a text in the AIGER format says.
pub(crate) fn import_whole<R: Threads + Sync, G: Gate + Copy + Send>(
    means: &Means<'_, R, G>,
    source: &[u8],
    passes: &Pipeline,
) -> Result<Text, OutcomeFail>
    ensures { (contents : List (List ℕ)) → first_input contents ≡ source.now → GivesText (aiger_import passes.now) contents result }
{
    match import_aiger(means.alloc, source) {
        Ok(verified) => Ok(print_made(means, verified, passes)?),
        Err(fail) => Err(import_failure(fail)),
    }
}

// Why no text is made of what is not read.
fn import_failure(fail: ReadFail) -> OutcomeFail
    ensures { result ≡ import_failure fail }
{
    match fail {
        ReadFail::TooLong => {
            OutcomeFail::Refused(line_refusal(aiger_operation(), 0, 1, Cause::TooLong))
        }
        ReadFail::Refused(refusal) => OutcomeFail::Refused(line_refusal(
            aiger_operation(),
            0,
            refusal.line,
            aiger_cause(refusal.fault),
        )),
        ReadFail::NoMemory => OutcomeFail::NoMemory,
    }
}
