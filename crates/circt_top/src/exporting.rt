//! The text in the AIGER format of what passes make of a design.
ghost use Rattle.std.specs.Prelude.{◌≡◌, ℕ, List};
ghost use Rattle.ir_store.specs.Designs.{design_of};
ghost use Rattle.command_line.specs.Line.Work.{aiger_export};
ghost use Rattle.circt_top.specs.Accepting.{first_input};
ghost use Rattle.circt_top.specs.Exports.{GivesExport, export_failure};
ghost use Rattle.circt_top.specs.Outcome.{GivesText};

use crate::accepting::accept;
use crate::made::OutcomeFail;
use crate::translation::{Means, passes_result};
use aiger_export::export_aiger::export_aiger;
use aiger_export::fail::ExportFail;
use aiger_export::{exported_texts_run, exports_are_one};
use io_edge::byte_text::Text;
use op_verifier::Verified;
use pass_manager::gate::Gate;
use pass_manager::results_follow;
use pass_pipeline::pipeline::Pipeline;
use printing_laws::what_is_canonical_is_printable;
use std::thread::Threads;

/// The text in the AIGER format of what passes make of the design that a text says.
pub(crate) fn export_whole<R: Threads + Sync, G: Gate + Copy + Send>(
    means: &Means<'_, R, G>,
    source: &[u8],
    passes: &Pipeline,
) -> Result<Text, OutcomeFail>
    ensures { (contents : List (List ℕ)) → first_input contents ≡ source.now → GivesText (aiger_export passes.now) contents result }
{
    match accept(means.alloc, source) {
        Ok(verified) => export_result(means, verified, passes),
        Err(fail) => Err(fail.in_file(0)),
    }
}

// The text in the AIGER format of what passes make of an accepted design.
fn export_result<R: Threads + Sync, G: Gate + Copy + Send>(
    means: &Means<'_, R, G>,
    verified: Verified,
    passes: &Pipeline,
) -> Result<Text, OutcomeFail>
    ensures { GivesExport passes.now (design_of verified.design) result }
{
    what_is_canonical_is_printable();
    results_follow();
    exports_are_one();
    exported_texts_run();
    let made = passes_result(means, verified, passes)?;
    match export_aiger(means.alloc, &made) {
        Ok(text) => Ok(text),
        Err(fail) => Err(export_failure(fail)),
    }
}

// Why no text is made of what is not exported.
fn export_failure(fail: ExportFail) -> OutcomeFail
    ensures { result ≡ export_failure fail }
{
    match fail {
        ExportFail::Refused(refusal) => OutcomeFail::Refused(refusal),
        ExportFail::NoMemory => OutcomeFail::NoMemory,
    }
}
