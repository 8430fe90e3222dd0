//! Designs of texts.
ghost use Rattle.std.specs.Prelude.{◌≤◌, ◌^◌, length, map, IfOk, IfErr};
ghost use Rattle.ir_store.specs.Designs.{numbered_module};
ghost use Rattle.op_verifier.specs.Answered.{modules_verified};
ghost use Rattle.aiger_reader.specs.Told.{IsReadFail};
ghost use Rattle.aiger_text.specs.Imported.{IsImported};

use crate::designs::design_of_text;
use aiger_reader::fail::ReadFail;
use aiger_reader::read_aiger::read_aiger;
use op_verifier::{Verified, VerifyFail, verify};
use std::alloc::Global;

/// The design that a text in the AIGER format says, of which nothing is refused.
pub fn import_aiger(alloc: Global, source: &[u8]) -> Result<Verified, ReadFail>
    ensures ok { IfOk result (λ v. IsImported source.now (map numbered_module (modules_verified v))) }
    ensures short { IfOk result (λ _. length source.now ≤ 2 ^ 26) }
    ensures err { IfErr result (IsReadFail source.now) }
{
    let text = match read_aiger(alloc, source) {
        Ok(text) => text,
        Err(fail) => return Err(fail),
    };
    let design = match design_of_text(alloc, source, &text) {
        Ok(design) => design,
        Err(_) => return Err(ReadFail::NoMemory),
    };
    match verify(alloc, design) {
        Ok(verified) => Ok(verified),
        Err(VerifyFail::NoMemory) => Err(ReadFail::NoMemory),
        Err(VerifyFail::Refused(_)) => unreachable!(),
    }
}
