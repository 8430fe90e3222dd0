//! The designs that texts say, where nothing of them is refused.
ghost use Rattle.std.specs.Prelude.{◌≡◌};
ghost use Rattle.stored_form.specs.Bytes.{AreBytes};
ghost use Rattle.circt_top.specs.OutcomeParts.{IsTaken, read_failure, verify_failure};

use crate::made::OutcomeFail;
use mlir_reader::laws::what_is_read_is_canonical;
use mlir_reader::read::read_design;
use mlir_syntax::fail::ReadFail;
use op_verifier::{Verified, VerifyFail, verify};
use std::alloc::Global;

/// The design that a text says, where nothing of it is refused.
pub(crate) fn accept(alloc: Global, source: &[u8]) -> Result<Verified, OutcomeFail>
    ensures { IsTaken source.now result }
{
    what_is_read_is_canonical();
    are_bytes(source);
    let design = match read_design(alloc, source) {
        Ok(design) => design,
        Err(fail) => return Err(read_failure(fail)),
    };
    match verify(alloc, design) {
        Ok(verified) => Ok(verified),
        Err(fail) => Err(verify_failure(fail)),
    }
}

/// Why no text is made of what is not read.
fn read_failure(fail: ReadFail) -> OutcomeFail
    ensures { result ≡ read_failure fail }
{
    match fail {
        ReadFail::Refused(refusal) => OutcomeFail::Refused(refusal),
        ReadFail::NoMemory => OutcomeFail::NoMemory,
    }
}

/// Why no text is made of what is not verified.
fn verify_failure(fail: VerifyFail) -> OutcomeFail
    ensures { result ≡ verify_failure fail }
{
    match fail {
        VerifyFail::Refused(refusal) => OutcomeFail::Refused(refusal),
        VerifyFail::NoMemory => OutcomeFail::NoMemory,
    }
}

/// Does nothing. Its clause says that bytes are numbers below 256.
fn are_bytes(bytes: &[u8])
    ensures { AreBytes bytes.now }
{
    for byte in bytes {
        let _ = *byte;
    }
}
