//! A text read: the design that it says, or the first thing in it that is refused.
ghost use Rattle.mlir_reader.specs.ModuleViews.{ReadsDesign};
ghost use Rattle.mlir_reader.specs.Reading.{read};

use crate::file_text::file_text;
use diag::cause::Cause;
use diag::refusal::{Location, OpName, Refusal};
use ir_store::design::Design;
use mlir_syntax::fail::ReadFail;
use mlir_syntax::reader::Reader;
use std::alloc::Global;

/// How many bytes a text may have.
pub const MOST_BYTES: usize = 1 << 26;

/// The design that an MLIR text says (MLIR language reference; CIRCT: HW, Comb and Seq dialects).
///
/// Fails with the first thing in the text that is refused (a text of more than 2^26 bytes at its
/// first location), of which nothing after it is looked at, or when out of memory.
pub fn read_design(alloc: Global, source: &[u8]) -> Result<Design, ReadFail>
    ensures { ReadsDesign result (read source.now) }
{
    if source.len() > MOST_BYTES {
        return Err(ReadFail::Refused(Refusal {
            file: 0,
            location: Location::start(),
            op: OpName::File,
            cause: Cause::TooLong,
        }));
    }
    let mut reader = Reader::new(alloc, source);
    file_text(&mut reader)
}
