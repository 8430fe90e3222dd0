//! A text that is made, with what it says, and why none is.
ghost use Rattle.std.specs.Prelude.{◌≡◌};
ghost use Rattle.circt_top.specs.Accepting.{first_input, second_input, line_refusal};
ghost use Rattle.circt_top.specs.OutcomeParts.{fail_in_file, fail_in_whole};
ghost use Rattle.circt_top.specs.PieceViews.{piece_of};

use crate::pieces::Piece;
use diag::cause::Cause;
use diag::refusal::{Location, OpName, Refusal};
use io_edge::byte_text::Text;
use lec_tool::Input;
use resolution_proof::log::Log;
use std::alloc::AllocError;

/// What a text that is printed says of what was asked.
#[derive(Drop)]
pub enum Finding {
    /// Nothing was asked but the text itself, or modules agree.
    Given,
    /// Modules differ where they are given this.
    Different(Input),
    /// Nothing was found with so many learnt clauses.
    Unknown(Log),
}

/// A text for the file of a name.
#[derive(Drop)]
pub(crate) struct FileText<'a> {
    /// The name.
    pub(crate) name: &'a str,
    /// The text.
    pub(crate) text: Text,
}

/// What lets others check that modules are the same.
#[derive(Drop)]
pub(crate) struct ProofTexts<'a> {
    /// The formula that says that they differ, in the DIMACS CNF format.
    pub(crate) formula: FileText<'a>,
    /// The proof that nothing satisfies it, in the LRAT format.
    pub(crate) proof: FileText<'a>,
}

/// A text, with what it says, and the files that go out before it.
#[derive(Drop)]
pub(crate) struct Made<'a> {
    /// The files, if there are any.
    pub(crate) proof: Option<ProofTexts<'a>>,
    /// The text.
    pub(crate) text: Text,
    /// What it says.
    pub(crate) finding: Finding,
}

/// Why no text was made.
#[derive(Clone, Copy, PartialEq, Eq)]
pub enum OutcomeFail {
    /// The input is refused.
    Refused(Refusal),
    /// There was no memory.
    NoMemory,
}

impl From<AllocError> for OutcomeFail {
    ghost use Rattle.std.specs.Prelude.{◌≡◌};
    ghost use Rattle.circt_top.specs.declared.made.OutcomeFail.TheVariants.{NoMemory};

    ghost from_gives = { λ _ fail. fail ≡ NoMemory };

    fn from(_error: AllocError) -> OutcomeFail {
        OutcomeFail::NoMemory
    }
}

impl OutcomeFail {
    /// The same of the input of this number.
    pub(crate) fn in_file(self, number: u32) -> OutcomeFail
        ensures { result ≡ fail_in_file number self }
    {
        match self {
            OutcomeFail::Refused(refusal) => OutcomeFail::Refused(Refusal {
                file: number,
                ..refusal
            }),
            OutcomeFail::NoMemory => OutcomeFail::NoMemory,
        }
    }

    /// The same of a piece, as one of the whole text.
    pub(crate) fn in_whole(self, piece: &Piece<'_>) -> OutcomeFail
        ensures { result ≡ fail_in_whole (piece_of piece.now) self }
    {
        match self {
            OutcomeFail::Refused(refusal) => OutcomeFail::Refused(piece.in_whole(refusal)),
            OutcomeFail::NoMemory => OutcomeFail::NoMemory,
        }
    }
}

/// The text of the first input.
pub(crate) fn first_input(sources: &[Text]) -> &[u8]
    ensures { result.now ≡ first_input sources.now }
{
    match sources {
        [source, ..] => source.as_bytes(),
        [] => b"",
    }
}

/// The text of the second input.
pub(crate) fn second_input(sources: &[Text]) -> &[u8]
    ensures { result.now ≡ second_input sources.now }
{
    match sources {
        [_, source, ..] => source.as_bytes(),
        _ => b"",
    }
}

/// The refusal, by an operation, of the input of this number at a line.
pub(crate) fn line_refusal(op: OpName, number: u32, line: u32, cause: Cause) -> Refusal
    ensures { result ≡ line_refusal op number line cause }
{
    Refusal {
        file: number,
        location: Location { line, col: 1 },
        op,
        cause,
    }
}
