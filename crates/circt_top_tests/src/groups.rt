//! Groups of words with one answer.
use crate::runs::{Ended, Failing, run_words};
use std::alloc::{AllocError, AllocGlobal};
use std::test::Fail;
use std::thread::Threads;

/// The error message on words that are bad.
pub const USAGE: &str = "circt: usage: bad arguments\n";

/// That on a `translate` without a translation.
pub const UNNAMED: &str = "circt: usage: no translation named\n";

/// That on a `translate` with more than one.
pub const TWO_NAMED: &str = "circt: usage: two translations named\n";

/// That on the text `foo`.
pub const REFUSED: &str = "<stdin>:1:1: error: 'foo' S3: unknown operation\n";

/// Words that have the same answer on a text.
pub struct Group {
    /// The words, each a line with blanks between them.
    pub words: &'static [&'static str],
    /// What stands on standard input and in `a.mlir`.
    pub input: &'static str,
    /// What fails.
    pub failing: Failing,
    /// The exit status.
    pub code: u8,
    /// What the output and the error output take.
    pub out: &'static str,
    pub err: &'static str,
    /// A file, and its text in the end.
    pub file: &'static str,
    pub text: &'static str,
}

// Whether a run ended with the answer of a group.
fn is_answered(group: &Group, run: &Ended) -> bool {
    let is_held = match run.files.contents(group.file) {
        Some(bytes) => bytes == group.text.as_bytes(),
        None => false,
    };
    (run.code == group.code && is_held)
        && (run.out.contents() == group.out.as_bytes()
            && run.err.contents() == group.err.as_bytes())
}

// The first of the words of a group that has another answer.
fn other_words(
    rt: &(impl Threads + Sync + AllocGlobal),
    group: &Group,
) -> Result<Option<&'static str>, AllocError> {
    for words in group.words {
        let run = run_words(rt, words, group.input, group.failing)?;
        if !is_answered(group, &run) {
            return Ok(Some(words));
        }
    }
    Ok(None)
}

/// The first of the words of all groups that has another answer.
pub fn first_other(
    rt: &(impl Threads + Sync + AllocGlobal),
    groups: &[Group],
) -> Result<Option<&'static str>, AllocError> {
    for group in groups {
        if let Some(words) = other_words(rt, group)? {
            return Ok(Some(words));
        }
    }
    Ok(None)
}
