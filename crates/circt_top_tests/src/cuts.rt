//! Outputs that fail in the middle of a text.
use crate::runs::run_long;
use std::alloc::{AllocError, AllocGlobal};
use std::thread::Threads;

/// How many bytes a piece of a text has.
const PIECE: usize = 4096;

// Whether of a text just the pieces before one go out, where that one fails.
fn is_cut_at(
    rt: &(impl Threads + Sync + AllocGlobal),
    line: &str,
    input: &str,
    text: &[u8],
    piece: usize,
) -> Result<bool, AllocError> {
    let run = run_long(rt, line, input, &[piece as u64])?;
    Ok(run.code == 6 && text.get(..piece.saturating_mul(PIECE)) == Some(run.out.contents()))
}

/// The first piece of the text that words print of an input before which other bytes go out where it fails. A text of one piece has none
/// that is right, and so has what ends with another status than 0.
pub fn first_other_cut(
    rt: &(impl Threads + Sync + AllocGlobal),
    line: &str,
    input: &str,
) -> Result<Option<usize>, AllocError> {
    let whole = run_long(rt, line, input, &[])?;
    let text = whole.out.contents();
    let count = text.len().div_ceil(PIECE);
    if whole.code != 0 || count < 2 {
        return Ok(Some(0));
    }
    for piece in 0..count {
        if !is_cut_at(rt, line, input, text, piece)? {
            return Ok(Some(piece));
        }
    }
    Ok(None)
}
