//! A text cut into pieces at its lines that are `// -----`.
ghost use Rattle.std.specs.Prelude.{◌≡◌, ◌<◌, ◌≤◌, IfOk, map, take, drop, ◌+◌, length, slice_range};
ghost use Rattle.circt_top.specs.Pieces.{pieces_of, line_size, line_count, is_blank, is_separator, location_in_whole, op_in_whole, in_whole};
ghost use Rattle.std.specs.List.{list_all};
ghost use Rattle.circt_top.specs.PieceViews.{piece_of};

use diag::refusal::{Location, OpName, Refusal};
use std::alloc::{AllocError, Global};

/// What a line that parts two pieces begins with.
const SEPARATOR: [u8; 8] = *b"// -----";

/// A piece of a text, and what stands before it there.
#[derive(Clone, Copy)]
pub(crate) struct Piece<'a> {
    /// What stands before it in the text.
    pub(crate) before: &'a [u8],
    /// Its bytes.
    pub(crate) bytes: &'a [u8],
}

/// The pieces of a text, in order. There is one piece more than lines that are `// -----`, and no
/// piece has one of these.
pub(crate) fn pieces_of<'a>(alloc: Global, source: &'a [u8]) -> Result<Vec<Piece<'a>>, AllocError>
    ensures { IfOk result (λ v. map piece_of v.items ≡ pieces_of source.entry.now) }
{
    let mut pieces = Vec::new(alloc);
    let mut start: usize = 0;
    let mut at: usize = 0;
    while at < source.len() {
        let end = line_end(source, at);
        if is_separator(part(source, at, end)) {
            pieces.push(piece_at(source, start, at))?;
            start = end;
            at = end;
        } else {
            at = end;
        }
    }
    pieces.push(piece_at(source, start, at))?;
    Ok(pieces)
}

/// The piece of a text from `start` to before `end`.
fn piece_at(source: &[u8], start: usize, end: usize) -> Piece<'_>
    requires order { start ≤ end }
    requires within { end ≤ length source.now }
    ensures before { (piece_of result).before ≡ take start source.entry.now }
    ensures bytes { (piece_of result).bytes ≡ slice_range source.entry.now start end }
{
    Piece {
        before: part(source, 0, start),
        bytes: part(source, start, end),
    }
}

/// The bytes of a text from `start` to before `end`.
fn part(source: &[u8], start: usize, end: usize) -> &[u8]
    requires order { start ≤ end }
    requires within { end ≤ length source.now }
    ensures { result.now ≡ slice_range source.entry.now start end }
{
    &source[start..end]
}

/// Where the line ends that begins at `at`.
fn line_end(source: &[u8], at: usize) -> usize
    requires { at < length source.now }
    ensures is { result ≡ at + line_size (drop at source.now) }
    ensures more { at < result }
    ensures within { result ≤ length source.now }
{
    let (_, rest) = source.split_at(at);
    source.len() - (rest.len() - line_size(rest))
}

/// How many bytes the first line has, with the LF that ends it.
fn line_size(text: &[u8]) -> usize
    ensures is { result ≡ line_size text.now }
    ensures within { result ≤ length text.now }
    ensures some { 0 < length text.now → 0 < result }
{
    let mut size: usize = 0;
    for byte in text {
        size = size.saturating_add(1);
        if *byte == b'\n' {
            return size;
        }
    }
    size
}

/// Whether a line is `// -----`, blanks after it aside.
fn is_separator(line: &[u8]) -> bool
    ensures { result ≡ is_separator line.now }
{
    line.starts_with(&SEPARATOR) && are_blank(part(line, SEPARATOR.len(), line.len()))
}

/// Whether there are only blanks.
fn are_blank(bytes: &[u8]) -> bool
    ensures { result ≡ list_all is_blank bytes.now }
{
    for byte in bytes {
        if !is_blank(*byte) {
            return false;
        }
    }
    true
}

/// Whether a byte is a space, a tab, a CR, or the LF that ends a line.
fn is_blank(byte: u8) -> bool
    ensures { result ≡ is_blank byte }
{
    byte == b' ' || (byte == b'\t' || (byte == b'\r' || byte == b'\n'))
}

/// How many lines end in a text.
fn line_count(bytes: &[u8]) -> usize
    ensures { result ≡ line_count bytes.now }
{
    let mut count: usize = 0;
    for byte in bytes {
        if *byte == b'\n' {
            count = count.saturating_add(1);
        }
    }
    count
}

impl Piece<'_> {
    /// A refusal of this piece, as one of the whole text.
    pub(crate) fn in_whole(&self, refusal: Refusal) -> Refusal
        ensures { result ≡ in_whole (piece_of self.now) refusal }
    {
        Refusal {
            file: 0,
            location: self.location_in_whole(refusal.location),
            op: self.op_in_whole(refusal.op),
            cause: refusal.cause,
        }
    }

    /// A location in this piece, by the lines of the whole text.
    fn location_in_whole(&self, location: Location) -> Location
        ensures { result ≡ location_in_whole (piece_of self.now) location }
    {
        let line = (location.line as usize).saturating_add(line_count(self.before));
        Location {
            line: line.min(u32::MAX as usize) as u32,
            col: location.col,
        }
    }

    /// The operation of a refusal of this piece, by the bytes of the whole text.
    fn op_in_whole(&self, op: OpName) -> OpName
        ensures { result ≡ op_in_whole (piece_of self.now) op }
    {
        match op {
            OpName::Other { at, len } => OpName::Other {
                at: at.saturating_add(self.before.len() as u64),
                len,
            },
            OpName::Listed(_) | OpName::File | OpName::Check | OpName::Sim | OpName::Aiger => op,
        }
    }
}
