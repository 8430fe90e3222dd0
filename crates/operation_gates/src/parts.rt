//! Words that take no gate: parts, copies and joined words.
ghost use Rattle.std.specs.Prelude.{◌≡◌, ◌<◌, ◌/◌, take, length, IfOk};
ghost use Rattle.hw_model.specs.Types.{list_copies};
ghost use Rattle.operation_gates.specs.OperationGateLists.{part, concatenation};

use crate::signal_word::SignalWord;
use gates::signal::Signal;
use std::alloc::{AllocError, Global};

/// The first signals, as many as there are.
fn first_signals(word: &[Signal], count: usize) -> &[Signal]
    ensures { result.now ≡ take count word.now }
{
    if count >= word.len() {
        return word;
    }
    word.split_at(count).0
}

/// The bits low to low + width - 1, counted from the least significant.
pub fn part(alloc: Global, low: u32, width: u32, word: &[Signal]) -> Result<Vec<Signal>, AllocError>
    ensures { IfOk result (λ v. v.items ≡ part low width word.now) }
{
    let end = u64::from(low) + u64::from(width);
    let start = (word.len() as u64).saturating_sub(end) as usize;
    let following = word.split_at(start).1;
    Vec::from_slice(alloc, first_signals(following, width as usize))
}

/// As many copies of the word as make up the width.
pub fn copies_within(alloc: Global, width: u32, word: &[Signal]) -> Result<Vec<Signal>, AllocError>
    requires { 0 < length word.now }
    ensures { IfOk result (λ v. v.items ≡ list_copies (width / length word.now) word.now) }
{
    let count = width as usize / word.len();
    let mut made = Vec::new(alloc);
    for _copy in 0..count {
        made.extend_from_slice(word)?;
    }
    Ok(made)
}

/// The words joined, the first most significant.
pub fn concatenation(alloc: Global, words: &[SignalWord]) -> Result<Vec<Signal>, AllocError>
    ensures { IfOk result (λ v. v.items ≡ concatenation words.now) }
{
    let mut made = Vec::new(alloc);
    for word in words {
        made.extend_from_slice(word.as_slice())?;
    }
    Ok(made)
}
