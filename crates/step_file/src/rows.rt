//! Lines of a step file.
ghost use Rattle.std.specs.Prelude.{◌≡◌, ◌≤◌, ◌^◌, [], length, if◌then◌else◌, IfOk, Some, None};
ghost use Rattle.std.specs.List.{All, list_all};
ghost use Rattle.text_lines.specs.Lines.{words};
ghost use Rattle.step_file.specs.Literals.{is_literal};
ghost use Rattle.step_file.specs.Rows.{words_from, row_of};
ghost use Rattle.step_file.specs.StepFile.{content_of};
ghost use Rattle.step_file.specs.Answers.{IsWidth, row_by};

use crate::fail::StepCause;
use crate::literal::{is_literal, word_in};
use bits_core::Bits;
use std::alloc::AllocError;
use text_lines::words::next_word;

/// Reads the line of the content: `state`, and a literal for each width. Why it does not say one.
#[tactic(auto, unfolding(crate::specs::StepFile::content_of))]
pub(crate) fn read_content(
    widths: &[u32],
    line: &[u8],
    row: &mut Vec<Bits>,
) -> Result<Option<StepCause>, AllocError>
    requires widths { All IsWidth widths.now }
    requires short { length line.now ≤ 2 ^ 26 }
    ensures { IfOk result (λ cause. row_by cause row.new.items ≡ content_of widths.now (words line.now)) }
{
    match next_word(line) {
        None => Ok(Some(StepCause::BadLine)),
        Some((first, others)) => {
            if first == b"state".as_slice() {
                read_row(widths, others, row)
            } else {
                Ok(Some(StepCause::BadLine))
            }
        }
    }
}

/// Reads a line of one literal for each width. Why it is none.
#[tactic(auto, unfolding(crate::specs::Rows::row_of))]
pub(crate) fn read_row(
    widths: &[u32],
    line: &[u8],
    row: &mut Vec<Bits>,
) -> Result<Option<StepCause>, AllocError>
    requires widths { All IsWidth widths.now }
    requires short { length line.now ≤ 2 ^ 26 }
    ensures { IfOk result (λ cause. row_by cause row.new.items ≡ row_of widths.now (words line.now)) }
{
    if !are_literals(line) {
        return Ok(Some(StepCause::BadLine));
    }
    if word_count(line) != widths.len() {
        return Ok(Some(StepCause::WrongCount));
    }
    if push_words(widths, line, row)? {
        Ok(None)
    } else {
        Ok(Some(StepCause::WrongWidth))
    }
}

/// Whether each word of a line is a literal.
fn are_literals(line: &[u8]) -> bool
    requires { length line.now ≤ 2 ^ 26 }
    ensures { result ≡ list_all is_literal (words line.now) }
{
    let mut rest = line;
    while let Some((word, others)) = next_word(rest) {
        if !is_literal(word) {
            return false;
        }
        rest = others;
    }
    true
}

/// How many words a line has.
fn word_count(line: &[u8]) -> usize
    ensures { result ≡ length (words line.now) }
{
    let mut count = 0;
    let mut rest = line;
    while let Some((_, others)) = next_word(rest) {
        count += 1;
        rest = others;
    }
    count
}

/// Reads the words that literals write in place of those of the row. Whether each has the width asked for.
fn push_words(widths: &[u32], line: &[u8], row: &mut Vec<Bits>) -> Result<bool, AllocError>
    requires widths { All IsWidth widths.now }
    requires short { length line.now ≤ 2 ^ 26 }
    ensures { IfOk result (λ fits. words_from [] widths.now (words line.now) ≡ (if fits then Some row.new.items else None)) }
{
    row.clear();
    let mut rest = line;
    let mut left = widths;
    while let Some((width, others)) = left.split_first() {
        let Some((word, behind)) = next_word(rest) else {
            return Ok(false);
        };
        let Some(bits) = word_in(*width, word) else {
            return Ok(false);
        };
        row.push(bits)?;
        rest = behind;
        left = others;
    }
    Ok(true)
}
