//! Step files as whole texts.
ghost use Rattle.std.specs.Prelude.{◌≡◌, ◌≤◌, ◌+◌, ◌^◌, [], length, Ok, IfOk, IfErr};
ghost use Rattle.std.specs.List.{All};
ghost use Rattle.text_lines.specs.Lines.{lines, words};
ghost use Rattle.step_file.specs.declared.fail.StepFail.TheVariants.{Refused};
ghost use Rattle.step_file.specs.StepFile.{with_rows, rows_from, steps_from, steps_of};
ghost use Rattle.step_file.specs.Rows.{row_of};
ghost use Rattle.step_file.specs.Answers.{IsWidth, IsFault, AddsRow, rows_in, steps_in};

use crate::fail::{StepCause, StepFail, StepRefusal};
use crate::rows::{read_content, read_row};
use bits_core::Bits;
use std::alloc::{AllocError, Global};
use text_lines::lines::first_line;
use text_lines::words::next_word;

/// The greatest number of bytes that a text may have.
pub const MOST_BYTES: usize = 1 << 26;

/// What a line of a step file says.
#[derive(Drop)]
pub struct Row {
    /// The words of its literals, in order.
    pub words: Vec<Bits>,
}

/// What a step file says.
#[derive(Drop)]
pub struct StepFile {
    /// The content of each register leaf.
    pub content: Row,
    /// For each step the word of each input leaf.
    pub steps: Vec<Row>,
}

/// Reads a step file for a module whose registers and inputs have leaves of these widths.
#[tactic(auto, unfolding(crate::specs::StepFile::steps_of))]
pub fn read_steps(
    alloc: Global,
    registers: &[u32],
    inputs: &[u32],
    text: &[u8],
) -> Result<StepFile, StepFail>
    requires registers { All IsWidth registers.now }
    requires inputs { All IsWidth inputs.now }
    ensures ok { IfOk result (λ f. steps_of registers.now inputs.now text.now ≡ Ok (steps_in f)) }
    ensures err { IfErr result (IsFault (steps_of registers.now inputs.now text.now)) }
{
    if MOST_BYTES < text.len() {
        return Err(refused(1, StepCause::TooLong));
    }
    read_lines(alloc, registers, inputs, text)
}

/// The refusal of a line.
fn refused(line: u32, cause: StepCause) -> StepFail
    ensures { result ≡ Refused (record { line = line; cause = cause }) }
{
    StepFail::Refused(StepRefusal { line, cause })
}

/// Reads up to the line of the content and on.
#[tactic(auto, using(text_lines::proofs::Splitting::no_lines))]
fn read_lines(
    alloc: Global,
    registers: &[u32],
    inputs: &[u32],
    text: &[u8],
) -> Result<StepFile, StepFail>
    requires registers { All IsWidth registers.now }
    requires inputs { All IsWidth inputs.now }
    requires short { length text.now ≤ 2 ^ 26 }
    ensures ok { IfOk result (λ f. steps_from 1 registers.now inputs.now (lines text.now) ≡ Ok (steps_in f)) }
    ensures err { IfErr result (IsFault (steps_from 1 registers.now inputs.now (lines text.now))) }
{
    let mut line = 1;
    let mut rest = text;
    while !rest.is_empty() {
        let (first, others) = first_line(rest);
        if next_word(first).is_some() {
            let mut words = Vec::new(alloc);
            return match read_content(registers, first, &mut words)? {
                None => read_rows(alloc, inputs, Row { words }, line + 1, others),
                Some(cause) => Err(refused(line, cause)),
            };
        }
        line += 1;
        rest = others;
    }
    Err(refused(line, StepCause::BadLine))
}

/// Reads the lines behind that of the content, of which the first has the number `line`.
#[tactic(auto, using(text_lines::proofs::Splitting::no_lines))]
fn read_rows(
    alloc: Global,
    widths: &[u32],
    content: Row,
    mut line: u32,
    text: &[u8],
) -> Result<StepFile, StepFail>
    requires widths { All IsWidth widths.now }
    requires room { line + length text.now ≤ 2 ^ 26 + 1 }
    requires short { length text.now ≤ 2 ^ 26 }
    ensures ok { IfOk result (λ f. with_rows content.words.items (rows_from line widths.now [] (lines text.now)) ≡ Ok (steps_in f)) }
    ensures err { IfErr result (IsFault (rows_from line widths.now [] (lines text.now))) }
{
    let mut steps = Vec::new(alloc);
    let mut rest = text;
    while !rest.is_empty() {
        let (first, others) = first_line(rest);
        if next_word(first).is_some() {
            if let Some(cause) = push_row(alloc, widths, first, &mut steps)? {
                return Err(refused(line, cause));
            }
        }
        line += 1;
        rest = others;
    }
    Ok(StepFile { content, steps })
}

/// Reads a line of one literal for each width behind those before it. Why it is none.
fn push_row(
    alloc: Global,
    widths: &[u32],
    line: &[u8],
    steps: &mut Vec<Row>,
) -> Result<Option<StepCause>, AllocError>
    requires widths { All IsWidth widths.now }
    requires short { length line.now ≤ 2 ^ 26 }
    ensures { IfOk result (λ cause. AddsRow (row_of widths.now (words line.now)) cause (rows_in steps.old.items) (rows_in steps.new.items)) }
{
    let mut words = Vec::new(alloc);
    let cause = read_row(widths, line, &mut words)?;
    if cause.is_none() {
        steps.push(Row { words })?;
    }
    Ok(cause)
}
