//! Lines of proofs.
ghost use Rattle.std.specs.Prelude.{◌≡◌, OnOk, IfOk, option_map, if◌then◌else◌, Some, None};
ghost use Rattle.lrat_text.specs.Words.{line_words};
ghost use Rattle.lrat_text.specs.ProofLine.{are_positive, line_of, until_end, alone, after_id, deletion, addition};
ghost use Rattle.lrat_text.specs.Reads.{line_in, line_by};

use crate::word::{Word, word_of};
use resolution_proof::literal::Literal;
use std::alloc::{AllocError, Global};
use text_lines::words::next_word;

/// What a line writes.
#[derive(Clone, Copy)]
pub(crate) enum Form {
    /// It has no words.
    Blank,
    /// A clause with its number.
    Adds(u64),
    /// A deletion of clauses.
    Deletes,
    /// Nothing that a proof has.
    Bad,
}

/// A line of a proof: what it writes, the literals of the clause, and the numbers of the hints or of the clauses that are
/// deleted. Its memory serves for further lines.
#[derive(Drop)]
pub(crate) struct ProofLine {
    pub(crate) form: Form,
    pub(crate) clause: Vec<Literal>,
    pub(crate) numbers: Vec<Literal>,
}

impl ProofLine {
    /// A line without words. It takes no memory.
    pub(crate) fn new(alloc: Global) -> ProofLine {
        ProofLine {
            form: Form::Blank,
            clause: Vec::new(alloc),
            numbers: Vec::new(alloc),
        }
    }

    /// Reads the line.
    #[tactic(auto, unfolding(crate::specs::ProofLine::line_of))]
    pub(crate) fn read(&mut self, line: &[u8]) -> Result<(), AllocError>
        ensures { OnOk result (line_in self.new ≡ line_of (line_words line.now)) }
    {
        let Some((first, rest)) = next_word(line) else {
            self.form = Form::Blank;
            return Ok(());
        };
        let form = match word_of(first) {
            Word::End => self.read_numbered(0, rest)?,
            Word::Signed(
                Literal {
                    variable,
                    positive: true,
                },
            ) => self.read_numbered(variable, rest)?,
            _ => Form::Bad,
        };
        self.form = form;
        Ok(())
    }

    /// Reads what follows the number of a line.
    fn read_numbered(&mut self, number: u64, rest: &[u8]) -> Result<Form, AllocError>
        ensures { IfOk result (λ form. line_by form self.new.clause.items self.new.numbers.items ≡ after_id number (line_words rest.now)) }
    {
        let Some((second, behind)) = next_word(rest) else {
            return Ok(Form::Bad);
        };
        match word_of(second) {
            Word::Delete => self.read_deletion(behind),
            _ => self.read_addition(number, rest),
        }
    }

    fn read_deletion(&mut self, rest: &[u8]) -> Result<Form, AllocError>
        ensures { IfOk result (λ form. line_by form self.new.clause.items self.new.numbers.items ≡ deletion (alone (until_end (line_words rest.now)))) }
    {
        let is_list = read_last_list(rest, &mut self.numbers)?;
        if is_list && are_positive(&self.numbers) {
            Ok(Form::Deletes)
        } else {
            Ok(Form::Bad)
        }
    }

    fn read_addition(&mut self, number: u64, rest: &[u8]) -> Result<Form, AllocError>
        ensures { IfOk result (λ form. line_by form self.new.clause.items self.new.numbers.items ≡ addition number (until_end (line_words rest.now))) }
    {
        match read_list(rest, &mut self.clause)? {
            Some(behind) => {
                if read_last_list(behind, &mut self.numbers)? {
                    Ok(Form::Adds(number))
                } else {
                    Ok(Form::Bad)
                }
            }
            None => Ok(Form::Bad),
        }
    }
}

/// Reads numbers up to the first 0, and gives what follows it; `None` where there is none, or a word that is no number
/// comes before it.
#[tactic(auto, using(crate::proofs::Walking::prefixed_more, crate::proofs::Walking::prefixed_none))]
fn read_list<'a>(line: &'a [u8], numbers: &mut Vec<Literal>) -> Result<Option<&'a [u8]>, AllocError>
    ensures { IfOk result (λ r. until_end (line_words line.now) ≡ option_map (λ rest. (numbers.new.items, line_words rest.now)) r) }
{
    numbers.clear();
    let mut rest = line;
    while let Some((word, others)) = next_word(rest) {
        match word_of(word) {
            Word::End => return Ok(Some(others)),
            Word::Signed(number) => numbers.push(number)?,
            Word::Delete | Word::Other => return Ok(None),
        }
        rest = others;
    }
    Ok(None)
}

/// Reads numbers up to a 0 that ends the line. Whether there is one.
fn read_last_list(line: &[u8], numbers: &mut Vec<Literal>) -> Result<bool, AllocError>
    ensures { IfOk result (λ r. alone (until_end (line_words line.now)) ≡ (if r then Some numbers.new.items else None)) }
{
    match read_list(line, numbers)? {
        Some(behind) => Ok(next_word(behind).is_none()),
        None => Ok(false),
    }
}

/// Whether no number has a minus sign.
fn are_positive(numbers: &[Literal]) -> bool
    ensures { result ≡ are_positive numbers.now }
{
    numbers.iter().all(|n| n.positive)
}
