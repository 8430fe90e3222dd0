//! Formulas that are being read.
ghost use Rattle.std.specs.Prelude.{◌≡◌, ◌++◌, ◌∷◌, [], ◌==◌, nat_lt, OnOk, IfOk, length, Some, None, option_map, if◌then◌else◌};
ghost use Rattle.text_lines.specs.Lines.{words};
ghost use Rattle.lrat_text.specs.Dimacs.{is_comment, is_skipped, header_of, both, begun, read_word, read_line};

use crate::clauses::copy_of;
use crate::dimacs_cnf::DimacsCnf;
use crate::word::{Word, number, word_of};
use resolution_proof::items::Items;
use resolution_proof::literal::Literal;
use std::alloc::{AllocError, Global};
use std::marker::Model;
use text_lines::words::next_word;

/// What has been read of a formula: the numbers of its header, whole clauses, and the literals of the next one.
#[derive(Drop)]
pub(crate) struct CnfReading {
    alloc: Global,
    variables: u64,
    count: u64,
    clauses: Vec<Items<Literal>>,
    part: Vec<Literal>,
}

impl Model for CnfReading {
    ghost use Rattle.lrat_text.specs.Dimacs.{Reading};

    ghost Value = { Reading };

    ghost view = { λ r. record { variables = r.variables; count = r.count; clauses = r.clauses.items; part = r.part.items } };
}

/// The numbers of a header.
#[derive(Clone, Copy)]
pub(crate) struct Header {
    pub(crate) variables: u64,
    pub(crate) count: u64,
}

impl CnfReading {
    /// The header has been read. It takes no memory.
    pub(crate) fn new(alloc: Global, header: Header) -> CnfReading
        ensures { Some result ≡ begun (Some (header.variables, header.count)) }
    {
        CnfReading {
            alloc,
            variables: header.variables,
            count: header.count,
            clauses: Vec::new(alloc),
            part: Vec::new(alloc),
        }
    }

    /// Whether there are as many clauses as the header says.
    pub(crate) fn is_finished(&self) -> bool
        ensures { result ≡ (length self.now.clauses == self.now.count) }
    {
        self.clauses.len() as u64 == self.count
    }

    /// Whether there are fewer clauses than the header says.
    fn has_room(&self) -> bool
        ensures { result ≡ nat_lt (length self.now.clauses) self.now.count }
    {
        (self.clauses.len() as u64) < self.count
    }

    /// The formula that has been read.
    pub(crate) fn into_cnf(self) -> DimacsCnf
        ensures { result ≡ record { variables = self.variables; clauses = self.clauses } }
    {
        DimacsCnf {
            variables: self.variables,
            clauses: self.clauses,
        }
    }

    /// Reads a line behind the header. Whether it may stand there.
    pub(crate) fn read_line(&mut self, line: &[u8]) -> Result<bool, AllocError>
        ensures { IfOk result (λ ok. read_line self.old line.now ≡ (if ok then Some self.new else None)) }
    {
        if is_comment(line) {
            return Ok(true);
        }
        let mut rest = line;
        while let Some((word, others)) = next_word(rest) {
            if !self.read_word(word_of(word))? {
                return Ok(false);
            }
            rest = others;
        }
        Ok(true)
    }

    /// Reads a word behind the header. Whether it may stand there.
    fn read_word(&mut self, word: Word) -> Result<bool, AllocError>
        ensures { IfOk result (λ ok. read_word self.old word ≡ (if ok then Some self.new else None)) }
    {
        if !self.has_room() {
            return Ok(false);
        }
        match word {
            Word::End => self.end_clause()?,
            Word::Signed(literal) => {
                if self.variables < literal.variable {
                    return Ok(false);
                }
                self.part.push(literal)?;
            }
            Word::Delete | Word::Other => return Ok(false),
        }
        Ok(true)
    }

    /// Ends the clause.
    fn end_clause(&mut self) -> Result<(), AllocError>
        ensures { OnOk result (self.new ≡ record { variables = self.old.variables; count = self.old.count; clauses = self.old.clauses ++ self.old.part ∷ []; part = [] }) }
    {
        let clause = copy_of(self.alloc, &self.part)?;
        self.clauses.push(clause)?;
        self.part.clear();
        Ok(())
    }
}

/// Whether the line is a comment.
fn is_comment(line: &[u8]) -> bool
    ensures { result ≡ is_comment line.now }
{
    match line.split_first() {
        Some((first, _)) => *first == b'c',
        None => false,
    }
}

/// Whether the line is a comment or has no words.
pub(crate) fn is_skipped(line: &[u8]) -> bool
    ensures { result ≡ is_skipped line.now }
{
    is_comment(line) || next_word(line).is_none()
}

/// The numbers that a header `p cnf V C` says.
pub(crate) fn header_of(line: &[u8]) -> Option<Header>
    ensures { header_of (words line.now) ≡ option_map (λ h. (h.variables, h.count)) result }
{
    let (mark, rest) = next_word(line)?;
    let (format, rest) = next_word(rest)?;
    let (variables, rest) = next_word(rest)?;
    let (count, rest) = next_word(rest)?;
    if next_word(rest).is_none() && (mark == b"p".as_slice() && format == b"cnf".as_slice()) {
        with_numbers(number(variables), number(count))
    } else {
        None
    }
}

/// The header of these numbers, if both are there.
fn with_numbers(variables: Option<u64>, count: Option<u64>) -> Option<Header>
    ensures { both variables count ≡ option_map (λ h. (h.variables, h.count)) result }
{
    match (variables, count) {
        (Some(variables), Some(count)) => Some(Header { variables, count }),
        _ => None,
    }
}
