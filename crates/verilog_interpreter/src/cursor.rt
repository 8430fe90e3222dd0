//! The tokens that are left of a text.
use crate::fault::{Fault, require, require_some};
use crate::tokens::{Token, begins_name, decimal, is_name_byte};
use std::alloc::Global;

/// The tokens that are left, and where memory is taken from.
#[derive(Drop)]
pub struct Cursor<'r, 't> {
    pub alloc: Global,
    pub rest: &'r [Token<'t>],
}

// Whether a word is a name.
fn is_name(word: &[u8]) -> bool {
    match word {
        [first, others @ ..] => begins_name(*first) && all_name_bytes(others),
        [] => false,
    }
}

// Whether all bytes stand in names.
fn all_name_bytes(word: &[u8]) -> bool {
    for byte in word {
        if !is_name_byte(*byte) {
            return false;
        }
    }
    true
}

impl<'r, 't> Cursor<'r, 't> {
    /// The first token that is left.
    pub fn first(&self) -> Option<Token<'t>> {
        match self.rest {
            [token, ..] => Some(*token),
            [] => None,
        }
    }

    /// Passes the first token.
    pub fn advance(&mut self) {
        if let [_, rest @ ..] = self.rest {
            self.rest = rest;
        }
    }

    /// Passes this mark, if it comes first.
    pub fn takes_mark(&mut self, mark: u8) -> bool {
        match self.first() {
            Some(Token::Mark(byte)) if byte == mark => {
                self.advance();
                true
            }
            _ => false,
        }
    }

    /// Passes this word, if it comes first.
    pub fn takes_word(&mut self, word: &[u8]) -> bool {
        match self.first() {
            Some(Token::Word(other)) if other == word => {
                self.advance();
                true
            }
            _ => false,
        }
    }

    /// Passes this mark, which has to come first.
    pub fn mark(&mut self, mark: u8) -> Result<(), Fault> {
        require(self.takes_mark(mark))
    }

    /// Passes this word, which has to come first.
    pub fn word(&mut self, word: &[u8]) -> Result<(), Fault> {
        require(self.takes_word(word))
    }

    /// Passes this operator, which has to come first.
    pub fn operator(&mut self, operator: &[u8]) -> Result<(), Fault> {
        match self.first() {
            Some(Token::Operator(other)) if other == operator => {
                self.advance();
                Ok(())
            }
            _ => Err(Fault::Unreadable),
        }
    }

    /// The word that comes first.
    pub fn any_word(&mut self) -> Result<&'t [u8], Fault> {
        match self.first() {
            Some(Token::Word(word)) => {
                self.advance();
                Ok(word)
            }
            _ => Err(Fault::Unreadable),
        }
    }

    /// The name that comes first.
    pub fn name(&mut self) -> Result<&'t [u8], Fault> {
        let word = self.any_word()?;
        require(is_name(word))?;
        Ok(word)
    }

    /// The decimal number that comes first.
    pub fn number(&mut self) -> Result<u32, Fault> {
        let word = self.any_word()?;
        require_some(decimal(word))
    }

    /// A range `[h:0]`, by how many bits it has, or none.
    pub fn range(&mut self) -> Result<Option<u32>, Fault> {
        if !self.takes_mark(b'[') {
            return Ok(None);
        }
        let high = self.number()?;
        self.mark(b':')?;
        let low = self.number()?;
        self.mark(b']')?;
        require(low == 0 && high < 128)?;
        Ok(high.checked_add(1))
    }
}
