//! The tokens of a text, one at a time.
ghost use Rattle.std.specs.Prelude.{◌≡◌, ◌+◌, ◌<◌, ◌≤◌, take, drop, length};
ghost use Rattle.diag.specs.Location.{location_of, below, further};
ghost use Rattle.mlir_lexer.specs.Tokens.{tokens, tokens_left, Gives, Reads, text_token, bad_byte};

use crate::prefixes::{Prefix, prefix_of};
use crate::token::{Token, TokenKind};
use diag::cause::Cause;
use diag::refusal::{Location, OpName, Refusal};
use std::marker::Model;

/// The tokens of a text, of which a prefix is read. Contracts see it as the text and how many bytes
/// of it are read. It takes no memory.
#[derive(Drop)]
pub struct Tokens<'s> {
    source: &'s [u8],
    at: usize,
    location: Location,
}

impl<'s> Model for Tokens<'s> {
    ghost use Rattle.std.specs.Prelude.{◌≡◌, ◌≤◌, length};
    ghost use Rattle.diag.specs.Location.{location_of};
    ghost use Rattle.mlir_lexer.specs.Cursor.{Cursor};

    ghost Value = { Cursor };

    ghost view = { λ t. record { source = t.source.now; at = t.at } };

    ghost invariant = { λ t. (t.at ≤ length t.source.now) × (t.location ≡ location_of t.source.now t.at) };
}

impl<'s> Tokens<'s> {
    /// The tokens of a text, of which nothing is read.
    pub fn new(source: &'s [u8]) -> Tokens<'s>
        ensures start { result ≡ record { source = source.now; at = 0 } }
        ensures left { tokens_left result ≡ tokens source.now }
    {
        Tokens {
            source,
            at: 0,
            location: Location::start(),
        }
    }

    /// The next token; None exactly at the end of the text, and then at every later call.
    ///
    /// Fails where a byte begins no token, where a string has no end on its line, and at a bad
    /// escape: with the location of that byte, or of the string's opening quote, the file as the
    /// operation, and the file's number 0. It then fails so at every later call.
    #[inline(always)]
    pub fn next(&mut self) -> Result<Option<Token<'s>>, Refusal>
        ensures gives { Gives result (tokens_left self.old) (tokens_left self.new) }
        ensures reads { Reads result self.old self.new }
        ensures source { self.new.source ≡ self.old.source }
    {
        while let Some((first, following)) = self.rest().split_first() {
            match prefix_of(*first, following) {
                Prefix::LineEnd => self.end_line(),
                Prefix::Gap(count) => self.pass(count),
                Prefix::Token(kind, count) => return Ok(Some(self.token(kind, count))),
                Prefix::Bad(before) => return Err(self.refusal(before)),
            }
        }
        Ok(None)
    }

    /// The location after what is read: that of the end of the text once there is no further token.
    pub fn location(&self) -> Location
        ensures { result ≡ location_of self.now.source self.now.at }
    {
        self.location
    }

    // What is not read yet.
    fn rest(&self) -> &'s [u8]
        ensures rest { result.now ≡ drop self.now.at self.now.source }
        ensures within { self.now.at ≤ length self.now.source }
    {
        &self.source[self.at..]
    }

    // Reads the end of a line.
    fn end_line(&mut self)
        requires within { self.old.at < length self.old.source }
        requires end { location_of self.old.source (self.old.at + 1) ≡ below (location_of self.old.source self.old.at) }
        ensures { self.new ≡ record self.old { at = self.old.at + 1 } }
    {
        self.at += 1;
        self.location = self.location.next_line();
    }

    // Reads some bytes within a line.
    fn pass(&mut self, count: usize)
        requires within { self.old.at + count ≤ length self.old.source }
        requires line { location_of self.old.source (self.old.at + count) ≡ further (location_of self.old.source self.old.at) count }
        ensures { self.new ≡ record self.old { at = self.old.at + count } }
    {
        self.at += count;
        self.location = self.location.along(count);
    }

    // Reads a token.
    fn token(&mut self, kind: TokenKind, count: usize) -> Token<'s>
        requires within { self.old.at + count ≤ length self.old.source }
        requires line { location_of self.old.source (self.old.at + count) ≡ further (location_of self.old.source self.old.at) count }
        ensures token { text_token result ≡ record { kind = kind; location = location_of self.old.source self.old.at; at = self.old.at; text = take count (drop self.old.at self.old.source) } }
        ensures after { self.new ≡ record self.old { at = self.old.at + count } }
    {
        let token = Token {
            kind,
            location: self.location,
            at: self.at as u64,
            text: &self.rest()[..count],
        };
        self.pass(count);
        token
    }

    // The refusal of the byte before which so many stand.
    fn refusal(&self, before: usize) -> Refusal
        ensures { result ≡ bad_byte (further (location_of self.now.source self.now.at) before) }
    {
        Refusal {
            file: 0,
            location: self.location.along(before),
            op: OpName::File,
            cause: Cause::BadByte,
        }
    }
}
