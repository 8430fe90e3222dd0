//! A text as it is read, token by token.
ghost use Rattle.std.specs.Prelude.{◌≡◌, ◌<◌, length, cond, OnOk, IsTrue};
ghost use Rattle.std.specs.Option.{option_map};
ghost use Rattle.mlir_lexer.specs.Tokens.{text_token};
ghost use Rattle.mlir_syntax.specs.Stream.{stream_of, is_word, first, is_next, is_first, after, refusal_at, unexpected_refusal, refusal, cause_of_first, is_end};
ghost use Rattle.mlir_lexer.specs.TokenKinds.{is_kind};
ghost use Rattle.mlir_syntax.specs.Heads.{stream_left, symbols};
ghost use Rattle.mlir_syntax.specs.Reads.{want, want_word};
ghost use Rattle.mlir_syntax.specs.Views.{ReadsAs};

use crate::fail::ReadFail;
use crate::head::Head;
use diag::cause::Cause;
use diag::refusal::{Location, OpName, Refusal};
use mlir_lexer::token::{Token, TokenKind, is_kind};
use mlir_lexer::tokens::Tokens;
use std::alloc::Global;
use std::marker::Model;

/// A text that is being read, of which the first token that is left is seen. Contracts see it as the
/// tokens that are left. It takes no memory.
#[derive(Drop)]
pub struct Reader<'s> {
    alloc: Global,
    tokens: Tokens<'s>,
    head: Head<'s>,
}

impl<'s> Model for Reader<'s> {
    ghost use Rattle.std.specs.Prelude.{List};
    ghost use Rattle.mlir_syntax.specs.Stream.{StreamToken};
    ghost use Rattle.mlir_syntax.specs.Heads.{stream_left, symbols};

    ghost Value = { List StreamToken };

    ghost view = { λ r. symbols r.head (stream_left r.tokens) };
}

impl<'s> Reader<'s> {
    /// A text of which nothing is read. What is read of it is put into memory of `alloc`.
    pub fn new(alloc: Global, source: &'s [u8]) -> Reader<'s>
        ensures start { result ≡ stream_of source.now }
    {
        let mut tokens = Tokens::new(source);
        let mut head = Head::End(tokens.location());
        see_next(&mut head, &mut tokens);
        Reader {
            alloc,
            tokens,
            head,
        }
    }

    /// Where memory is taken from.
    pub fn alloc(&self) -> Global {
        self.alloc
    }

    /// The first token that is left; None at the end, and where a byte begins none.
    pub fn first(&self) -> Option<Token<'s>>
        ensures { option_map text_token result ≡ first self.now }
    {
        match self.head {
            Head::Token(token) => Some(token),
            Head::Bad(_) | Head::End(_) => None,
        }
    }

    /// Whether the first token that is left is of this kind.
    pub fn is_next(&self, kind: TokenKind) -> bool
        ensures { result ≡ is_next kind self.now }
    {
        match self.head {
            Head::Token(token) => is_kind(token.kind, kind),
            Head::Bad(_) | Head::End(_) => false,
        }
    }

    /// Whether the first token that is left is this word.
    pub fn is_word(&self, word: &[u8]) -> bool
        ensures { result ≡ is_first (is_word word.now) self.now }
    {
        match self.head {
            Head::Token(token) => is_word(token, word),
            Head::Bad(_) | Head::End(_) => false,
        }
    }

    /// Whether the text ends here.
    pub fn is_end(&self) -> bool
        ensures { result ≡ is_end self.now }
    {
        match self.head {
            Head::Token(_) => false,
            Head::Bad(_) => false,
            Head::End(_) => true,
        }
    }

    /// Passes the first token. The end is not passed, nor is a byte that begins no token.
    #[inline(never)]
    pub fn advance(&mut self)
        ensures { self.new ≡ after self.old }
    {
        if let Head::Token(_) = self.head {
            see_next(&mut self.head, &mut self.tokens);
        }
    }

    /// Passes the first token where it is of this kind, and says whether it is.
    pub fn pass(&mut self, kind: TokenKind) -> bool
        ensures is { result ≡ is_next kind self.old }
        ensures after { self.new ≡ cond result (after self.old) self.old }
        ensures shorter { IsTrue result → length self.new < length self.old }
    {
        let is_next = self.is_next(kind);
        if is_next {
            self.advance();
        }
        is_next
    }

    /// Passes a token of this kind.
    ///
    /// Refuses everything else that stands there.
    #[inline(always)]
    #[tactic(auto, unfolding(crate::specs::Reads::want))]
    pub fn want(&mut self, op: OpName, kind: TokenKind) -> Result<Token<'s>, ReadFail>
        ensures gives { ReadsAs text_token result self.new (want op kind self.old) }
        ensures shorter { OnOk result (length self.new < length self.old) }
    {
        match self.head {
            Head::Token(token) if is_kind(token.kind, kind) => {
                self.advance();
                Ok(token)
            }
            Head::Token(_) | Head::Bad(_) | Head::End(_) => {
                Err(ReadFail::Refused(self.unexpected_token(op)))
            }
        }
    }

    /// Passes this word.
    ///
    /// Refuses everything else that stands there.
    #[tactic(auto, unfolding(crate::specs::Reads::want_word))]
    pub fn want_word(&mut self, op: OpName, word: &[u8]) -> Result<Token<'s>, ReadFail>
        ensures gives { ReadsAs text_token result self.new (want_word op word.now self.old) }
        ensures shorter { OnOk result (length self.new < length self.old) }
    {
        match self.head {
            Head::Token(token) if is_word(token, word) => {
                self.advance();
                Ok(token)
            }
            Head::Token(_) | Head::Bad(_) | Head::End(_) => {
                Err(ReadFail::Refused(self.unexpected_token(op)))
            }
        }
    }

    /// The refusal of what stands first, where no form has it there.
    pub fn unexpected_token(&self, op: OpName) -> Refusal
        ensures { result ≡ unexpected_refusal op self.now }
    {
        match self.head {
            Head::Token(token) => refusal(token.location, op, cause_of_first(token)),
            Head::Bad(location) => refusal(location, op, Cause::BadByte),
            Head::End(location) => refusal(location, op, Cause::Unexpected),
        }
    }

    /// The refusal of what stands first, where it is a token for this cause.
    pub fn refusal_for(&self, cause: Cause, op: OpName) -> Refusal
        ensures { result ≡ refusal_at cause op self.now }
    {
        match self.head {
            Head::Token(token) => refusal(token.location, op, cause),
            Head::Bad(location) => refusal(location, op, Cause::BadByte),
            Head::End(location) => refusal(location, op, Cause::Unexpected),
        }
    }
}

// Sees what is next of the tokens, and puts it instead of what was seen.
#[inline(always)]
fn see_next<'s>(head: &mut Head<'s>, tokens: &mut Tokens<'s>)
    ensures { symbols head.new (stream_left tokens.new) ≡ stream_left tokens.old }
{
    match tokens.next() {
        Ok(Some(token)) => *head = Head::Token(token),
        Ok(None) => *head = Head::End(tokens.location()),
        Err(fail) => *head = Head::Bad(fail.location),
    }
}

// A refusal of one file.
fn refusal(location: Location, op: OpName, cause: Cause) -> Refusal
    ensures { result ≡ refusal location op cause }
{
    Refusal {
        file: 0,
        location,
        op,
        cause,
    }
}

// The cause for which a token is refused that no form has there.
fn cause_of_first(token: Token) -> Cause
    ensures { result ≡ cause_of_first (text_token token.entry) }
{
    if is_word(token, b"loc") {
        Cause::OutsideProfile
    } else {
        Cause::Unexpected
    }
}

/// Whether a token is this word.
pub fn is_word(token: Token, word: &[u8]) -> bool
    ensures { result ≡ is_word word.now (text_token token.entry) }
{
    is_kind(token.kind, TokenKind::BareName) && token.text == word
}
