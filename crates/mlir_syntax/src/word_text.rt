//! Words, strings and symbols in a text (CIRCT, Comb dialect: ICmpPredicate; MLIR language reference:
//! "Identifiers and keywords").
ghost use Rattle.std.specs.Prelude.{◌≡◌, ◌≤◌, length, cond, OnOk, Some, option_and_then};
ghost use Rattle.std.specs.Option.{option_map};
ghost use Rattle.hw_model.specs.KindViews.{predicate_of};
ghost use Rattle.mlir_lexer.specs.Tokens.{text_token};
ghost use Rattle.mlir_syntax.specs.Stream.{first, is_first, is_word, after};
ghost use Rattle.mlir_syntax.specs.WordText.{predicate_named, predicate_text, truth_named, truth_text, string_text, symbol_text, bare_text, module_symbol, inner_symbol};
ghost use Rattle.mlir_syntax.specs.Views.{ReadsAs};

use crate::attribute_text::is_symbol;
use crate::fail::ReadFail;
use crate::reader::Reader;
use diag::cause::Cause;
use diag::refusal::OpName;
use hw_model::kinds::Predicate;
use io_edge::byte_text::Text;
use mlir_lexer::token::{Token, TokenKind, is_kind};

impl<'s> Reader<'s> {
    /// Passes the first token where it is this word, and says whether it is.
    pub fn pass_word(&mut self, word: &[u8]) -> bool
        ensures is { result ≡ is_first (is_word word.now) self.old }
        ensures after { self.new ≡ cond result (after self.old) self.old }
        ensures shorter { length self.new ≤ length self.old }
    {
        let is_next = self.is_word(word);
        if is_next {
            self.advance();
        }
        is_next
    }

    /// The predicate of a comparison.
    ///
    /// Refuses everything else.
    #[tactic(auto, unfolding(crate::specs::WordText::predicate_text))]
    pub fn predicate_text(&mut self, op: OpName) -> Result<Predicate, ReadFail>
        ensures gives { ReadsAs predicate_of result self.new (predicate_text op self.old) }
        ensures shorter { OnOk result (length self.new ≤ length self.old) }
    {
        match self.first_predicate() {
            Some(predicate) => {
                self.advance();
                Ok(predicate)
            }
            None => Err(ReadFail::Refused(self.unexpected_token(op))),
        }
    }

    // The predicate that the first token names.
    fn first_predicate(&self) -> Option<Predicate>
        ensures { option_map predicate_of result ≡ option_and_then predicate_named (bare_text (first self.now)) }
    {
        match self.first() {
            Some(token) => predicate_at(token),
            None => None,
        }
    }

    /// `true` or `false`.
    ///
    /// Refuses everything else.
    #[tactic(auto, unfolding(crate::specs::WordText::truth_text))]
    pub fn truth_text(&mut self, op: OpName) -> Result<bool, ReadFail>
        ensures gives { ReadsAs (λ b. b) result self.new (truth_text op self.old) }
        ensures shorter { OnOk result (length self.new ≤ length self.old) }
    {
        match self.first_truth() {
            Some(truth) => {
                self.advance();
                Ok(truth)
            }
            None => Err(ReadFail::Refused(self.unexpected_token(op))),
        }
    }

    // The truth value that the first token names.
    fn first_truth(&self) -> Option<bool>
        ensures { result ≡ option_and_then truth_named (bare_text (first self.now)) }
    {
        match self.first() {
            Some(token) => truth_at(token),
            None => None,
        }
    }

    /// What a string holds.
    ///
    /// Refuses what is no string.
    #[tactic(auto, unfolding(crate::specs::WordText::string_text))]
    pub fn string_text(&mut self, op: OpName) -> Result<Text, ReadFail>
        ensures gives { ReadsAs (λ text. text) result self.new (string_text op self.old) }
        ensures shorter { OnOk result (length self.new ≤ length self.old) }
    {
        let token = self.want(op, TokenKind::StringLiteral)?;
        let text = self.string(token)?;
        Ok(text)
    }

    /// A symbol's name.
    ///
    /// Refuses what is no symbol.
    #[tactic(auto, unfolding(crate::specs::WordText::symbol_text))]
    pub fn symbol_text(&mut self, op: OpName) -> Result<Text, ReadFail>
        ensures gives { ReadsAs (λ name. name) result self.new (symbol_text op self.old) }
        ensures shorter { OnOk result (length self.new ≤ length self.old) }
    {
        match self.first() {
            Some(token) if is_symbol(token) => {
                let name = self.content(token)?;
                self.advance();
                Ok(name)
            }
            Some(_) | None => Err(ReadFail::Refused(self.unexpected_token(op))),
        }
    }

    /// `@N`: the symbol of a module.
    ///
    /// Refuses what is no symbol, and parameters after it.
    #[tactic(auto, unfolding(crate::specs::WordText::module_symbol))]
    pub fn module_symbol(&mut self, op: OpName) -> Result<Text, ReadFail>
        ensures gives { ReadsAs (λ name. name) result self.new (module_symbol op self.old) }
        ensures shorter { OnOk result (length self.new ≤ length self.old) }
    {
        let name = self.symbol_text(op)?;
        if self.is_next(TokenKind::Less) {
            Err(ReadFail::Refused(self.refusal_for(Cause::OutsideProfile, op)))
        } else {
            Ok(name)
        }
    }

    /// `sym @s`, or nothing.
    ///
    /// Refuses `sym` without a symbol.
    #[tactic(auto, unfolding(crate::specs::WordText::inner_symbol))]
    pub fn inner_symbol(&mut self, op: OpName) -> Result<Option<Text>, ReadFail>
        ensures gives { ReadsAs (λ name. name) result self.new (inner_symbol op self.old) }
        ensures shorter { OnOk result (length self.new ≤ length self.old) }
    {
        if !self.pass_word(b"sym") {
            return Ok(None);
        }
        let name = self.symbol_text(op)?;
        Ok(Some(name))
    }
}

// The predicate that a token names.
fn predicate_at(token: Token) -> Option<Predicate>
    ensures { option_map predicate_of result ≡ option_and_then predicate_named (bare_text (Some (text_token token.entry))) }
{
    if is_kind(token.kind, TokenKind::BareName) {
        predicate_named(token.text)
    } else {
        None
    }
}

// The predicate of a name.
#[tactic(auto, unfolding(crate::specs::WordText::predicate_named))]
fn predicate_named(name: &[u8]) -> Option<Predicate>
    ensures { option_map predicate_of result ≡ predicate_named name.now }
{
    if name == b"eq".as_slice() {
        Some(Predicate::Eq)
    } else if name == b"ne".as_slice() {
        Some(Predicate::Ne)
    } else if name == b"slt".as_slice() {
        Some(Predicate::Slt)
    } else if name == b"sle".as_slice() {
        Some(Predicate::Sle)
    } else if name == b"sgt".as_slice() {
        Some(Predicate::Sgt)
    } else if name == b"sge".as_slice() {
        Some(Predicate::Sge)
    } else if name == b"ult".as_slice() {
        Some(Predicate::Ult)
    } else if name == b"ule".as_slice() {
        Some(Predicate::Ule)
    } else if name == b"ugt".as_slice() {
        Some(Predicate::Ugt)
    } else if name == b"uge".as_slice() {
        Some(Predicate::Uge)
    } else if name == b"ceq".as_slice() {
        Some(Predicate::Ceq)
    } else if name == b"cne".as_slice() {
        Some(Predicate::Cne)
    } else if name == b"weq".as_slice() {
        Some(Predicate::Weq)
    } else if name == b"wne".as_slice() {
        Some(Predicate::Wne)
    } else {
        None
    }
}

// The truth value that a token names.
fn truth_at(token: Token) -> Option<bool>
    ensures { result ≡ option_and_then truth_named (bare_text (Some (text_token token.entry))) }
{
    if is_kind(token.kind, TokenKind::BareName) {
        truth_named(token.text)
    } else {
        None
    }
}

// The truth value of a name.
#[tactic(auto, unfolding(crate::specs::WordText::truth_named))]
fn truth_named(name: &[u8]) -> Option<bool>
    ensures { result ≡ truth_named name.now }
{
    if name == b"true".as_slice() {
        Some(true)
    } else if name == b"false".as_slice() {
        Some(false)
    } else {
        None
    }
}
