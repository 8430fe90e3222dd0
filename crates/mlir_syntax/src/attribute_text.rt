//! Attributes in a text (MLIR language reference: "Attributes").
ghost use Rattle.std.specs.Prelude.{◌≡◌, ◌≤◌, length, map, Some, Ok, IfOk, OnOk, false};
ghost use Rattle.hw_model.specs.TypeViews.{type_of};
ghost use Rattle.hw_model.specs.KindViews.{integer_of};
ghost use Rattle.hw_model.specs.Design.Attribute.{text_value, symbol_value, truth_value, integer_value, list_value};
ghost use Rattle.ir_store.specs.DictionaryViews.{attribute_of};
ghost use Rattle.mlir_lexer.specs.Contents.{content_of};
ghost use Rattle.mlir_lexer.specs.Tokens.{text_token};
ghost use Rattle.mlir_lexer.specs.declared.token.TokenKind.TheVariants as kind;
ghost use Rattle.mlir_syntax.specs.Stream.{first, after};
ghost use Rattle.mlir_syntax.specs.Numerals.{signed};
ghost use Rattle.mlir_syntax.specs.Reads.{some_items, items_until};
ghost use Rattle.mlir_syntax.specs.AttributeText.{attribute_head, is_symbol, begins_integer, is_stored, stored_integer, integer_type, typed_integer, in_order, list_text, attribute_text};
ghost use Rattle.mlir_syntax.specs.AttributeHeads.{head_of};
ghost use Rattle.mlir_syntax.specs.Views.{ReadsAs};

use crate::fail::ReadFail;
use crate::numerals::signed;
use crate::reader::{Reader, is_word};
use diag::cause::Cause;
use diag::refusal::OpName;
use hw_model::kinds::Integer;
use hw_model::types::Ty;
use io_edge::byte_text::Text;
use ir_store::dictionary::{Attribute, AttributeList};
use mlir_lexer::token::{Token, TokenKind, is_kind};
use std::alloc::AllocError;

/// What a token begins an attribute as.
#[derive(Clone, Copy)]
pub enum AttributeHead<'s> {
    /// A string.
    Text(Token<'s>),
    /// A symbol.
    Symbol(Token<'s>),
    /// `true` or `false`.
    Truth(bool),
    /// An integer.
    Number,
    /// A list.
    List,
    /// An alias.
    Alias,
    /// No attribute.
    Nothing,
}

impl<'s> Reader<'s> {
    /// An attribute, where so many more lists and types may be opened.
    ///
    /// Refuses what is no attribute, an alias, an integer beyond -2^63 to 2^64 - 1, and a list
    /// after that many open ones.
    #[cycle(attributes)]
    pub fn attribute_text(&mut self, op: OpName, room: u32) -> Result<Attribute, ReadFail>
        ensures gives { ReadsAs attribute_of result self.new (attribute_text room op self.old) }
        ensures shorter { OnOk result (length self.new ≤ length self.old) }
    {
        match self.attribute_head() {
            AttributeHead::Text(token) => self.text_value(token),
            AttributeHead::Symbol(token) => self.symbol_value(token),
            AttributeHead::Truth(truth) => {
                self.advance();
                Ok(truth_value(truth))
            }
            AttributeHead::Number => self.typed_integer(op, room),
            AttributeHead::List if room > 0 => self.list_text(op, room - 1),
            AttributeHead::List => Err(ReadFail::Refused(self.refusal_for(Cause::TooDeep, op))),
            AttributeHead::Alias => Err(ReadFail::Refused(self.refusal_for(
                Cause::OutsideProfile,
                op,
            ))),
            AttributeHead::Nothing => Err(ReadFail::Refused(self.unexpected_token(op))),
        }
    }

    // What the first token begins an attribute as.
    fn attribute_head(&self) -> AttributeHead<'s>
        ensures { head_of result ≡ attribute_head (first self.now) }
    {
        match self.first() {
            Some(token) => attribute_head(token),
            None => AttributeHead::Nothing,
        }
    }

    // The first token's string, as an attribute.
    fn text_value(&mut self, token: Token<'s>) -> Result<Attribute, ReadFail>
        ensures gives { ReadsAs attribute_of result self.new (Ok (text_value (content_of kind.StringLiteral token.entry.text.now), after self.old)) }
        ensures shorter { OnOk result (length self.new ≤ length self.old) }
    {
        let text = self.string(token)?;
        self.advance();
        Ok(text_value(text))
    }

    // The first token's symbol, as an attribute.
    fn symbol_value(&mut self, token: Token<'s>) -> Result<Attribute, ReadFail>
        ensures gives { ReadsAs attribute_of result self.new (Ok (symbol_value (content_of token.entry.kind token.entry.text.now), after self.old)) }
        ensures shorter { OnOk result (length self.new ≤ length self.old) }
    {
        let name = self.content(token)?;
        self.advance();
        Ok(symbol_value(name))
    }

    // An integer and its type.
    #[tactic(auto, unfolding(crate::specs::AttributeText::typed_integer))]
    fn typed_integer(&mut self, op: OpName, room: u32) -> Result<Attribute, ReadFail>
        ensures gives { ReadsAs attribute_of result self.new (typed_integer room op self.old) }
        ensures shorter { OnOk result (length self.new ≤ length self.old) }
    {
        let value = self.stored_integer(op)?;
        let ty = self.integer_type(op, room)?;
        Ok(integer_value(value, ty))
    }

    // An integer from -2^63 to 2^64 - 1.
    fn stored_integer(&mut self, op: OpName) -> Result<Integer, ReadFail>
        ensures gives { ReadsAs integer_of result self.new (stored_integer op self.old) }
        ensures shorter { OnOk result (length self.new ≤ length self.old) }
    {
        let minus = self.pass(TokenKind::Minus);
        let too_large = self.refusal_for(Cause::NumberTooLarge, op);
        match self.number(op) {
            Ok(distance) => {
                let value = signed(minus, distance);
                if is_stored(value) {
                    Ok(value)
                } else {
                    Err(ReadFail::Refused(too_large))
                }
            }
            Err(fail) => Err(fail),
        }
    }

    // `: T`, or nothing, which means i64.
    #[tactic(auto, unfolding(crate::specs::AttributeText::integer_type))]
    fn integer_type(&mut self, op: OpName, room: u32) -> Result<Ty, ReadFail>
        ensures gives { ReadsAs type_of result self.new (integer_type room op self.old) }
        ensures shorter { OnOk result (length self.new ≤ length self.old) }
    {
        if self.pass(TokenKind::Colon) {
            self.type_text(op, room)
        } else {
            Ok(Ty::Int(64))
        }
    }

    // `[V, ..]`
    #[cycle(attributes)]
    #[tactic(auto, unfolding(crate::specs::AttributeText::list_text))]
    fn list_text(&mut self, op: OpName, room: u32) -> Result<Attribute, ReadFail>
        ensures gives { ReadsAs attribute_of result self.new (list_text (attribute_text room op) op self.old) }
        ensures shorter { OnOk result (length self.new ≤ length self.old) }
    {
        self.advance();
        match self.attributes_text(op, room) {
            Ok(attributes) => Ok(list_value(attributes)),
            Err(fail) => Err(fail),
        }
    }

    // Attributes up to `]`.
    #[cycle(attributes)]
    #[tactic(auto, unfolding(crate::specs::Reads::items_until))]
    fn attributes_text(&mut self, op: OpName, room: u32) -> Result<Vec<Attribute>, ReadFail>
        ensures gives { ReadsAs (λ attributes. map attribute_of attributes.items) result self.new (items_until op kind.RightBracket (attribute_text room op) self.old) }
        ensures shorter { OnOk result (length self.new ≤ length self.old) }
    {
        if self.pass(TokenKind::RightBracket) {
            return Ok(Vec::new(self.alloc()));
        }
        let attributes = self.some_attributes(op, room)?;
        self.want(op, TokenKind::RightBracket)?;
        Ok(attributes)
    }

    // One attribute or more.
    #[cycle(attributes)]
    fn some_attributes(&mut self, op: OpName, room: u32) -> Result<Vec<Attribute>, ReadFail>
        ensures gives { ReadsAs (λ attributes. map attribute_of attributes.items) result self.new (some_items op (attribute_text room op) self.old) }
        ensures shorter { OnOk result (length self.new ≤ length self.old) }
    {
        let mut attributes = Vec::new(self.alloc());
        loop {
            match self.attribute_text(op, room) {
                Ok(attribute) => attributes.push(attribute)?,
                Err(fail) => return Err(fail),
            }
            if !self.pass(TokenKind::Comma) {
                return Ok(attributes);
            }
        }
    }

    /// What a token's bytes hold as a string.
    pub fn string(&self, token: Token<'s>) -> Result<Text, AllocError>
        ensures { IfOk result (λ text. text ≡ content_of kind.StringLiteral token.entry.text.now) }
    {
        self.content(Token {
            kind: TokenKind::StringLiteral,
            location: token.location,
            at: token.at,
            text: token.text,
        })
    }
}

// What a token begins an attribute as.
fn attribute_head<'s>(token: Token<'s>) -> AttributeHead<'s>
    ensures { head_of result ≡ attribute_head (Some (text_token token.entry)) }
{
    if is_kind(token.kind, TokenKind::StringLiteral) {
        AttributeHead::Text(token)
    } else if begins_integer(token) {
        AttributeHead::Number
    } else if is_word(token, b"true") {
        AttributeHead::Truth(true)
    } else if is_word(token, b"false") {
        AttributeHead::Truth(false)
    } else if is_symbol(token) {
        AttributeHead::Symbol(token)
    } else if is_kind(token.kind, TokenKind::LeftBracket) {
        AttributeHead::List
    } else if is_kind(token.kind, TokenKind::AttributeAlias) {
        AttributeHead::Alias
    } else {
        AttributeHead::Nothing
    }
}

/// Whether a token is a symbol.
pub fn is_symbol(token: Token) -> bool
    ensures { result ≡ is_symbol (text_token token.entry) }
{
    is_kind(token.kind, TokenKind::SymbolName) || is_kind(token.kind, TokenKind::SymbolString)
}

/// Whether a token begins an integer.
pub fn begins_integer(token: Token) -> bool
    ensures { result ≡ begins_integer (text_token token.entry) }
{
    is_kind(token.kind, TokenKind::Integer) || is_kind(token.kind, TokenKind::Minus)
}

/// Whether an integer is one that a dictionary may hold: -2^63 to 2^64 - 1.
pub fn is_stored(value: Integer) -> bool
    ensures { result ≡ is_stored (integer_of value) }
{
    match value {
        Integer::NonNegative(number) => number < 1 << 64,
        Integer::Negative(number) => number < 1 << 63,
    }
}

// A string.
pub(crate) fn text_value(text: Text) -> Attribute
    ensures { attribute_of result ≡ text_value text }
{
    Attribute::String(text)
}

// A symbol.
fn symbol_value(name: Text) -> Attribute
    ensures { attribute_of result ≡ symbol_value name }
{
    Attribute::Symbol(name)
}

// A truth value.
fn truth_value(truth: bool) -> Attribute
    ensures { attribute_of result ≡ truth_value truth }
{
    Attribute::Bool(truth)
}

// An integer of a type.
fn integer_value(value: Integer, ty: Ty) -> Attribute
    ensures { attribute_of result ≡ integer_value (integer_of value) (type_of ty) }
{
    Attribute::Integer(value, ty)
}

// A list.
fn list_value(attributes: Vec<Attribute>) -> Attribute
    ensures { attribute_of result ≡ list_value (in_order (map attribute_of attributes.items)) }
{
    Attribute::Array(AttributeList { attributes })
}
