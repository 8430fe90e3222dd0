//! Types in a text (MLIR language reference, builtin dialect: IntegerType; CIRCT: HW dialect types,
//! Seq dialect types).
ghost use Rattle.std.specs.Prelude.{◌≡◌, ◌≤◌, length, map, drop, IfOk, OnOk, Some};
ghost use Rattle.std.specs.Option.{option_map};
ghost use Rattle.mlir_lexer.specs.Contents.{content_of};
ghost use Rattle.hw_model.specs.TypeViews.{type_of, field_of};
ghost use Rattle.mlir_lexer.specs.Tokens.{text_token};
ghost use Rattle.mlir_lexer.specs.declared.token.TokenKind.TheVariants as kind;
ghost use Rattle.mlir_syntax.specs.Stream.{first};
ghost use Rattle.mlir_syntax.specs.Reads.{some_items, items_until};
ghost use Rattle.mlir_syntax.specs.TypeText.{type_text, any_type, array_text, element_type, element_after, glued_element, width_type, width_digits, after_x, x_rest, named_type, type_head, is_name, name_text, field_text, struct_text};
ghost use Rattle.mlir_syntax.specs.TypeHeads.{head_of};
ghost use Rattle.mlir_syntax.specs.Views.{ReadsAs};

use crate::fail::ReadFail;
use crate::numerals::decimal;
use crate::reader::Reader;
use diag::cause::Cause;
use diag::refusal::OpName;
use hw_model::types::{Field, FieldList, Ty};
use io_edge::byte_text::Text;
use mlir_lexer::classes::{Digit, run_of};
use mlir_lexer::token::{Token, TokenKind, is_kind};
use std::alloc::AllocError;

/// How many types and lists may be open at a location.
pub const MOST_OPEN: u32 = 32;

/// What a token begins a type as.
#[derive(Clone, Copy)]
pub enum TypeHead<'s> {
    /// An integer type, by the digits of its width.
    Integer(&'s [u8]),
    /// The type of clocks.
    Clock,
    /// An array.
    Array,
    /// A struct.
    Struct,
    /// A type of another dialect.
    Foreign,
    /// No type.
    Nothing,
}

impl<'s> Reader<'s> {
    /// A type, where so many more types may be opened.
    ///
    /// Refuses what is no type, a type of another dialect, a width or a length of 2^32 or more, and
    /// a type after that many open ones.
    #[cycle(types)]
    pub fn type_text(&mut self, op: OpName, room: u32) -> Result<Ty, ReadFail>
        ensures gives { ReadsAs type_of result self.new (type_text room op self.old) }
        ensures shorter { OnOk result (length self.new ≤ length self.old) }
    {
        match self.type_head() {
            TypeHead::Integer(digits) => self.width_type(op, digits),
            TypeHead::Clock => {
                self.advance();
                Ok(Ty::Clock)
            }
            TypeHead::Array if room > 0 => self.array_text(op, room - 1),
            TypeHead::Struct if room > 0 => self.struct_text(op, room - 1),
            TypeHead::Array => Err(ReadFail::Refused(self.refusal_for(Cause::TooDeep, op))),
            TypeHead::Struct => Err(ReadFail::Refused(self.refusal_for(Cause::TooDeep, op))),
            TypeHead::Foreign => Err(ReadFail::Refused(self.refusal_for(
                Cause::OutsideProfile,
                op,
            ))),
            TypeHead::Nothing => Err(ReadFail::Refused(self.unexpected_token(op))),
        }
    }

    /// A type, where nothing is open.
    ///
    /// Refuses as `type_text` does.
    pub fn any_type(&mut self, op: OpName) -> Result<Ty, ReadFail>
        ensures gives { ReadsAs type_of result self.new (any_type op self.old) }
        ensures shorter { OnOk result (length self.new ≤ length self.old) }
    {
        self.type_text(op, MOST_OPEN)
    }

    // What the first token begins a type as.
    fn type_head(&self) -> TypeHead<'s>
        ensures { head_of result ≡ type_head (first self.now) }
    {
        match self.first() {
            Some(token) => type_head(token),
            None => TypeHead::Nothing,
        }
    }

    // An integer type of the width that the digits say, which the first token has.
    #[tactic(auto, unfolding(crate::specs::TypeText::width_type, crate::specs::Numerals::below_limit))]
    fn width_type(&mut self, op: OpName, digits: &[u8]) -> Result<Ty, ReadFail>
        ensures gives { ReadsAs type_of result self.new (width_type op self.old digits.now) }
        ensures shorter { OnOk result (length self.new ≤ length self.old) }
    {
        match decimal(digits) {
            Some(width) => {
                self.advance();
                Ok(Ty::Int(width))
            }
            None => Err(ReadFail::Refused(self.refusal_for(Cause::NumberTooLarge, op))),
        }
    }

    // `<NxT>` after the first token.
    #[cycle(types)]
    #[tactic(auto, unfolding(crate::specs::TypeText::array_text))]
    fn array_text(&mut self, op: OpName, room: u32) -> Result<Ty, ReadFail>
        ensures gives { ReadsAs type_of result self.new (array_text (type_text room op) op self.old) }
        ensures shorter { OnOk result (length self.new ≤ length self.old) }
    {
        self.advance();
        self.want(op, TokenKind::Less)?;
        let length = self.count(op)?;
        let element = self.boxed_element(op, room)?;
        self.want(op, TokenKind::Greater)?;
        Ok(Ty::Array(length, element))
    }

    // `xT`, in memory of its own.
    #[cycle(types)]
    fn boxed_element(&mut self, op: OpName, room: u32) -> Result<Box<Ty>, ReadFail>
        ensures gives { ReadsAs (λ element. type_of element.value) result self.new (element_type (type_text room op) op self.old) }
        ensures shorter { OnOk result (length self.new ≤ length self.old) }
    {
        let element = self.element_type(op, room)?;
        Ok(Box::new(self.alloc(), element)?)
    }

    // `xT`: the type may stand within the token of the `x`.
    #[cycle(types)]
    #[tactic(auto, unfolding(crate::specs::TypeText::element_type, crate::specs::TypeText::element_after, crate::specs::TypeText::glued_element))]
    fn element_type(&mut self, op: OpName, room: u32) -> Result<Ty, ReadFail>
        ensures gives { ReadsAs type_of result self.new (element_type (type_text room op) op self.old) }
        ensures shorter { OnOk result (length self.new ≤ length self.old) }
    {
        match x_rest(self.first()) {
            Some([]) => {
                self.advance();
                self.type_text(op, room)
            }
            Some(glued) => match width_digits(glued) {
                Some(digits) => self.width_type(op, digits),
                None => Err(ReadFail::Refused(self.unexpected_token(op))),
            },
            None => Err(ReadFail::Refused(self.unexpected_token(op))),
        }
    }

    // `<f : T, ..>` after the first token.
    #[cycle(types)]
    #[tactic(auto, unfolding(crate::specs::TypeText::struct_text))]
    fn struct_text(&mut self, op: OpName, room: u32) -> Result<Ty, ReadFail>
        ensures gives { ReadsAs type_of result self.new (struct_text (type_text room op) op self.old) }
        ensures shorter { OnOk result (length self.new ≤ length self.old) }
    {
        self.advance();
        self.want(op, TokenKind::Less)?;
        let fields = self.fields_text(op, room)?;
        Ok(Ty::Struct(FieldList { fields }))
    }

    // Fields up to `>`.
    #[cycle(types)]
    #[tactic(auto, unfolding(crate::specs::Reads::items_until))]
    fn fields_text(&mut self, op: OpName, room: u32) -> Result<Vec<Field>, ReadFail>
        ensures gives { ReadsAs (λ fields. map field_of fields.items) result self.new (items_until op kind.Greater (field_text (type_text room op) op) self.old) }
        ensures shorter { OnOk result (length self.new ≤ length self.old) }
    {
        if self.pass(TokenKind::Greater) {
            return Ok(Vec::new(self.alloc()));
        }
        let fields = self.some_fields(op, room)?;
        self.want(op, TokenKind::Greater)?;
        Ok(fields)
    }

    /// One field or more, with commas between them.
    ///
    /// Refuses as a type does, and what is no field.
    #[cycle(types)]
    pub fn some_fields(&mut self, op: OpName, room: u32) -> Result<Vec<Field>, ReadFail>
        ensures gives { ReadsAs (λ fields. map field_of fields.items) result self.new (some_items op (field_text (type_text room op) op) self.old) }
        ensures shorter { OnOk result (length self.new ≤ length self.old) }
    {
        let mut fields = Vec::new(self.alloc());
        loop {
            match self.field_text(op, room) {
                Ok(field) => fields.push(field)?,
                Err(fail) => return Err(fail),
            }
            if !self.pass(TokenKind::Comma) {
                return Ok(fields);
            }
        }
    }

    // `f : T`
    #[cycle(types)]
    #[tactic(auto, unfolding(crate::specs::TypeText::field_text))]
    fn field_text(&mut self, op: OpName, room: u32) -> Result<Field, ReadFail>
        ensures gives { ReadsAs field_of result self.new (field_text (type_text room op) op self.old) }
        ensures shorter { OnOk result (length self.new ≤ length self.old) }
    {
        let name = self.name_text(op)?;
        self.want(op, TokenKind::Colon)?;
        let ty = self.type_text(op, room)?;
        Ok(Field { name, ty })
    }

    /// A bare name, or what a string holds.
    ///
    /// Refuses everything else.
    #[tactic(auto, unfolding(crate::specs::TypeText::name_text))]
    pub fn name_text(&mut self, op: OpName) -> Result<Text, ReadFail>
        ensures gives { ReadsAs (λ name. name) result self.new (name_text op self.old) }
        ensures shorter { OnOk result (length self.new ≤ length self.old) }
    {
        match self.first() {
            Some(token) if is_name(token) => {
                let name = self.content(token)?;
                self.advance();
                Ok(name)
            }
            Some(_) | None => Err(ReadFail::Refused(self.unexpected_token(op))),
        }
    }

    /// What a token holds, in memory of its own.
    pub fn content(&self, token: Token<'s>) -> Result<Text, AllocError>
        ensures { IfOk result (λ text. text ≡ content_of token.entry.kind token.entry.text.now) }
    {
        let mut text = Text::with_room(self.alloc(), token.text.len())?;
        token.push_content(&mut text)?;
        Ok(text)
    }
}

// What a token begins a type as.
fn type_head<'s>(token: Token<'s>) -> TypeHead<'s>
    ensures { head_of result ≡ type_head (Some (text_token token.entry)) }
{
    if is_kind(token.kind, TokenKind::BareName) {
        match width_digits(token.text) {
            Some(digits) => TypeHead::Integer(digits),
            None => TypeHead::Nothing,
        }
    } else if is_kind(token.kind, TokenKind::TypeName) {
        named_type(after_sign(token.text))
    } else {
        TypeHead::Nothing
    }
}

// What a name after `!` begins a type as.
fn named_type<'s>(name: &[u8]) -> TypeHead<'s>
    ensures { head_of result ≡ named_type name.now }
{
    if name == b"seq.clock".as_slice() {
        TypeHead::Clock
    } else if name == b"hw.array".as_slice() {
        TypeHead::Array
    } else if name == b"hw.struct".as_slice() {
        TypeHead::Struct
    } else {
        TypeHead::Foreign
    }
}

// The digits after an `i`.
fn width_digits(name: &[u8]) -> Option<&[u8]>
    ensures { option_map (λ digits. digits.now) result ≡ width_digits name.now }
{
    match name {
        [b'i', digits @ ..] if !digits.is_empty() && run_of::<Digit>(digits) == digits.len() => {
            Some(digits)
        }
        _ => None,
    }
}

// What the token of the `x` of an array's length has after it.
fn x_rest<'s>(token: Option<Token<'s>>) -> Option<&'s [u8]>
    ensures { option_map (λ rest. rest.now) result ≡ x_rest (option_map text_token token.entry) }
{
    match token {
        Some(token) if is_kind(token.kind, TokenKind::BareName) => after_x(token.text),
        Some(_) | None => None,
    }
}

// What stands after an `x`.
fn after_x(name: &[u8]) -> Option<&[u8]>
    ensures { option_map (λ rest. rest.now) result ≡ after_x name.now }
{
    match name {
        [b'x', rest @ ..] => Some(rest),
        _ => None,
    }
}

// Whether a token is a bare name or a string.
fn is_name(token: Token) -> bool
    ensures { result ≡ is_name (text_token token.entry) }
{
    is_kind(token.kind, TokenKind::BareName) || is_kind(token.kind, TokenKind::StringLiteral)
}

/// What stands after the sign of a name.
pub fn after_sign(text: &[u8]) -> &[u8]
    ensures { result.now ≡ drop 1 text.now }
{
    match text {
        [_, name @ ..] => name,
        [] => &[],
    }
}
