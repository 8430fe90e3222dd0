//! The constants of aggregates in a text (CIRCT, HW dialect: `hw.aggregate_constant`).
ghost use Rattle.std.specs.Prelude.{◌≡◌, ◌≤◌, length, map, Some, OnOk};
ghost use Rattle.hw_model.specs.TypeViews.{type_of};
ghost use Rattle.hw_model.specs.Kinds.Literal.{leaf, parts};
ghost use Rattle.hw_model.specs.KindViews.{integer_of, literal_of, literals_in};
ghost use Rattle.mlir_lexer.specs.Tokens.{text_token};
ghost use Rattle.mlir_lexer.specs.declared.token.TokenKind.TheVariants as kind;
ghost use Rattle.mlir_syntax.specs.Stream.{first};
ghost use Rattle.mlir_syntax.specs.Reads.{some_items, items_until};
ghost use Rattle.mlir_syntax.specs.LiteralText.{literal_head, number_leaf, truth_leaf, literals_in_order, parts_text, list_part, literal_text, aggregate_text};
ghost use Rattle.mlir_syntax.specs.LiteralHeads.{head_of};
ghost use Rattle.mlir_syntax.specs.Views.{ReadsAs};

use crate::attribute_text::begins_integer;
use crate::fail::ReadFail;
use crate::reader::{Reader, is_word};
use crate::type_text::MOST_OPEN;
use diag::cause::Cause;
use diag::refusal::OpName;
use hw_model::kinds::{Integer, Literal, LiteralList};
use hw_model::types::Ty;
use mlir_lexer::token::{Token, TokenKind, is_kind};

/// What a token begins a constant as.
#[derive(Clone, Copy)]
pub enum LiteralHead {
    /// `true` or `false`.
    Truth(bool),
    /// An integer.
    Number,
    /// A list.
    List,
    /// No constant.
    Nothing,
}

impl<'s> Reader<'s> {
    /// The constants of an aggregate, in brackets. The first list is one of 32 that may be open.
    ///
    /// Refuses what is no list of constants, and a list or a type after 32 open ones.
    #[tactic(auto, unfolding(crate::specs::LiteralText::aggregate_text))]
    pub fn aggregate_text(&mut self, op: OpName) -> Result<LiteralList, ReadFail>
        ensures gives { ReadsAs literals_in result self.new (aggregate_text op self.old) }
        ensures shorter { OnOk result (length self.new ≤ length self.old) }
    {
        self.parts_text(op, MOST_OPEN - 1)
    }

    // A constant, where so many more lists and types may be opened.
    #[cycle(literals)]
    fn literal_text(&mut self, op: OpName, room: u32) -> Result<Literal, ReadFail>
        ensures gives { ReadsAs literal_of result self.new (literal_text room op self.old) }
        ensures shorter { OnOk result (length self.new ≤ length self.old) }
    {
        match self.literal_head() {
            LiteralHead::Truth(truth) => {
                self.advance();
                Ok(truth_leaf(truth))
            }
            LiteralHead::Number => self.number_leaf(op, room),
            LiteralHead::List if room > 0 => self.list_part(op, room - 1),
            LiteralHead::List => Err(ReadFail::Refused(self.refusal_for(Cause::TooDeep, op))),
            LiteralHead::Nothing => Err(ReadFail::Refused(self.unexpected_token(op))),
        }
    }

    // What the first token begins a constant as.
    fn literal_head(&self) -> LiteralHead
        ensures { head_of result ≡ literal_head (first self.now) }
    {
        match self.first() {
            Some(token) => literal_head(token),
            None => LiteralHead::Nothing,
        }
    }

    // `5 : T`
    #[tactic(auto, unfolding(crate::specs::LiteralText::number_leaf))]
    fn number_leaf(&mut self, op: OpName, room: u32) -> Result<Literal, ReadFail>
        ensures gives { ReadsAs literal_of result self.new (number_leaf room op self.old) }
        ensures shorter { OnOk result (length self.new ≤ length self.old) }
    {
        let value = self.integer(op)?;
        self.want(op, TokenKind::Colon)?;
        let ty = self.type_text(op, room)?;
        Ok(leaf(value, ty))
    }

    // A list of constants as a constant.
    #[cycle(literals)]
    #[tactic(auto, unfolding(crate::specs::LiteralText::list_part))]
    fn list_part(&mut self, op: OpName, room: u32) -> Result<Literal, ReadFail>
        ensures gives { ReadsAs literal_of result self.new (list_part (literal_text room op) op self.old) }
        ensures shorter { OnOk result (length self.new ≤ length self.old) }
    {
        match self.parts_text(op, room) {
            Ok(list) => Ok(parts(list)),
            Err(fail) => Err(fail),
        }
    }

    // `[V, ..]`
    #[cycle(literals)]
    #[tactic(auto, unfolding(crate::specs::LiteralText::parts_text))]
    fn parts_text(&mut self, op: OpName, room: u32) -> Result<LiteralList, ReadFail>
        ensures gives { ReadsAs literals_in result self.new (parts_text (literal_text room op) op self.old) }
        ensures shorter { OnOk result (length self.new ≤ length self.old) }
    {
        self.want(op, TokenKind::LeftBracket)?;
        match self.literals_text(op, room) {
            Ok(literals) => Ok(in_order(literals)),
            Err(fail) => Err(fail),
        }
    }

    // Constants up to `]`.
    #[cycle(literals)]
    #[tactic(auto, unfolding(crate::specs::Reads::items_until))]
    fn literals_text(&mut self, op: OpName, room: u32) -> Result<Vec<Literal>, ReadFail>
        ensures gives { ReadsAs (λ literals. map literal_of literals.items) result self.new (items_until op kind.RightBracket (literal_text room op) self.old) }
        ensures shorter { OnOk result (length self.new ≤ length self.old) }
    {
        if self.pass(TokenKind::RightBracket) {
            return Ok(Vec::new(self.alloc()));
        }
        let literals = self.some_literals(op, room)?;
        self.want(op, TokenKind::RightBracket)?;
        Ok(literals)
    }

    // One constant or more.
    #[cycle(literals)]
    fn some_literals(&mut self, op: OpName, room: u32) -> Result<Vec<Literal>, ReadFail>
        ensures gives { ReadsAs (λ literals. map literal_of literals.items) result self.new (some_items op (literal_text room op) self.old) }
        ensures shorter { OnOk result (length self.new ≤ length self.old) }
    {
        let mut literals = Vec::new(self.alloc());
        loop {
            match self.literal_text(op, room) {
                Ok(literal) => literals.push(literal)?,
                Err(fail) => return Err(fail),
            }
            if !self.pass(TokenKind::Comma) {
                return Ok(literals);
            }
        }
    }
}

// What a token begins a constant as.
fn literal_head(token: Token) -> LiteralHead
    ensures { head_of result ≡ literal_head (Some (text_token token.entry)) }
{
    if begins_integer(token) {
        LiteralHead::Number
    } else if is_word(token, b"true") {
        LiteralHead::Truth(true)
    } else if is_word(token, b"false") {
        LiteralHead::Truth(false)
    } else if is_kind(token.kind, TokenKind::LeftBracket) {
        LiteralHead::List
    } else {
        LiteralHead::Nothing
    }
}

// `true` and `false` are 1 and 0 of i1.
fn truth_leaf(truth: bool) -> Literal
    ensures { literal_of result ≡ truth_leaf truth }
{
    leaf(Integer::NonNegative(u128::from(truth)), Ty::Int(1))
}

// A number of a type.
fn leaf(value: Integer, ty: Ty) -> Literal
    ensures { literal_of result ≡ leaf (integer_of value) (type_of ty) }
{
    Literal::Leaf(value, ty)
}

// The constants of the parts.
fn parts(list: LiteralList) -> Literal
    ensures { literal_of result ≡ parts (literals_in list) }
{
    Literal::Parts(list)
}

// Constants in order.
fn in_order(literals: Vec<Literal>) -> LiteralList
    ensures { literals_in result ≡ literals_in_order (map literal_of literals.items) }
{
    LiteralList { literals }
}
