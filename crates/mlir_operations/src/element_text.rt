//! The pieces of an operation after its name (CIRCT: assembly formats of the operations of HW, Comb
//! and Seq).
ghost use Rattle.std.specs.Prelude.{◌≤◌, ◌++◌, map, length, Ok, OnOk};
ghost use Rattle.mlir_lexer.specs.declared.token.TokenKind.TheVariants as kind;
ghost use Rattle.mlir_operations.specs.OperandText.{operand_text};
ghost use Rattle.mlir_operations.specs.ElementText.{Gathered as Gathering, group_text, reset_operands, reset_text, sync_or_async_reset_text, reset_mode, element_text, elements_text};
ghost use Rattle.mlir_syntax.specs.Reads.{on, want, some_items};
ghost use Rattle.mlir_syntax.specs.Views.{ReadsAs};
ghost use Rattle.mlir_operations.specs.Views.{gathered_of, inherent_of, operand_of};
ghost use Rattle.assembly_format.specs.declared.elements.FormatElement.TheVariants as element;

use crate::instance_text::instance_element;
use crate::operand_text::operand_text;
use crate::syntax::{Gathered, InherentAttributes, OperandName};
use crate::type_elements::{type_element, types_element};
use assembly_format::elements::{FormatElement, Keyword};
use assembly_format::formats::text_of_keyword;
use diag::refusal::OpName;
use hw_model::kinds::Integer;
use hw_model::types::Ty;
use mlir_lexer::token::TokenKind;
use mlir_syntax::fail::ReadFail;
use mlir_syntax::reader::Reader;
use smallvec::SmallVec;
use std::alloc::Global;

/// Pieces, one after another. What they say is put to what is gathered before.
///
/// Refuses the first token that no piece has there.
pub fn elements_text<'s>(
    reader: &mut Reader<'s>,
    op: OpName,
    elements: &[FormatElement],
    gathered: &mut Gathered<'s>,
) -> Result<(), ReadFail>
    ensures gives { ReadsAs (λ (_ : Unit {0}). gathered_of gathered.new) result reader.new (elements_text op elements.now (gathered_of gathered.old) reader.old) }
    ensures shorter { OnOk result (length reader.new ≤ length reader.old) }
{
    for element in elements {
        match element_text(reader, op, *element, gathered) {
            Ok(()) => {}
            Err(fail) => return Err(fail),
        }
    }
    Ok(())
}

// A piece. What it says is put to what is gathered before. Refuses the first token that the piece does not have there.
fn element_text<'s>(
    reader: &mut Reader<'s>,
    op: OpName,
    element: FormatElement,
    gathered: &mut Gathered<'s>,
) -> Result<(), ReadFail>
    ensures gives { ReadsAs (λ (_ : Unit {0}). gathered_of gathered.new) result reader.new (element_text op element (gathered_of gathered.old) reader.old) }
    ensures shorter { OnOk result (length reader.new ≤ length reader.old) }
{
    match element {
        FormatElement::Mark(kind) => mark_element(reader, op, kind),
        FormatElement::Word(word) => word_element(reader, op, word),
        FormatElement::Operand => operand_element(reader, op, gathered),
        FormatElement::Operands => operands_element(reader, op, gathered),
        FormatElement::Group => group_element(reader, op, gathered),
        FormatElement::Predicate => predicate_element(reader, op, gathered),
        FormatElement::Number => number_element(reader, op, gathered),
        FormatElement::Truth => truth_element(reader, op, gathered),
        FormatElement::Integer => integer_element(reader, op, gathered),
        FormatElement::Literals => literals_element(reader, op, gathered),
        FormatElement::Field => field_element(reader, op, gathered),
        FormatElement::Instance => instance_element(reader, op, gathered),
        FormatElement::Reset => reset_element(reader, op, gathered),
        FormatElement::SyncOrAsyncReset => sync_or_async_reset_element(reader, op, gathered),
        FormatElement::Type => type_element(reader, op, gathered),
        FormatElement::Types => types_element(reader, op, gathered),
    }
}

// A token that is always the same.
#[tactic(auto, unfolding(crate::specs::ElementText::element_text))]
fn mark_element(reader: &mut Reader<'_>, op: OpName, kind: TokenKind) -> Result<(), ReadFail>
    ensures gives { (g : Gathering) → ReadsAs (λ (_ : Unit {0}). g) result reader.new (element_text op (element.Mark kind) g reader.old) }
    ensures shorter { OnOk result (length reader.new ≤ length reader.old) }
{
    match reader.want(op, kind) {
        Ok(_) => Ok(()),
        Err(fail) => Err(fail),
    }
}

// A word that is always the same.
#[tactic(auto, unfolding(crate::specs::ElementText::element_text))]
fn word_element(reader: &mut Reader<'_>, op: OpName, word: Keyword) -> Result<(), ReadFail>
    ensures gives { (g : Gathering) → ReadsAs (λ (_ : Unit {0}). g) result reader.new (element_text op (element.Word word) g reader.old) }
    ensures shorter { OnOk result (length reader.new ≤ length reader.old) }
{
    match reader.want_word(op, text_of_keyword(word)) {
        Ok(_) => Ok(()),
        Err(fail) => Err(fail),
    }
}

// An operand.
#[tactic(auto, unfolding(crate::specs::ElementText::element_text))]
fn operand_element<'s>(
    reader: &mut Reader<'s>,
    op: OpName,
    gathered: &mut Gathered<'s>,
) -> Result<(), ReadFail>
    ensures gives { ReadsAs (λ (_ : Unit {0}). gathered_of gathered.new) result reader.new (element_text op element.Operand (gathered_of gathered.old) reader.old) }
    ensures shorter { OnOk result (length reader.new ≤ length reader.old) }
{
    let operand = operand_text(reader, op)?;
    gathered.operands.push(operand)?;
    Ok(())
}

// One operand or more.
#[tactic(auto, unfolding(crate::specs::ElementText::element_text))]
fn operands_element<'s>(
    reader: &mut Reader<'s>,
    op: OpName,
    gathered: &mut Gathered<'s>,
) -> Result<(), ReadFail>
    ensures gives { ReadsAs (λ (_ : Unit {0}). gathered_of gathered.new) result reader.new (element_text op element.Operands (gathered_of gathered.old) reader.old) }
    ensures shorter { OnOk result (length reader.new ≤ length reader.old) }
{
    some_operands(reader, op, &mut gathered.operands)
}

// One operand or more, after those that there are.
fn some_operands<'s>(
    reader: &mut Reader<'s>,
    op: OpName,
    operands: &mut SmallVec<OperandName<'s>, 4, Global>,
) -> Result<(), ReadFail>
    ensures gives { ReadsAs (λ (_ : Unit {0}). map operand_of operands.new.items) result reader.new (on (some_items op (operand_text op) reader.old) (λ os left. Ok (map operand_of operands.old.items ++ os, left))) }
    ensures shorter { OnOk result (length reader.new ≤ length reader.old) }
{
    loop {
        match operand_text(reader, op) {
            Ok(operand) => operands.push(operand)?,
            Err(fail) => return Err(fail),
        }
        if !reader.pass(TokenKind::Comma) {
            return Ok(());
        }
    }
}

// `(%a, ..)`
#[tactic(auto, unfolding(crate::specs::ElementText::element_text, crate::specs::ElementText::group_text, mlir_syntax::specs::Reads::items_until))]
fn group_element<'s>(
    reader: &mut Reader<'s>,
    op: OpName,
    gathered: &mut Gathered<'s>,
) -> Result<(), ReadFail>
    ensures gives { ReadsAs (λ (_ : Unit {0}). gathered_of gathered.new) result reader.new (element_text op element.Group (gathered_of gathered.old) reader.old) }
    ensures shorter { OnOk result (length reader.new ≤ length reader.old) }
{
    reader.want(op, TokenKind::LeftParenthesis)?;
    if reader.pass(TokenKind::RightParenthesis) {
        return Ok(());
    }
    some_operands(reader, op, &mut gathered.operands)?;
    reader.want(op, TokenKind::RightParenthesis)?;
    Ok(())
}

// The predicate of a comparison.
#[tactic(auto, unfolding(crate::specs::ElementText::element_text))]
fn predicate_element<'s>(
    reader: &mut Reader<'s>,
    op: OpName,
    gathered: &mut Gathered<'s>,
) -> Result<(), ReadFail>
    ensures gives { ReadsAs (λ (_ : Unit {0}). gathered_of gathered.new) result reader.new (element_text op element.Predicate (gathered_of gathered.old) reader.old) }
    ensures shorter { OnOk result (length reader.new ≤ length reader.old) }
{
    let predicate = reader.predicate_text(op)?;
    gathered.inherent = InherentAttributes::Predicate(predicate);
    Ok(())
}

// A position.
#[tactic(auto, unfolding(crate::specs::ElementText::element_text))]
fn number_element<'s>(
    reader: &mut Reader<'s>,
    op: OpName,
    gathered: &mut Gathered<'s>,
) -> Result<(), ReadFail>
    ensures gives { ReadsAs (λ (_ : Unit {0}). gathered_of gathered.new) result reader.new (element_text op element.Number (gathered_of gathered.old) reader.old) }
    ensures shorter { OnOk result (length reader.new ≤ length reader.old) }
{
    let position = reader.count(op)?;
    gathered.inherent = InherentAttributes::Position(position);
    Ok(())
}

// `true` or `false`, which is of i1.
#[tactic(auto, unfolding(crate::specs::ElementText::element_text))]
fn truth_element<'s>(
    reader: &mut Reader<'s>,
    op: OpName,
    gathered: &mut Gathered<'s>,
) -> Result<(), ReadFail>
    ensures gives { ReadsAs (λ (_ : Unit {0}). gathered_of gathered.new) result reader.new (element_text op element.Truth (gathered_of gathered.old) reader.old) }
    ensures shorter { OnOk result (length reader.new ≤ length reader.old) }
{
    let truth = reader.truth_text(op)?;
    gathered.types.push(reader.alloc(), Ty::Int(1))?;
    gathered.inherent = InherentAttributes::Number(Integer::NonNegative(u128::from(truth)));
    Ok(())
}

// An integer.
#[tactic(auto, unfolding(crate::specs::ElementText::element_text))]
fn integer_element<'s>(
    reader: &mut Reader<'s>,
    op: OpName,
    gathered: &mut Gathered<'s>,
) -> Result<(), ReadFail>
    ensures gives { ReadsAs (λ (_ : Unit {0}). gathered_of gathered.new) result reader.new (element_text op element.Integer (gathered_of gathered.old) reader.old) }
    ensures shorter { OnOk result (length reader.new ≤ length reader.old) }
{
    let number = reader.integer(op)?;
    gathered.inherent = InherentAttributes::Number(number);
    Ok(())
}

// The constants of an aggregate.
#[tactic(auto, unfolding(crate::specs::ElementText::element_text))]
fn literals_element<'s>(
    reader: &mut Reader<'s>,
    op: OpName,
    gathered: &mut Gathered<'s>,
) -> Result<(), ReadFail>
    ensures gives { ReadsAs (λ (_ : Unit {0}). gathered_of gathered.new) result reader.new (element_text op element.Literals (gathered_of gathered.old) reader.old) }
    ensures shorter { OnOk result (length reader.new ≤ length reader.old) }
{
    let literals = reader.aggregate_text(op)?;
    gathered.inherent = InherentAttributes::Literals(literals);
    Ok(())
}

// The name of a field.
#[tactic(auto, unfolding(crate::specs::ElementText::element_text))]
fn field_element<'s>(
    reader: &mut Reader<'s>,
    op: OpName,
    gathered: &mut Gathered<'s>,
) -> Result<(), ReadFail>
    ensures gives { ReadsAs (λ (_ : Unit {0}). gathered_of gathered.new) result reader.new (element_text op element.Field (gathered_of gathered.old) reader.old) }
    ensures shorter { OnOk result (length reader.new ≤ length reader.old) }
{
    let name = reader.string_text(op)?;
    gathered.inherent = InherentAttributes::FieldName(name);
    Ok(())
}

// `reset %r, %v`, or nothing.
#[tactic(auto, unfolding(crate::specs::ElementText::element_text, crate::specs::ElementText::reset_text))]
fn reset_element<'s>(
    reader: &mut Reader<'s>,
    op: OpName,
    gathered: &mut Gathered<'s>,
) -> Result<(), ReadFail>
    ensures gives { ReadsAs (λ (_ : Unit {0}). gathered_of gathered.new) result reader.new (element_text op element.Reset (gathered_of gathered.old) reader.old) }
    ensures shorter { OnOk result (length reader.new ≤ length reader.old) }
{
    if reader.pass_word(b"reset") {
        reset_operands(reader, op, InherentAttributes::WithReset, gathered)
    } else {
        Ok(())
    }
}

// `reset sync %r, %v`, `reset async %r, %v`, or nothing.
#[tactic(auto, unfolding(crate::specs::ElementText::element_text, crate::specs::ElementText::sync_or_async_reset_text))]
fn sync_or_async_reset_element<'s>(
    reader: &mut Reader<'s>,
    op: OpName,
    gathered: &mut Gathered<'s>,
) -> Result<(), ReadFail>
    ensures gives { ReadsAs (λ (_ : Unit {0}). gathered_of gathered.new) result reader.new (element_text op element.SyncOrAsyncReset (gathered_of gathered.old) reader.old) }
    ensures shorter { OnOk result (length reader.new ≤ length reader.old) }
{
    if reader.pass_word(b"reset") {
        let mode = reset_mode(reader, op)?;
        reset_operands(reader, op, mode, gathered)
    } else {
        Ok(())
    }
}

// `sync` or `async`: what reset it says.
#[tactic(auto, unfolding(crate::specs::ElementText::reset_mode))]
fn reset_mode(reader: &mut Reader<'_>, op: OpName) -> Result<InherentAttributes, ReadFail>
    ensures gives { ReadsAs inherent_of result reader.new (reset_mode op reader.old) }
    ensures shorter { OnOk result (length reader.new ≤ length reader.old) }
{
    if reader.pass_word(b"async") {
        return Ok(InherentAttributes::WithAsyncReset);
    }
    reader.want_word(op, b"sync")?;
    Ok(InherentAttributes::WithReset)
}

// Two operands after a reset, which is of this kind.
#[tactic(auto, unfolding(crate::specs::ElementText::reset_operands))]
fn reset_operands<'s>(
    reader: &mut Reader<'s>,
    op: OpName,
    mode: InherentAttributes,
    gathered: &mut Gathered<'s>,
) -> Result<(), ReadFail>
    ensures gives { ReadsAs (λ (_ : Unit {0}). gathered_of gathered.new) result reader.new (reset_operands op (inherent_of mode) (gathered_of gathered.old) reader.old) }
    ensures shorter { OnOk result (length reader.new ≤ length reader.old) }
{
    let reset = operand_text(reader, op)?;
    reader.want(op, TokenKind::Comma)?;
    let value = operand_text(reader, op)?;
    gathered.operands.push(reset)?;
    gathered.operands.push(value)?;
    gathered.inherent = mode;
    Ok(())
}
