//! The pieces of an operation, as they are printed.
ghost use Rattle.std.specs.Prelude.{◌≡◌, ◌++◌, map, drop, IfOk, OnOk};
ghost use Rattle.hw_model.specs.TypeViews.{type_of};
ghost use Rattle.hw_model.specs.KindViews.{predicate_of};
ghost use Rattle.mlir_printer.specs.Commas.{commas};
ghost use Rattle.mlir_printer.specs.Operations.{left_after_all};
ghost use Rattle.mlir_printer.specs.Elements.{mark_bytes, word_bytes, predicate_bytes, value_name_bytes, pack_number_bytes, operand_bytes, first_operand, first_type_bytes, reset_bytes, reset_said, sync_or_async_reset_said, element_bytes, elements_bytes, said_bytes};
ghost use Rattle.mlir_printer.specs.Views.{value_held, pending_of, inherent_of};

use crate::commas::{push_comma, push_few};
use crate::inherent_view::{InherentView, Pending};
use crate::instances::push_instance;
use crate::literals::push_literals;
use crate::numbers::{is_one, push_count, push_integer, truth_text};
use crate::strings::push_string;
use crate::types::{push_type, push_types};
use crate::value_names::ValueNames;
use assembly_format::elements::{FormatElement, Keyword};
use hw_model::kinds::{Instance, Predicate};
use hw_model::types::Ty;
use io_edge::byte_text::Text;
use ir_store::operation::Value;
use mlir_lexer::token::TokenKind;
use std::alloc::AllocError;

// A mark with the blanks round it.
#[tactic(auto, unfolding(crate::specs::Elements::mark_bytes))]
fn mark_text(mark: TokenKind) -> &'static [u8]
    ensures { result.now ≡ mark_bytes mark }
{
    match mark {
        TokenKind::Arrow => b" -> ",
        TokenKind::LeftParenthesis => b"(",
        TokenKind::RightParenthesis => b")",
        TokenKind::LeftBrace => b"{",
        TokenKind::RightBrace => b"}",
        TokenKind::LeftBracket => b"[",
        TokenKind::RightBracket => b"]",
        TokenKind::Less => b"<",
        TokenKind::Greater => b">",
        TokenKind::Colon => b" : ",
        TokenKind::Comma => b", ",
        TokenKind::Equals => b" = ",
        TokenKind::Minus => b"-",
        _ => b"",
    }
}

// A word with the blanks round it.
#[tactic(auto, unfolding(crate::specs::Elements::word_bytes))]
fn word_text(word: Keyword) -> &'static [u8]
    ensures { result.now ≡ word_bytes word }
{
    match word {
        Keyword::From => b" from ",
        Keyword::Clock => b" clock ",
    }
}

// The name of a predicate.
#[tactic(auto, unfolding(crate::specs::Elements::predicate_bytes))]
fn predicate_text(predicate: Predicate) -> &'static [u8]
    ensures { result.now ≡ predicate_bytes (predicate_of predicate) }
{
    match predicate {
        Predicate::Eq => b"eq",
        Predicate::Ne => b"ne",
        Predicate::Slt => b"slt",
        Predicate::Sle => b"sle",
        Predicate::Sgt => b"sgt",
        Predicate::Sge => b"sge",
        Predicate::Ult => b"ult",
        Predicate::Ule => b"ule",
        Predicate::Ugt => b"ugt",
        Predicate::Uge => b"uge",
        Predicate::Ceq => b"ceq",
        Predicate::Cne => b"cne",
        Predicate::Weq => b"weq",
        Predicate::Wne => b"wne",
    }
}

/// Adds `%v`.
#[tactic(auto, unfolding(crate::specs::Elements::value_name_bytes))]
pub fn push_value_name(out: &mut Text, name: &[u8]) -> Result<(), AllocError>
    ensures { OnOk result (out.new ≡ out.old ++ value_name_bytes name.now) }
{
    out.push(b'%')?;
    push_few(out, name)?;
    Ok(())
}

// Adds `#i`, or nothing.
#[tactic(auto, unfolding(crate::specs::Elements::pack_number_bytes))]
fn push_pack_number(out: &mut Text, number: Option<u32>) -> Result<(), AllocError>
    ensures { OnOk result (out.new ≡ out.old ++ pack_number_bytes number) }
{
    if let Some(number) = number {
        out.push(b'#')?;
        push_count(out, number)?;
    }
    Ok(())
}

/// Adds an operand.
#[tactic(auto, unfolding(crate::specs::Elements::operand_bytes))]
pub(crate) fn push_operand(
    out: &mut Text,
    names: &ValueNames,
    value: Value,
) -> Result<(), AllocError>
    ensures { OnOk result (out.new ≡ out.old ++ operand_bytes (value_held names.now value)) }
{
    let operand = names.value(value);
    push_value_name(out, operand.name)?;
    push_pack_number(out, operand.number)?;
    Ok(())
}

// Adds the first of some operands.
#[tactic(auto, unfolding(crate::specs::Views::value_held))]
fn push_first_operand(
    out: &mut Text,
    names: &ValueNames,
    operands: &[Value],
) -> Result<(), AllocError>
    ensures { OnOk result (out.new ≡ out.old ++ operand_bytes (first_operand (map (value_held names.now) operands.now))) }
{
    match operands.first() {
        Some(value) => push_operand(out, names, *value)?,
        None => push_operand(out, names, Value::Undefined)?,
    }
    Ok(())
}

// Adds operands with commas between them.
fn push_operands(out: &mut Text, names: &ValueNames, operands: &[Value]) -> Result<(), AllocError>
    ensures { OnOk result (out.new ≡ out.old ++ commas operand_bytes (map (value_held names.now) operands.now)) }
{
    for (i, value) in operands.iter().enumerate() {
        push_comma(out, i)?;
        push_operand(out, names, *value)?;
    }
    Ok(())
}

/// The items after so many.
pub(crate) fn rest_of<T>(items: &[T], count: usize) -> &[T]
    ensures { result.now ≡ drop count items.now }
{
    &items[count.min(items.len())..]
}

// Adds words and two operands.
fn push_with_operands(
    out: &mut Text,
    names: &ValueNames,
    words: &[u8],
    operands: &[Value],
) -> Result<(), AllocError>
    ensures { OnOk result (out.new ≡ out.old ++ reset_bytes words.now (map (value_held names.now) operands.now)) }
{
    out.push_bytes(words)?;
    push_first_operand(out, names, operands)?;
    out.push_bytes(b", ")?;
    push_first_operand(out, names, rest_of(operands, 1))?;
    Ok(())
}

// Adds `reset` and two operands, where something resets.
fn push_reset(out: &mut Text, names: &ValueNames, pending: &Pending<'_>) -> Result<(), AllocError>
    ensures { OnOk result (out.new ≡ out.old ++ reset_said (inherent_of pending.now.inherent_view) (map (value_held names.now) pending.now.operands.now)) }
{
    if let InherentView::WithReset = pending.inherent_view {
        push_with_operands(out, names, b" reset ", pending.operands)?;
    }
    Ok(())
}

// Adds `reset sync` or `reset async` and two operands, where something resets.
fn push_sync_or_async_reset(
    out: &mut Text,
    names: &ValueNames,
    pending: &Pending<'_>,
) -> Result<(), AllocError>
    ensures { OnOk result (out.new ≡ out.old ++ sync_or_async_reset_said (inherent_of pending.now.inherent_view) (map (value_held names.now) pending.now.operands.now)) }
{
    let operands = pending.operands;
    match pending.inherent_view {
        InherentView::WithReset => push_with_operands(out, names, b" reset sync ", operands)?,
        InherentView::WithAsyncReset => push_with_operands(out, names, b" reset async ", operands)?,
        _ => {}
    }
    Ok(())
}

// Adds what is said besides operands and types.
#[tactic(auto, unfolding(crate::specs::Elements::said_bytes))]
fn push_inherent(
    out: &mut Text,
    names: &ValueNames,
    element: FormatElement,
    pending: &Pending<'_>,
) -> Result<(), AllocError>
    ensures { OnOk result (out.new ≡ out.old ++ said_bytes element (pending_of names.now pending.now)) }
{
    match (element, pending.inherent_view) {
        (FormatElement::Predicate, InherentView::Predicate(predicate)) => {
            out.push_bytes(predicate_text(predicate))?;
        }
        (FormatElement::Number, InherentView::Position(position)) => push_count(out, position)?,
        (FormatElement::Truth, InherentView::Number(value)) => out.push_bytes(truth_text(is_one(
            value,
        )))?,
        (FormatElement::Integer, InherentView::Number(value)) => push_integer(out, value)?,
        (FormatElement::Literals, InherentView::Literals(list)) => push_literals(
            out,
            &list.literals,
        )?,
        (FormatElement::Field, InherentView::FieldName(name)) => push_string(out, name)?,
        (FormatElement::Instance, InherentView::Child(instance)) => {
            push_instance(out, names, instance, pending.operands, pending.types)?;
        }
        _ => {}
    }
    Ok(())
}

// Adds a piece, of what is left of what was gathered.
#[tactic(auto, unfolding(crate::specs::Elements::element_bytes, crate::specs::Elements::said_bytes))]
fn push_element(
    out: &mut Text,
    names: &ValueNames,
    element: FormatElement,
    pending: &Pending<'_>,
) -> Result<(), AllocError>
    ensures { OnOk result (out.new ≡ out.old ++ element_bytes element (pending_of names.now pending.now)) }
{
    match element {
        FormatElement::Mark(mark) => push_few(out, mark_text(mark))?,
        FormatElement::Word(word) => out.push_bytes(word_text(word))?,
        FormatElement::Operand => push_first_operand(out, names, pending.operands)?,
        FormatElement::Operands => push_operands(out, names, pending.operands)?,
        FormatElement::Group => {
            out.push(b'(')?;
            push_operands(out, names, pending.operands)?;
            out.push(b')')?;
        }
        FormatElement::Predicate => {
            push_inherent(out, names, element, pending)?;
            out.push(b' ')?;
        }
        FormatElement::Literals => {
            out.push_bytes(b"[")?;
            push_inherent(out, names, element, pending)?;
            out.push_bytes(b"]")?;
        }
        FormatElement::Reset => push_reset(out, names, pending)?,
        FormatElement::SyncOrAsyncReset => push_sync_or_async_reset(out, names, pending)?,
        FormatElement::Type => push_first_type(out, pending.types)?,
        FormatElement::Types => push_types(out, pending.types)?,
        FormatElement::Number
        | FormatElement::Truth
        | FormatElement::Integer
        | FormatElement::Field
        | FormatElement::Instance => {
            push_inherent(out, names, element, pending)?;
        }
    }
    Ok(())
}

// Adds the first of some types, where there is one.
fn push_first_type(out: &mut Text, types: &[Ty]) -> Result<(), AllocError>
    ensures { OnOk result (out.new ≡ out.old ++ first_type_bytes (map type_of types.now)) }
{
    if let Some(ty) = types.first() {
        push_type(out, ty)?;
    }
    Ok(())
}

/// Adds pieces, and gives what is left after them.
pub fn push_elements<'d>(
    out: &mut Text,
    names: &ValueNames,
    elements: &[FormatElement],
    pending: Pending<'d>,
) -> Result<Pending<'d>, AllocError>
    ensures bytes { OnOk result (out.new ≡ out.old ++ elements_bytes elements.now (pending_of names.now pending.entry)) }
    ensures left { IfOk result (λ left. pending_of names.now left ≡ left_after_all elements.now (pending_of names.now pending.entry)) }
{
    let mut left = pending;
    for element in elements {
        push_element(out, names, *element, &left)?;
        left.pass(*element);
    }
    Ok(left)
}
