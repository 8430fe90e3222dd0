//! An operation in a text (MLIR language reference: "Operations").
ghost use Rattle.std.specs.Prelude.{◌≡◌, ◌≤◌, ◌<◌, length, Some, Ok, OnOk};
ghost use Rattle.std.specs.Option.{option_map};
ghost use Rattle.ir_store.specs.DictionaryViews.{entries_in};
ghost use Rattle.mlir_lexer.specs.Tokens.{text_token};
ghost use Rattle.mlir_syntax.specs.AttributeHeads.{keys_of};
ghost use Rattle.mlir_operations.specs.NameClasses.{class_seen};
ghost use Rattle.mlir_operations.specs.OperationText.{bin_text, form_text, late_dictionary, named_operation, classed_operation, operation_after, operation_text, misplaced_refusal, no_operation, is_outside, other_name};
ghost use Rattle.mlir_operations.specs.ElementText.{gathered_nothing};
ghost use Rattle.mlir_syntax.specs.Stream.{first, is_first};
ghost use Rattle.mlir_syntax.specs.Views.{ReadsAs};
ghost use Rattle.mlir_operations.specs.Views.{gathered_of, names_of, operation_of};

use crate::element_text::elements_text;
use crate::operand_text::maybe_results;
use crate::operation_names::{NameClass, class_of};
use crate::syntax::{Gathered, InherentAttributes, OperationText, ResultNames};
use assembly_format::elements::Format;
use assembly_format::formats::{format_of, prefix_elements, type_elements};
use diag::cause::Cause;
use diag::refusal::{Location, OpName, Refusal};
use ir_store::dictionary::Dictionary;
use ir_store::operation::TyList;
use mlir_lexer::token::{Token, TokenKind, is_kind};
use mlir_syntax::dictionary_text::StringKeys;
use mlir_syntax::fail::ReadFail;
use mlir_syntax::reader::Reader;
use opcode::listed::Listed;
use smallvec::SmallVec;
use std::alloc::Global;
use stored_form::dictionaries::string_keys;
use stored_form::names::takes_bin;

/// The operation that refusals name where none is open within a module.
pub const HEADER: OpName = OpName::Listed(Listed::HwModule);

impl<'s> Gathered<'s> {
    ghost use Rattle.std.specs.Prelude.{◌≡◌};
    ghost use Rattle.mlir_operations.specs.ElementText.{gathered_nothing};
    ghost use Rattle.mlir_operations.specs.Views.{gathered_of};

    /// Nothing yet. It takes no memory.
    pub fn new(alloc: Global) -> Gathered<'s>
        ensures { gathered_of result ≡ gathered_nothing }
    {
        Gathered {
            operands: SmallVec::new(alloc),
            types: TyList::new(),
            inherent: InherentAttributes::Nothing,
        }
    }
}

/// An operation.
///
/// Refuses the first token that no operation has there.
#[tactic(auto, unfolding(crate::specs::OperationText::operation_text))]
pub fn operation_text<'s>(reader: &mut Reader<'s>) -> Result<OperationText<'s>, ReadFail>
    ensures gives { ReadsAs operation_of result reader.new (operation_text reader.old) }
    ensures shorter { OnOk result (length reader.new < length reader.old) }
{
    let results = maybe_results(reader, HEADER)?;
    operation_after(reader, results)
}

// An operation whose results are named so.
#[tactic(auto, unfolding(crate::specs::OperationText::operation_after))]
fn operation_after<'s>(
    reader: &mut Reader<'s>,
    results: ResultNames<'s>,
) -> Result<OperationText<'s>, ReadFail>
    ensures gives { ReadsAs operation_of result reader.new (operation_after (names_of results.entry) reader.old) }
    ensures shorter { OnOk result (length reader.new < length reader.old) }
{
    match reader.first() {
        Some(token) if is_kind(token.kind, TokenKind::BareName) => {
            classed_operation(reader, results, token, class_of(token.text))
        }
        Some(_) | None => Err(ReadFail::Refused(no_operation(reader, HEADER))),
    }
}

// An operation whose name is of this class.
#[tactic(auto, unfolding(crate::specs::OperationText::classed_operation))]
fn classed_operation<'s>(
    reader: &mut Reader<'s>,
    results: ResultNames<'s>,
    token: Token<'s>,
    class: NameClass,
) -> Result<OperationText<'s>, ReadFail>
    requires first { Some (text_token token) ≡ first reader.old }
    ensures gives { ReadsAs operation_of result reader.new (classed_operation (names_of results.entry) reader.old (text_token token.entry) (class_seen class)) }
    ensures shorter { OnOk result (length reader.new < length reader.old) }
{
    match class {
        NameClass::Operation(name) => {
            reader.advance();
            named_operation(reader, results, name, token.location)
        }
        other => Err(ReadFail::Refused(misplaced_refusal(reader, HEADER, token, other))),
    }
}

// An operation after its name.
#[tactic(auto, unfolding(crate::specs::OperationText::named_operation))]
fn named_operation<'s>(
    reader: &mut Reader<'s>,
    results: ResultNames<'s>,
    name: Listed,
    location: Location,
) -> Result<OperationText<'s>, ReadFail>
    ensures gives { ReadsAs operation_of result reader.new (named_operation (names_of results.entry) name location reader.old) }
    ensures shorter { OnOk result (length reader.new ≤ length reader.old) }
{
    let bin = bin_text(reader, name);
    let format = format_of(name, reader.first());
    let mut gathered = Gathered::new(reader.alloc());
    let op = OpName::Listed(name);
    let dictionary = form_text(reader, op, string_keys(name), format, &mut gathered)?;
    Ok(OperationText {
        results,
        name,
        bin,
        gathered,
        dictionary,
        location,
    })
}

// `bin`, or nothing.
#[tactic(auto, unfolding(crate::specs::OperationText::bin_text))]
fn bin_text(reader: &mut Reader<'_>, name: Listed) -> bool
    ensures gives { bin_text name reader.old ≡ Ok (result, reader.new) }
    ensures shorter { length reader.new ≤ length reader.old }
{
    takes_bin(name) && reader.pass_word(b"bin")
}

// The pieces of a form, and a dictionary before the types or after them.
#[tactic(auto, unfolding(crate::specs::OperationText::form_text))]
fn form_text<'s>(
    reader: &mut Reader<'s>,
    op: OpName,
    keys: StringKeys,
    format: Format,
    gathered: &mut Gathered<'s>,
) -> Result<Dictionary, ReadFail>
    requires nothing { gathered_of gathered.old ≡ gathered_nothing }
    ensures gives { ReadsAs (λ d. record { gathered = gathered_of gathered.new; dictionary = entries_in d }) result reader.new (form_text op (keys_of keys) format reader.old) }
    ensures shorter { OnOk result (length reader.new ≤ length reader.old) }
{
    elements_text(reader, op, prefix_elements(format), gathered)?;
    let dictionary = reader.maybe_dictionary(op, keys)?;
    elements_text(reader, op, type_elements(format), gathered)?;
    late_dictionary(reader, op, keys, dictionary)
}

// A dictionary after the types, where none stands before them.
#[tactic(auto, unfolding(crate::specs::OperationText::late_dictionary))]
fn late_dictionary(
    reader: &mut Reader<'_>,
    op: OpName,
    keys: StringKeys,
    dictionary: Option<Dictionary>,
) -> Result<Dictionary, ReadFail>
    ensures gives { ReadsAs entries_in result reader.new (late_dictionary op (keys_of keys) (option_map entries_in dictionary) reader.old) }
    ensures shorter { OnOk result (length reader.new ≤ length reader.old) }
{
    if let Some(dictionary) = dictionary {
        return Ok(dictionary);
    }
    match reader.maybe_dictionary(op, keys)? {
        Some(dictionary) => Ok(dictionary),
        None => Ok(Dictionary::new(reader.alloc())),
    }
}

/// The refusal of the first token, a name of this class, where no operation of the class may
/// stand.
#[tactic(auto, unfolding(crate::specs::OperationText::misplaced_refusal))]
pub fn misplaced_refusal<'s>(
    reader: &Reader<'s>,
    around: OpName,
    token: Token<'s>,
    class: NameClass,
) -> Refusal
    ensures { result ≡ misplaced_refusal around reader.now (text_token token.entry) (class_seen class) }
{
    match class {
        NameClass::Operation(name) => reader.refusal_for(Cause::Unexpected, OpName::Listed(name)),
        NameClass::Module => reader.refusal_for(Cause::Unexpected, HEADER),
        NameClass::File => reader.refusal_for(Cause::Unexpected, OpName::File),
        NameClass::Locations => reader.refusal_for(Cause::OutsideProfile, around),
        NameClass::Outside => reader.refusal_for(Cause::OutsideProfile, other_name(token)),
        NameClass::Unknown => reader.refusal_for(Cause::UnknownOperation, other_name(token)),
    }
}

/// The refusal of the first token, which is no name, in an operation's or a module's location.
#[tactic(auto, unfolding(crate::specs::OperationText::no_operation))]
pub fn no_operation(reader: &Reader<'_>, around: OpName) -> Refusal
    ensures { result ≡ no_operation around reader.now }
{
    if begins_outside(reader) {
        reader.refusal_for(Cause::OutsideProfile, around)
    } else {
        reader.unexpected_token(around)
    }
}

// Whether the first token is outside the profile in an operation's location.
fn begins_outside(reader: &Reader<'_>) -> bool
    ensures { result ≡ is_first is_outside reader.now }
{
    match reader.first() {
        Some(token) => is_outside(token),
        None => false,
    }
}

// Whether a token that is no name is outside the profile in an operation's location.
fn is_outside(token: Token) -> bool
    ensures { result ≡ is_outside (text_token token.entry) }
{
    is_kind(token.kind, TokenKind::StringLiteral)
        || (is_kind(token.kind, TokenKind::AttributeAlias)
            || is_kind(token.kind, TokenKind::TypeName))
}

// The operation that a refusal names for a token.
fn other_name(token: Token) -> OpName
    ensures { result ≡ other_name (text_token token.entry) }
{
    OpName::Other {
        at: token.at,
        len: token.text.len() as u64,
    }
}
