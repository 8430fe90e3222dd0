//! Operands and the names of results in a text (MLIR language reference: "Identifiers and keywords",
//! "Operations").
ghost use Rattle.std.specs.Prelude.{◌≤◌, length, map, OnOk};
ghost use Rattle.mlir_syntax.specs.Reads.{some_items};
ghost use Rattle.mlir_operations.specs.OperandText.{value_name, pack_number, operand_text, names_after, results_text, maybe_results};
ghost use Rattle.mlir_syntax.specs.Views.{ReadsAs};
ghost use Rattle.mlir_operations.specs.Views.{operand_of, names_of};

use crate::syntax::{OperandName, ResultNames};
use diag::cause::Cause;
use diag::refusal::OpName;
use mlir_lexer::token::TokenKind;
use mlir_syntax::fail::ReadFail;
use mlir_syntax::numerals::decimal;
use mlir_syntax::reader::Reader;
use mlir_syntax::type_text::after_sign;

/// `%v`: the name of a value, without its sign.
///
/// Refuses everything else.
#[tactic(auto, unfolding(crate::specs::OperandText::value_name))]
pub fn value_name<'s>(reader: &mut Reader<'s>, op: OpName) -> Result<&'s [u8], ReadFail>
    ensures gives { ReadsAs (λ name. name.now) result reader.new (value_name op reader.old) }
    ensures shorter { OnOk result (length reader.new ≤ length reader.old) }
{
    let token = reader.want(op, TokenKind::ValueName)?;
    Ok(after_sign(token.text))
}

// `#i`, or nothing, which means 0: a number within a pack. Refuses a number of 2^32 or more.
#[tactic(auto, unfolding(crate::specs::OperandText::pack_number, mlir_syntax::specs::Numerals::below_limit))]
fn pack_number(reader: &mut Reader<'_>, op: OpName) -> Result<u32, ReadFail>
    ensures gives { ReadsAs (λ n. n) result reader.new (pack_number op reader.old) }
    ensures shorter { OnOk result (length reader.new ≤ length reader.old) }
{
    if !reader.is_next(TokenKind::ResultNumber) {
        return Ok(0);
    }
    let too_large = reader.refusal_for(Cause::NumberTooLarge, op);
    let token = reader.want(op, TokenKind::ResultNumber)?;
    match decimal(after_sign(token.text)) {
        Some(number) => Ok(number),
        None => Err(ReadFail::Refused(too_large)),
    }
}

/// `%v#i`: an operand. It takes no memory.
///
/// Refuses what is no value, and a number of 2^32 or more.
#[tactic(auto, unfolding(crate::specs::OperandText::operand_text))]
pub fn operand_text<'s>(reader: &mut Reader<'s>, op: OpName) -> Result<OperandName<'s>, ReadFail>
    ensures gives { ReadsAs operand_of result reader.new (operand_text op reader.old) }
    ensures shorter { OnOk result (length reader.new ≤ length reader.old) }
{
    let name = value_name(reader, op)?;
    let number = pack_number(reader, op)?;
    Ok(OperandName { name, number })
}

/// The names of results and `=`, or nothing. Only names after a comma take memory.
///
/// Refuses what is no list of names, and a pack of 2^32 results or more.
#[tactic(auto, unfolding(crate::specs::OperandText::maybe_results))]
pub fn maybe_results<'s>(reader: &mut Reader<'s>, op: OpName) -> Result<ResultNames<'s>, ReadFail>
    ensures gives { ReadsAs names_of result reader.new (maybe_results op reader.old) }
    ensures shorter { OnOk result (length reader.new ≤ length reader.old) }
{
    if reader.is_next(TokenKind::ValueName) {
        results_text(reader, op)
    } else {
        Ok(ResultNames::Unnamed)
    }
}

// The names of results and `=`.
#[tactic(auto, unfolding(crate::specs::OperandText::results_text))]
fn results_text<'s>(reader: &mut Reader<'s>, op: OpName) -> Result<ResultNames<'s>, ReadFail>
    ensures gives { ReadsAs names_of result reader.new (results_text op reader.old) }
    ensures shorter { OnOk result (length reader.new ≤ length reader.old) }
{
    let name = value_name(reader, op)?;
    let results = names_after(reader, op, name)?;
    reader.want(op, TokenKind::Equals)?;
    Ok(results)
}

// `:k`, further names after commas, or nothing after a first name.
#[tactic(auto, unfolding(crate::specs::OperandText::names_after))]
fn names_after<'s>(
    reader: &mut Reader<'s>,
    op: OpName,
    name: &'s [u8],
) -> Result<ResultNames<'s>, ReadFail>
    ensures gives { ReadsAs names_of result reader.new (names_after op name.now reader.old) }
    ensures shorter { OnOk result (length reader.new ≤ length reader.old) }
{
    if reader.pass(TokenKind::Colon) {
        let count = reader.count(op)?;
        return Ok(ResultNames::Pack(name, count));
    }
    if reader.pass(TokenKind::Comma) {
        let others = some_names(reader, op)?;
        return Ok(ResultNames::Names(name, others));
    }
    Ok(ResultNames::Names(name, Vec::new(reader.alloc())))
}

// One name of a value or more.
fn some_names<'s>(reader: &mut Reader<'s>, op: OpName) -> Result<Vec<&'s [u8]>, ReadFail>
    ensures gives { ReadsAs (λ names. map (λ name. name.now) names.items) result reader.new (some_items op (value_name op) reader.old) }
    ensures shorter { OnOk result (length reader.new ≤ length reader.old) }
{
    let mut names = Vec::new(reader.alloc());
    loop {
        match value_name(reader, op) {
            Ok(name) => names.push(name)?,
            Err(fail) => return Err(fail),
        }
        if !reader.pass(TokenKind::Comma) {
            return Ok(names);
        }
    }
}
