//! The types that stand after the colon of an operation (CIRCT: assembly formats of the operations of HW, Comb and Seq).
ghost use Rattle.std.specs.Prelude.{◌≤◌, ◌++◌, ◌∷◌, [], length, Ok, OnOk};
ghost use Rattle.ir_store.specs.OperationViews.{types_in};
ghost use Rattle.mlir_lexer.specs.declared.token.TokenKind.TheVariants as kind;
ghost use Rattle.mlir_operations.specs.ElementText.{further_types, types_text, element_text};
ghost use Rattle.mlir_syntax.specs.Reads.{on, want};
ghost use Rattle.mlir_syntax.specs.TypeText.{any_type};
ghost use Rattle.mlir_syntax.specs.Views.{ReadsAs};
ghost use Rattle.mlir_operations.specs.Views.{gathered_of};
ghost use Rattle.assembly_format.specs.declared.elements.FormatElement.TheVariants as element;

use crate::syntax::Gathered;
use diag::refusal::OpName;
use ir_store::operation::TyList;
use mlir_lexer::token::TokenKind;
use mlir_syntax::fail::ReadFail;
use mlir_syntax::reader::Reader;

/// A type.
#[tactic(auto, unfolding(crate::specs::ElementText::element_text))]
pub(crate) fn type_element<'s>(
    reader: &mut Reader<'s>,
    op: OpName,
    gathered: &mut Gathered<'s>,
) -> Result<(), ReadFail>
    ensures gives { ReadsAs (λ (_ : Unit {0}). gathered_of gathered.new) result reader.new (element_text op element.Type (gathered_of gathered.old) reader.old) }
    ensures shorter { OnOk result (length reader.new ≤ length reader.old) }
{
    let ty = reader.any_type(op)?;
    gathered.types.push(reader.alloc(), ty)?;
    Ok(())
}

/// A type for each operand.
#[tactic(auto, unfolding(crate::specs::ElementText::element_text))]
pub(crate) fn types_element<'s>(
    reader: &mut Reader<'s>,
    op: OpName,
    gathered: &mut Gathered<'s>,
) -> Result<(), ReadFail>
    ensures gives { ReadsAs (λ (_ : Unit {0}). gathered_of gathered.new) result reader.new (element_text op element.Types (gathered_of gathered.old) reader.old) }
    ensures shorter { OnOk result (length reader.new ≤ length reader.old) }
{
    let count = gathered.operands.len();
    types_text(reader, op, count, &mut gathered.types)
}

// So many types with commas between them, after those that there are.
#[tactic(auto, unfolding(crate::specs::ElementText::types_text))]
fn types_text(
    reader: &mut Reader<'_>,
    op: OpName,
    count: usize,
    types: &mut TyList,
) -> Result<(), ReadFail>
    ensures gives { ReadsAs (λ (_ : Unit {0}). types_in types.new) result reader.new (on (types_text op count reader.old) (λ ts left. Ok (types_in types.old ++ ts, left))) }
    ensures shorter { OnOk result (length reader.new ≤ length reader.old) }
{
    if count == 0 {
        return Ok(());
    }
    let ty = reader.any_type(op)?;
    types.reserve(reader.alloc(), count)?;
    types.push(reader.alloc(), ty)?;
    further_types(reader, op, count - 1, types)
}

// So many further types after commas, after those that there are.
fn further_types(
    reader: &mut Reader<'_>,
    op: OpName,
    count: usize,
    types: &mut TyList,
) -> Result<(), ReadFail>
    ensures gives { ReadsAs (λ (_ : Unit {0}). types_in types.new) result reader.new (on (further_types op count reader.old) (λ ts left. Ok (types_in types.old ++ ts, left))) }
    ensures shorter { OnOk result (length reader.new ≤ length reader.old) }
{
    for _ in 0..count {
        match further_type(reader, op, types) {
            Ok(()) => {}
            Err(fail) => return Err(fail),
        }
    }
    Ok(())
}

// `, T`
fn further_type(reader: &mut Reader<'_>, op: OpName, types: &mut TyList) -> Result<(), ReadFail>
    ensures gives { ReadsAs (λ (_ : Unit {0}). types_in types.new) result reader.new (on (want op kind.Comma reader.old) (λ _ s. on (any_type op s) (λ t left. Ok (types_in types.old ++ t ∷ [], left)))) }
    ensures shorter { OnOk result (length reader.new ≤ length reader.old) }
{
    reader.want(op, TokenKind::Comma)?;
    let ty = reader.any_type(op)?;
    types.push(reader.alloc(), ty)?;
    Ok(())
}
