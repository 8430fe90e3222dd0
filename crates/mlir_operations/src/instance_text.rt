//! Instances in a text (CIRCT, HW dialect: `hw.instance`).
ghost use Rattle.std.specs.Prelude.{◌≡◌, ◌≤◌, ◌++◌, map, length, OnOk, IfOk};
ghost use Rattle.hw_model.specs.TypeViews.{field_of};
ghost use Rattle.ir_store.specs.OperationViews.{types_in};
ghost use Rattle.mlir_lexer.specs.declared.token.TokenKind.TheVariants as kind;
ghost use Rattle.mlir_syntax.specs.Reads.{some_items, items_until};
ghost use Rattle.mlir_operations.specs.ElementText.{input_text, inputs_text, output_text, outputs_text, instance_text, element_text};
ghost use Rattle.mlir_operations.specs.ElementHeads.{joined_of};
ghost use Rattle.mlir_syntax.specs.Views.{ReadsAs};
ghost use Rattle.mlir_operations.specs.Views.{gathered_of, operand_of};
ghost use Rattle.assembly_format.specs.declared.elements.FormatElement.TheVariants as element;

use crate::operand_text::operand_text;
use crate::syntax::{Gathered, InherentAttributes, OperandName};
use diag::refusal::OpName;
use hw_model::kinds::Instance;
use hw_model::types::{Field, Ty};
use io_edge::byte_text::Text;
use mlir_lexer::token::TokenKind;
use mlir_syntax::fail::ReadFail;
use mlir_syntax::reader::Reader;
use mlir_syntax::type_text::MOST_OPEN;
use std::alloc::{AllocError, Global};

/// An operand of an instance: the name of its port, and its type.
#[derive(Drop)]
pub struct Joined<'s> {
    /// The name of the port.
    pub port: Text,
    /// The operand.
    pub operand: OperandName<'s>,
    /// Its type.
    pub ty: Ty,
}

/// `"u" [sym @s] @N(p: %v: T, ..) -> (q: T, ..)`, whose operands and types are put after those
/// that are gathered before.
///
/// Refuses the first token that no instance has there.
#[tactic(auto, unfolding(crate::specs::ElementText::element_text, crate::specs::ElementText::instance_text))]
pub fn instance_element<'s>(
    reader: &mut Reader<'s>,
    op: OpName,
    gathered: &mut Gathered<'s>,
) -> Result<(), ReadFail>
    ensures gives { ReadsAs (λ (_ : Unit {0}). gathered_of gathered.new) result reader.new (element_text op element.Instance (gathered_of gathered.old) reader.old) }
    ensures shorter { OnOk result (length reader.new ≤ length reader.old) }
{
    let name = reader.string_text(op)?;
    let inner_symbol = reader.inner_symbol(op)?;
    let symbol = reader.module_symbol(op)?;
    let operands = inputs_text(reader, op)?;
    let results = outputs_text(reader, op)?;
    let alloc = reader.alloc();
    let inputs = join_inputs(alloc, operands, gathered)?;
    let outputs = join_outputs(alloc, results, gathered)?;
    let instance = Instance {
        name,
        inner_symbol,
        symbol,
        inputs,
        outputs,
    };
    gathered.inherent = InherentAttributes::Child(Box::new(alloc, instance)?);
    Ok(())
}

// `(p: %v: T, ..)`
#[tactic(auto, unfolding(crate::specs::ElementText::inputs_text, mlir_syntax::specs::Reads::items_until))]
fn inputs_text<'s>(reader: &mut Reader<'s>, op: OpName) -> Result<Vec<Joined<'s>>, ReadFail>
    ensures gives { ReadsAs (λ joined. map joined_of joined.items) result reader.new (inputs_text op reader.old) }
    ensures shorter { OnOk result (length reader.new ≤ length reader.old) }
{
    reader.want(op, TokenKind::LeftParenthesis)?;
    if reader.pass(TokenKind::RightParenthesis) {
        return Ok(Vec::new(reader.alloc()));
    }
    let inputs = some_inputs(reader, op)?;
    reader.want(op, TokenKind::RightParenthesis)?;
    Ok(inputs)
}

// One operand or more.
fn some_inputs<'s>(reader: &mut Reader<'s>, op: OpName) -> Result<Vec<Joined<'s>>, ReadFail>
    ensures gives { ReadsAs (λ joined. map joined_of joined.items) result reader.new (some_items op (input_text op) reader.old) }
    ensures shorter { OnOk result (length reader.new ≤ length reader.old) }
{
    let mut inputs = Vec::new(reader.alloc());
    loop {
        match input_text(reader, op) {
            Ok(input) => inputs.push(input)?,
            Err(fail) => return Err(fail),
        }
        if !reader.pass(TokenKind::Comma) {
            return Ok(inputs);
        }
    }
}

// `p: %v: T`
#[tactic(auto, unfolding(crate::specs::ElementText::input_text))]
fn input_text<'s>(reader: &mut Reader<'s>, op: OpName) -> Result<Joined<'s>, ReadFail>
    ensures gives { ReadsAs joined_of result reader.new (input_text op reader.old) }
    ensures shorter { OnOk result (length reader.new ≤ length reader.old) }
{
    let port = reader.name_text(op)?;
    reader.want(op, TokenKind::Colon)?;
    let operand = operand_text(reader, op)?;
    reader.want(op, TokenKind::Colon)?;
    let ty = reader.any_type(op)?;
    Ok(Joined { port, operand, ty })
}

// `-> (q: T, ..)`
#[tactic(auto, unfolding(crate::specs::ElementText::outputs_text, mlir_syntax::specs::Reads::items_until))]
fn outputs_text(reader: &mut Reader<'_>, op: OpName) -> Result<Vec<Field>, ReadFail>
    ensures gives { ReadsAs (λ fields. map field_of fields.items) result reader.new (outputs_text op reader.old) }
    ensures shorter { OnOk result (length reader.new ≤ length reader.old) }
{
    reader.want(op, TokenKind::Arrow)?;
    reader.want(op, TokenKind::LeftParenthesis)?;
    if reader.pass(TokenKind::RightParenthesis) {
        return Ok(Vec::new(reader.alloc()));
    }
    let outputs = some_outputs(reader, op)?;
    reader.want(op, TokenKind::RightParenthesis)?;
    Ok(outputs)
}

// One result or more.
fn some_outputs(reader: &mut Reader<'_>, op: OpName) -> Result<Vec<Field>, ReadFail>
    ensures gives { ReadsAs (λ fields. map field_of fields.items) result reader.new (some_items op (output_text op) reader.old) }
    ensures shorter { OnOk result (length reader.new ≤ length reader.old) }
{
    reader.some_fields(op, MOST_OPEN)
}

// Puts operands and their types after those that there are, and gives the names of their ports.
fn join_inputs<'s>(
    alloc: Global,
    inputs: Vec<Joined<'s>>,
    gathered: &mut Gathered<'s>,
) -> Result<Vec<Text>, AllocError>
    ensures names { IfOk result (λ names. names.items ≡ map (λ (j : _). j.port) (map joined_of inputs.entry.items)) }
    ensures operands { OnOk result (map operand_of gathered.new.operands.items ≡ map operand_of gathered.old.operands.items ++ map (λ (j : _). j.operand) (map joined_of inputs.entry.items)) }
    ensures types { OnOk result (types_in gathered.new.types ≡ types_in gathered.old.types ++ map (λ (j : _). j.type) (map joined_of inputs.entry.items)) }
{
    let mut names = Vec::with_capacity(alloc, inputs.len())?;
    for input in inputs {
        names.push(input.port)?;
        gathered.operands.push(input.operand)?;
        gathered.types.push(alloc, input.ty)?;
    }
    Ok(names)
}

// Puts the types of results after those that there are, and gives their names.
fn join_outputs<'s>(
    alloc: Global,
    outputs: Vec<Field>,
    gathered: &mut Gathered<'s>,
) -> Result<Vec<Text>, AllocError>
    ensures names { IfOk result (λ names. names.items ≡ map (λ (t : _). t.name) (map field_of outputs.items)) }
    ensures operands { OnOk result (gathered.new.operands.items ≡ gathered.old.operands.items) }
    ensures types { OnOk result (types_in gathered.new.types ≡ types_in gathered.old.types ++ map (λ (t : _). t.type) (map field_of outputs.items)) }
{
    let mut names = Vec::with_capacity(alloc, outputs.len())?;
    for output in outputs {
        names.push(output.name)?;
        gathered.types.push(alloc, output.ty)?;
    }
    Ok(names)
}
