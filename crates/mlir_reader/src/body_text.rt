//! The body of a module in a text, whose names are resolved as they are read (CIRCT, HW dialect: `hw.module`).
ghost use Rattle.std.specs.Prelude.{◌≤◌, length, Ok, OnOk};
ghost use Rattle.mlir_operations.specs.ModuleText.{body_text};
ghost use Rattle.mlir_operations.specs.OperationText.{operations_text};
ghost use Rattle.mlir_syntax.specs.Views.{ReadsFor};
ghost use Rattle.mlir_reader.specs.Meanings.{meanings_of};
ghost use Rattle.mlir_reader.specs.ModuleViews.{AreOperations, IsBodyText};

use crate::draft::Draft;
use crate::names::Names;
use diag::refusal::Location;
use ir_store::body::Body;
use ir_store::dictionary::Dictionary;
use mlir_lexer::token::TokenKind;
use mlir_operations::operation_names::is_last;
use mlir_operations::operation_text::{HEADER, operation_text};
use mlir_operations::port_text::header_attributes;
use mlir_syntax::fail::ReadFail;
use mlir_syntax::reader::Reader;
use std::mem;

/// The operations of a module, as they are read.
#[derive(Drop)]
pub struct Operations {
    /// The body.
    pub body: Body,
    /// Whether one of them is the module's output.
    pub ends: bool,
}

/// What stands after the ports of a module.
#[derive(Drop)]
pub struct BodyText {
    /// The module's dictionary, as it is written.
    pub dictionary: Dictionary,
    /// Its operations.
    pub operations: Operations,
    /// The location of its closing brace.
    pub close: Location,
}

/// `[attributes {..}] { OPERATIONS }` after ports whose names stand for something, to which those of the operations
/// are added. There will likely be so many operations, for which room is made.
///
/// Refuses the first token that no body has there.
pub fn body_text<'s>(
    reader: &mut Reader<'s>,
    names: &mut Names<'s>,
    likely: u32,
) -> Result<BodyText, ReadFail>
    ensures gives { ReadsFor (IsBodyText (meanings_of names.old)) result reader.new (body_text reader.old) }
    ensures shorter { OnOk result (length reader.new ≤ length reader.old) }
{
    let dictionary = header_attributes(reader, HEADER)?;
    reader.want(HEADER, TokenKind::LeftBrace)?;
    let operations = operations_text(reader, names, likely)?;
    let close = reader.want(HEADER, TokenKind::RightBrace)?;
    Ok(BodyText {
        dictionary,
        operations,
        close: close.location,
    })
}

// Operations up to the closing brace, which is left. `hw.output` is the last.
fn operations_text<'s>(
    reader: &mut Reader<'s>,
    names: &mut Names<'s>,
    likely: u32,
) -> Result<Operations, ReadFail>
    ensures gives { ReadsFor (AreOperations (meanings_of names.old)) result reader.new (operations_text (length reader.old) reader.old) }
    ensures shorter { OnOk result (length reader.new ≤ length reader.old) }
{
    let given = mem::replace(names, Names::new(reader.alloc()));
    let mut draft = Draft::new(reader.alloc(), given, likely);
    let mut ends = false;
    while !reader.is_next(TokenKind::RightBrace) {
        let operation = match operation_text(reader) {
            Ok(operation) => operation,
            Err(fail) => return Err(fail),
        };
        if is_last(operation.name) && !reader.is_next(TokenKind::RightBrace) {
            return Err(ReadFail::Refused(reader.unexpected_token(HEADER)));
        }
        ends = ends || is_last(operation.name);
        draft.add(reader.alloc(), operation)?;
    }
    let (body, all) = draft.finish(reader.alloc())?;
    *names = all;
    Ok(Operations { body, ends })
}
