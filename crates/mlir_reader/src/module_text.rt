//! Modules in a text, whose names are resolved as they are read (CIRCT, HW dialect: `hw.module`).
ghost use Rattle.std.specs.Prelude.{◌≡◌, ◌<◌, ◌≤◌, length, Some, Ok, OnOk};
ghost use Rattle.mlir_lexer.specs.Tokens.{text_token};
ghost use Rattle.mlir_operations.specs.ModuleText.{module_after, classed_module, module_text};
ghost use Rattle.mlir_operations.specs.OperationText.{class_of};
ghost use Rattle.mlir_syntax.specs.Stream.{first};
ghost use Rattle.mlir_syntax.specs.Views.{ReadsFor};
ghost use Rattle.mlir_reader.specs.ModuleViews.{IsModule};

use crate::body_text::body_text;
use crate::names::Names;
use crate::resolving::{ModuleHead, named_ports, whole_module};
use diag::refusal::{Location, OpName};
use ir_store::design::Module;
use mlir_lexer::token::{Token, TokenKind, is_kind};
use mlir_operations::operation_names::{NameClass, class_of};
use mlir_operations::operation_text::{HEADER, misplaced_refusal, no_operation};
use mlir_operations::port_text::{ports_text, private_text};
use mlir_syntax::fail::ReadFail;
use mlir_syntax::reader::Reader;

/// A module, whose names are resolved. What `names` stand for before is forgotten; only their room is used. The module
/// will likely have so many operations, for which room is made.
///
/// Refuses the first token that no module has there.
#[tactic(auto, unfolding(mlir_operations::specs::ModuleText::module_text))]
pub fn module_text<'s>(
    reader: &mut Reader<'s>,
    names: &mut Names<'s>,
    likely: u32,
) -> Result<Module, ReadFail>
    ensures gives { ReadsFor IsModule result reader.new (module_text reader.old) }
    ensures shorter { OnOk result (length reader.new < length reader.old) }
{
    match reader.first() {
        Some(token) if is_kind(token.kind, TokenKind::BareName) => {
            classed_module(reader, names, token, likely)
        }
        Some(_) => Err(ReadFail::Refused(no_operation(reader, OpName::File))),
        None => Err(ReadFail::Refused(no_operation(reader, OpName::File))),
    }
}

// A module whose name is the first token.
#[tactic(auto, unfolding(mlir_operations::specs::ModuleText::classed_module))]
fn classed_module<'s>(
    reader: &mut Reader<'s>,
    names: &mut Names<'s>,
    token: Token<'s>,
    likely: u32,
) -> Result<Module, ReadFail>
    requires { Some (text_token token) ≡ first reader.old }
    ensures gives { ReadsFor IsModule result reader.new (classed_module reader.old (text_token token.entry) (class_of token.entry.text.now)) }
    ensures shorter { OnOk result (length reader.new < length reader.old) }
{
    let op = OpName::File;
    match class_of(token.text) {
        NameClass::Module => {
            reader.advance();
            module_after(reader, names, token.location, likely)
        }
        NameClass::Operation(name) => {
            let class = NameClass::Operation(name);
            Err(ReadFail::Refused(misplaced_refusal(reader, op, token, class)))
        }
        NameClass::File => {
            Err(ReadFail::Refused(misplaced_refusal(reader, op, token, NameClass::File)))
        }
        NameClass::Locations => {
            Err(ReadFail::Refused(misplaced_refusal(reader, op, token, NameClass::Locations)))
        }
        NameClass::Outside => {
            Err(ReadFail::Refused(misplaced_refusal(reader, op, token, NameClass::Outside)))
        }
        NameClass::Unknown => {
            Err(ReadFail::Refused(misplaced_refusal(reader, op, token, NameClass::Unknown)))
        }
    }
}

// A module after its name.
fn module_after<'s>(
    reader: &mut Reader<'s>,
    names: &mut Names<'s>,
    location: Location,
    likely: u32,
) -> Result<Module, ReadFail>
    ensures gives { ReadsFor IsModule result reader.new (module_after location reader.old) }
    ensures shorter { OnOk result (length reader.new ≤ length reader.old) }
{
    let private = private_text(reader);
    let symbol = reader.module_symbol(HEADER)?;
    let ports = ports_text(reader)?;
    let ports = named_ports(reader.alloc(), names, ports)?;
    let body = body_text(reader, names, likely)?;
    let head = ModuleHead {
        symbol,
        private,
        ports: ports.list,
        outputs: ports.outputs,
        location,
    };
    Ok(whole_module(reader.alloc(), head, body)?)
}
