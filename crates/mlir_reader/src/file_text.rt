//! Files (MLIR, builtin dialect: `builtin.module`).
ghost use Rattle.std.specs.Prelude.{◌≡◌, ◌≤◌, [], length, OnOk};
ghost use Rattle.ir_store.specs.Designs.{design_of};
ghost use Rattle.mlir_reader.specs.EndViews.{ends_of};
ghost use Rattle.mlir_reader.specs.ModuleViews.{designs_after, braced_text, closing_text};
ghost use Rattle.mlir_syntax.specs.AttributeText.{is_symbol};
ghost use Rattle.mlir_operations.specs.ModuleText.{is_file_name, modules_text, file_symbol, want_end, wrapped_text, file_text};
ghost use Rattle.mlir_syntax.specs.Stream.{is_first};
ghost use Rattle.mlir_syntax.specs.Views.{ReadsAs};

use crate::module_text::module_text;
use crate::names::Names;
use crate::sizes::put_module;
use diag::refusal::OpName;
use ir_store::design::Design;
use mlir_lexer::token::TokenKind;
use mlir_operations::port_text::header_attributes;
use mlir_syntax::attribute_text::is_symbol;
use mlir_syntax::fail::ReadFail;
use mlir_syntax::reader::{Reader, is_word};

// How many operations the first body will likely have.
const FIRST_LIKELY: u32 = 8;

/// Where the modules of a file end.
#[derive(Clone, Copy)]
pub enum Ends {
    /// At a closing brace.
    Brace,
    /// At the end of the text.
    Text,
}

/// A file: modules, bare or in one module of the builtin dialect, each resolved as its text is read.
///
/// Refuses the first token that no file has there.
#[tactic(auto, unfolding(mlir_operations::specs::ModuleText::file_text))]
pub fn file_text(reader: &mut Reader<'_>) -> Result<Design, ReadFail>
    ensures { ReadsAs design_of result reader.new (designs_after [] (file_text reader.old)) }
{
    let mut design = Design::new(reader.alloc());
    if is_file_name(reader) {
        reader.advance();
        wrapped_text(reader, &mut design)?;
    } else {
        modules_text(reader, Ends::Text, &mut design)?;
    }
    Ok(design)
}

// Whether the first token is the name of a file's module.
fn is_file_name(reader: &Reader<'_>) -> bool
    ensures { result ≡ is_first is_file_name reader.now }
{
    match reader.first() {
        Some(token) => is_word(token, b"module") || is_word(token, b"builtin.module"),
        None => false,
    }
}

// `[@N] [attributes {..}] { MODULES }` and the end, after the name of a file's module.
#[tactic(auto, unfolding(mlir_operations::specs::ModuleText::wrapped_text, crate::specs::ModuleViews::braced_text))]
fn wrapped_text(reader: &mut Reader<'_>, design: &mut Design) -> Result<(), ReadFail>
    ensures { ReadsAs (λ (_ : Unit {0}). design_of design.new) result reader.new (designs_after (design_of design.old) (wrapped_text reader.old)) }
{
    file_symbol(reader)?;
    header_attributes(reader, OpName::File)?;
    reader.want(OpName::File, TokenKind::LeftBrace)?;
    braced_text(reader, design)
}

// `MODULES }` and the end.
#[tactic(auto, unfolding(crate::specs::ModuleViews::braced_text))]
fn braced_text(reader: &mut Reader<'_>, design: &mut Design) -> Result<(), ReadFail>
    ensures { ReadsAs (λ (_ : Unit {0}). design_of design.new) result reader.new (designs_after (design_of design.old) (braced_text reader.old)) }
{
    match modules_text(reader, Ends::Brace, design) {
        Ok(()) => closing_text(reader),
        Err(fail) => Err(fail),
    }
}

// `}` and the end.
#[tactic(auto, unfolding(crate::specs::ModuleViews::closing_text))]
fn closing_text(reader: &mut Reader<'_>) -> Result<(), ReadFail>
    ensures { ReadsAs (λ u. u) result reader.new (closing_text reader.old) }
{
    reader.want(OpName::File, TokenKind::RightBrace)?;
    see_end(reader)
}

// A symbol that is not kept, or nothing.
#[tactic(auto, unfolding(mlir_operations::specs::ModuleText::file_symbol))]
fn file_symbol(reader: &mut Reader<'_>) -> Result<(), ReadFail>
    ensures gives { ReadsAs (λ u. u) result reader.new (file_symbol reader.old) }
    ensures shorter { OnOk result (length reader.new ≤ length reader.old) }
{
    if begins_symbol(reader) {
        reader.symbol_text(OpName::File)?;
    }
    Ok(())
}

// Whether the first token is a symbol.
fn begins_symbol(reader: &Reader<'_>) -> bool
    ensures { result ≡ is_first is_symbol reader.now }
{
    match reader.first() {
        Some(token) => is_symbol(token),
        None => false,
    }
}

// The end of the text, which is not passed.
#[tactic(auto, unfolding(mlir_operations::specs::ModuleText::want_end))]
fn see_end(reader: &Reader<'_>) -> Result<(), ReadFail>
    ensures { ReadsAs (λ u. u) result reader.now (want_end tt reader.now) }
{
    if reader.is_end() {
        Ok(())
    } else {
        Err(ReadFail::Refused(reader.unexpected_token(OpName::File)))
    }
}

// Modules up to where they end, put after those of a design. Each will likely have as many operations as the one before.
fn modules_text(reader: &mut Reader<'_>, ends: Ends, design: &mut Design) -> Result<(), ReadFail>
    ensures gives { ReadsAs (λ (_ : Unit {0}). design_of design.new) result reader.new (designs_after (design_of design.old) (modules_text (ends_of ends) (length reader.old) reader.old)) }
    ensures shorter { OnOk result (length reader.new ≤ length reader.old) }
{
    let mut names = Names::new(reader.alloc());
    let mut likely = FIRST_LIKELY;
    while !ends_here(reader, ends) {
        match module_text(reader, &mut names, likely) {
            Ok(module) => {
                likely = u32::try_from(module.body.op_count()).unwrap_or(u32::MAX);
                put_module(design, module)?;
            }
            Err(fail) => return Err(fail),
        }
    }
    Ok(())
}

// Whether modules end here.
fn ends_here(reader: &Reader<'_>, ends: Ends) -> bool
    ensures { result ≡ ends_of ends reader.now }
{
    match ends {
        Ends::Brace => reader.is_next(TokenKind::RightBrace),
        Ends::Text => reader.is_end(),
    }
}
