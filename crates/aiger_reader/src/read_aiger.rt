//! Whole texts.
ghost use Rattle.std.specs.Prelude.{◌≡◌, ◌≤◌, ◌<◌, ◌^◌, true, length, Ok, IfOk, IfErr};
ghost use Rattle.text_lines.specs.Lines.{lines};
ghost use Rattle.aiger_laws.specs.Trees.{empty_tree};
ghost use Rattle.aiger_laws.specs.Drivers.{GatesDrive, HasNoCycle};
ghost use Rattle.aiger_laws.specs.Rows.{is_ample};
ghost use Rattle.aiger_laws.specs.Grammar.{IsAiger, gate_line, tree_from, tree_of_text};
ghost use Rattle.aiger_reader.specs.declared.fail.ReadFail.TheVariants.{Refused};
ghost use Rattle.aiger_reader.specs.Headers.{header_in};
ghost use Rattle.aiger_reader.specs.Kept.{Knows, tree_of};
ghost use Rattle.aiger_reader.specs.Told.{IsReadFail, IsLineFail, IsCycleFail, line_count};

use crate::cycles::first_cycle;
use crate::fail::{ReadFail, Refusal};
use crate::header::{Header, header_of};
use crate::symbols::no_symbol;
use crate::text::AigerText;
use crate::undefined::undefined_line;
use aiger_laws::fault::Fault;
use std::alloc::Global;
use text_lines::lines::first_line;

/// The greatest number of bytes that a text may have.
pub const MOST_BYTES: usize = 1 << 26;

/// Reads a text in the AIGER format.
pub fn read_aiger(alloc: Global, source: &[u8]) -> Result<AigerText, ReadFail>
    ensures ok { IfOk result (λ text. IsAiger source.now (tree_of text)) }
    ensures short { IfOk result (λ _. length source.now ≤ 2 ^ 26) }
    ensures knows { IfOk result Knows }
    ensures err { IfErr result (IsReadFail source.now) }
{
    if MOST_BYTES < source.len() {
        return Err(ReadFail::TooLong);
    }
    match read_lines(alloc, source) {
        Ok(text) => with_drivers(alloc, source, text),
        Err(fail) => Err(fail),
    }
}

/// Asks of what the text `source` says whether each literal that is used is defined, and whether a gate needs itself.
fn with_drivers(alloc: Global, source: &[u8], text: AigerText) -> Result<AigerText, ReadFail>
    requires short { length source.now ≤ 2 ^ 26 }
    requires reads { tree_of_text source.now ≡ Ok (tree_of text) }
    requires knows { Knows text }
    requires few { line_count (tree_of text) ≤ 2 ^ 26 }
    ensures ok { IfOk result (λ t. IsAiger source.now (tree_of t)) }
    ensures knows { IfOk result Knows }
    ensures err { IfErr result (IsReadFail source.now) }
{
    match undefined_line(&text) {
        Some(line) => Err(refused(line, Fault::NotDefined)),
        None => without_cycle(alloc, text),
    }
}

/// Asks whether a gate needs itself.
fn without_cycle(alloc: Global, text: AigerText) -> Result<AigerText, ReadFail>
    requires knows { Knows text }
    requires drives { GatesDrive (tree_of text) }
    requires few { line_count (tree_of text) ≤ 2 ^ 26 }
    ensures same { IfOk result (λ t. t ≡ text) }
    ensures ok { IfOk result (λ _. HasNoCycle (tree_of text)) }
    ensures err { IfErr result (IsCycleFail (tree_of text)) }
{
    match first_cycle(alloc, &text)? {
        Some(place) => Err(refused(gate_line(&text) + place, Fault::GateCycle)),
        None => Ok(text),
    }
}

/// The refusal of a line.
fn refused(line: u32, fault: Fault) -> ReadFail
    ensures { result ≡ Refused (record { line = line; fault = fault }) }
{
    ReadFail::Refused(Refusal { line, fault })
}

/// The line of the first gate.
fn gate_line(text: &AigerText) -> u32
    requires { line_count (tree_of text.now) ≤ 2 ^ 26 }
    ensures { result ≡ gate_line (tree_of text.now) }
{
    2 + text.inputs.len() as u32 + text.latches.len() as u32 + text.outputs.len() as u32
}

/// Reads the header and the lines behind it.
fn read_lines(alloc: Global, source: &[u8]) -> Result<AigerText, ReadFail>
    requires { length source.now ≤ 2 ^ 26 }
    ensures ok { IfOk result (λ text. tree_of_text source.now ≡ Ok (tree_of text)) }
    ensures knows { IfOk result Knows }
    ensures few { IfOk result (λ text. line_count (tree_of text) ≤ 2 ^ 26) }
    ensures err { IfErr result (IsLineFail (tree_of_text source.now)) }
{
    if source.is_empty() {
        return Err(refused(1, Fault::BadLine));
    }
    let (first, others) = first_line(source);
    match header_of(first) {
        Some(header) => read_rows(alloc, header, others),
        None => Err(refused(1, Fault::BadLine)),
    }
}

/// Reads the lines behind the header.
fn read_rows(alloc: Global, header: Header, source: &[u8]) -> Result<AigerText, ReadFail>
    requires ample { is_ample (header_in header) ≡ true }
    requires short { length source.now < 2 ^ 26 }
    ensures ok { IfOk result (λ text. tree_from (header_in header) 2 empty_tree (lines source.now) ≡ Ok (tree_of text)) }
    ensures knows { IfOk result Knows }
    ensures few { IfOk result (λ text. line_count (tree_of text) ≤ 2 ^ 26) }
    ensures err { IfErr result (IsLineFail (tree_from (header_in header) 2 empty_tree (lines source.now))) }
{
    let mut text = AigerText::new(alloc);
    let mut line = 2;
    let mut rest = source;
    while text.has_more(header) {
        if rest.is_empty() {
            return Err(refused(line, Fault::BadLine));
        }
        let (first, others) = first_line(rest);
        if let Some(fault) = text.add_row(header, first)? {
            return Err(refused(line, fault));
        }
        line += 1;
        rest = others;
    }
    match no_symbol(line, rest) {
        None => Ok(text),
        Some(bad) => Err(refused(bad, Fault::BadLine)),
    }
}
