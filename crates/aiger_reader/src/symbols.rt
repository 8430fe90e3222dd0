//! Symbols and comments.
ghost use Rattle.std.specs.Prelude.{◌≡◌, ◌+◌, ◌<◌, ◌^◌, length};
ghost use Rattle.text_lines.specs.Lines.{lines};
ghost use Rattle.aiger_laws.specs.Fields.{fields};
ghost use Rattle.aiger_laws.specs.Rows.{is_symbol, is_symbol_letter, is_named, begins_comments};
ghost use Rattle.aiger_laws.specs.Grammar.{no_symbol};

use crate::fields::{next_field, number};
use text_lines::lines::first_line;

/// The first line, from one of that number on, that is no symbol before comments begin.
#[tactic(auto, using(text_lines::proofs::Splitting::no_lines), unfolding(aiger_laws::specs::Grammar::no_symbol))]
pub(crate) fn no_symbol(mut line: u32, text: &[u8]) -> Option<u32>
    requires { line + length text.now < 2 ^ 32 }
    ensures { result ≡ no_symbol line (lines text.now) }
{
    let mut rest = text;
    while !rest.is_empty() {
        let (first, others) = first_line(rest);
        if first == b"c".as_slice() {
            return None;
        }
        if !is_symbol(first) {
            return Some(line);
        }
        line += 1;
        rest = others;
    }
    None
}

/// Whether a line is a symbol: a letter, a number, a blank and a name.
fn is_symbol(line: &[u8]) -> bool
    ensures { result ≡ is_symbol line.now }
{
    match line.split_first() {
        Some((letter, others)) => is_symbol_letter(*letter) && is_named(others),
        None => false,
    }
}

fn is_symbol_letter(byte: u8) -> bool
    ensures { result ≡ is_symbol_letter byte }
{
    byte == b'i' || (byte == b'l' || byte == b'o')
}

/// Whether a number stands before a blank.
#[tactic(auto, using(crate::proofs::SaturatedRows::named_more))]
fn is_named(line: &[u8]) -> bool
    ensures { result ≡ is_named (fields line.now) }
{
    let (field, rest) = next_field(line);
    match rest {
        Some(_name) => number(field).is_some(),
        None => false,
    }
}
