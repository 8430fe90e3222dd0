//! Tables of words.
ghost use Rattle.std.specs.Prelude.{◌≡◌};
ghost use Rattle.ir_store.specs.Bodies.{ids_of};
ghost use Rattle.ir_store.specs.Numbered.{position_of, ref_by};
ghost use Rattle.flat_steps.specs.Tables.{cell, put, word_in, with_words};

use bits_core::Bits;
use body_index::op_index::OpIndex;
use ir_store::operation::Value;

/// The word of a value, by the words of ports and of first results.
pub(crate) fn word_in(ops: &OpIndex<'_>, ports: &[Bits], results: &[Bits], value: Value) -> Bits
    ensures { result ≡ word_in ports.now results.now (ref_by (position_of (ids_of ops.now.body.now)) value) }
{
    match value {
        Value::Port(port) => cell(ports, port as usize),
        Value::Result(id, _) => cell(results, ops.position(id)),
        Value::Undefined => Bits::from(false),
    }
}

/// The word at a place; a bit of 0 where there is no such place.
pub(crate) fn cell(table: &[Bits], place: usize) -> Bits
    ensures { result ≡ cell table.now place }
{
    match table.get(place) {
        Some(word) => *word,
        None => Bits::from(false),
    }
}

/// Puts a word at a place, where there is such a place.
pub(crate) fn put(table: &mut [Bits], place: usize, word: Bits)
    ensures { table.new ≡ put table.old place word }
{
    if place < table.len() {
        table[place] = word;
    }
}

/// Puts words at places.
pub(crate) fn put_words(places: &[u32], words: &[Bits], table: &mut [Bits])
    ensures { table.new ≡ with_words places.now words.now table.old }
{
    let mut left = places;
    let mut rest = words;
    while let Some((place, places)) = left.split_first() {
        let Some((word, words)) = rest.split_first() else {
            return;
        };
        put(table, *place as usize, *word);
        left = places;
        rest = words;
    }
}
