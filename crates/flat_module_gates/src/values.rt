//! The signals of the values of a flat body.
ghost use Rattle.std.specs.Prelude.{◌≡◌, ◌<◌, [], length, map, take, drop, slice_get, slice_index_or, IfOk};
ghost use Rattle.gates.specs.Circuits.{Runs};
ghost use Rattle.hw_model.specs.Design.{is_register};
ghost use Rattle.hw_model.specs.Flat.{held_width};
ghost use Rattle.ir_store.specs.Bodies.{ids_of, ops_of};
ghost use Rattle.ir_store.specs.Numbered.{position_of, ref_by, ops_by_position};
ghost use Rattle.body_index.specs.OpIndexes.{op_view};
ghost use Rattle.operation_gates.specs.Operands.{TakesWidths};
ghost use Rattle.operation_gates.specs.OperationGateLists.{gate_list_of};
ghost use Rattle.flat_module_gates.specs.FlatGateLists.{bits_in, starts_from, word_at, gate_list_at, with_word, results_by, no_words, OpTakes, GateListsFit};

use crate::kinds::{is_output, is_register};
use crate::widths::{first_bits, sum};
use body_index::op_index::OpIndex;
use gates::circuit::Gates;
use gates::signal::Signal;
use ir_store::body::Op;
use ir_store::operation::Value;
use operation_gates::operations::gate_list;
use operation_gates::signal_word::SignalWord;
use std::alloc::{AllocError, Global};

/// A flat body whose registers have content.
#[derive(Clone, Copy)]
pub struct Held<'s> {
    /// Its operations.
    pub ops: &'s OpIndex<'s>,
    /// The content of its registers, in their order.
    pub content: &'s [Signal],
    /// Where that of each operation begins.
    pub starts: &'s [u32],
    ghost begins: { starts.now ≡ starts_from 0 (ops_by_position (ops_of ops.now.body.now)) },
}

/// The signals of the values of a body, as far as they are built.
#[derive(Drop)]
pub struct Words {
    /// Those of its ports.
    pub ports: Vec<SignalWord>,
    /// Those of the first result of each operation.
    pub results: Vec<SignalWord>,
}

/// Where the content of each operation begins.
pub fn starts_of(alloc: Global, ops: &OpIndex<'_>) -> Result<Vec<u32>, AllocError>
    ensures { IfOk result (λ v. v.items ≡ starts_from 0 (ops_by_position (ops_of ops.now.body.now))) }
{
    let mut starts = Vec::with_capacity(alloc, ops.count())?;
    let mut start = 0;
    for position in 0..ops.count() {
        starts.push(start)?;
        start = sum(start, bits_at(ops, position)?)?;
    }
    Ok(starts)
}

/// How many bits of content the operation at a position has.
pub(crate) fn bits_at(ops: &OpIndex<'_>, position: usize) -> Result<u32, AllocError>
    requires { position < length (ops_by_position (ops_of ops.now.body.now)) }
    ensures { IfOk result (λ n. n ≡ bits_in (slice_get (ops_by_position (ops_of ops.now.body.now)) position)) }
{
    let op = ops.op_at(position);
    if is_register(op.kind) {
        first_bits(op.results)
    } else {
        Ok(0)
    }
}

/// The signals of the values of a body, operation by operation in an order in which each stands after those whose results it
/// takes, the words of its ports being given. The error comes only when out of memory, for which 2^32 variables count.
pub fn built_words(
    alloc: Global,
    gates: &mut Gates,
    held: &Held<'_>,
    ports: Vec<SignalWord>,
    order: &[u32],
) -> Result<Words, AllocError>
    requires { GateListsFit (ops_by_position (ops_of held.now.ops.now.body.now)) held.now.content.now ports.items order.now gates.old }
    ensures ports { IfOk result (λ w. w.ports.items ≡ ports.items) }
    ensures results { IfOk result (λ w. Runs (results_by (ops_by_position (ops_of held.now.ops.now.body.now)) held.now.content.now ports.items order.now (no_words (length (ops_by_position (ops_of held.now.ops.now.body.now))))) gates.old gates.new w.results.items) }
{
    let results = empty_words(alloc, held.ops.count())?;
    let mut words = Words { ports, results };
    for position in order {
        let word = result_word(alloc, gates, held, &words, *position as usize)?;
        put_word(held.ops, *position as usize, word, &mut words.results);
    }
    Ok(words)
}

// So many words without signals.
fn empty_words(alloc: Global, count: usize) -> Result<Vec<SignalWord>, AllocError>
    ensures { IfOk result (λ v. v.items ≡ no_words count) }
{
    let mut words = Vec::with_capacity(alloc, count)?;
    for _ in 0..count {
        words.push(SignalWord::new(alloc))?;
    }
    Ok(words)
}

// Puts the word of the operation at a position in its place, where it has a result.
fn put_word(ops: &OpIndex<'_>, position: usize, word: SignalWord, results: &mut [SignalWord])
    requires within { position < length (ops_by_position (ops_of ops.now.body.now)) }
    requires room { length results.old ≡ length (ops_by_position (ops_of ops.now.body.now)) }
    ensures { results.new ≡ with_word (slice_get (ops_by_position (ops_of ops.now.body.now)) position) position word results.old }
{
    let op = ops.op_at(position);
    if op.results.len() > 0 {
        results[position] = word;
    }
}

// The word of the first result of the operation at a position.
fn result_word(
    alloc: Global,
    gates: &mut Gates,
    held: &Held<'_>,
    words: &Words,
    position: usize,
) -> Result<SignalWord, AllocError>
    requires within { position < length (ops_by_position (ops_of held.now.ops.now.body.now)) }
    requires takes { OpTakes (word_at words.now.ports.items words.now.results.items) (slice_get (ops_by_position (ops_of held.now.ops.now.body.now)) position) }
    ensures { IfOk result (Runs (gate_list_at (ops_by_position (ops_of held.now.ops.now.body.now)) held.now.content.now (word_at words.now.ports.items words.now.results.items) position) gates.old gates.new) }
{
    let op = held.ops.op_at(position);
    if is_register(op.kind) {
        let width = first_bits(op.results)?;
        return held_word(alloc, held.content, start_at(held.starts, position), width);
    }
    if is_output(op.kind) {
        return Ok(SignalWord::new(alloc));
    }
    made_word(alloc, gates, held.ops, words, &op)
}

/// Where the content of the operation at a position begins.
pub(crate) fn start_at(starts: &[u32], position: usize) -> u32
    ensures { result ≡ slice_index_or starts.now position 0 }
{
    match starts.get(position) {
        Some(start) => *start,
        None => 0,
    }
}

/// So many bits of content from one on.
pub(crate) fn held_word(
    alloc: Global,
    content: &[Signal],
    start: u32,
    width: u32,
) -> Result<SignalWord, AllocError>
    ensures { IfOk result (λ w. w ≡ take width (drop start content.now)) }
{
    let left = content.split_at((start as usize).min(content.len())).1;
    let word = Vec::from_slice(alloc, left.split_at((width as usize).min(left.len())).0)?;
    Ok(SignalWord::from_vec(word))
}

// The word of an operation whose result is made of its operands.
fn made_word(
    alloc: Global,
    gates: &mut Gates,
    ops: &OpIndex<'_>,
    words: &Words,
    op: &Op<'_>,
) -> Result<SignalWord, AllocError>
    requires { TakesWidths (op_view ops.now.body.now op.now).kind (held_width (op_view ops.now.body.now op.now)) (map length (map (word_at words.now.ports.items words.now.results.items) (op_view ops.now.body.now op.now).operands)) }
    ensures { IfOk result (Runs (gate_list_of (op_view ops.now.body.now op.now).kind (held_width (op_view ops.now.body.now op.now)) (map (word_at words.now.ports.items words.now.results.items) (op_view ops.now.body.now op.now).operands)) gates.old gates.new) }
{
    let width = first_bits(op.results)?;
    let operands = words_of(alloc, ops, words, op.operands)?;
    gate_list(alloc, gates, op.kind, width, operands.as_slice())
}

/// The words of values.
pub fn words_of(
    alloc: Global,
    ops: &OpIndex<'_>,
    words: &Words,
    values: &[Value],
) -> Result<Vec<SignalWord>, AllocError>
    ensures { IfOk result (λ v. v.items ≡ map (word_at words.now.ports.items words.now.results.items) (map (ref_by (position_of (ids_of ops.now.body.now))) values.now)) }
{
    let mut all = Vec::with_capacity(alloc, values.len())?;
    for value in values {
        let word = Vec::from_slice(alloc, word_of(ops, words, *value))?;
        all.push(SignalWord::from_vec(word))?;
    }
    Ok(all)
}

/// The word of a value.
pub fn word_of<'w>(ops: &OpIndex<'_>, words: &'w Words, value: Value) -> &'w [Signal]
    ensures { result.now ≡ word_at words.now.ports.items words.now.results.items (ref_by (position_of (ids_of ops.now.body.now)) value) }
{
    match value {
        Value::Port(port) => word_in(words.ports.as_slice(), port as usize),
        Value::Result(id, 0) => word_in(words.results.as_slice(), ops.position(id)),
        Value::Result(_, _) | Value::Undefined => &[],
    }
}

// The word at a position; none where there is no such position.
fn word_in(words: &[SignalWord], index: usize) -> &[Signal]
    ensures { result.now ≡ slice_index_or words.now index [] }
{
    if index < words.len() {
        words[index].as_slice()
    } else {
        &[]
    }
}
