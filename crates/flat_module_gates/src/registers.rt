//! What the registers of a flat body hold: once asynchronous resets have loaded them, and after a step.
ghost use Rattle.std.specs.Prelude.{◌≡◌, ◌<◌, ◌≤◌, length, take, drop, slice_get, slice_index_or, IfOk, Some, option_map};
ghost use Rattle.gates.specs.Circuits.{Runs};
ghost use Rattle.hw_model.specs.Flat.{held_width, width_of, async_reset_in};
ghost use Rattle.hw_model.specs.Design.{OpResult};
ghost use Rattle.hw_model.specs.KindViews.{kind_of};
ghost use Rattle.ir_store.specs.OperationViews.{results_in};
ghost use Rattle.hw_model.specs.RegisterViews.{reset_by_of};
ghost use Rattle.ir_store.specs.Bodies.{ids_of, ops_of};
ghost use Rattle.ir_store.specs.Numbered.{position_of, ref_by, ops_by_position};
ghost use Rattle.ir_store.specs.declared.operation.Value.{Value};
ghost use Rattle.hw_model.specs.declared.registers.ResetBy.{ResetBy};
ghost use Rattle.body_index.specs.OpIndexes.{op_view};
ghost use Rattle.net_gates.specs.RegisterGateLists.{constant_word, load, load_bit, enable_gate_list, reset_gate_list};
ghost use Rattle.flat_module_gates.specs.FlatGateLists.{starts_from, word_at};
ghost use Rattle.flat_module_gates.specs.FlatSteps.{known_bit, known_bits, constant_in, constant_at, any_reset_in, loaded_of, next_of, content_gate_list, content_width, RegisterTakes, RegistersTake};

use crate::kinds::is_register;
use crate::values::{Words, bits_at, held_word, start_at, word_of};
use crate::widths::{first_bits, sum};
use body_index::op_index::OpIndex;
use gate_words::bitwise::{Bitwise, each};
use gate_words::divisions::top;
use gates::circuit::Gates;
use gates::signal::Signal;
use hw_model::kinds::OpKind;
use hw_model::registers::{ResetBy, async_reset_of, register_of};
use ir_store::body::Op;
use ir_store::operation::{NewResultList, Value};
use operation_gates::known_words::integer_bits;
use operation_gates::signal_word::SignalWord;
use std::alloc::{AllocError, Global};

/// A flat body with the signals of its values.
#[derive(Clone, Copy)]
pub struct Valued<'s> {
    /// Its operations.
    pub ops: &'s OpIndex<'s>,
    /// The signals of its values.
    pub words: &'s Words,
    /// Where the content of each operation begins.
    pub starts: &'s [u32],
    ghost begins: { starts.now ≡ starts_from 0 (ops_by_position (ops_of ops.now.body.now)) },
}

/// How many bits the registers of a body hold.
pub fn content_bits(ops: &OpIndex<'_>) -> Result<u32, AllocError>
    ensures { IfOk result (λ n. n ≡ content_width (ops_by_position (ops_of ops.now.body.now))) }
{
    let mut bits = 0;
    for position in 0..ops.count() {
        bits = sum(bits, bits_at(ops, position)?)?;
    }
    Ok(bits)
}

/// The content once asynchronous resets that are 1 have given their registers their values.
pub fn loaded_content(
    alloc: Global,
    gates: &mut Gates,
    body: &Valued<'_>,
    content: &[Signal],
) -> Result<Vec<Signal>, AllocError>
    ensures { IfOk result (λ v. Runs (content_gate_list (loaded_of (ops_by_position (ops_of body.now.ops.now.body.now)) (word_at body.now.words.now.ports.items body.now.words.now.results.items)) (ops_by_position (ops_of body.now.ops.now.body.now)) content.now) gates.old gates.new v.items) }
{
    let mut made = Vec::with_capacity(alloc, content.len())?;
    for position in 0..body.ops.count() {
        let op = body.ops.op_at(position);
        if is_register(op.kind) {
            let old = old_word(alloc, body, position, &op, content)?;
            let word = loaded_word(alloc, gates, body, &op, old.as_slice())?;
            made.extend_from_slice(word.as_slice())?;
        }
    }
    Ok(made)
}

/// The content after a step.
pub fn next_content(
    alloc: Global,
    gates: &mut Gates,
    body: &Valued<'_>,
    content: &[Signal],
) -> Result<Vec<Signal>, AllocError>
    requires takes { RegistersTake (ops_by_position (ops_of body.now.ops.now.body.now)) (word_at body.now.words.now.ports.items body.now.words.now.results.items) }
    requires width { content_width (ops_by_position (ops_of body.now.ops.now.body.now)) ≤ length content.now }
    ensures { IfOk result (λ v. Runs (content_gate_list (next_of (ops_by_position (ops_of body.now.ops.now.body.now)) (word_at body.now.words.now.ports.items body.now.words.now.results.items)) (ops_by_position (ops_of body.now.ops.now.body.now)) content.now) gates.old gates.new v.items) }
{
    let mut made = Vec::with_capacity(alloc, content.len())?;
    for position in 0..body.ops.count() {
        let op = body.ops.op_at(position);
        if is_register(op.kind) {
            let old = old_word(alloc, body, position, &op, content)?;
            let word = next_word(alloc, gates, body, &op, old.as_slice())?;
            made.extend_from_slice(word.as_slice())?;
        }
    }
    Ok(made)
}

// The content of the register at a position.
fn old_word(
    alloc: Global,
    body: &Valued<'_>,
    position: usize,
    op: &Op<'_>,
    content: &[Signal],
) -> Result<SignalWord, AllocError>
    ensures { IfOk result (λ w. w ≡ take (held_width (op_view body.now.ops.now.body.now op.now)) (drop (slice_index_or body.now.starts.now position 0) content.now)) }
{
    let width = first_bits(op.results)?;
    held_word(alloc, content, start_at(body.starts, position), width)
}

// What a register holds, once its asynchronous reset, where it has one, has given it its value.
fn loaded_word(
    alloc: Global,
    gates: &mut Gates,
    body: &Valued<'_>,
    op: &Op<'_>,
    old: &[Signal],
) -> Result<Vec<Signal>, AllocError>
    ensures { IfOk result (λ v. Runs (loaded_of (ops_by_position (ops_of body.now.ops.now.body.now)) (word_at body.now.words.now.ports.items body.now.words.now.results.items) (op_view body.now.ops.now.body.now op.now) old.now) gates.old gates.new v.items) }
{
    match async_reset_of(op.kind, op.operands) {
        None => {
            let kept = Vec::from_slice(alloc, old)?;
            Ok(kept)
        }
        Some(reset) => {
            let condition = top(word_of(body.ops, body.words, reset.signal));
            let value = constant_of(alloc, body.ops, reset.value)?;
            load(alloc, gates, condition, value.as_slice(), old)
        }
    }
}

// What a register holds after a step in which its clock is 1, else what it held.
fn next_word(
    alloc: Global,
    gates: &mut Gates,
    body: &Valued<'_>,
    op: &Op<'_>,
    old: &[Signal],
) -> Result<Vec<Signal>, AllocError>
    requires takes { RegisterTakes (ops_by_position (ops_of body.now.ops.now.body.now)) (word_at body.now.words.now.ports.items body.now.words.now.results.items) (op_view body.now.ops.now.body.now op.now) }
    requires width { length old.now ≡ held_width (op_view body.now.ops.now.body.now op.now) }
    ensures { IfOk result (λ v. Runs (next_of (ops_by_position (ops_of body.now.ops.now.body.now)) (word_at body.now.words.now.ports.items body.now.words.now.results.items) (op_view body.now.ops.now.body.now op.now) old.now) gates.old gates.new v.items) }
{
    let Some(register) = register_of(op.kind, op.operands) else {
        let kept = Vec::from_slice(alloc, old)?;
        return Ok(kept);
    };
    let clock = top(word_of(body.ops, body.words, register.clock));
    let next = word_of(body.ops, body.words, register.next);
    let enabled = enabled_word(alloc, gates, body, register.enable, next, old)?;
    let new = any_reset_word(alloc, gates, body, op, register.reset, enabled.as_slice())?;
    let chosen = each(alloc, gates, Bitwise::Choice(clock), new.as_slice(), old)?;
    Ok(chosen)
}

// The value of an asynchronous reset, else of another reset, where it has one whose signal is 1, else the word.
fn any_reset_word(
    alloc: Global,
    gates: &mut Gates,
    body: &Valued<'_>,
    op: &Op<'_>,
    reset: Option<ResetBy<Value>>,
    next: &[Signal],
) -> Result<Vec<Signal>, AllocError>
    requires { (v : ResetBy Value) → reset ≡ Some v → length ((word_at body.now.words.now.ports.items body.now.words.now.results.items) ((ref_by (position_of (ids_of body.now.ops.now.body.now))) v.value)) ≡ length next.now }
    ensures { IfOk result (λ v. Runs (any_reset_in (ops_by_position (ops_of body.now.ops.now.body.now)) (word_at body.now.words.now.ports.items body.now.words.now.results.items) (async_reset_in (op_view body.now.ops.now.body.now op.now)) (option_map (reset_by_of (ref_by (position_of (ids_of body.now.ops.now.body.now)))) reset) next.now) gates.old gates.new v.items) }
{
    match async_reset_of(op.kind, op.operands) {
        None => reset_word(alloc, gates, body, reset, next),
        Some(_) => loaded_word(alloc, gates, body, op, next),
    }
}

// The next value where the enable, where there is one, is 1, else the old one.
fn enabled_word(
    alloc: Global,
    gates: &mut Gates,
    body: &Valued<'_>,
    enable: Option<Value>,
    next: &[Signal],
    old: &[Signal],
) -> Result<Vec<Signal>, AllocError>
    requires { length next.now ≡ length old.now }
    ensures { IfOk result (λ v. Runs (enable_gate_list (option_map (ref_by (position_of (ids_of body.now.ops.now.body.now))) enable) (word_at body.now.words.now.ports.items body.now.words.now.results.items) old.now next.now) gates.old gates.new v.items) }
{
    match enable {
        None => {
            let kept = Vec::from_slice(alloc, next)?;
            Ok(kept)
        }
        Some(enable) => {
            let condition = top(word_of(body.ops, body.words, enable));
            each(alloc, gates, Bitwise::Choice(condition), next, old)
        }
    }
}

// The value of a reset, where there is one, where its signal is 1, else the word.
fn reset_word(
    alloc: Global,
    gates: &mut Gates,
    body: &Valued<'_>,
    reset: Option<ResetBy<Value>>,
    next: &[Signal],
) -> Result<Vec<Signal>, AllocError>
    requires { (v : ResetBy Value) → reset ≡ Some v → length ((word_at body.now.words.now.ports.items body.now.words.now.results.items) ((ref_by (position_of (ids_of body.now.ops.now.body.now))) v.value)) ≡ length next.now }
    ensures { IfOk result (λ v. Runs (reset_gate_list (option_map (reset_by_of (ref_by (position_of (ids_of body.now.ops.now.body.now)))) reset) (word_at body.now.words.now.ports.items body.now.words.now.results.items) next.now) gates.old gates.new v.items) }
{
    match reset {
        None => {
            let kept = Vec::from_slice(alloc, next)?;
            Ok(kept)
        }
        Some(reset) => {
            let condition = top(word_of(body.ops, body.words, reset.signal));
            let value = word_of(body.ops, body.words, reset.value);
            each(alloc, gates, Bitwise::Choice(condition), value, next)
        }
    }
}

// The bits of a value that is a constant's first result; none of another value.
fn constant_of(alloc: Global, ops: &OpIndex<'_>, value: Value) -> Result<Vec<Signal>, AllocError>
    ensures { IfOk result (λ v. known_bits v.items ≡ constant_at (ops_by_position (ops_of ops.now.body.now)) (ref_by (position_of (ids_of ops.now.body.now)) value)) }
{
    match value {
        Value::Result(id, 0) => constant_from(alloc, ops, ops.position(id)),
        Value::Result(_, _) | Value::Port(_) | Value::Undefined => Ok(Vec::new(alloc)),
    }
}

// The bits of the constant at a position; none where no constant stands there.
fn constant_from(
    alloc: Global,
    ops: &OpIndex<'_>,
    position: usize,
) -> Result<Vec<Signal>, AllocError>
    ensures { IfOk result (λ v. known_bits v.items ≡ constant_in (slice_get (ops_by_position (ops_of ops.now.body.now)) position)) }
{
    if position < ops.count() {
        let op = ops.op_at(position);
        constant_bits(alloc, op.kind, op.results)
    } else {
        Ok(Vec::new(alloc))
    }
}

// The bits of a constant with these results; none of another operation.
fn constant_bits(
    alloc: Global,
    kind: &OpKind,
    results: &NewResultList,
) -> Result<Vec<Signal>, AllocError>
    ensures { IfOk result (λ v. known_bits v.items ≡ constant_word (width_of (option_map (λ (r : OpResult). r.type) (slice_get (results_in results.now) 0))) (kind_of kind.now)) }
{
    match kind {
        OpKind::Constant(value) => {
            let bits = integer_bits(alloc, first_bits(results)?, *value)?;
            Ok(bits)
        }
        _ => Ok(Vec::new(alloc)),
    }
}

// The known bits where the condition is 1, else the signals.
fn load(
    alloc: Global,
    gates: &mut Gates,
    condition: Signal,
    known: &[Signal],
    old: &[Signal],
) -> Result<Vec<Signal>, AllocError>
    ensures { IfOk result (λ v. Runs (load condition (known_bits known.now) old.now) gates.old gates.new v.items) }
{
    let count = known.len().min(old.len());
    let mut made = Vec::with_capacity(alloc, count)?;
    for position in 0..count {
        made.push(load_bit(gates, condition, known[position], old[position])?)?;
    }
    Ok(made)
}

// The known bit where the condition is 1, else the signal.
fn load_bit(
    gates: &mut Gates,
    condition: Signal,
    known: Signal,
    old: Signal,
) -> Result<Signal, AllocError>
    ensures { IfOk result (Runs (load_bit condition (known_bit known) old) gates.old gates.new) }
{
    match known {
        Signal::Fixed(true) => gates.or(condition, old),
        Signal::Fixed(false) | Signal::Wire(_) => gates.and(condition.inverse(), old),
    }
}
