//! What registers hold: once asynchronous resets have risen, and after a step.
ghost use Rattle.std.specs.Prelude.{◌≡◌, ◌<◌, slice_get, Some, OnOk, option_map};
ghost use Rattle.hw_model.specs.Value.{is_high};
ghost use Rattle.hw_model.specs.Flat.{register_in, async_reset_in};
ghost use Rattle.hw_model.specs.Meaning.{value_if_enabled, reset, next_value, rise_value};
ghost use Rattle.hw_model.specs.RegisterViews.{reset_by_of, register_of};
ghost use Rattle.ir_store.specs.Bodies.{ids_of, ops_of};
ghost use Rattle.ir_store.specs.Numbered.{position_of, ref_by, ops_by_position};
ghost use Rattle.body_index.specs.OpIndexes.{op_view};
ghost use Rattle.flat_steps.specs.Tables.{cell, word_in};
ghost use Rattle.flat_steps.specs.Steps.{risen_word, next_word, risen_words, next_words};

use crate::tables::{cell, word_in};
use bits_core::Bits;
use body_index::op_index::OpIndex;
use hw_model::registers::{Register, ResetBy, async_reset_of, register_of};
use ir_store::body::Op;
use ir_store::operation::Value;
use std::alloc::AllocError;

/// The values of a body: the words of its ports and of its operations' first results.
#[derive(Clone, Copy)]
pub(crate) struct Valued<'s> {
    /// The operations.
    pub(crate) ops: &'s OpIndex<'s>,
    /// The words of the ports.
    pub(crate) ports: &'s [Bits],
    /// The words of the results.
    pub(crate) results: &'s [Bits],
}

/// Gathers what registers hold once asynchronous resets have risen, `before` being the words of the ports in the step before.
pub(crate) fn risen_words(
    body: &Valued<'_>,
    before: &[Bits],
    positions: &[u32],
    words: &mut Vec<Bits>,
) -> Result<(), AllocError>
    ensures { OnOk result (words.new.items ≡ risen_words (ops_by_position (ops_of body.now.ops.now.body.now)) before.now body.now.ports.now body.now.results.now positions.now) }
{
    words.clear();
    for position in positions {
        words.push(risen_word(body, before, *position as usize))?;
    }
    Ok(())
}

/// Gathers what registers hold after a step.
pub(crate) fn next_words(
    body: &Valued<'_>,
    positions: &[u32],
    words: &mut Vec<Bits>,
) -> Result<(), AllocError>
    ensures { OnOk result (words.new.items ≡ next_words (ops_by_position (ops_of body.now.ops.now.body.now)) body.now.ports.now body.now.results.now positions.now) }
{
    words.clear();
    for position in positions {
        words.push(next_word(body, *position as usize))?;
    }
    Ok(())
}

// What the register at a position holds once its asynchronous reset has risen.
fn risen_word(body: &Valued<'_>, before: &[Bits], position: usize) -> Bits
    ensures { result ≡ risen_word before.now body.now.ports.now body.now.results.now (slice_get (ops_by_position (ops_of body.now.ops.now.body.now)) position) (cell body.now.results.now position) }
{
    let old = cell(body.results, position);
    if position < body.ops.count() {
        risen_of(body, before, &body.ops.op_at(position), old)
    } else {
        old
    }
}

// The same of an operation that holds a word.
fn risen_of(body: &Valued<'_>, before: &[Bits], op: &Op<'_>, old: Bits) -> Bits
    ensures { result ≡ rise_value (async_reset_in (op_view body.now.ops.now.body.now op.now)) (word_in before.now body.now.results.now) (word_in body.now.ports.now body.now.results.now) old }
{
    match async_reset_of(op.kind, op.operands) {
        None => old,
        Some(by) => {
            let was = word_in(body.ops, before, body.results, by.signal);
            let is = word_in(body.ops, body.ports, body.results, by.signal);
            if !is_high(&was) && is_high(&is) {
                word_in(body.ops, body.ports, body.results, by.value)
            } else {
                old
            }
        }
    }
}

// What the register at a position holds after a step.
fn next_word(body: &Valued<'_>, position: usize) -> Bits
    ensures { result ≡ next_word body.now.ports.now body.now.results.now (slice_get (ops_by_position (ops_of body.now.ops.now.body.now)) position) (cell body.now.results.now position) }
{
    let old = cell(body.results, position);
    if position < body.ops.count() {
        next_of(body, &body.ops.op_at(position), old)
    } else {
        old
    }
}

// The same of an operation that holds a word.
fn next_of(body: &Valued<'_>, op: &Op<'_>, old: Bits) -> Bits
    ensures { result ≡ next_value (register_in (op_view body.now.ops.now.body.now op.now)) (word_in body.now.ports.now body.now.results.now) old }
{
    match register_of(op.kind, op.operands) {
        None => old,
        Some(register) => loaded(body, &register, old),
    }
}

// What a register holds after a step, by its operands.
fn loaded(body: &Valued<'_>, register: &Register<Value>, old: Bits) -> Bits
    ensures { result ≡ next_value (Some (register_of (ref_by (position_of (ids_of body.now.ops.now.body.now))) register.now)) (word_in body.now.ports.now body.now.results.now) old }
{
    let clock = word_in(body.ops, body.ports, body.results, register.clock);
    if !is_high(&clock) {
        return old;
    }
    let next = word_in(body.ops, body.ports, body.results, register.next);
    let enabled = enabled(body, register.enable, old, next);
    reset(body, register.reset, enabled)
}

// The new word where the enable, if there is one, is 1, else the old one.
fn enabled(body: &Valued<'_>, enable: Option<Value>, old: Bits, new: Bits) -> Bits
    ensures { result ≡ value_if_enabled (option_map (ref_by (position_of (ids_of body.now.ops.now.body.now))) enable) (word_in body.now.ports.now body.now.results.now) old new }
{
    match enable {
        None => new,
        Some(enable) => {
            if is_high(&word_in(body.ops, body.ports, body.results, enable)) {
                new
            } else {
                old
            }
        }
    }
}

// The value of a reset, if there is one, where its signal is 1, else the new word.
fn reset(body: &Valued<'_>, by: Option<ResetBy<Value>>, new: Bits) -> Bits
    ensures { result ≡ reset (option_map (reset_by_of (ref_by (position_of (ids_of body.now.ops.now.body.now)))) by) (word_in body.now.ports.now body.now.results.now) new }
{
    match by {
        None => new,
        Some(by) => {
            if is_high(&word_in(body.ops, body.ports, body.results, by.signal)) {
                word_in(body.ops, body.ports, body.results, by.value)
            } else {
                new
            }
        }
    }
}

// Whether the first bit of a word is 1.
fn is_high(word: &Bits) -> bool
    ensures { result ≡ is_high word.now }
{
    word.is_negative()
}
