//! Steps and runs of a module.
ghost use Rattle.std.specs.Prelude.{◌≡◌, ◌-◌, [], ◌<◌, take, map, IfOk, IsErrOf, option_to_list, Option, Some, None, option_map};
ghost use Rattle.bits_core.specs.Word.{first};
ghost use Rattle.wiring.specs.Wiring.{In};
ghost use Rattle.hw_model.specs.Flat.{Slot as FlatSlot};
ghost use Rattle.hw_model.specs.Design.{find_module};
ghost use Rattle.hw_model.specs.Flat.{held_width, net, registers, register_in, async_reset_in};
ghost use Rattle.hw_model.specs.Meaning.{value_if_enabled as enabled_word, reset as reset_word, next_value as loaded_word, rise_value as risen_word, next_content, risen_content as risen_contents, outputs_of, outputs, machine};
ghost use Rattle.hw_model.specs.Machine.{Step, Run};
ghost use Rattle.hw_model.specs.RegisterViews.{register_of, reset_by_of};
ghost use Rattle.hw_interpreter.specs.DesignViews.{ref_of, op_of, module_of};
ghost use Rattle.hw_interpreter.specs.Depth.{value_within, values_within, content_within, run_within, Suffices};
ghost use Rattle.operation_values.specs.Suits.{IsCounted};
ghost use Rattle.hw_interpreter.specs.SuitsWithin.{AlwaysSuits, TakesRefs, register_refs, reset_refs, signal_refs, IsCountedDesign, TakesStep, SuitsStep, TakesRun};
ghost use Rattle.operation_values.specs.declared.refusal.Refusal.TheVariants.{NotFitting};
ghost use Rattle.hw_interpreter.specs.Registers.{slot_of};

use crate::design::{Module, Operand, Setting};
use crate::modules::{find_module, held_width, output_operands};
use crate::nets::{net_value, operand_values, pad};
use crate::registers::{Slot, async_reset_in, register_in, registers};
use hw_model::registers::{Register, ResetBy};
use operation_values::bit_string::BitString;
use operation_values::refusal::Refusal;
use operation_values::values::{concat_words, is_high};
use operation_values::word_parts::bits_after;
use std::alloc::Global;

/// What a step gives.
#[derive(Drop)]
pub struct Stepped {
    /// The bits of the outputs, in port order.
    pub outputs: BitString,
    /// The bits of the registers after the step.
    pub content: BitString,
}

/// One step of a module after one with the inputs `before`: its outputs, and its content after it, under the values of
/// its nets within a depth. First the registers whose asynchronous reset rises take its value.
///
/// A refusal other than out of memory comes only where an operation that the resets, the outputs or the registers need
/// does not take the words of its operands, or a number of bits or of instances is too large to count. Where the depth
/// suffices, the words are those of the settled map.
pub fn step(alloc: Global, before: &[bool], at: &Setting, depth: u32) -> Result<Stepped, Refusal>
    ensures outputs { IfOk result (λ s. s.outputs ≡ outputs (map module_of at.now.modules.now) at.now.top.now (values_within (map module_of at.now.modules.now) at.now.top.now before.now at.now.inputs.now at.now.content.now depth)) }
    ensures content { IfOk result (λ s. s.content ≡ content_within (map module_of at.now.modules.now) at.now.top.now before.now at.now.inputs.now at.now.content.now depth) }
    ensures holds { IfOk result (λ s. Suffices (map module_of at.now.modules.now) at.now.top.now depth → Step (machine (map module_of at.now.modules.now) at.now.top.now) before.now at.now.inputs.now at.now.content.now s.outputs s.content) }
    ensures refuses { IsErrOf result NotFitting → ¬ TakesStep (map module_of at.now.modules.now) at.now.top.now before.now at.now.inputs.now at.now.content.now depth }
    ensures settles { IsErrOf result NotFitting → Suffices (map module_of at.now.modules.now) at.now.top.now depth
        → SuitsStep (map module_of at.now.modules.now) at.now.top.now before.now at.now.inputs.now at.now.content.now
        → ¬ IsCountedDesign (map module_of at.now.modules.now) at.now.top.now }
{
    let slots = registers(alloc, at.modules, at.top)?;
    let risen = risen_content(alloc, before, at, depth, slots.as_slice())?;
    let within = Setting {
        modules: at.modules,
        top: at.top,
        inputs: at.inputs,
        content: risen.as_slice(),
    };
    let outputs = output_word(alloc, &within, depth)?;
    let content = content_after(alloc, &within, depth, slots.as_slice())?;
    Ok(Stepped { outputs, content })
}

// what the registers hold after the first phase of the step
fn risen_content(
    alloc: Global,
    before: &[bool],
    at: &Setting,
    depth: u32,
    slots: &[Slot],
) -> Result<BitString, Refusal>
    ensures value { IfOk result (λ word. word ≡ risen_contents (map slot_of slots.now)
        (value_within (map module_of at.now.modules.now) at.now.top.now before.now at.now.content.now depth)
        (value_within (map module_of at.now.modules.now) at.now.top.now at.now.inputs.now at.now.content.now depth) at.now.content.now) }
    ensures refuses { IsErrOf result NotFitting → ((s : FlatSlot) → In s (map slot_of slots.now) → IsCounted (held_width s.op))
        → ((s : FlatSlot) → In s (map slot_of slots.now) → TakesRefs (map module_of at.now.modules.now) at.now.top.now before.now at.now.content.now depth s.path (signal_refs (async_reset_in s.op)))
        → ¬ ((s : FlatSlot) → In s (map slot_of slots.now) → TakesRefs (map module_of at.now.modules.now) at.now.top.now at.now.inputs.now at.now.content.now depth s.path (reset_refs (async_reset_in s.op))) }
{
    let earlier = Setting {
        modules: at.modules,
        top: at.top,
        inputs: before,
        content: at.content,
    };
    let mut word = BitString::new(alloc);
    let mut left = at.content;
    for slot in slots {
        let width = held_width(slot.operation)?;
        let held = rise_in(alloc, &earlier, at, depth, slot, pad(alloc, left, width)?)?;
        let kept = pad(alloc, held.as_slice(), width)?;
        word.push_bits(kept.as_slice())?;
        left = bits_after(left, width);
    }
    Ok(word)
}

// what a register holds after the first phase of the step
fn rise_in(
    alloc: Global,
    earlier: &Setting,
    at: &Setting,
    depth: u32,
    slot: &Slot,
    old: BitString,
) -> Result<BitString, Refusal>
    ensures value { IfOk result (λ word. word ≡ risen_word (async_reset_in (op_of slot.now.operation.now))
        (λ r. value_within (map module_of earlier.now.modules.now) earlier.now.top.now earlier.now.inputs.now earlier.now.content.now depth (net slot.now.path.items r))
        (λ r. value_within (map module_of at.now.modules.now) at.now.top.now at.now.inputs.now at.now.content.now depth (net slot.now.path.items r)) old) }
    ensures refuses { IsErrOf result NotFitting
        → TakesRefs (map module_of earlier.now.modules.now) earlier.now.top.now earlier.now.inputs.now earlier.now.content.now depth slot.now.path.items (signal_refs (async_reset_in (op_of slot.now.operation.now)))
        → ¬ TakesRefs (map module_of at.now.modules.now) at.now.top.now at.now.inputs.now at.now.content.now depth slot.now.path.items (reset_refs (async_reset_in (op_of slot.now.operation.now))) }
{
    match async_reset_in(slot.operation) {
        None => Ok(old),
        Some(by) => rise_value(alloc, earlier, at, depth, slot.path.as_slice(), by, old),
    }
}

// the reset value where the reset was 0 and is 1 now, else the old one
fn rise_value(
    alloc: Global,
    earlier: &Setting,
    at: &Setting,
    depth: u32,
    path: &[u32],
    by: ResetBy<Operand>,
    old: BitString,
) -> Result<BitString, Refusal>
    ensures value { IfOk result (λ word. word ≡ risen_word (Some (reset_by_of ref_of by))
        (λ r. value_within (map module_of earlier.now.modules.now) earlier.now.top.now earlier.now.inputs.now earlier.now.content.now depth (net path.now r))
        (λ r. value_within (map module_of at.now.modules.now) at.now.top.now at.now.inputs.now at.now.content.now depth (net path.now r)) old) }
    ensures refuses { IsErrOf result NotFitting
        → TakesRefs (map module_of earlier.now.modules.now) earlier.now.top.now earlier.now.inputs.now earlier.now.content.now depth path.now (signal_refs (Some (reset_by_of ref_of by)))
        → ¬ TakesRefs (map module_of at.now.modules.now) at.now.top.now at.now.inputs.now at.now.content.now depth path.now (reset_refs (Some (reset_by_of ref_of by))) }
{
    let was = net_value(alloc, earlier, depth, path, by.signal)?;
    if is_high(&was) {
        return Ok(old);
    }
    let signal = net_value(alloc, at, depth, path, by.signal)?;
    if !is_high(&signal) {
        return Ok(old);
    }
    net_value(alloc, at, depth, path, by.value)
}

// the outputs, in port order
fn output_word(alloc: Global, at: &Setting, depth: u32) -> Result<BitString, Refusal>
    ensures value { IfOk result (λ word. word ≡ outputs (map module_of at.now.modules.now) at.now.top.now (value_within (map module_of at.now.modules.now) at.now.top.now at.now.inputs.now at.now.content.now depth)) }
    ensures refuses { IsErrOf result NotFitting → ¬ TakesRefs (map module_of at.now.modules.now) at.now.top.now at.now.inputs.now at.now.content.now depth [] (outputs_of (find_module (map module_of at.now.modules.now) at.now.top.now)) }
{
    let words = operand_values(alloc, at, depth, &[], top_operands(at))?;
    let word = concat_words(alloc, words.as_slice())?;
    Ok(word)
}

// what the module gives to its outputs
fn top_operands<'a>(at: &Setting<'a>) -> &'a [Operand]
    ensures { map ref_of result.now ≡ outputs_of (find_module (map module_of at.now.modules.now) at.now.top.now) }
{
    match find_module(at.modules, at.top) {
        None => &[],
        Some(own) => output_operands(own.body.as_slice()),
    }
}

// what the registers hold after the step
fn content_after(
    alloc: Global,
    at: &Setting,
    depth: u32,
    slots: &[Slot],
) -> Result<BitString, Refusal>
    ensures value { IfOk result (λ word. word ≡ next_content (map slot_of slots.now) (value_within (map module_of at.now.modules.now) at.now.top.now at.now.inputs.now at.now.content.now depth) at.now.content.now) }
    ensures refuses { IsErrOf result NotFitting → ((s : FlatSlot) → In s (map slot_of slots.now) → IsCounted (held_width s.op)) → ¬ ((s : FlatSlot) → In s (map slot_of slots.now) → TakesRefs (map module_of at.now.modules.now) at.now.top.now at.now.inputs.now at.now.content.now depth s.path (register_refs (register_in s.op))) }
{
    let mut word = BitString::new(alloc);
    let mut rest = at.content;
    for slot in slots {
        let width = held_width(slot.operation)?;
        let next = held_after(alloc, at, depth, slot, rest, width)?;
        word.push_bits(next.as_slice())?;
        rest = bits_after(rest, width);
    }
    Ok(word)
}

// what a register holds after the step, its content standing first
fn held_after(
    alloc: Global,
    at: &Setting,
    depth: u32,
    slot: &Slot,
    content: &[bool],
    width: u64,
) -> Result<BitString, Refusal>
    ensures value { IfOk result (λ word. word ≡ first width (loaded_word (register_in (op_of slot.now.operation.now))
        (λ r. value_within (map module_of at.now.modules.now) at.now.top.now at.now.inputs.now at.now.content.now depth (net slot.now.path.items r)) (first width content.now))) }
    ensures refuses { IsErrOf result NotFitting → ¬ TakesRefs (map module_of at.now.modules.now) at.now.top.now at.now.inputs.now at.now.content.now depth slot.now.path.items (register_refs (register_in (op_of slot.now.operation.now))) }
{
    let old = pad(alloc, content, width)?;
    let next = match register_in(slot.operation) {
        None => old,
        Some(register) => next_value(alloc, at, depth, slot.path.as_slice(), register, old)?,
    };
    let word = pad(alloc, next.as_slice(), width)?;
    Ok(word)
}

// what a register loads
fn next_value(
    alloc: Global,
    at: &Setting,
    depth: u32,
    path: &[u32],
    register: Register<Operand>,
    old: BitString,
) -> Result<BitString, Refusal>
    ensures value { IfOk result (λ word. word ≡ loaded_word (Some (register_of ref_of register))
        (λ r. value_within (map module_of at.now.modules.now) at.now.top.now at.now.inputs.now at.now.content.now depth (net path.now r)) old) }
    ensures refuses { IsErrOf result NotFitting → ¬ TakesRefs (map module_of at.now.modules.now) at.now.top.now at.now.inputs.now at.now.content.now depth path.now (register_refs (Some (register_of ref_of register))) }
{
    let clock = net_value(alloc, at, depth, path, register.clock)?;
    if !is_high(&clock) {
        return Ok(old);
    }
    let next = net_value(alloc, at, depth, path, register.next)?;
    let next = value_if_enabled(alloc, at, depth, path, register.enable, old, next)?;
    reset(alloc, at, depth, path, register.reset, next)
}

// the next value, or the old one without enable
fn value_if_enabled(
    alloc: Global,
    at: &Setting,
    depth: u32,
    path: &[u32],
    enable: Option<Operand>,
    old: BitString,
    next: BitString,
) -> Result<BitString, Refusal>
    ensures value { IfOk result (λ word. word ≡ enabled_word (option_map ref_of enable)
        (λ r. value_within (map module_of at.now.modules.now) at.now.top.now at.now.inputs.now at.now.content.now depth (net path.now r)) old next) }
    ensures refuses { IsErrOf result NotFitting → ¬ TakesRefs (map module_of at.now.modules.now) at.now.top.now at.now.inputs.now at.now.content.now depth path.now (option_to_list (option_map ref_of enable)) }
{
    match enable {
        None => Ok(next),
        Some(operand) => {
            let signal = net_value(alloc, at, depth, path, operand)?;
            Ok(if is_high(&signal) { next } else { old })
        }
    }
}

// the next value, or the reset value with reset
fn reset(
    alloc: Global,
    at: &Setting,
    depth: u32,
    path: &[u32],
    reset: Option<ResetBy<Operand>>,
    next: BitString,
) -> Result<BitString, Refusal>
    ensures value { IfOk result (λ word. word ≡ reset_word (option_map (reset_by_of ref_of) reset)
        (λ r. value_within (map module_of at.now.modules.now) at.now.top.now at.now.inputs.now at.now.content.now depth (net path.now r)) next) }
    ensures refuses { IsErrOf result NotFitting → ¬ TakesRefs (map module_of at.now.modules.now) at.now.top.now at.now.inputs.now at.now.content.now depth path.now (reset_refs (option_map (reset_by_of ref_of) reset)) }
{
    match reset {
        None => Ok(next),
        Some(by) => {
            let signal = net_value(alloc, at, depth, path, by.signal)?;
            if !is_high(&signal) {
                return Ok(next);
            }
            net_value(alloc, at, depth, path, by.value)
        }
    }
}

/// A run of a module: the outputs of a list of steps, each the bits of its inputs, from a content, under the values of
/// its nets within a depth. Before the first step all inputs are 0.
///
/// A refusal other than out of memory comes only where one comes for a step.
pub fn run(
    alloc: Global,
    modules: &[Module],
    top: &[u8],
    content: &[bool],
    steps: &[BitString],
    depth: u32,
) -> Result<Vec<BitString>, Refusal>
    ensures outputs { IfOk result (λ outs. outs.items ≡ run_within (map module_of modules.now) top.now depth content.now steps.now) }
    ensures holds { IfOk result (λ outs. Suffices (map module_of modules.now) top.now depth → Run (machine (map module_of modules.now) top.now) content.now steps.now outs.items) }
    ensures refuses { IsErrOf result NotFitting → ¬ TakesRun (map module_of modules.now) top.now depth content.now steps.now }
    ensures settles { IsErrOf result NotFitting → Suffices (map module_of modules.now) top.now depth → AlwaysSuits (map module_of modules.now) top.now
        → ¬ IsCountedDesign (map module_of modules.now) top.now }
{
    let mut outputs = Vec::new(alloc);
    let mut before: &[bool] = &[];
    let mut held = BitString::of(alloc, content)?;
    for inputs in steps {
        let stepped = step_of(alloc, modules, top, before, inputs, &held, depth)?;
        outputs.push(stepped.outputs)?;
        before = inputs.as_slice();
        held = stepped.content;
    }
    Ok(outputs)
}

fn step_of(
    alloc: Global,
    modules: &[Module],
    top: &[u8],
    before: &[bool],
    inputs: &BitString,
    content: &BitString,
    depth: u32,
) -> Result<Stepped, Refusal>
    ensures outputs { IfOk result (λ s. s.outputs ≡ outputs (map module_of modules.now) top.now (values_within (map module_of modules.now) top.now before.now inputs.now content.now depth)) }
    ensures content { IfOk result (λ s. s.content ≡ content_within (map module_of modules.now) top.now before.now inputs.now content.now depth) }
    ensures refuses { IsErrOf result NotFitting → ¬ TakesStep (map module_of modules.now) top.now before.now inputs.now content.now depth }
{
    let at = Setting {
        modules,
        top,
        inputs: inputs.as_slice(),
        content: content.as_slice(),
    };
    step(alloc, before, &at, depth)
}
