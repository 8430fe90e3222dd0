//! The gate list of an operation.
ghost use Rattle.std.specs.Prelude.{◌≡◌, ◌<◌, ◌/◌, ◌∷◌, [], map, length, IfOk};
ghost use Rattle.gates.specs.Build.{done};
ghost use Rattle.gates.specs.Circuits.{Runs};
ghost use Rattle.gate_words.specs.GateLists.{odd, top, choose, subtracted};
ghost use Rattle.bits_core.specs.Word.{bits_of_ℤ};
ghost use Rattle.hw_model.specs.Types.{list_copies};
ghost use Rattle.hw_model.specs.KindViews.{kind_of, predicate_of, integer_of};
ghost use Rattle.hw_model.specs.FamilyViews.{family_of, variadic_of, division_of, shift_of};
ghost use Rattle.operation_gates.specs.OperationGateLists.{known_word, part, concatenation, one_bit, comparison, variadic_gate_list, division_gate_list, shift_gate_list, gate_list_of_one, gate_list_of_two, gate_list_of_three, gate_list_of};
ghost use Rattle.operation_gates.specs.Operands.{AddsNone, AreAll, OfOne, OfTwo, OfThree, TakesWidths, TakesWords};

use crate::known_words::{integer_bits, value_of_none};
use crate::pair_gate_lists::{comparison, division_gate_list, pair_gate_list, shift_gate_list};
use crate::parts::{concatenation, copies_within, part};
use crate::signal_word::SignalWord;
use gate_words::bitwise::{Bitwise, copies, each, reduce};
use gate_words::divisions::top;
use gate_words::sums::subtract;
use gates::circuit::Gates;
use gates::signal::Signal;
use hw_model::families::{Division, Family, Shift, Variadic};
use hw_model::kinds::{Integer, OpKind, Predicate};
use std::alloc::{AllocError, Global};

/// The gate list of an operation on integers, or of a wire, with a result of `width` bits, over the words of its operands in
/// order, which are as many and as wide as it takes.
///
/// # Errors
///
/// `AllocError` without memory, or without a variable below 2^32 for a new gate.
pub fn gate_list(
    alloc: Global,
    gates: &mut Gates,
    kind: &OpKind,
    width: u32,
    operands: &[SignalWord],
) -> Result<SignalWord, AllocError>
    requires { TakesWidths (kind_of kind.now) width (map length operands.now) }
    ensures { IfOk result (Runs (gate_list_of (kind_of kind.now) width operands.now) gates.old gates.new) }
{
    family_gate_list(alloc, gates, kind.family(), width, operands)
}

/// The same by the family.
fn family_gate_list(
    alloc: Global,
    gates: &mut Gates,
    family: Family<'_>,
    width: u32,
    operands: &[SignalWord],
) -> Result<SignalWord, AllocError>
    requires { TakesWords (family_of family) width operands.now }
    ensures { IfOk result (Runs (gate_list_of (family_of family.entry) width operands.now) gates.old gates.new) }
{
    match family {
        Family::Variadic(op) => all_operands(alloc, gates, op, width, operands),
        Family::Sub => difference(alloc, gates, operands),
        Family::Division(op) => division(alloc, gates, op, operands),
        Family::Shift(op) => shift(alloc, gates, op, operands),
        Family::Icmp(predicate) => icmp(alloc, gates, predicate, operands),
        Family::Parity => parity(alloc, gates, operands),
        Family::Extract(low) => extract(alloc, low, width, operands),
        Family::Concat => concat(alloc, operands),
        Family::Replicate => replication(alloc, width, operands),
        Family::Mux => mux(alloc, gates, operands),
        Family::Constant(value) => constant(alloc, width, value),
        Family::Bitcast => wire(alloc, operands),
        Family::Wire => wire(alloc, operands),
        _ => unreachable!(),
    }
}

/// The gate list of an operation of any number of operands, from the last one to the first.
fn all_operands(
    alloc: Global,
    gates: &mut Gates,
    op: Variadic,
    width: u32,
    operands: &[SignalWord],
) -> Result<SignalWord, AllocError>
    requires { AreAll width (map length operands.now) }
    ensures { IfOk result (Runs (variadic_gate_list (variadic_of op) width operands.now) gates.old gates.new) }
{
    if operands.is_empty() {
        let none = value_of_none(alloc, op, width)?;
        return Ok(SignalWord::from_vec(none));
    }
    let mut left = operands.len() - 1;
    let mut so_far = Vec::from_slice(alloc, operands[left].as_slice())?;
    while left > 0 {
        left -= 1;
        so_far = pair_gate_list(alloc, gates, op, operands[left].as_slice(), &so_far)?;
    }
    Ok(SignalWord::from_vec(so_far))
}

/// The one operand.
fn one(operands: &[SignalWord]) -> &SignalWord
    requires { length operands.now ≡ 1 }
    ensures { operands.now ≡ result.now ∷ [] }
{
    match operands {
        [a] => a,
        _ => unreachable!(),
    }
}

/// The two operands.
fn two(operands: &[SignalWord]) -> (&SignalWord, &SignalWord)
    requires { length operands.now ≡ 2 }
    ensures { operands.now ≡ result.0.now ∷ result.1.now ∷ [] }
{
    match operands {
        [a, b] => (a, b),
        _ => unreachable!(),
    }
}

/// The three operands.
fn three(operands: &[SignalWord]) -> (&SignalWord, &SignalWord, &SignalWord)
    requires { length operands.now ≡ 3 }
    ensures { operands.now ≡ result.0.now ∷ result.1.now ∷ result.2.now ∷ [] }
{
    match operands {
        [a, b, c] => (a, b, c),
        _ => unreachable!(),
    }
}

fn difference(
    alloc: Global,
    gates: &mut Gates,
    operands: &[SignalWord],
) -> Result<SignalWord, AllocError>
    requires { OfTwo (λ x y. length x ≡ length y) operands.now }
    ensures { IfOk result (Runs (gate_list_of_two subtracted operands.now) gates.old gates.new) }
{
    let (a, b) = two(operands);
    let word = subtract(alloc, gates, a.as_slice(), b.as_slice())?;
    Ok(SignalWord::from_vec(word))
}

fn division(
    alloc: Global,
    gates: &mut Gates,
    op: Division,
    operands: &[SignalWord],
) -> Result<SignalWord, AllocError>
    requires { OfTwo (λ x y. length x ≡ length y) operands.now }
    ensures { IfOk result (Runs (gate_list_of_two (division_gate_list (division_of op)) operands.now) gates.old gates.new) }
{
    let (a, b) = two(operands);
    let word = division_gate_list(alloc, gates, op, a.as_slice(), b.as_slice())?;
    Ok(SignalWord::from_vec(word))
}

fn shift(
    alloc: Global,
    gates: &mut Gates,
    op: Shift,
    operands: &[SignalWord],
) -> Result<SignalWord, AllocError>
    requires { length operands.now ≡ 2 }
    ensures { IfOk result (Runs (gate_list_of_two (shift_gate_list (shift_of op)) operands.now) gates.old gates.new) }
{
    let (a, b) = two(operands);
    let word = shift_gate_list(alloc, gates, op, a.as_slice(), b.as_slice())?;
    Ok(SignalWord::from_vec(word))
}

fn icmp(
    alloc: Global,
    gates: &mut Gates,
    predicate: Predicate,
    operands: &[SignalWord],
) -> Result<SignalWord, AllocError>
    requires { OfTwo (λ x y. length x ≡ length y) operands.now }
    ensures { IfOk result (Runs (gate_list_of_two (λ x y. one_bit (comparison (predicate_of predicate) x y)) operands.now) gates.old gates.new) }
{
    let (a, b) = two(operands);
    let bit = comparison(alloc, gates, predicate, a.as_slice(), b.as_slice())?;
    one_signal(alloc, bit)
}

/// The word of one signal.
fn one_signal(alloc: Global, signal: Signal) -> Result<SignalWord, AllocError>
    ensures { IfOk result (λ w. w ≡ signal ∷ []) }
{
    let word = copies(alloc, signal, 1)?;
    Ok(SignalWord::from_vec(word))
}

fn parity(
    alloc: Global,
    gates: &mut Gates,
    operands: &[SignalWord],
) -> Result<SignalWord, AllocError>
    requires { length operands.now ≡ 1 }
    ensures { IfOk result (Runs (gate_list_of_one (λ x. one_bit (odd x)) operands.now) gates.old gates.new) }
{
    let a = one(operands);
    let bit = reduce(gates, Bitwise::Exclusive, a.as_slice())?;
    one_signal(alloc, bit)
}

fn extract(
    alloc: Global,
    low: u32,
    width: u32,
    operands: &[SignalWord],
) -> Result<SignalWord, AllocError>
    requires { length operands.now ≡ 1 }
    ensures { IfOk result (AddsNone (gate_list_of_one (λ x. done (part low width x)) operands.now)) }
{
    let a = one(operands);
    let word = part(alloc, low, width, a.as_slice())?;
    Ok(SignalWord::from_vec(word))
}

fn concat(alloc: Global, operands: &[SignalWord]) -> Result<SignalWord, AllocError>
    ensures { IfOk result (AddsNone (done (concatenation operands.now))) }
{
    let word = concatenation(alloc, operands)?;
    Ok(SignalWord::from_vec(word))
}

fn replication(alloc: Global, width: u32, operands: &[SignalWord]) -> Result<SignalWord, AllocError>
    requires { OfOne (λ x. 0 < length x) operands.now }
    ensures { IfOk result (AddsNone (gate_list_of_one (λ x. done (list_copies (width / length x) x)) operands.now)) }
{
    let a = one(operands);
    let word = copies_within(alloc, width, a.as_slice())?;
    Ok(SignalWord::from_vec(word))
}

fn constant(alloc: Global, width: u32, value: Integer) -> Result<SignalWord, AllocError>
    ensures { IfOk result (AddsNone (done (known_word (bits_of_ℤ width (integer_of value))))) }
{
    let word = integer_bits(alloc, width, value)?;
    Ok(SignalWord::from_vec(word))
}

fn wire(alloc: Global, operands: &[SignalWord]) -> Result<SignalWord, AllocError>
    requires { length operands.now ≡ 1 }
    ensures { IfOk result (AddsNone (gate_list_of_one done operands.now)) }
{
    let a = one(operands);
    let word = Vec::from_slice(alloc, a.as_slice())?;
    Ok(SignalWord::from_vec(word))
}

fn mux(alloc: Global, gates: &mut Gates, operands: &[SignalWord]) -> Result<SignalWord, AllocError>
    requires { OfThree (λ c x y. length x ≡ length y) operands.now }
    ensures { IfOk result (Runs (gate_list_of_three (λ c x y. choose (top c) x y) operands.now) gates.old gates.new) }
{
    let (condition, a, b) = three(operands);
    let chosen = Bitwise::Choice(top(condition.as_slice()));
    let word = each(alloc, gates, chosen, a.as_slice(), b.as_slice())?;
    Ok(SignalWord::from_vec(word))
}
