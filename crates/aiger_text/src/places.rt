//! Where the values of a body stand.
ghost use Rattle.std.specs.Prelude.{◌≡◌, ◌+◌, ◌*◌, ◌<◌, ◌≤◌, ◌^◌, ◌++◌, ◌||◌, length, IfOk};
ghost use Rattle.std.specs.List.{list_any};
ghost use Rattle.aiger_design.specs.Positions.{users, uses, is_inverted};
ghost use Rattle.aiger_reader.specs.Kept.{tree_of};
ghost use Rattle.aiger_reader.specs.Told.{line_count};
ghost use Rattle.aiger_text.specs.Places.{ArePlaces, wants, ends_from, place_behind, latch_lists, gate_lists};

use aiger_laws::tree::{AndGate, Latch};
use aiger_reader::text::AigerText;
use std::alloc::{AllocError, Global};

/// Which constants stand in a body, and where the own operations of latches and then of gates stand.
#[derive(Drop)]
pub(crate) struct Places {
    pub(crate) has_true: bool,
    pub(crate) has_false: bool,
    pub(crate) ends: Vec<u32>,
}

/// The places of the values of a text.
pub(crate) fn places_of(alloc: Global, text: &AigerText) -> Result<Places, AllocError>
    requires { line_count (tree_of text.now) ≤ 2 ^ 26 }
    ensures { IfOk result (ArePlaces (tree_of text.now)) }
{
    let has_true = is_used(text, true);
    let has_false = is_used(text, false);
    let first = u32::from(has_true) + u32::from(has_false);
    let mut ends = Vec::with_capacity(alloc, text.latches.len() + text.gates.len())?;
    let behind = add_latch_ends(&mut ends, first, &text.latches)?;
    let _ = add_gate_ends(&mut ends, behind, &text.gates)?;
    Ok(Places {
        has_true,
        has_false,
        ends,
    })
}

/// Whether a literal that is used wants the constant.
fn is_used(text: &AigerText, constant: bool) -> bool
    ensures { result ≡ uses (wants constant) (users (tree_of text.now)) }
{
    one_of_three(
        any_latch(constant, &text.latches),
        any_gate(constant, &text.gates),
        any_output(constant, &text.outputs),
    )
}

/// Whether one of three facts holds.
fn one_of_three(first: bool, second: bool, third: bool) -> bool
    ensures { result ≡ (first || (second || third)) }
{
    first || (second || third)
}

/// Whether a latch uses a literal that wants the constant.
fn any_latch(constant: bool, latches: &[Latch]) -> bool
    ensures { result ≡ list_any (λ (l : _). wants constant l.next) latches.now }
{
    latches.iter().any(|latch| is_wanted(constant, latch.next))
}

/// Whether a gate uses one.
fn any_gate(constant: bool, gates: &[AndGate]) -> bool
    ensures { result ≡ list_any (λ (g : _). wants constant g.left || wants constant g.right) gates.now }
{
    gates.iter().any(|gate| is_wanted(constant, gate.left) || is_wanted(constant, gate.right))
}

/// Whether an output uses one.
fn any_output(constant: bool, outputs: &[u32]) -> bool
    ensures { result ≡ list_any (wants constant) outputs.now }
{
    outputs.iter().any(|literal| is_wanted(constant, *literal))
}

/// Whether a literal wants the constant.
fn is_wanted(constant: bool, literal: u32) -> bool
    ensures { result ≡ wants constant literal }
{
    if constant {
        literal % 2 == 1
    } else {
        literal == 0
    }
}

/// Whether a literal takes an inverter.
pub(crate) fn is_inverted(literal: u32) -> bool
    ensures { result ≡ is_inverted literal }
{
    literal % 2 == 1 && literal / 2 != 0
}

/// Adds where the registers of latches stand, whose operations begin at a place; where what is behind them begins.
fn add_latch_ends(ends: &mut Vec<u32>, first: u32, latches: &[Latch]) -> Result<u32, AllocError>
    requires { first + 2 * length latches.now < 2 ^ 32 }
    ensures ends { IfOk result (λ _. ends.new.items ≡ ends.old.items ++ ends_from first (latch_lists latches.now)) }
    ensures place { IfOk result (λ place. place ≡ place_behind first (latch_lists latches.now)) }
    ensures low { IfOk result (λ place. place ≤ first + 2 * length latches.now) }
{
    let mut place = first;
    let mut rest = latches;
    while let Some((latch, others)) = rest.split_first() {
        let end = place + u32::from(is_inverted(latch.next));
        ends.push(end)?;
        place = end + 1;
        rest = others;
    }
    Ok(place)
}

/// Adds where the conjunctions of gates stand, whose operations begin at a place; where what is behind them begins.
fn add_gate_ends(ends: &mut Vec<u32>, first: u32, gates: &[AndGate]) -> Result<u32, AllocError>
    requires { first + 3 * length gates.now < 2 ^ 32 }
    ensures { IfOk result (λ _. ends.new.items ≡ ends.old.items ++ ends_from first (gate_lists gates.now)) }
{
    let mut place = first;
    let mut rest = gates;
    while let Some((gate, others)) = rest.split_first() {
        let inverters = u32::from(is_inverted(gate.left)) + u32::from(is_inverted(gate.right));
        let end = place + inverters;
        ends.push(end)?;
        place = end + 1;
        rest = others;
    }
    Ok(place)
}
