//! Gates that need themselves.
ghost use Rattle.std.specs.Prelude.{◌≡◌, ◌<◌, ◌^◌, ◌+◌, ℕ, true, length, IfOk, IfSome, MatchOption, MatchBool};
ghost use Rattle.graphs.specs.Graphs.{AreReached};
ghost use Rattle.aiger_laws.specs.Drivers.{GatesDrive, HasNoCycle};
ghost use Rattle.aiger_laws.specs.Grammar.{IsFirstOnCycle};
ghost use Rattle.aiger_reader.specs.Kept.{Knows, tree_of};
ghost use Rattle.aiger_reader.specs.Searched.{lists_in, rank_of, are_falling, goes_down, is_falling_at, IsLooping, IsFirstLooping};

use crate::components::component_ranks;
use crate::needs::{GateNeeds, needs_of};
use crate::text::AigerText;
use graphs::{is_marked, mark_all};
use std::alloc::{AllocError, Global};

/// The place of the first gate that needs itself, if one does.
pub(crate) fn first_cycle(alloc: Global, text: &AigerText) -> Result<Option<u32>, AllocError>
    requires knows { Knows text.now }
    requires drives { GatesDrive (tree_of text.now) }
    requires few { length text.now.gates.items < 2 ^ 31 }
    ensures first { IfOk result (λ r. MatchOption r (HasNoCycle (tree_of text.now)) (IsFirstOnCycle (tree_of text.now))) }
    ensures within { IfOk result (λ r. IfSome r (λ k. k < length text.now.gates.items)) }
{
    let needs = needs_of(alloc, &text.drivers, &text.gates)?;
    let ranks = component_ranks(alloc, &needs)?;
    first_looping(alloc, &needs, &ranks)
}

/// The place of the first gate that needs itself. Where no gate needs one of a higher rank, only gates that need one of
/// their own rank are looked at more closely.
fn first_looping(
    alloc: Global,
    needs: &[GateNeeds],
    ranks: &[u32],
) -> Result<Option<u32>, AllocError>
    requires { length needs.now < 2 ^ 31 }
    ensures first { IfOk result (λ r. MatchOption r ((j : ℕ) → IsLooping (lists_in needs.now) j → ⊥) (IsFirstLooping (lists_in needs.now))) }
    ensures within { IfOk result (λ r. IfSome r (λ k. k < length needs.now)) }
{
    let falls = are_falling(needs, ranks);
    for place in 0..needs.len() as u32 {
        if is_looping(alloc, needs, ranks, falls, place)? {
            return Ok(Some(place));
        }
    }
    Ok(None)
}

/// The rank of a gate; 0 where it is not there.
fn rank_of(ranks: &[u32], place: u32) -> u32
    ensures { result ≡ rank_of ranks.now place }
{
    match ranks.get(place as usize) {
        Some(rank) => *rank,
        None => 0,
    }
}

/// Whether what the gate at the place needs has lower ranks.
fn goes_down(ranks: &[u32], place: u32, gate: GateNeeds) -> bool
    ensures { result ≡ goes_down ranks.now place gate }
{
    let rank = rank_of(ranks, place);
    rank_of(ranks, gate.left) < rank && rank_of(ranks, gate.right) < rank
}

/// Whether what the gate at the place needs has no higher ranks.
fn is_falling_at(ranks: &[u32], place: u32, gate: GateNeeds) -> bool
    ensures { result ≡ is_falling_at ranks.now place gate }
{
    let rank = rank_of(ranks, place);
    rank_of(ranks, gate.left) <= rank && rank_of(ranks, gate.right) <= rank
}

/// Whether no gate needs one of a higher rank.
fn are_falling(needs: &[GateNeeds], ranks: &[u32]) -> bool
    requires { length needs.now < 2 ^ 31 }
    ensures { result ≡ are_falling ranks.now 0 needs.now }
{
    let mut place = 0;
    let mut rest = needs;
    while let Some((gate, others)) = rest.split_first() {
        if !is_falling_at(ranks, place, *gate) {
            return false;
        }
        place += 1;
        rest = others;
    }
    true
}

/// Whether the gate at the place needs itself. Where the ranks fall, one that needs lower ranks alone does not.
fn is_looping(
    alloc: Global,
    needs: &[GateNeeds],
    ranks: &[u32],
    falls: bool,
    place: u32,
) -> Result<bool, AllocError>
    requires falls { falls ≡ are_falling ranks.now 0 needs.now }
    requires within { place < length needs.now }
    ensures { IfOk result (λ r. MatchBool r (IsLooping (lists_in needs.now) place) (IsLooping (lists_in needs.now) place → ⊥)) }
{
    let gate = needs[place as usize];
    if falls && goes_down(ranks, place, gate) {
        return Ok(false);
    }
    needs_itself(alloc, needs, place)
}

/// Whether the gate at the place needs itself, directly or through other gates.
fn needs_itself(alloc: Global, needs: &[GateNeeds], place: u32) -> Result<bool, AllocError>
    requires { place < length needs.now }
    ensures { IfOk result (λ r. MatchBool r (IsLooping (lists_in needs.now) place) (IsLooping (lists_in needs.now) place → ⊥)) }
{
    let gate = needs[place as usize];
    let marks = reached_from(alloc, needs, &[gate.left, gate.right])?;
    Ok(is_marked(&marks, place))
}

/// Of each gate, whether it is reached from one of `starts`, in any number of steps.
fn reached_from(alloc: Global, needs: &[GateNeeds], starts: &[u32]) -> Result<Vec<bool>, AllocError>
    ensures { IfOk result (λ marks. AreReached (lists_in needs.now) starts.now marks.items) }
{
    let mut marks = vec![in alloc; false; needs.len()]?;
    let mut waiting = Vec::new(alloc);
    mark_all(starts, &mut marks, &mut waiting)?;
    while let Some(place) = waiting.pop() {
        let gate = needs[place as usize];
        mark_all(&[gate.left, gate.right], &mut marks, &mut waiting)?;
    }
    Ok(marks)
}
