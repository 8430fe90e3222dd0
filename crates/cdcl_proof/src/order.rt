// The order of decisions: variables by their activity, in a heap.
ghost use Rattle.std.specs.Prelude.{ℕ, ◌≡◌, ◌≢◌, ◌<◌, ◌≤◌, ◌+◌, ◌^◌, length, IfOk, IfSome, IfNone, OnOk, IsTrue, true};
ghost use Rattle.resolution_proof.specs.Clause.{is_within};
ghost use Rattle.cdcl_proof.specs.Order.{IsOrder, Waits, KeepsWaiting};

use resolution_proof::literal::Literal;
use resolution_proof::log::Hint;
use std::alloc::{AllocError, Global};

/// An activity for each variable, and what a conflict adds to it, which grows from conflict to conflict; the variables
/// that wait for a decision, as a binary heap by activity; and where each of them stands in the heap.
#[derive(Drop)]
pub(crate) struct Order {
    activities: Vec<u64>,
    increment: u64,
    heap: Vec<u64>,
    positions: Vec<usize>,
}

/// Activities are scaled down once the increment is at this bound.
const BOUND: u64 = 0x1000_0000_0000_0000;

impl Order {
    /// All variables wait, with no activity.
    pub(crate) fn new(alloc: Global, variables: u64) -> Result<Order, AllocError>
        requires { variables < 2 ^ 31 }
        ensures order { IfOk result (IsOrder variables) }
        ensures all { IfOk result (λ o. (v : ℕ) → 1 ≤ v → v ≤ variables → Waits o.heap.items v) }
    {
        let mut heap = Vec::new(alloc);
        let mut positions = Vec::new(alloc);
        for index in 0..variables {
            heap.push(index + 1)?;
            positions.push(index as usize)?;
        }
        Ok(Order {
            activities: vec![in alloc; 0u64; variables as usize]?,
            increment: 1024,
            heap,
            positions,
        })
    }

    /// Whether the variable stands in the heap.
    fn is_waiting(&self, variable: u64) -> bool
        requires order { IsOrder (length self.now.activities.items) self.now }
        requires positive { 1 ≤ variable }
        requires among { variable ≤ length self.now.activities.items }
        ensures { IsTrue result → Waits self.now.heap.items variable }
    {
        let position = self.positions[variable as usize - 1];
        position < self.heap.len() && self.heap[position] == variable
    }

    /// Lets the variable wait.
    pub(crate) fn insert(&mut self, variable: u64) -> Result<(), AllocError>
        requires order { IsOrder (length self.old.activities.items) self.old }
        requires positive { 1 ≤ variable }
        requires among { variable ≤ length self.old.activities.items }
        ensures order { IsOrder (length self.old.activities.items) self.new }
        ensures waits { OnOk result (Waits self.new.heap.items variable) }
        ensures kept { KeepsWaiting self.old.heap.items self.new.heap.items }
    {
        if self.is_waiting(variable) {
            return Ok(());
        }
        let position = self.heap.len();
        self.heap.push(variable)?;
        self.positions[variable as usize - 1] = position;
        self.sift_up(position);
        Ok(())
    }

    /// Takes the variable of the highest activity out.
    pub(crate) fn pop(&mut self) -> Option<u64>
        requires { IsOrder (length self.old.activities.items) self.old }
        ensures order { IsOrder (length self.old.activities.items) self.new }
        ensures none { IfNone result (length self.old.heap.items ≡ 0) }
        ensures shorter { IfSome result (λ _. length self.new.heap.items + 1 ≡ length self.old.heap.items) }
        ensures among { IfSome result (λ v. (1 ≤ v) × (v ≤ length self.old.activities.items)) }
        ensures kept { IfSome result (λ v. (w : ℕ) → w ≢ v → Waits self.old.heap.items w → Waits self.new.heap.items w) }
    {
        if self.heap.is_empty() {
            return None;
        }
        let top = self.heap.swap_remove(0);
        self.sift_top();
        Some(top)
    }

    /// Lets the first variable of the heap go down to its position.
    fn sift_top(&mut self)
        requires { IsOrder (length self.old.activities.items) self.old }
        ensures order { IsOrder (length self.old.activities.items) self.new }
        ensures len { length self.new.heap.items ≡ length self.old.heap.items }
        ensures kept { KeepsWaiting self.old.heap.items self.new.heap.items }
    {
        if self.heap.is_empty() {
            return;
        }
        let first = self.heap[0];
        self.positions[first as usize - 1] = 0;
        self.sift_down();
    }

    /// The variable's activity, or 0 where there is no such variable.
    pub(crate) fn activity(&self, variable: u64) -> u64 {
        let index = variable.saturating_sub(1) as usize;
        self.activities.get(index).copied().unwrap_or(0)
    }

    /// Exchanges two positions of the heap.
    fn exchange(&mut self, i: usize, j: usize)
        requires order { IsOrder (length self.old.activities.items) self.old }
        requires first { i < length self.old.heap.items }
        requires second { j < length self.old.heap.items }
        ensures order { IsOrder (length self.old.activities.items) self.new }
        ensures len { length self.new.heap.items ≡ length self.old.heap.items }
        ensures kept { KeepsWaiting self.old.heap.items self.new.heap.items }
    {
        let first = self.heap[i];
        let second = self.heap[j];
        self.positions[first as usize - 1] = j;
        self.positions[second as usize - 1] = i;
        self.heap.swap(i, j);
    }

    /// Whether the variable at the first position has a higher activity than that at the second.
    fn is_higher(&self, i: usize, j: usize) -> bool
        requires order { IsOrder (length self.now.activities.items) self.now }
        requires first { i < length self.now.heap.items }
        requires second { j < length self.now.heap.items }
    {
        self.activities[self.heap[j] as usize - 1] < self.activities[self.heap[i] as usize - 1]
    }

    /// Lets the variable at the position go up to its position.
    fn sift_up(&mut self, start: usize)
        requires order { IsOrder (length self.old.activities.items) self.old }
        requires start { start < length self.old.heap.items }
        ensures order { IsOrder (length self.old.activities.items) self.new }
        ensures len { length self.new.heap.items ≡ length self.old.heap.items }
        ensures kept { KeepsWaiting self.old.heap.items self.new.heap.items }
    {
        let mut at = start;
        while at > 0 {
            let parent = (at - 1) / 2;
            if !self.is_higher(at, parent) {
                return;
            }
            self.exchange(at, parent);
            at = parent;
        }
    }

    /// The position of the higher child of the position, or the position itself where no child is higher.
    fn higher_child(&self, at: usize) -> usize
        requires order { IsOrder (length self.now.activities.items) self.now }
        requires within { at < length self.now.heap.items }
        ensures within { result < length self.now.heap.items }
        ensures below { at ≤ result }
    {
        let left = 2 * at + 1;
        if left >= self.heap.len() {
            return at;
        }
        let right = left + 1;
        let child = if right < self.heap.len() && self.is_higher(right, left) {
            right
        } else {
            left
        };
        if self.is_higher(child, at) { child } else { at }
    }

    /// Lets the first variable go down to its position.
    fn sift_down(&mut self)
        requires order { IsOrder (length self.old.activities.items) self.old }
        requires some { 0 < length self.old.heap.items }
        ensures order { IsOrder (length self.old.activities.items) self.new }
        ensures len { length self.new.heap.items ≡ length self.old.heap.items }
        ensures kept { KeepsWaiting self.old.heap.items self.new.heap.items }
    {
        let mut at = 0;
        loop {
            let child = self.higher_child(at);
            if child <= at {
                return;
            }
            self.exchange(at, child);
            at = child;
        }
    }

    /// Bumps the variable's activity.
    fn bump(&mut self, variable: u64)
        requires order { IsOrder (length self.old.activities.items) self.old }
        requires positive { 1 ≤ variable }
        requires among { variable ≤ length self.old.activities.items }
        ensures order { IsOrder (length self.old.activities.items) self.new }
        ensures kept { KeepsWaiting self.old.heap.items self.new.heap.items }
    {
        let index = variable as usize - 1;
        self.activities[index] = self.activities[index].saturating_add(self.increment);
        let position = self.positions[index];
        if position < self.heap.len() {
            self.sift_up(position);
        }
    }

    /// Makes later conflicts weigh more than earlier ones.
    fn decay(&mut self)
        requires { IsOrder (length self.old.activities.items) self.old }
        ensures order { IsOrder (length self.old.activities.items) self.new }
        ensures heap { self.new.heap ≡ self.old.heap }
    {
        if self.increment >= BOUND {
            for activity in self.activities.iter_mut() {
                *activity >>= 40;
            }
            self.increment >>= 40;
        }
        self.increment = self.increment.saturating_add(self.increment / 12);
    }

    /// Bumps the activities of the variables on which the hints resolve.
    fn bump_pivots(&mut self, hints: &[Hint])
        requires { IsOrder (length self.old.activities.items) self.old }
        ensures order { IsOrder (length self.old.activities.items) self.new }
        ensures kept { KeepsWaiting self.old.heap.items self.new.heap.items }
    {
        for hint in hints {
            self.bump_pivot(hint.pivot);
        }
    }

    /// Bumps the activity of the variable, if there is one: the first hint of a chain has no pivot.
    fn bump_pivot(&mut self, pivot: u64)
        requires { IsOrder (length self.old.activities.items) self.old }
        ensures order { IsOrder (length self.old.activities.items) self.new }
        ensures kept { KeepsWaiting self.old.heap.items self.new.heap.items }
    {
        if pivot == 0 || pivot > self.activities.len() as u64 {
            return;
        }
        self.bump(pivot);
    }

    /// Bumps the activities of the variables of a conflict: those on which the hints resolve, and those of the learnt
    /// clause. Later conflicts weigh more.
    pub(crate) fn bump_all(&mut self, hints: &[Hint], literals: &[Literal])
        requires order { IsOrder (length self.old.activities.items) self.old }
        requires within { is_within (length self.old.activities.items) literals.now ≡ true }
        ensures order { IsOrder (length self.old.activities.items) self.new }
        ensures kept { KeepsWaiting self.old.heap.items self.new.heap.items }
    {
        self.bump_pivots(hints);
        for literal in literals {
            self.bump(literal.variable);
        }
        self.decay();
    }
}
