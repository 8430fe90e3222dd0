// Marks of variables, with a list of the marked ones.
ghost use Rattle.std.specs.Prelude.{ℕ, ◌≡◌, ◌<◌, ◌≤◌, ◌-◌, ◌^◌, true, false, length, IfOk, IfSome, IfNone, slice_set};
ghost use Rattle.clause_learning.specs.Learning.{is_seen};

use std::alloc::{AllocError, Global};
use std::marker::Model;

/// A mark for each variable. Besides, each marked variable stands in a list, so that to find or to take off all marks
/// costs time for these alone. A variable whose mark is taken off stays in the list until it is taken, and no variable
/// stands there twice: so a mark takes no memory.
#[derive(Drop)]
pub struct Marked {
    seen: Vec<bool>,
    listed: Vec<bool>,
    list: Vec<u64>,
}

impl Model for Marked {
    ghost use Rattle.std.specs.Prelude.{List, Bool, length, vec_capacity, ◌≤◌, ◌+◌};
    ghost use Rattle.clause_learning.specs.Marked.{AreListed};

    ghost Value = { List Bool };

    ghost view = { λ m. m.seen.items };

    ghost invariant = { λ m. AreListed m.seen.items m.listed.items m.list.items × (length m.seen.items + 2 ≤ vec_capacity m.list) };
}

impl Marked {
    /// No variable is marked.
    pub fn new(alloc: Global, variables: u64) -> Result<Marked, AllocError>
        requires { variables < 2 ^ 32 }
        ensures { IfOk result (λ m. length m ≡ variables) }
    {
        let seen = vec![in alloc; false; variables as usize]?;
        let listed = vec![in alloc; false; variables as usize]?;
        Ok(Marked {
            seen,
            listed,
            list: Vec::with_capacity(alloc, variables as usize + 2)?,
        })
    }

    /// Whether the variable is marked.
    pub fn is_marked(&self, variable: u64) -> bool
        ensures { result ≡ is_seen self.now variable }
    {
        let index = variable.saturating_sub(1) as usize;
        self.seen.get(index).copied().unwrap_or(false)
    }

    /// Marks the variable.
    pub fn mark(&mut self, variable: u64)
        requires positive { 1 ≤ variable }
        requires among { variable ≤ length self.old }
        ensures { self.new ≡ slice_set self.old (variable - 1) true }
    {
        let index = variable as usize - 1;
        if self.listed[index] {
            self.seen[index] = true;
            return;
        }
        self.list.push_reserved(variable);
        self.listed[index] = true;
        self.seen[index] = true;
    }

    /// Takes the mark of the variable off.
    pub fn unmark(&mut self, variable: u64)
        requires positive { 1 ≤ variable }
        requires among { variable ≤ length self.old }
        ensures { self.new ≡ slice_set self.old (variable - 1) false }
    {
        self.seen[variable as usize - 1] = false;
    }

    /// Takes the mark of some variable off, if one is marked.
    pub fn take(&mut self) -> Option<u64>
        ensures among { IfSome result (λ v. (1 ≤ v) × (v ≤ length self.old) × (is_seen self.old v ≡ true)) }
        ensures off { IfSome result (λ v. self.new ≡ slice_set self.old (v - 1) false) }
        ensures none { IfNone result ((v : ℕ) → is_seen self.old v ≡ false) }
        ensures kept { IfNone result (self.new ≡ self.old) }
    {
        while let Some(variable) = self.list.pop() {
            let index = variable as usize - 1;
            let was_marked = self.seen[index];
            self.listed[index] = false;
            self.seen[index] = false;
            if was_marked {
                return Some(variable);
            }
        }
        None
    }

    /// Takes all marks off.
    pub fn clear(&mut self)
        ensures none { (v : ℕ) → is_seen self.new v ≡ false }
        ensures len { length self.new ≡ length self.old }
    {
        while let Some(variable) = self.list.pop() {
            let index = variable as usize - 1;
            self.listed[index] = false;
            self.seen[index] = false;
        }
    }

    /// The marked variables, and some that are no longer marked, in no order.
    pub fn list(&self) -> &[u64] {
        &self.list
    }
}
