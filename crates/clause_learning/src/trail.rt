// The trail of a search: the literals assumed or implied so far, oldest first.
ghost use Rattle.std.specs.Prelude.{ℕ, ◌≡◌, ◌<◌, ◌≤◌, ◌++◌, ◌∷◌, ◌+◌, ◌-◌, ◌^◌, [], true, false, length, take, None, IsNone, IfOk, IfSome, IfNone};
ghost use Rattle.clause_learning.specs.declared.trail.Entry.{Entry};
ghost use Rattle.resolution_proof.specs.Literal.{holds, mentions, negation};
ghost use Rattle.resolution_proof.specs.Clause.{is_among};
ghost use Rattle.resolution_proof.specs.Fresh.{is_free};
ghost use Rattle.resolution_proof.specs.Formula.{is_true};
ghost use Rattle.resolution_proof.specs.declared.literal.Literal.{Literal};
ghost use Rattle.clause_learning.specs.Trail.{Path, literals, entry_at, value_of, is_after, NoDecision, AreApart, sign_of};
ghost use Rattle.clause_learning.specs.Learning.{is_seen_entry};

use crate::marked::Marked;
use resolution_proof::literal::Literal;
use std::alloc::{AllocError, Global};
use std::marker::Model;

/// A literal of the trail, with the number of the clause that implies it, or with none for a decision.
#[derive(Clone, Copy)]
pub struct Entry {
    pub literal: Literal,
    pub reason: Option<u64>,
}

/// The value of an assigned variable and the position of its entry.
#[derive(Clone, Copy)]
pub struct Mark {
    pub positive: bool,
    pub position: usize,
}

/// The literals assumed or implied so far, oldest first, no variable twice.
#[derive(Drop)]
pub struct Trail {
    entries: Vec<Entry>,
    marks: Vec<Option<Mark>>,
}

impl Model for Trail {
    ghost use Rattle.std.specs.Prelude.{length, vec_capacity, ◌≤◌};
    ghost use Rattle.clause_learning.specs.Trail.{Path, IsTied};

    ghost Value = { Path };

    ghost view = { λ t. record { variables = length t.marks.items; entries = t.entries.items } };

    ghost invariant = { λ t. IsTied t.marks.items t.entries.items × (length t.marks.items ≤ vec_capacity t.entries) };
}

impl Trail {
    pub fn new(alloc: Global, variables: u64) -> Result<Trail, AllocError>
        ensures { IfOk result (λ t. t ≡ record { variables = variables; entries = [] }) }
    {
        let unassigned: Option<Mark> = None;
        let marks = vec![in alloc; unassigned; variables as usize]?;
        Ok(Trail {
            entries: Vec::with_capacity(alloc, variables as usize)?,
            marks,
        })
    }

    pub fn len(&self) -> usize
        ensures len { result ≡ length self.now.entries }
        ensures apart { AreApart self.now.variables self.now.entries }
    {
        self.entries.len()
    }

    pub fn variables(&self) -> u64
        ensures count { result ≡ self.now.variables }
        ensures apart { AreApart self.now.variables self.now.entries }
    {
        self.marks.len() as u64
    }

    /// The entry at a position.
    pub fn entry(&self, position: usize) -> Entry
        requires { position < length self.now.entries }
        ensures entry { result ≡ entry_at self.now.entries position }
        ensures apart { AreApart self.now.variables self.now.entries }
    {
        self.entries[position]
    }

    /// The literal's value, or `None` where its variable has none.
    pub fn value(&self, literal: Literal) -> Option<bool>
        requires { is_among self.now.variables literal ≡ true }
        ensures { result ≡ value_of (literals self.now.entries) literal }
    {
        match self.marks[literal.variable as usize - 1] {
            Some(mark) => Some(mark.positive == literal.positive),
            None => None,
        }
    }

    /// Whether the literal is true.
    pub fn is_true(&self, literal: Literal) -> bool
        requires { is_among self.now.variables literal ≡ true }
        ensures { result ≡ holds (literals self.now.entries) literal }
    {
        match self.value(literal) {
            Some(value) => value,
            None => false,
        }
    }

    /// Whether the variable has a value.
    pub fn is_assigned(&self, variable: u64) -> bool
        requires positive { 1 ≤ variable }
        requires among { variable ≤ self.now.variables }
        ensures { result ≡ mentions (literals self.now.entries) variable }
    {
        self.marks[variable as usize - 1].is_some()
    }

    /// Whether the variable's entry is at the position or after it.
    pub fn is_at_least(&self, variable: u64, position: usize) -> bool
        requires positive { 1 ≤ variable }
        requires among { variable ≤ self.now.variables }
        ensures after { result ≡ is_after self.now.entries position variable }
        ensures small { length self.now.entries < 2 ^ 63 }
        ensures apart { AreApart self.now.variables self.now.entries }
    {
        match self.marks[variable as usize - 1] {
            Some(mark) => position <= mark.position,
            None => false,
        }
    }

    /// The position of the variable's entry, if it has one.
    pub fn place(&self, variable: u64) -> Option<usize>
        requires positive { 1 ≤ variable }
        requires among { variable ≤ self.now.variables }
        ensures some { IfSome result (λ k. (k < length self.now.entries) × ((entry_at self.now.entries k).literal.variable ≡ variable)) }
        ensures none { IfNone result (mentions (literals self.now.entries) variable ≡ false) }
        ensures small { length self.now.entries < 2 ^ 63 }
    {
        match self.marks[variable as usize - 1] {
            Some(mark) => Some(mark.position),
            None => None,
        }
    }

    /// Adds an entry of a variable that has none. It takes no memory.
    pub fn add(&mut self, entry: Entry)
        requires among { is_among self.old.variables entry.literal ≡ true }
        requires free { is_free (literals self.old.entries) entry.literal ≡ true }
        ensures added { self.new ≡ record self.old { entries = self.old.entries ++ entry ∷ [] } }
        ensures room { length self.new.entries ≤ self.new.variables }
    {
        let position = self.entries.len();
        self.entries.push_reserved(entry);
        self.marks[entry.literal.variable as usize - 1] = Some(Mark {
            positive: entry.literal.positive,
            position,
        });
    }

    /// Takes off the newest entry.
    fn pop(&mut self)
        requires { 0 < length self.old.entries }
        ensures { self.new ≡ record self.old { entries = take (length self.old.entries - 1) self.old.entries } }
    {
        if let Some(entry) = self.entries.pop() {
            self.marks[entry.literal.variable as usize - 1] = None;
        }
    }

    /// Takes off the entries from the position on.
    pub fn cut(&mut self, position: usize)
        requires { position ≤ length self.old.entries }
        ensures { self.new ≡ record self.old { entries = take position self.old.entries } }
    {
        while self.len() > position {
            self.pop();
        }
    }

    /// The position of the newest decision.
    pub fn last_decision(&self) -> Option<usize>
        ensures decision { IfSome result (λ c. (c < length self.now.entries) × IsNone (entry_at self.now.entries c).reason × NoDecision self.now.entries (c + 1) (length self.now.entries)) }
        ensures none { IfNone result (NoDecision self.now.entries 0 (length self.now.entries)) }
    {
        let mut position = self.entries.len();
        while position > 0 {
            position -= 1;
            if self.entries[position].reason.is_none() {
                return Some(position);
            }
        }
        None
    }

    /// The position of the oldest decision from `start` on, up to the decision at `last`.
    pub fn decision_from(&self, start: usize, last: usize) -> usize
        requires start { start ≤ last }
        requires last { last < length self.now.entries }
        requires decision { IsNone (entry_at self.now.entries last).reason }
        ensures start { start ≤ result }
        ensures last { result ≤ last }
        ensures decision { IsNone (entry_at self.now.entries result).reason }
        ensures before { NoDecision self.now.entries start result }
    {
        for position in start..last {
            if self.entries[position].reason.is_none() {
                return position;
            }
        }
        last
    }

    /// The position after the newest marked entry below `last`, or 0 where none is marked.
    pub fn position_after_marked(&self, seen: &Marked, last: usize) -> usize
        requires last { last ≤ length self.now.entries }
        requires seen { length seen.now ≡ self.now.variables }
        ensures last { result ≤ last }
        ensures above { (k : ℕ) → result ≤ k → k < last → is_seen_entry seen.now (entry_at self.now.entries k) ≡ false }
        ensures marked { 0 < result → is_seen_entry seen.now (entry_at self.now.entries (result - 1)) ≡ true }
    {
        let mut position = last;
        while position > 0 {
            if seen.is_marked(self.entries[position - 1].literal.variable) {
                return position;
            }
            position -= 1;
        }
        0
    }

    /// The values of the variables in order; those that have none are false.
    pub fn values(&self, alloc: Global) -> Result<Vec<bool>, AllocError>
        ensures len { IfOk result (λ v. length v.items ≡ self.now.variables) }
        ensures agree { IfOk result (λ v. (l : Literal) → holds (literals self.now.entries) l ≡ true → is_true v.items l ≡ true) }
    {
        let mut values = Vec::new(alloc);
        for mark in &self.marks {
            values.push(sign(*mark))?;
        }
        Ok(values)
    }
}

fn sign(mark: Option<Mark>) -> bool
    ensures { result ≡ sign_of mark }
{
    match mark {
        Some(mark) => mark.positive,
        None => false,
    }
}
