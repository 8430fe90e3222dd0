// Propagation by watched literals: a clause is read only when a literal that it watches has become false.
ghost use Rattle.std.specs.Prelude.{◌≡◌, ◌<◌, ◌≤◌, ◌+◌, ◌-◌, ◌++◌, ◌∷◌, true, false, [], length, take, IfOk, OnOk, OnErr, IfSome, IfNone, Some, None};
ghost use Rattle.resolution_proof.specs.declared.literal.Literal.{Literal};
ghost use Rattle.resolution_proof.specs.Literal.{negation};
ghost use Rattle.resolution_proof.specs.Clause.{is_among, is_clause};
ghost use Rattle.resolution_proof.specs.Fresh.{is_free, is_unit};
ghost use Rattle.clause_learning.specs.Trail.{literals, entry_at, Implies};
ghost use Rattle.clause_learning.specs.Propagation.{IsConflict, IsOutcome};
ghost use Rattle.clause_learning.specs.Watching.{literal_at, watch_at, list_at, AreVisited, Propagates, slot_of};
ghost use Rattle.clause_learning.specs.Watcher.{IsWatching, IsVisit};

use crate::marks::{mark_before, marks_kept, marks_up_to};
use crate::packed::PackedLiteral;
use crate::propagation::{State, state_of};
use crate::stored_clause::{StoredClause, Watch};
use crate::stored_clause_state::{
    StoredClauseState, bring_last, read_stored_clause, watched_position,
};
use crate::table::Table;
use crate::trail::{Entry, Trail};
use resolution_proof::clause::Clause;
use resolution_proof::literal::Literal;
use std::alloc::{AllocError, Global};

/// Clauses and the trail, with the lists of watches. `head` is the position of the first literal of the trail whose list
/// is to be read yet; `marks` are positions up to which propagation was complete. The first `short_head` of the clauses
/// of fewer than two literals are true by the first `base` literals of the trail.
#[derive(Drop)]
pub(crate) struct Watcher {
    pub(crate) alloc: Global,
    pub(crate) table: Table,
    pub(crate) trail: Trail,
    pub(crate) head: usize,
    pub(crate) marks: Vec<usize>,
    pub(crate) short_head: usize,
    pub(crate) base: usize,
}

/// What became of a watch.
#[derive(Clone, Copy)]
pub(crate) enum Visit {
    /// It stays, since its clause is true.
    Stays,
    /// It went to another list.
    Moved,
    /// Its clause is false.
    Conflict,
}

impl Watcher {
    /// An empty trail, and no clauses.
    pub(crate) fn new(alloc: Global, variables: u64) -> Result<Watcher, AllocError>
        ensures watching { IfOk result IsWatching }
        ensures clauses { IfOk result (λ w. w.table.clauses.items ≡ []) }
        ensures trail { IfOk result (λ w. w.trail ≡ record { variables = variables; entries = [] }) }
    {
        if variables >= 0x8000_0000 {
            return Err(AllocError);
        }
        Ok(Watcher {
            alloc,
            table: Table::new(alloc, variables)?,
            trail: Trail::new(alloc, variables)?,
            head: 0,
            marks: Vec::with_capacity(alloc, variables as usize)?,
            short_head: 0,
            base: 0,
        })
    }

    /// Puts a literal last on the trail, as a decision.
    pub(crate) fn assume(&mut self, literal: Literal)
        requires watching { IsWatching self.old }
        requires among { is_among self.old.trail.variables literal ≡ true }
        requires free { is_free (literals self.old.trail.entries) literal ≡ true }
        ensures watching { IsWatching self.new }
        ensures clauses { self.new.table.clauses ≡ self.old.table.clauses }
        ensures trail { self.new.trail ≡ record self.old.trail { entries = self.old.trail.entries ++ record { literal = literal; reason = None } ∷ [] } }
        ensures room { length self.new.trail.entries ≤ self.new.trail.variables }
    {
        self.mark();
        self.trail.add(Entry {
            literal,
            reason: None,
        });
    }

    /// Keeps in mind that propagation is complete, if it is and there is room.
    fn mark(&mut self)
        requires { IsWatching self.old }
        ensures watching { IsWatching self.new }
        ensures table { self.new.table ≡ self.old.table }
        ensures trail { self.new.trail ≡ self.old.trail }
    {
        if self.head < self.trail.len() {
            return;
        }
        if self.marks.len() < self.marks.capacity() {
            self.marks.push_reserved(self.head);
        }
    }

    /// Keeps the first `n` literals of the trail alone.
    pub(crate) fn back_to(&mut self, n: usize)
        requires watching { IsWatching self.old }
        requires within { n ≤ length self.old.trail.entries }
        ensures watching { IsWatching self.new }
        ensures clauses { self.new.table.clauses ≡ self.old.table.clauses }
        ensures trail { self.new.trail ≡ record self.old.trail { entries = take n self.old.trail.entries } }
    {
        self.reset_short(n);
        let kept = marks_up_to(&self.marks, n);
        let head = mark_before(&self.marks, kept);
        self.marks.truncate(kept);
        self.head = head;
        self.trail.cut(n);
    }

    /// Lets the short clauses be read again, if they are true by a literal from the position on.
    fn reset_short(&mut self, position: usize)
        requires { IsWatching self.old }
        ensures watching { IsWatching self.new }
        ensures table { self.new.table ≡ self.old.table }
        ensures trail { self.new.trail ≡ self.old.trail }
        ensures marks { self.new.marks ≡ self.old.marks }
        ensures head { self.new.head ≡ self.old.head }
        ensures base { self.new.base ≤ position }
    {
        if self.base <= position {
            return;
        }
        self.short_head = 0;
        self.base = 0;
    }

    /// Propagates until nothing more follows. The result is the number of a false clause, if there is one.
    pub(crate) fn propagate(&mut self) -> Result<Option<u64>, AllocError>
        requires { IsWatching self.old }
        ensures watching { IsWatching self.new }
        ensures clauses { self.new.table.clauses ≡ self.old.table.clauses }
        ensures variables { self.new.trail.variables ≡ self.old.trail.variables }
        ensures propagates { Propagates self.new.table.clauses.items self.old.trail.entries self.new.trail.entries }
        ensures outcome { IfOk result (IsOutcome self.new.table.clauses.items (literals self.new.trail.entries)) }
    {
        if let Some(conflict) = self.propagate_all_short() {
            return Ok(Some(conflict));
        }
        while self.head < self.trail.len() {
            match self.read_next() {
                Ok(None) => {}
                other => return other,
            }
        }
        Ok(None)
    }

    /// Makes each clause of fewer than two literals true. The result is the number of the first one that is false, if there is one.
    fn propagate_all_short(&mut self) -> Option<u64>
        requires { IsWatching self.old }
        ensures watching { IsWatching self.new }
        ensures clauses { self.new.table.clauses ≡ self.old.table.clauses }
        ensures variables { self.new.trail.variables ≡ self.old.trail.variables }
        ensures propagates { Propagates self.new.table.clauses.items self.old.trail.entries self.new.trail.entries }
        ensures conflict { IfSome result (IsConflict self.new.table.clauses.items (literals self.new.trail.entries)) }
        ensures all { IfNone result (length self.new.table.short.items ≤ self.new.short_head) }
    {
        while self.short_head < self.table.short.len() {
            if let Some(conflict) = self.propagate_short() {
                return Some(conflict);
            }
        }
        None
    }

    /// Makes the next clause of fewer than two literals true. The result is its number, if it is false.
    fn propagate_short(&mut self) -> Option<u64>
        requires watching { IsWatching self.old }
        requires more { self.old.short_head < length self.old.table.short.items }
        ensures watching { IsWatching self.new }
        ensures clauses { self.new.table.clauses ≡ self.old.table.clauses }
        ensures short { self.new.table.short ≡ self.old.table.short }
        ensures variables { self.new.trail.variables ≡ self.old.trail.variables }
        ensures propagates { Propagates self.new.table.clauses.items self.old.trail.entries self.new.trail.entries }
        ensures conflict { IfSome result (IsConflict self.new.table.clauses.items (literals self.new.trail.entries)) }
        ensures next { IfNone result (self.new.short_head ≡ self.old.short_head + 1) }
    {
        let index = self.table.short[self.short_head];
        let number = index as u64 + 1;
        let clause = self.table.clauses[index].as_slice();
        match state_of(&self.trail, clause) {
            State::Closed => {
                self.short_head += 1;
                self.base = self.trail.len();
                None
            }
            State::Open(literal) => {
                self.imply(literal, number);
                self.short_head += 1;
                self.base = self.trail.len();
                None
            }
            State::False => Some(number),
        }
    }

    /// Puts the literal that the clause of the number implies last on the trail.
    fn imply(&mut self, literal: Literal, number: u64)
        requires watching { IsWatching self.old }
        requires free { is_free (literals self.old.trail.entries) literal ≡ true }
        requires implied { Implies self.old.table.clauses.items number (literals self.old.trail.entries) literal }
        ensures watching { IsWatching self.new }
        ensures table { self.new.table ≡ self.old.table }
        ensures head { self.new.head ≡ self.old.head }
        ensures short_head { self.new.short_head ≡ self.old.short_head }
        ensures trail { self.new.trail ≡ record self.old.trail { entries = self.old.trail.entries ++ record { literal = literal; reason = Some number } ∷ [] } }
        ensures propagates { Propagates self.new.table.clauses.items self.old.trail.entries self.new.trail.entries }
    {
        self.trail.add(Entry {
            literal,
            reason: Some(number),
        });
    }

    /// Reads the list of the negation of the next literal of the trail, binary clauses first.
    fn read_next(&mut self) -> Result<Option<u64>, AllocError>
        requires watching { IsWatching self.old }
        requires more { self.old.head < length self.old.trail.entries }
        ensures watching { IsWatching self.new }
        ensures clauses { self.new.table.clauses ≡ self.old.table.clauses }
        ensures short { self.new.table.short ≡ self.old.table.short }
        ensures short_head { self.new.short_head ≡ self.old.short_head }
        ensures variables { self.new.trail.variables ≡ self.old.trail.variables }
        ensures propagates { Propagates self.new.table.clauses.items self.old.trail.entries self.new.trail.entries }
        ensures conflict { IfOk result (λ o. IfSome o (IsConflict self.new.table.clauses.items (literals self.new.trail.entries))) }
        ensures next { IfOk result (λ o. IfNone o (self.new.head ≡ self.old.head + 1)) }
    {
        let entry = self.trail.entry(self.head);
        let slot = PackedLiteral::new(entry.literal.negation()).slot();
        match self.read_list(slot, true) {
            Ok(None) => {}
            other => return other,
        }
        match self.read_list(slot, false) {
            Ok(None) => {
                self.head += 1;
                Ok(None)
            }
            other => other,
        }
    }

    /// Visits the watches of the list of the slot, or, with `only_binary`, those of binary clauses alone. The result is
    /// the number of a false clause, if there is one.
    fn read_list(&mut self, slot: usize, only_binary: bool) -> Result<Option<u64>, AllocError>
        requires watching { IsWatching self.old }
        requires more { self.old.head < length self.old.trail.entries }
        requires slot { slot ≡ slot_of (negation (entry_at self.old.trail.entries self.old.head).literal) }
        requires low { slot < length self.old.table.lists.items }
        ensures watching { IsWatching self.new }
        ensures clauses { self.new.table.clauses ≡ self.old.table.clauses }
        ensures short { self.new.table.short ≡ self.old.table.short }
        ensures short_head { self.new.short_head ≡ self.old.short_head }
        ensures head { self.new.head ≡ self.old.head }
        ensures variables { self.new.trail.variables ≡ self.old.trail.variables }
        ensures propagates { Propagates self.new.table.clauses.items self.old.trail.entries self.new.trail.entries }
        ensures conflict { IfOk result (λ o. IfSome o (IsConflict self.new.table.clauses.items (literals self.new.trail.entries))) }
        ensures visited { only_binary ≡ false → IfOk result (λ o. IfNone o (AreVisited (literals self.new.trail.entries) self.new.table.stored_clauses.items (list_at self.new.table.lists.items slot) (length (list_at self.new.table.lists.items slot)))) }
    {
        let mut position = 0;
        while position < self.table.lists[slot].reach(only_binary) {
            let watch = self.table.lists[slot].at(position);
            if only_binary && !watch.is_binary {
                position += 1;
                continue;
            }
            let clause = watch.clause;
            match self.visit(slot, position, watch) {
                Ok(Visit::Stays) => position += 1,
                Ok(Visit::Moved) => {}
                Ok(Visit::Conflict) => return Ok(Some(u64::from(clause) + 1)),
                Err(fail) => return Err(fail),
            }
        }
        Ok(None)
    }

    /// Visits one watch.
    fn visit(&mut self, slot: usize, position: usize, watch: Watch) -> Result<Visit, AllocError>
        requires watching { IsWatching self.old }
        requires head { self.old.head < length self.old.trail.entries }
        requires slot { slot ≡ slot_of (negation (entry_at self.old.trail.entries self.old.head).literal) }
        requires position { position < length (list_at self.old.table.lists.items slot) }
        requires watch { watch ≡ watch_at (list_at self.old.table.lists.items slot) position }
        ensures watching { IsWatching self.new }
        ensures clauses { self.new.table.clauses ≡ self.old.table.clauses }
        ensures short { self.new.table.short ≡ self.old.table.short }
        ensures short_head { self.new.short_head ≡ self.old.short_head }
        ensures head { self.new.head ≡ self.old.head }
        ensures variables { self.new.trail.variables ≡ self.old.trail.variables }
        ensures propagates { Propagates self.new.table.clauses.items self.old.trail.entries self.new.trail.entries }
        ensures visit { IfOk result (IsVisit self.old self.new slot position) }
    {
        if self.trail.is_true(watch.blocker.literal()) {
            return Ok(Visit::Stays);
        }
        let clause = watch.clause;
        let stored_clause = self.table.stored_clauses[clause as usize].as_slice();
        let first = watched_position(stored_clause, slot);
        let other = stored_clause[1 - first];
        match read_stored_clause(&self.trail, stored_clause, first) {
            StoredClauseState::Satisfied => {
                self.table.set_blocker(slot, position, other);
                Ok(Visit::Stays)
            }
            StoredClauseState::Open(k) => {
                self.table.move_watch(slot, position, first, k)?;
                Ok(Visit::Moved)
            }
            StoredClauseState::Implied(literal) => {
                self.imply(literal, u64::from(clause) + 1);
                Ok(Visit::Stays)
            }
            StoredClauseState::False => Ok(Visit::Conflict),
        }
    }

    /// The clauses, with no copy.
    pub(crate) fn into_clauses(self) -> Vec<Clause>
        ensures { result.items ≡ self.table.clauses.items }
    {
        self.table.clauses
    }

    /// Adds a clause.
    pub(crate) fn add_clause(&mut self, clause: Clause) -> Result<(), AllocError>
        requires watching { IsWatching self.old }
        requires clause { is_clause self.old.trail.variables clause ≡ true }
        ensures watching { IsWatching self.new }
        ensures trail { self.new.trail ≡ self.old.trail }
        ensures ok { OnOk result (self.new.table.clauses.items ≡ self.old.table.clauses.items ++ clause ∷ []) }
        ensures err { OnErr result (self.new.table.clauses.items ≡ self.old.table.clauses.items) }
    {
        let stored_clause = StoredClause::new(
            self.alloc,
            clause.as_slice(),
            self.trail.variables(),
        )?;
        self.table.add(clause, stored_clause)?;
        self.head = 0;
        self.marks.clear();
        Ok(())
    }

    /// Adds a clause whose last literal is open and whose other literals are false, and puts that literal on the trail.
    pub(crate) fn learn(&mut self, clause: Clause) -> Result<(), AllocError>
        requires watching { IsWatching self.old }
        requires clause { is_clause self.old.trail.variables clause ≡ true }
        requires full { 0 < length clause }
        requires free { is_free (literals self.old.trail.entries) (literal_at clause (length clause - 1)) ≡ true }
        requires others { is_unit (literals self.old.trail.entries) (literal_at clause (length clause - 1)) clause ≡ true }
        ensures watching { IsWatching self.new }
        ensures variables { self.new.trail.variables ≡ self.old.trail.variables }
        ensures ok { OnOk result (self.new.table.clauses.items ≡ self.old.table.clauses.items ++ clause ∷ []) }
        ensures propagates { OnOk result (Propagates self.new.table.clauses.items self.old.trail.entries self.new.trail.entries) }
        ensures longer { OnOk result (length self.new.trail.entries ≡ length self.old.trail.entries + 1) }
    {
        let mut stored_clause = StoredClause::new(
            self.alloc,
            clause.as_slice(),
            self.trail.variables(),
        )?;
        bring_last(&mut stored_clause);
        let literals = stored_clause.as_slice();
        let literal = literals[0].literal();
        let kept = marks_kept(&self.trail, &self.marks, literals);
        self.table.add(clause, stored_clause)?;
        self.marks.truncate(kept);
        let number = self.table.stored_clauses.len() as u64;
        self.trail.add(Entry {
            literal,
            reason: Some(number),
        });
        Ok(())
    }
}
