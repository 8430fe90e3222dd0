// Clauses with a trail, for unit propagation by watched literals.
ghost use Rattle.std.specs.Prelude.{◌≡◌, ◌≤◌, ◌<◌, ◌+◌, ◌-◌, ◌++◌, ◌∷◌, [], true, length, take, IfOk, OnOk, OnErr, None, IsTrue, ◌↔◌, ◌&&◌};
ghost use Rattle.resolution_proof.specs.Literal.{holds};
ghost use Rattle.resolution_proof.specs.Clause.{is_among, is_clause};
ghost use Rattle.resolution_proof.specs.Formula.{are_clauses};
ghost use Rattle.resolution_proof.specs.Fresh.{is_free, is_unit};
ghost use Rattle.clause_learning.specs.Trail.{literals};
ghost use Rattle.clause_learning.specs.Propagation.{IsOutcome};
ghost use Rattle.clause_learning.specs.Watching.{literal_at, Propagates};

use crate::trail::Trail;
use crate::watcher::Watcher;
use resolution_proof::clause::Clause;
use resolution_proof::cnf::Cnf;
use resolution_proof::literal::Literal;
use std::alloc::{AllocError, Global};
use std::marker::Model;

/// Clauses, numbered from 1, and a trail of literals in order, no variable twice. Each clause of two literals or
/// more stands in the lists of exactly two of its literals, so that propagation reads it only when one of these has
/// become false (Moskewicz et al., Chaff, 2001). Clauses are never taken away.
///
/// The memory that a clause takes: 48 bytes, 24 for each literal, and 32 or more for its two watches. A variable
/// takes 128 bytes or more.
#[derive(Drop)]
pub struct Watched {
    watcher: Watcher,
}

impl Model for Watched {
    ghost use Rattle.clause_learning.specs.Watching.{Watching};
    ghost use Rattle.clause_learning.specs.Watcher.{IsWatching};

    ghost Value = { Watching };

    ghost view = { λ w. record { variables = w.watcher.trail.variables; clauses = w.watcher.table.clauses.items; entries = w.watcher.trail.entries } };

    ghost invariant = { λ w. IsWatching w.watcher };
}

impl Watched {
    /// The formula's clauses, with an empty trail. Besides running out of memory, a formula of 2^31 variables or more,
    /// or of 2^32 clauses or more, is an error: no memory would do for it.
    pub fn new(alloc: Global, cnf: &Cnf) -> Result<Watched, AllocError>
        ensures { IfOk result (λ w. w ≡ record { variables = cnf.now.variables; clauses = cnf.now.clauses; entries = [] }) }
    {
        let mut watcher = Watcher::new(alloc, cnf.variables())?;
        for clause in cnf.clauses() {
            watcher.add_clause(Clause::copy(alloc, clause)?)?;
        }
        Ok(Watched { watcher })
    }

    /// Puts the clause last. If it fails, nothing has changed.
    pub fn add_clause(&mut self, clause: Clause) -> Result<(), AllocError>
        requires { is_clause self.old.variables clause ≡ true }
        ensures ok { OnOk result (self.new ≡ record self.old { clauses = self.old.clauses ++ clause ∷ [] }) }
        ensures err { OnErr result (self.new ≡ self.old) }
    {
        self.watcher.add_clause(clause)
    }

    /// Puts the literal, whose variable is unassigned, last on the trail. It takes no memory.
    pub fn assume(&mut self, literal: Literal)
        requires among { is_among self.old.variables literal ≡ true }
        requires free { is_free (literals self.old.entries) literal ≡ true }
        ensures entries { self.new ≡ record self.old { entries = self.old.entries ++ record { literal = literal; reason = None } ∷ [] } }
        ensures room { length self.new.entries ≤ self.new.variables }
    {
        self.watcher.assume(literal);
    }

    /// Keeps the first `n` literals of the trail alone. It takes no memory.
    pub fn back_to(&mut self, n: u64)
        requires { n ≤ length self.old.entries }
        ensures { self.new ≡ record self.old { entries = take n self.old.entries } }
    {
        self.watcher.back_to(n as usize);
    }

    /// Propagates: while some clause has one literal that is not false, and which is unassigned, that literal is put
    /// on the trail. The result is the number of a false clause, or `None` where nothing more follows. If it fails,
    /// some literals may have been added.
    pub fn propagate(&mut self) -> Result<Option<u64>, AllocError>
        ensures variables { self.new.variables ≡ self.old.variables }
        ensures clauses { self.new.clauses ≡ self.old.clauses }
        ensures within { are_clauses self.new.variables self.new.clauses ≡ true }

        // Each literal added is the one literal of some clause that is not false.
        ensures propagates { Propagates self.new.clauses self.old.entries self.new.entries }

        // A false clause, or the trail is closed for all clauses.
        ensures outcome { IfOk result (IsOutcome self.new.clauses (literals self.new.entries)) }
    {
        self.watcher.propagate()
    }

    /// Puts a clause last whose last literal is open and whose other literals are false, and that literal on the trail.
    pub fn learn(&mut self, clause: Clause) -> Result<(), AllocError>
        requires clause { is_clause self.old.variables clause ≡ true }
        requires full { 0 < length clause }
        requires free { is_free (literals self.old.entries) (literal_at clause (length clause - 1)) ≡ true }
        requires others { is_unit (literals self.old.entries) (literal_at clause (length clause - 1)) clause ≡ true }
        ensures variables { OnOk result (self.new.variables ≡ self.old.variables) }
        ensures clauses { OnOk result (self.new.clauses ≡ self.old.clauses ++ clause ∷ []) }
        ensures within { are_clauses self.new.variables self.new.clauses ≡ true }
        ensures propagates { OnOk result (Propagates self.new.clauses self.old.entries self.new.entries) }
        ensures longer { OnOk result (length self.new.entries ≡ length self.old.entries + 1) }
    {
        self.watcher.learn(clause)
    }

    /// The trail with its reasons.
    pub fn trail(&self) -> &Trail
        ensures { result.now ≡ record { variables = self.now.variables; entries = self.now.entries } }
    {
        &self.watcher.trail
    }

    /// How many literals the trail has.
    pub fn len(&self) -> u64
        ensures { result ≡ length self.now.entries }
    {
        self.trail().len() as u64
    }

    /// Whether the trail is empty.
    pub fn is_empty(&self) -> bool
        ensures { IsTrue result ↔ (length self.now.entries ≡ 0) }
    {
        self.trail().len() == 0
    }

    /// Whether the literal's variable is one of the formula's, and unassigned.
    pub fn is_open(&self, literal: Literal) -> bool
        ensures { result ≡ (is_among self.now.variables literal && is_free (literals self.now.entries) literal) }
    {
        is_variable(self.trail(), literal) && !self.trail().is_assigned(literal.variable)
    }

    /// Whether the literal's variable is one of the formula's, and the literal is true.
    pub fn is_true(&self, literal: Literal) -> bool
        ensures { result ≡ (is_among self.now.variables literal && holds (literals self.now.entries) literal) }
    {
        is_variable(self.trail(), literal) && self.trail().is_true(literal)
    }

    /// The number of variables.
    pub fn variables(&self) -> u64
        ensures { result ≡ self.now.variables }
    {
        self.trail().variables()
    }

    /// The clauses in order: clause number 1 comes first.
    pub fn clauses(&self) -> &[Clause]
        ensures clauses { result.now ≡ self.now.clauses }
        ensures within { are_clauses self.now.variables self.now.clauses ≡ true }
    {
        &self.watcher.table.clauses
    }

    /// The clauses in order, with no copy.
    pub fn into_clauses(self) -> Vec<Clause>
        ensures { result.items ≡ self.clauses }
    {
        let Watched { watcher } = self;
        watcher.into_clauses()
    }
}

/// Whether the literal's variable is one of those of the trail.
fn is_variable(trail: &Trail, literal: Literal) -> bool
    ensures { result ≡ is_among trail.now.variables literal }
{
    1 <= literal.variable && literal.variable <= trail.variables()
}
