// Clauses and watch lists as propagation works on them.
ghost use Rattle.std.specs.Prelude.{◌≡◌, ◌<◌, ◌≤◌, ◌++◌, ◌∷◌, ◌-◌, ◌^◌, true, false, [], length, take, swap, swap_remove, OnOk, OnErr, IfOk, slice_index_or, slice_set};
ghost use Rattle.resolution_proof.specs.Clause.{is_within};
ghost use Rattle.clause_learning.specs.Watching.{no_watch};

use crate::packed::PackedLiteral;
use resolution_proof::literal::Literal;
use std::alloc::{AllocError, Global};
use std::marker::Model;

/// The literals of a clause in the order of its search: the first two are watched.
#[derive(Drop)]
pub(crate) struct StoredClause {
    literals: Vec<PackedLiteral>,
}

impl Model for StoredClause {
    ghost use Rattle.std.specs.Prelude.{List};
    ghost use Rattle.resolution_proof.specs.declared.literal.Literal.{Literal};

    ghost Value = { List Literal };

    ghost view = { λ r. r.literals.items };
}

impl StoredClause {
    /// The stored clause of a clause.
    pub(crate) fn new(
        alloc: Global,
        clause: &[Literal],
        variables: u64,
    ) -> Result<StoredClause, AllocError>
        requires within { is_within variables clause.now ≡ true }
        requires small { variables < 2 ^ 32 }
        ensures { IfOk result (λ r. r ≡ clause.now) }
    {
        let mut literals = Vec::with_capacity(alloc, clause.len())?;
        for literal in clause {
            literals.push(PackedLiteral::new(*literal))?;
        }
        Ok(StoredClause { literals })
    }

    pub(crate) fn as_slice(&self) -> &[PackedLiteral]
        ensures { result.now ≡ self.now }
    {
        &self.literals
    }

    /// Exchanges two literals.
    pub(crate) fn swap(&mut self, i: usize, j: usize)
        requires first { i < length self.old }
        requires second { j < length self.old }
        ensures { self.new ≡ swap self.old i j }
    {
        self.literals.swap(i, j);
    }
}

/// That a clause watches a literal: the clause's index, one of its literals, and whether it has two literals alone.
/// Where that one is true, the clause need not be read.
#[derive(Clone, Copy)]
pub(crate) struct Watch {
    pub(crate) clause: u32,
    pub(crate) blocker: PackedLiteral,
    pub(crate) is_binary: bool,
}

/// The clauses that watch one literal. Those of two literals stand among the first `binaries`.
#[derive(Drop)]
pub(crate) struct WatchList {
    watches: Vec<Watch>,
    binaries: usize,
}

impl Model for WatchList {
    ghost use Rattle.std.specs.Prelude.{List};
    ghost use Rattle.clause_learning.specs.declared.stored_clause.Watch.{Watch};

    ghost Value = { List Watch };

    ghost view = { λ w. w.watches.items };
}

impl WatchList {
    pub(crate) fn new(alloc: Global) -> WatchList
        ensures { result ≡ [] }
    {
        WatchList {
            watches: Vec::new(alloc),
            binaries: 0,
        }
    }

    /// How many watches are to be read, or, with `only_binary`, how far those of binary clauses reach.
    pub(crate) fn reach(&self, only_binary: bool) -> usize
        ensures within { result ≤ length self.now }
        ensures all { only_binary ≡ false → result ≡ length self.now }
    {
        if only_binary {
            self.binaries.min(self.watches.len())
        } else {
            self.watches.len()
        }
    }

    pub(crate) fn at(&self, position: usize) -> Watch
        requires { position < length self.now }
        ensures { result ≡ slice_index_or self.now position no_watch }
    {
        self.watches[position]
    }

    pub(crate) fn push(&mut self, watch: Watch) -> Result<(), AllocError>
        ensures ok { OnOk result (self.new ≡ self.old ++ watch ∷ []) }
        ensures err { OnErr result (self.new ≡ self.old) }
    {
        let is_binary = watch.is_binary;
        self.watches.push(watch)?;
        if is_binary {
            self.binaries = self.watches.len();
        }
        Ok(())
    }

    /// Gives the watch at the position another literal of its clause.
    pub(crate) fn set_blocker(&mut self, position: usize, blocker: PackedLiteral)
        requires { position < length self.old }
        ensures { self.new ≡ slice_set self.old position (record { clause = (slice_index_or self.old position no_watch).clause; blocker = blocker; is_binary = (slice_index_or self.old position no_watch).is_binary }) }
    {
        self.watches[position].blocker = blocker;
    }

    /// Takes off the newest.
    pub(crate) fn pop(&mut self)
        requires { 0 < length self.old }
        ensures { self.new ≡ take (length self.old - 1) self.old }
    {
        let _ = self.watches.pop();
    }

    /// Takes off the one at the position; the last one comes there.
    pub(crate) fn remove(&mut self, position: usize)
        requires { position < length self.old }
        ensures { self.new ≡ swap_remove self.old position no_watch }
    {
        let _ = self.watches.swap_remove(position);
    }
}
