// Clauses with their stored clauses and watch lists.
ghost use Rattle.std.specs.Prelude.{ℕ, ◌≡◌, ◌≢◌, ◌<◌, ◌≤◌, ◌++◌, ◌∷◌, ◌^◌, true, [], length, swap, swap_remove, slice_set, OnOk, OnErr, IfOk};
ghost use Rattle.resolution_proof.specs.Literal.{holds};
ghost use Rattle.resolution_proof.specs.Clause.{is_clause};
ghost use Rattle.clause_learning.specs.Watching.{literal_at, watch_at, list_at, stored_clause_at, no_watch, added_lists, HasSameClauses, IsStored, slot_of};
ghost use Rattle.clause_learning.specs.Table.{IsTable, HasAdded, IsUnchanged, IsEntered};

use crate::packed::PackedLiteral;
use crate::stored_clause::{StoredClause, Watch, WatchList};
use resolution_proof::clause::Clause;
use std::alloc::{AllocError, Global};

/// The most clauses that a table can have.
const MOST: usize = 0xffff_ffff;

/// Clauses, each with a stored clause of its literals, and the lists of watches by literals. The clauses of fewer than two
/// literals are in no list, but in `short`.
#[derive(Drop)]
pub(crate) struct Table {
    pub(crate) variables: u64,
    pub(crate) clauses: Vec<Clause>,
    pub(crate) stored_clauses: Vec<StoredClause>,
    pub(crate) lists: Vec<WatchList>,
    pub(crate) short: Vec<usize>,
}

impl Table {
    /// A table without clauses.
    pub(crate) fn new(alloc: Global, variables: u64) -> Result<Table, AllocError>
        requires { variables < 2 ^ 31 }
        ensures table { IfOk result IsTable }
        ensures variables { IfOk result (λ t. t.variables ≡ variables) }
        ensures clauses { IfOk result (λ t. t.clauses.items ≡ []) }
        ensures short { IfOk result (λ t. t.short.items ≡ []) }
    {
        Ok(Table {
            variables,
            clauses: Vec::new(alloc),
            stored_clauses: Vec::new(alloc),
            lists: empty_lists(alloc, 2 * variables as usize + 2)?,
            short: Vec::new(alloc),
        })
    }

    /// Watches the literal at `k` of the stored clause in place of the one at `first`, whose list is that of the slot.
    pub(crate) fn move_watch(
        &mut self,
        slot: usize,
        position: usize,
        first: usize,
        k: usize,
    ) -> Result<(), AllocError>
        requires table { IsTable self.old }
        requires slot { slot < length self.old.lists.items }
        requires position { position < length (list_at self.old.lists.items slot) }
        requires first { first < 2 }
        requires later { 2 ≤ k }
        requires inside { k < length (stored_clause_at self.old.stored_clauses.items (watch_at (list_at self.old.lists.items slot) position).clause) }
        requires watched { slot_of (literal_at (stored_clause_at self.old.stored_clauses.items (watch_at (list_at self.old.lists.items slot) position).clause) first) ≡ slot }
        ensures table { IsTable self.new }
        ensures variables { self.new.variables ≡ self.old.variables }
        ensures clauses { self.new.clauses ≡ self.old.clauses }
        ensures short { self.new.short ≡ self.old.short }
        ensures stored_clauses { OnOk result (self.new.stored_clauses.items ≡ slice_set self.old.stored_clauses.items (watch_at (list_at self.old.lists.items slot) position).clause (swap (stored_clause_at self.old.stored_clauses.items (watch_at (list_at self.old.lists.items slot) position).clause) first k)) }
        ensures list { OnOk result (list_at self.new.lists.items slot ≡ swap_remove (list_at self.old.lists.items slot) position no_watch) }
        ensures err { OnErr result (self.new.stored_clauses ≡ self.old.stored_clauses) }
    {
        let clause = self.lists[slot].at(position).clause;
        let stored_clause = self.stored_clauses[clause as usize].as_slice();
        let blocker = stored_clause[1 - first];
        let target = stored_clause[k].slot();
        let watch = Watch {
            clause,
            blocker,
            is_binary: false,
        };
        shift(&mut self.lists, slot, position, target, watch)?;
        let stored_clause = &mut self.stored_clauses[clause as usize];
        stored_clause.swap(first, k);
        Ok(())
    }

    /// Gives the watch at the position of a list another literal of its clause.
    pub(crate) fn set_blocker(&mut self, slot: usize, position: usize, blocker: PackedLiteral)
        requires table { IsTable self.old }
        requires slot { slot < length self.old.lists.items }
        requires position { position < length (list_at self.old.lists.items slot) }
        requires blocks { holds (stored_clause_at self.old.stored_clauses.items (watch_at (list_at self.old.lists.items slot) position).clause) blocker ≡ true }
        ensures table { IsTable self.new }
        ensures variables { self.new.variables ≡ self.old.variables }
        ensures clauses { self.new.clauses ≡ self.old.clauses }
        ensures stored_clauses { self.new.stored_clauses ≡ self.old.stored_clauses }
        ensures short { self.new.short ≡ self.old.short }
        ensures list { HasSameClauses (list_at self.old.lists.items slot) (list_at self.new.lists.items slot) }
    {
        let list = &mut self.lists[slot];
        list.set_blocker(position, blocker);
    }

    /// Adds a clause with its stored clause.
    pub(crate) fn add(
        &mut self,
        clause: Clause,
        stored_clause: StoredClause,
    ) -> Result<(), AllocError>
        requires table { IsTable self.old }
        requires clause { is_clause self.old.variables clause ≡ true }
        requires stored_clause { IsStored clause stored_clause }
        ensures table { IsTable self.new }
        ensures variables { self.new.variables ≡ self.old.variables }
        ensures ok { OnOk result (HasAdded self.old self.new clause stored_clause) }
        ensures err { OnErr result (IsUnchanged self.old self.new) }
    {
        let index = self.stored_clauses.len();
        if index >= MOST {
            return Err(AllocError);
        }
        self.clauses.reserve(1)?;
        self.stored_clauses.reserve(1)?;
        enter(
            &mut self.lists,
            &mut self.short,
            index,
            stored_clause.as_slice(),
        )?;
        self.stored_clauses.push_reserved(stored_clause);
        self.clauses.push_reserved(clause);
        Ok(())
    }
}

/// So many empty lists.
fn empty_lists(alloc: Global, count: usize) -> Result<Vec<WatchList>, AllocError>
    ensures len { IfOk result (λ v. length v.items ≡ count) }
    ensures empty { IfOk result (λ v. (k : ℕ) → list_at v.items k ≡ []) }
{
    let mut lists = Vec::new(alloc);
    for _slot in 0..count {
        lists.push(WatchList::new(alloc))?;
    }
    Ok(lists)
}

/// Puts the watch into one list and takes the one at the position off another.
fn shift(
    lists: &mut Vec<WatchList>,
    from: usize,
    position: usize,
    to: usize,
    watch: Watch,
) -> Result<(), AllocError>
    requires from { from < length lists.old.items }
    requires to { to < length lists.old.items }
    requires other { to ≢ from }
    requires position { position < length (list_at lists.old.items from) }
    ensures ok { OnOk result (lists.new.items ≡ slice_set (slice_set lists.old.items to (list_at lists.old.items to ++ watch ∷ [])) from (swap_remove (list_at lists.old.items from) position no_watch)) }
    ensures err { OnErr result (lists.new.items ≡ lists.old.items) }
{
    lists[to].push(watch)?;
    lists[from].remove(position);
    Ok(())
}

/// Puts a clause into the lists of its first two literals, or, if it has fewer, into the list of short ones.
fn enter(
    lists: &mut Vec<WatchList>,
    short: &mut Vec<usize>,
    index: usize,
    stored_clause: &[PackedLiteral],
) -> Result<(), AllocError>
    requires index { index < 2 ^ 32 }
    requires slots { (k : ℕ) → k < length stored_clause.now → slot_of (literal_at stored_clause.now k) < length lists.old.items }
    requires other { 2 ≤ length stored_clause.now → slot_of (literal_at stored_clause.now 0) ≢ slot_of (literal_at stored_clause.now 1) }
    ensures ok { OnOk result (IsEntered lists.old.items lists.new.items short.old.items short.new.items index stored_clause.now) }
    ensures lists { OnErr result (lists.new.items ≡ lists.old.items) }
    ensures short { OnErr result (short.new.items ≡ short.old.items) }
{
    if stored_clause.len() < 2 {
        short.push(index)?;
        Ok(())
    } else {
        attach(
            lists,
            index as u32,
            stored_clause[0],
            stored_clause[1],
            stored_clause.len() == 2,
        )
    }
}

/// Puts a clause that watches `a` and `b` into their lists. `is_binary` is whether these are all its literals.
fn attach(
    lists: &mut Vec<WatchList>,
    clause: u32,
    a: PackedLiteral,
    b: PackedLiteral,
    is_binary: bool,
) -> Result<(), AllocError>
    requires first { slot_of a < length lists.old.items }
    requires second { slot_of b < length lists.old.items }
    requires other { slot_of a ≢ slot_of b }
    ensures ok { OnOk result (lists.new.items ≡ added_lists lists.old.items (slot_of a) (slot_of b) clause a b is_binary) }
    ensures err { OnErr result (lists.new.items ≡ lists.old.items) }
{
    let first = Watch {
        clause,
        blocker: b,
        is_binary,
    };
    let second = Watch {
        clause,
        blocker: a,
        is_binary,
    };
    lists[a.slot()].push(first)?;
    match lists[b.slot()].push(second) {
        Ok(()) => Ok(()),
        Err(fail) => {
            lists[a.slot()].pop();
            Err(fail)
        }
    }
}
