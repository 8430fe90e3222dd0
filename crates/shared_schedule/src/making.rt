//! The tables of a new schedule.

ghost use Rattle.std.specs.Prelude.{◌≡◌, ℕ, ◌+◌, ◌^◌, ◌<◌, ◌≤◌, ◌&&◌, ◌==◌, nat_lt, [], ◌∷◌, ◌++◌, length, map, replicate, slice_index, slice_index_or, slice_set, IfOk, OnOk};
ghost use Rattle.sched_core.specs.Sums.{one_if};
ghost use Rattle.sched_core.specs.Runs.{AreCallees};
ghost use Rattle.shared_schedule.specs.declared.slot.Slot.TheVariants.{Stored, Bare};
ghost use Rattle.shared_schedule.specs.Rule.{edge_slot};
ghost use Rattle.shared_schedule.specs.Working.{edge_times, goes_from};

use crate::slot::Slot;
use std::alloc::{AllocError, Global};

/// For each module the slot of its first edge, and at the end the number of slots.
pub(crate) fn first_slots(alloc: Global, callees: &[Vec<u32>]) -> Result<Vec<usize>, AllocError>
    requires { AreCallees (map (λ row. row.items) callees.now) }
    ensures len { IfOk result (λ v. length v.items ≡ length callees.now + 1) }
    ensures firsts { IfOk result (λ v. (c : ℕ) → c ≤ length callees.now → slice_index v.items c ≡ edge_slot (map (λ row. row.items) callees.now) c 0) }
{
    let mut positions = Vec::new(alloc);
    let mut next = callees.len();
    for row in callees {
        positions.push(next)?;
        next += row.len();
    }
    positions.push(next)?;
    Ok(positions)
}

/// The words of a new table: no leaf is drawn, and each module's edges are pending.
pub(crate) fn first_words(alloc: Global, callees: &[Vec<u32>]) -> Result<Vec<u64>, AllocError>
    ensures { IfOk result (λ v. v.items ≡ 0 ∷ map (λ row. length row.items) callees.now) }
{
    let mut words = Vec::new(alloc);
    words.push(0u64)?;
    for row in callees {
        words.push(row.len() as u64)?;
    }
    Ok(words)
}

/// The slots of the modules of a new table.
pub(crate) fn stored_bodies<B: Drop>(
    alloc: Global,
    bodies: Vec<B>,
) -> Result<Vec<Slot<B>>, AllocError>
    ensures { IfOk result (λ v. v.items ≡ map Stored bodies.items) }
{
    let mut slots = Vec::new(alloc);
    for body in bodies {
        slots.push(Slot::Stored(body))?;
    }
    Ok(slots)
}

/// The same, with so many edges on which nothing was put.
pub(crate) fn with_bare<B: Drop>(
    mut slots: Vec<Slot<B>>,
    edges: usize,
) -> Result<Vec<Slot<B>>, AllocError>
    ensures { IfOk result (λ v. v.items ≡ slots.items ++ replicate edges Bare) }
{
    for _edge in 0..edges {
        slots.push(Slot::Bare)?;
    }
    Ok(slots)
}

// so many empty lists
fn no_callers(alloc: Global, modules: usize) -> Result<Vec<Vec<(u32, u32)>>, AllocError>
    ensures { IfOk result (λ v. map (λ row. row.items) v.items ≡ replicate modules []) }
{
    let mut rows = Vec::new(alloc);
    for _module in 0..modules {
        rows.push(Vec::new(alloc))?;
    }
    Ok(rows)
}

// one more edge from a module
fn push_caller(rows: &mut Vec<Vec<(u32, u32)>>, m: u32, c: u32, i: u32) -> Result<(), AllocError>
    requires { m < length rows.old.items }
    ensures { OnOk result (map (λ row. row.items) rows.new.items ≡ slice_set (map (λ row. row.items) rows.old.items) m (slice_index_or (map (λ row. row.items) rows.old.items) m [] ++ (c, i) ∷ [])) }
{
    rows[m as usize].push((c, i))?;
    Ok(())
}

// the edges of one caller
fn push_row(rows: &mut Vec<Vec<(u32, u32)>>, c: u32, row: &[u32]) -> Result<(), AllocError>
    requires within { (i : ℕ) → i < length row.now → slice_index row.now i < length rows.old.items }
    requires few { length row.now < 2 ^ 32 }
    ensures len { OnOk result (length rows.new.items ≡ length rows.old.items) }
    ensures counts { OnOk result ((m a b : ℕ) → edge_times (slice_index_or (map (λ row. row.items) rows.new.items) m []) a b
        ≡ edge_times (slice_index_or (map (λ row. row.items) rows.old.items) m []) a b + one_if ((a == c) && (nat_lt b (length row.now) && (slice_index row.now b == m)))) }
{
    for i in 0..row.len() {
        push_caller(rows, row[i], c, i as u32)?;
    }
    Ok(())
}

/// The edges from each module, as their callers and positions.
pub(crate) fn callers(
    alloc: Global,
    callees: &[Vec<u32>],
) -> Result<Vec<Vec<(u32, u32)>>, AllocError>
    requires { AreCallees (map (λ row. row.items) callees.now) }
    ensures len { IfOk result (λ v. length v.items ≡ length callees.now) }
    ensures counts { IfOk result (λ v. (m a b : ℕ) → m < length callees.now → edge_times (slice_index_or (map (λ row. row.items) v.items) m []) a b ≡ one_if (goes_from (map (λ row. row.items) callees.now) m a b)) }
{
    let mut rows = no_callers(alloc, callees.len())?;
    for c in 0..callees.len() {
        push_row(&mut rows, c as u32, callees[c].as_slice())?;
    }
    Ok(rows)
}

/// How many edges there are.
pub(crate) fn edge_count(first_slots: &[usize], modules: usize) -> usize
    requires within { modules < length first_slots.now }
    requires after { modules ≤ slice_index first_slots.now modules }
    ensures count { modules + result ≡ slice_index first_slots.now modules }
    ensures fits { slice_index first_slots.now modules < 2 ^ 64 }
{
    first_slots[modules] - modules
}
