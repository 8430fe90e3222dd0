//! The tables of a new scheduler.

ghost use Rattle.std.specs.Prelude.{◌≡◌, ℕ, ◌+◌, ◌^◌, ◌<◌, length, map, replicate, slice_index_or, slice_set, IfOk, OnOk, cond, [], ◌∷◌, ◌++◌};
ghost use Rattle.sched_core.specs.declared.parts.Stage.TheVariants.{Waiting};
ghost use Rattle.sched_core.specs.State.{leaves, new_edge, new_worker, no_worker};
ghost use Rattle.sched_core.specs.Counts.{times_in, uses_of};
ghost use Rattle.sched_core.specs.Runs.{AreCallees};

use crate::parts::{Edge, Fill, Stage, Worker};
use std::alloc::{AllocError, Global};

/// The same lists of callees.
pub fn clone_callees(alloc: Global, callees: &[Vec<u32>]) -> Result<Vec<Vec<u32>>, AllocError>
    ensures { IfOk result (λ v. map (λ row. row.items) v.items ≡ map (λ row. row.items) callees.now) }
{
    let mut rows = Vec::new(alloc);
    for row in callees {
        rows.push(Vec::from_slice(alloc, row.as_slice())?)?;
    }
    Ok(rows)
}

/// For each module a new edge for each of its callees.
pub(crate) fn new_edges(alloc: Global, callees: &[Vec<u32>]) -> Result<Vec<Vec<Edge>>, AllocError>
    ensures { IfOk result (λ v. map (λ row. row.items) v.items ≡ map (λ row. replicate (length row.items) new_edge) callees.now) }
{
    let edge = Edge {
        fill: Fill::Empty,
        reported: false,
    };
    let mut rows = Vec::new(alloc);
    for row in callees {
        rows.push(vec![in alloc; edge; row.len()]?)?;
    }
    Ok(rows)
}

/// The number of callees of each module.
pub(crate) fn lengths(alloc: Global, callees: &[Vec<u32>]) -> Result<Vec<usize>, AllocError>
    ensures { IfOk result (λ v. v.items ≡ map (λ row. length row.items) callees.now) }
{
    let mut counts = Vec::new(alloc);
    for row in callees {
        counts.push(row.len())?;
    }
    Ok(counts)
}

/// One more number, where a test passed.
pub fn push_if(numbers: &mut Vec<u32>, number: u32, passes: bool) -> Result<(), AllocError>
    ensures { OnOk result (numbers.new.items ≡ numbers.old.items ++ cond passes (number ∷ []) []) }
{
    if passes {
        numbers.push(number)?;
    }
    Ok(())
}

/// The modules without callees, in order.
pub fn leaf_modules(alloc: Global, callees: &[Vec<u32>]) -> Result<Vec<u32>, AllocError>
    requires { length callees.now < 2 ^ 32 }
    ensures { IfOk result (λ v. v.items ≡ leaves (map (λ row. row.items) callees.now)) }
{
    let mut modules = Vec::new(alloc);
    for m in 0..callees.len() {
        push_if(&mut modules, m as u32, callees[m].is_empty())?;
    }
    Ok(modules)
}

// counts the entries of one list
fn count_row(uses: &mut [u64], row: &[u32])
    requires within { (i : ℕ) → i < length row.now → slice_index_or row.now i 0 < length uses.old }
    requires room { (m : ℕ) → slice_index_or uses.old m 0 + length row.now < 2 ^ 64 }
    ensures { (m : ℕ) → m < length uses.old → slice_index_or uses.new m 0 ≡ slice_index_or uses.old m 0 + times_in row.now m }
{
    for &callee in row {
        uses[callee as usize] += 1;
    }
}

/// How many entries of the lists each module is.
pub(crate) fn uses(alloc: Global, callees: &[Vec<u32>]) -> Result<Vec<u64>, AllocError>
    requires { AreCallees (map (λ row. row.items) callees.now) }
    ensures len { IfOk result (λ v. length v.items ≡ length callees.now) }
    ensures counts { IfOk result (λ v. (m : ℕ) → m < length callees.now → slice_index_or v.items m 0 ≡ uses_of (map (λ row. row.items) callees.now) m) }
{
    let mut uses = vec![in alloc; 0u64; callees.len()]?;
    for row in callees {
        count_row(&mut uses, row.as_slice());
    }
    Ok(uses)
}

/// So many modules that wait.
pub(crate) fn waiting_stages(alloc: Global, modules: usize) -> Result<Vec<Stage>, AllocError>
    ensures { IfOk result (λ v. v.items ≡ replicate modules Waiting) }
{
    let stages = vec![in alloc; Stage::Waiting; modules]?;
    Ok(stages)
}

// no worker yet
fn no_workers(alloc: Global) -> Result<Vec<Worker>, AllocError>
    ensures { IfOk result (λ v. v.items ≡ replicate 64 no_worker) }
{
    let none = Worker {
        passed: false,
        gone: true,
    };
    let workers = vec![in alloc; none; 64]?;
    Ok(workers)
}

/// The first worker, and positions for 63 others.
pub(crate) fn first_worker(alloc: Global) -> Result<Vec<Worker>, AllocError>
    ensures { IfOk result (λ v. v.items ≡ slice_set (replicate 64 no_worker) 0 new_worker) }
{
    let mut workers = no_workers(alloc)?;
    workers[0] = Worker {
        passed: false,
        gone: false,
    };
    Ok(workers)
}

/// No module for each worker.
pub(crate) fn no_modules(alloc: Global) -> Result<Vec<u32>, AllocError>
    ensures { IfOk result (λ v. v.items ≡ replicate 64 0) }
{
    let counts = vec![in alloc; 0u32; 64]?;
    Ok(counts)
}

/// No edge for each worker.
pub(crate) fn no_edges(alloc: Global) -> Result<Vec<u64>, AllocError>
    ensures { IfOk result (λ v. v.items ≡ replicate 64 0) }
{
    let counts = vec![in alloc; 0u64; 64]?;
    Ok(counts)
}

/// The numbers of the 64 workers.
pub(crate) fn worker_numbers(alloc: Global) -> Result<Vec<u32>, AllocError>
    ensures len { IfOk result (λ v. length v.items ≡ 64) }
    ensures numbers { IfOk result (λ v. (w : ℕ) → w < 64 → slice_index_or v.items w 64 ≡ w) }
{
    let mut numbers = Vec::new(alloc);
    for w in 0..64u32 {
        numbers.push(w)?;
    }
    Ok(numbers)
}
