//! Runs of numbers.
ghost use Rattle.std.specs.Prelude.{◌≡◌, ◌++◌, ◌≤◌, ◌∷◌, [], min, IfOk, OnOk};
ghost use Rattle.wiring.specs.Lists.{total};
ghost use Rattle.run_lists.specs.Runs.{expanded, AreApart, AreRunsOf, many, Tells};

use std::alloc::{AllocError, Global};

/// One number, so many times.
#[derive(Clone, Copy)]
pub struct Run {
    /// The number.
    pub number: u32,
    /// How many times.
    pub count: u64,
}

/// Numbers in order, as runs. Contracts see them by `AreRunsOf`: none is empty, and none is of the number of the one before.
#[derive(Drop)]
pub struct RunList {
    /// The runs.
    pub runs: Vec<Run>,
}

/// A number alone.
pub fn one_run(alloc: Global, number: u32) -> Result<RunList, AllocError>
    ensures { IfOk result (λ list. AreRunsOf (number ∷ []) list.runs.items) }
{
    let mut runs = Vec::new(alloc);
    runs.push(Run { number, count: 1 })?;
    Ok(RunList { runs })
}

/// Adds a run. More than 2^64 - 1 times one number want more memory than there is.
pub fn push_run(list: &mut RunList, run: Run) -> Result<(), AllocError>
    requires apart { AreApart list.old.runs.items }
    requires some { 1 ≤ run.count }
    ensures numbers { OnOk result (expanded list.new.runs.items ≡ expanded list.old.runs.items ++ expanded (run ∷ [])) }
    ensures apart { OnOk result (AreApart list.new.runs.items) }
{
    match list.runs.pop() {
        None => list.runs.push(run)?,
        Some(last) if last.number == run.number => {
            let Some(count) = last.count.checked_add(run.count) else {
                return Err(AllocError);
            };
            list.runs.push(Run {
                number: last.number,
                count,
            })?;
        }
        Some(last) => {
            list.runs.push(last)?;
            list.runs.push(run)?;
        }
    }
    Ok(())
}

/// Adds the numbers of another list.
pub fn push_list(list: &mut RunList, more: &RunList) -> Result<(), AllocError>
    requires apart { AreApart list.old.runs.items }
    requires more { AreApart more.now.runs.items }
    ensures numbers { OnOk result (expanded list.new.runs.items ≡ expanded list.old.runs.items ++ expanded more.now.runs.items) }
    ensures apart { OnOk result (AreApart list.new.runs.items) }
{
    for run in &more.runs {
        push_run(list, *run)?;
    }
    Ok(())
}

/// A list so many times over.
pub fn copies(alloc: Global, count: u32, one: &RunList) -> Result<RunList, AllocError>
    requires { AreApart one.now.runs.items }
    ensures { IfOk result (λ list. AreRunsOf (many count (expanded one.now.runs.items)) list.runs.items) }
{
    match one.runs.as_slice() {
        [only] if count > 0 => only_copies(alloc, count, *only),
        _ => all_copies(alloc, count, one),
    }
}

// One run so many times over.
fn only_copies(alloc: Global, count: u32, only: Run) -> Result<RunList, AllocError>
    requires some { 1 ≤ count }
    requires run { 1 ≤ only.count }
    ensures { IfOk result (λ list. AreRunsOf (many count (expanded (only ∷ []))) list.runs.items) }
{
    let Some(all) = only.count.checked_mul(u64::from(count)) else {
        return Err(AllocError);
    };
    let mut runs = Vec::new(alloc);
    runs.push(Run {
        number: only.number,
        count: all,
    })?;
    Ok(RunList { runs })
}

// A list so many times over, run by run.
fn all_copies(alloc: Global, count: u32, one: &RunList) -> Result<RunList, AllocError>
    requires { AreApart one.now.runs.items }
    ensures { IfOk result (λ list. AreRunsOf (many count (expanded one.now.runs.items)) list.runs.items) }
{
    let mut list = RunList {
        runs: Vec::new(alloc),
    };
    for _ in 0..count {
        push_list(&mut list, one)?;
    }
    Ok(list)
}

/// Whether two lists have the same numbers.
pub fn same_runs(first: &RunList, second: &RunList) -> bool
    requires first { AreApart first.now.runs.items }
    requires second { AreApart second.now.runs.items }
    ensures { Tells result (expanded first.now.runs.items ≡ expanded second.now.runs.items) }
{
    are_same(first.runs.as_slice(), second.runs.as_slice())
}

// Whether two lists of runs are the same.
fn are_same(first: &[Run], second: &[Run]) -> bool
    ensures { Tells result (first.now ≡ second.now) }
{
    if first.len() != second.len() {
        return false;
    }
    for position in 0..first.len() {
        if !is_same(first[position], second[position]) {
            return false;
        }
    }
    true
}

// Whether two runs are the same.
fn is_same(one: Run, other: Run) -> bool
    ensures { Tells result (one ≡ other) }
{
    one.number == other.number && one.count == other.count
}

/// The sum of the numbers, or `u64::MAX` where it is more.
pub fn total_of(list: &RunList) -> u64
    ensures { result ≡ min (total (expanded list.now.runs.items)) u64.MAX }
{
    let mut sum: u64 = 0;
    for run in &list.runs {
        sum = sum.saturating_add(u64::from(run.number).saturating_mul(run.count));
    }
    sum
}
