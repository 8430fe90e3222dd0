//! Whole runs, with their workers in threads: each module is worked once, and the results are those of its number.

ghost use Rattle.std.specs.Prelude.{◌≡◌, ◌+◌, ◌<◌, ◌≤◌, IsTrue, IfOk, Some, true, map, length};
ghost use Rattle.shared_schedule.specs.Views.{callees_in};
ghost use Rattle.sched_core.specs.Runs.{AreCallees};
ghost use Rattle.sched_core.proofs.Falling.{all_below};

use shared_schedule::{Gate, Pieces, Plan, Work, run_modules};
use std::alloc::{AllocError, Global};
use std::sync::atomic::{AtomicU64, Ordering};
use std::test::Fail;
use std::thread::Threads;

/// Bodies that are 7 at first, and finished with the module's number added. Finished bodies go to the callers.
#[derive(Drop)]
struct Sevens;

impl Pieces for Sevens {
    ghost use Rattle.std.specs.Prelude.{Some, ⊤};

    type Body = u64;

    ghost lists = { λ _ _. ⊤ };

    ghost first = { λ _ m b. b ≡ 7 };

    ghost made = { λ _ m b. b ≡ 7 + m };

    ghost finished = { λ _ m b. b ≡ 7 + m };

    ghost copied = { λ _ m o. o ≡ Some (7 + m) };
}

/// Adds a module's number, and counts the modules, and those to which other bodies came than the finished ones of their
/// callees.
#[derive(Drop)]
struct Count {
    modules: AtomicU64,
    wrong: AtomicU64,
}

/// Counts the modules that it is told of.
#[derive(Clone, Copy)]
struct Told<'t> {
    modules: &'t AtomicU64,
}

impl Gate for Told<'_> {
    ghost use Rattle.std.specs.Prelude.{None};

    ghost told = { λ _. None };

    fn enter(&mut self, _number: u32) {
        self.modules.fetch_add(1, Ordering::SeqCst);
    }

    fn another(&mut self) -> Self {
        *self
    }

    fn gather(&mut self, _other: Self) {}
}

// whether the finished bodies of these modules have come
fn have_come(callees: &[u32], received: &[Option<u64>]) -> bool {
    if received.len() != callees.len() {
        return false;
    }
    for (callee, copy) in callees.iter().zip(received) {
        if *copy != Some(7 + u64::from(*callee)) {
            return false;
        }
    }
    true
}

impl Work<Sevens> for Count {
    fn work<G: Gate>(
        &self,
        _alloc: Global,
        plan: &Plan<Sevens>,
        m: u32,
        body: u64,
        received: Vec<Option<u64>>,
        _gate: &G,
    ) -> Result<u64, AllocError>
        requires within { m < length (callees_in plan.now) }
        requires first { body ≡ 7 }
        ensures { IfOk result (λ b. b ≡ 7 + m) }
    {
        self.modules.fetch_add(1, Ordering::SeqCst);
        if !have_come(plan.callees[m as usize].as_slice(), received.as_slice()) {
            self.wrong.fetch_add(1, Ordering::SeqCst);
        }
        Ok(body + u64::from(m))
    }

    fn copy(
        &self,
        _alloc: Global,
        _plan: &Plan<Sevens>,
        m: u32,
        body: &u64,
    ) -> Result<Option<u64>, AllocError>
        requires made { body.now ≡ 7 + m }
        ensures { IfOk result (λ o. o ≡ Some (7 + m)) }
    {
        Ok(Some(*body))
    }

    fn keep(
        &self,
        _alloc: Global,
        _plan: &Plan<Sevens>,
        m: u32,
        body: u64,
    ) -> Result<u64, AllocError>
        requires made { body ≡ 7 + m }
        ensures { IfOk result (λ b. b ≡ 7 + m) }
    {
        Ok(body)
    }
}

/// The lists of callees of a run.
#[derive(Clone, Copy)]
enum Shape {
    /// Two modules with one callee, and their caller.
    Diamond,
    /// Each module is the callee of the next one.
    Chain(u32),
    /// So many leaves, and their caller.
    Leaves(u32),
    /// A caller that has one callee so many times.
    Repeated(u32),
}

fn numbers(alloc: Global, end: u32) -> Result<Vec<u32>, AllocError> {
    let mut row = Vec::new(alloc);
    for k in 0..end {
        row.push(k)?;
    }
    Ok(row)
}

fn chain(alloc: Global, modules: u32) -> Result<Vec<Vec<u32>>, AllocError> {
    let mut rows = Vec::new(alloc);
    rows.push(Vec::new(alloc))?;
    for m in 0..modules {
        rows.push(Vec::from_slice(alloc, &[m])?)?;
    }
    Ok(rows)
}

fn leaves(alloc: Global, leaves: u32) -> Result<Vec<Vec<u32>>, AllocError> {
    let mut rows = Vec::new(alloc);
    for _leaf in 0..leaves {
        rows.push(Vec::new(alloc))?;
    }
    rows.push(numbers(alloc, leaves)?)?;
    Ok(rows)
}

fn repeated_callee(alloc: Global, times: u32) -> Result<Vec<Vec<u32>>, AllocError> {
    let mut rows = Vec::new(alloc);
    rows.push(Vec::new(alloc))?;
    let row = vec![in alloc; 0u32; times as usize]?;
    rows.push(row)?;
    Ok(rows)
}

fn diamond(alloc: Global) -> Result<Vec<Vec<u32>>, AllocError> {
    let mut rows = chain(alloc, 1)?;
    rows.push(Vec::from_slice(alloc, &[0])?)?;
    rows.push(Vec::from_slice(alloc, &[1, 2])?)?;
    Ok(rows)
}

fn callees_of(alloc: Global, shape: Shape) -> Result<Vec<Vec<u32>>, AllocError> {
    match shape {
        Shape::Diamond => diamond(alloc),
        Shape::Chain(modules) => chain(alloc, modules),
        Shape::Leaves(count) => leaves(alloc, count),
        Shape::Repeated(times) => repeated_callee(alloc, times),
    }
}

// whether each number is below the bound
fn is_below(row: &[u32], bound: usize) -> bool
    ensures { IsTrue result → all_below bound row.now ≡ true }
{
    for &k in row {
        if k as usize >= bound {
            return false;
        }
    }
    true
}

// whether each module stands after its callees
fn is_ordered(callees: &[Vec<u32>]) -> bool
    ensures { IsTrue result → AreCallees (map (λ row. row.items) callees.now) }
{
    if callees.len() > u32::MAX as usize {
        return false;
    }
    for m in 0..callees.len() {
        if callees[m].len() > u32::MAX as usize || !is_below(callees[m].as_slice(), m) {
            return false;
        }
    }
    true
}

fn is_right(bodies: &[u64]) -> bool {
    let mut wanted = 7u64;
    for body in bodies {
        if *body != wanted {
            return false;
        }
        wanted = wanted.wrapping_add(1);
    }
    true
}

// whether a run works each module once and gives what it is to give
fn goes_well<R: Threads + Sync>(
    rt: &R,
    alloc: Global,
    shape: Shape,
    workers: u32,
) -> Result<bool, AllocError>
    requires { (1 ≤ workers) × (workers ≤ 64) }
{
    let callees = callees_of(alloc, shape)?;
    let modules = callees.len();
    if !is_ordered(callees.as_slice()) {
        return Ok(false);
    }
    let bodies = vec![in alloc; 7u64; modules]?;
    let count = Count {
        modules: AtomicU64::new(0),
        wrong: AtomicU64::new(0),
    };
    let told = AtomicU64::new(0);
    let mut gate = Told { modules: &told };
    let bodies = run_modules(
        rt, alloc, Sevens, callees, bodies, workers, &count, &mut gate,
    )?;
    let worked = count.modules.load(Ordering::SeqCst);
    let wrong = count.wrong.load(Ordering::SeqCst);
    Ok(
        worked == modules as u64
            && told.load(Ordering::SeqCst) == worked
            && wrong == 0
            && (bodies.len() == modules && is_right(bodies.as_slice())),
    )
}

// the same with 1, 2, 8 and 64 workers
fn all_go_well<R: Threads + Sync>(rt: &R, alloc: Global, shape: Shape) -> Result<bool, AllocError> {
    Ok(
        goes_well(rt, alloc, shape, 1)?
            && goes_well(rt, alloc, shape, 2)?
            && goes_well(rt, alloc, shape, 8)?
            && goes_well(rt, alloc, shape, 64)?,
    )
}

#[test]
fn a_diamond_is_worked(rt: HostRuntime) -> Result<(), Fail> {
    assert!(rt; all_go_well(&rt, rt.alloc(), Shape::Diamond)?);
    Ok(())
}

#[test]
fn a_chain_is_worked(rt: HostRuntime) -> Result<(), Fail> {
    assert!(rt; all_go_well(&rt, rt.alloc(), Shape::Chain(1000))?);
    Ok(())
}

#[test]
fn many_leaves_are_worked(rt: HostRuntime) -> Result<(), Fail> {
    assert!(rt; all_go_well(&rt, rt.alloc(), Shape::Leaves(10_000))?);
    Ok(())
}

#[test]
fn a_callee_of_many_instances_is_worked_once(rt: HostRuntime) -> Result<(), Fail> {
    assert!(rt; all_go_well(&rt, rt.alloc(), Shape::Repeated(300))?);
    Ok(())
}
