//! Runs of settled operations, which a sweep passes over in one step.
ghost use Rattle.std.specs.Prelude.{◌≡◌, ◌⊎◌, ℕ, ◌<◌, ◌^◌, true, length, Some, Contains, IfSome, OnOk};
ghost use Rattle.ir_store.specs.Bodies.{ids_of};
ghost use Rattle.canonicalise.specs.Runs.{IsOf, IsWhole, AreNext, AreLinked, HasRun, IsEnd, IsBefore, Breaks, HasNoRun, Joins};

use ir_store::body::Body;
use ir_store::operation::OpId;
use std::alloc::{AllocError, Global};

/// Operations of a body that stand one after another in text order.
#[derive(Clone, Copy)]
pub(crate) struct Run {
    /// The last of them.
    last: OpId,
    /// How many they were, at most.
    size: u32,
    /// Whether all of them are still settled.
    whole: bool,
}

/// The runs of a body, and which one an operation is of, by its id.
#[derive(Drop)]
pub(crate) struct Runs {
    of: Vec<Option<u32>>,
    runs: Vec<Run>,
    long: u32,
}

impl Runs {
    /// No runs of a body of so many operations. It takes no memory.
    pub(crate) fn new(alloc: Global, ops: usize) -> Runs
        ensures { (r id : ℕ) → IsOf result r id → ⊥ }
    {
        Runs {
            of: Vec::new(alloc),
            runs: Vec::new(alloc),
            long: root(ops),
        }
    }

    /// The last operation of the run of an operation, where the run is whole, and long or after no short one that it can join.
    pub(crate) fn end_of(&self, body: &Body, op: OpId) -> Option<OpId>
        ensures { IfSome result (λ end. IsEnd self.now op.index end) }
    {
        match self.run_of(op) {
            Some(run) => {
                if run.size < self.long || self.is_short_before(body, op) {
                    None
                } else {
                    Some(run.last)
                }
            }
            None => None,
        }
    }

    /// The run of an operation, where that is whole.
    fn run_of(&self, op: OpId) -> Option<Run>
        ensures { IfSome result (HasRun self.now op.index) }
    {
        match self.number_of(op) {
            Some(number) => self.whole_run(number as usize),
            None => None,
        }
    }

    /// The number of the run of an operation.
    fn number_of(&self, op: OpId) -> Option<u32>
        ensures of { IfSome result (λ r. IsOf self.now r op.index) }
        ensures all { (r : ℕ) → IsOf self.now r op.index → result ≡ Some r }
    {
        match self.of.get(op.number() as usize) {
            Some(number) => *number,
            None => None,
        }
    }

    /// The run of a number, where that is whole.
    fn whole_run(&self, number: usize) -> Option<Run>
        ensures { IfSome result (IsWhole self.now number) }
    {
        match self.runs.get(number) {
            Some(run) => { if run.whole { Some(*run) } else { None } }
            None => None,
        }
    }

    /// Whether the last run is short and ends right before an operation.
    fn is_short_before(&self, body: &Body, op: OpId) -> bool {
        match self.run_before(body, op) {
            Some(run) => run.size < self.long,
            None => false,
        }
    }

    /// The last run, where it is whole and ends right before an operation.
    fn run_before(&self, body: &Body, op: OpId) -> Option<Run>
        ensures { IfSome result (λ run. (number : ℕ) × IsBefore self.now (ids_of body.now) op.index number run) }
    {
        let count = self.runs.len();
        if count == 0 {
            return None;
        }
        match self.whole_run(count - 1) {
            Some(run) => {
                if is_next(body, run.last, op) {
                    Some(run)
                } else {
                    None
                }
            }
            None => None,
        }
    }

    /// Breaks the run of an operation.
    pub(crate) fn break_at(&mut self, op: OpId)
        ensures breaks { Breaks self.old self.new }
        ensures none { HasNoRun self.new op.index }
    {
        if let Some(number) = self.number_of(op) {
            self.break_run(number as usize);
        }
    }

    /// Breaks the run of a number.
    fn break_run(&mut self, number: usize)
        ensures breaks { Breaks self.old self.new }
        ensures broken { (run : Run) → IsWhole self.new number run → ⊥ }
    {
        if number < self.runs.len() {
            self.runs[number].whole = false;
        }
    }

    /// Has an operation join the last run, where that ends right before it, and else a new one; where there are 2^32 - 1 runs,
    /// it is of none. In constant time on average.
    pub(crate) fn join(&mut self, body: &Body, op: OpId) -> Result<(), AllocError>
        requires { AreLinked self.old (ids_of body.now) }
        ensures linked { OnOk result (AreLinked self.new (ids_of body.now)) }
        ensures joins { OnOk result (Joins op.index self.old self.new) }
    {
        let most = self.most(op);
        self.break_at(op);
        if self.runs.len() >= u32::MAX as usize {
            return Ok(());
        }
        match self.run_before(body, op) {
            Some(run) if run.size < most => self.extend(body, op, run),
            _ => self.open(body, op),
        }
    }

    /// How long a run may become by an operation: so long that no short part is left of the run that it comes from.
    fn most(&self, op: OpId) -> u32 {
        let double = self.long.saturating_mul(2);
        match self.number_of(op) {
            Some(number) => match self.runs.get(number as usize) {
                Some(run) => {
                    if run.size > double.saturating_add(self.long) {
                        double
                    } else {
                        double.saturating_mul(2)
                    }
                }
                None => double,
            },
            None => double,
        }
    }

    /// Puts an operation of no run at the end of the last run, which ends right before it.
    fn extend(&mut self, body: &Body, op: OpId, run: Run) -> Result<(), AllocError>
        requires room { length self.old.runs.items < 2 ^ 32 }
        requires linked { AreLinked self.old (ids_of body.now) }
        requires none { HasNoRun self.old op.index }
        requires before { (number : ℕ) × IsBefore self.old (ids_of body.now) op.index number run }
        ensures linked { OnOk result (AreLinked self.new (ids_of body.now)) }
        ensures joins { OnOk result (Joins op.index self.old self.new) }
    {
        let number = self.runs.len() - 1;
        self.put(op, number as u32)?;
        self.runs[number] = Run {
            last: op,
            size: run.size.saturating_add(1),
            whole: true,
        };
        Ok(())
    }

    /// Begins a new run with an operation of no run.
    fn open(&mut self, body: &Body, op: OpId) -> Result<(), AllocError>
        requires room { length self.old.runs.items < 2 ^ 32 }
        requires linked { AreLinked self.old (ids_of body.now) }
        requires none { HasNoRun self.old op.index }
        ensures linked { OnOk result (AreLinked self.new (ids_of body.now)) }
        ensures joins { OnOk result (Joins op.index self.old self.new) }
    {
        let number = self.runs.len();
        self.runs.push(Run {
            last: op,
            size: 1,
            whole: true,
        })?;
        self.put(op, number as u32)?;
        Ok(())
    }

    /// Makes an operation one of the run of a number.
    fn put(&mut self, op: OpId, run: u32) -> Result<(), AllocError>
        ensures runs { self.new.runs.items ≡ self.old.runs.items }
        ensures of { OnOk result (IsOf self.new run op.index) }
        ensures others { OnOk result ((r id : ℕ) → (id ≡ op.index → ⊥) → IsOf self.old r id → IsOf self.new r id) }
        ensures only { OnOk result ((r id : ℕ) → IsOf self.new r id → ((id ≡ op.index) × (r ≡ run)) ⊎ IsOf self.old r id) }
    {
        let position = op.number() as usize;
        while self.of.len() <= position {
            self.of.push(None)?;
        }
        self.of[position] = Some(run);
        Ok(())
    }
}

/// Whether an operation is the next one after another one, where the body has that.
fn is_next(body: &Body, op: OpId, next: OpId) -> bool
    ensures { result ≡ true → AreNext (ids_of body.now) op.index next.index }
{
    if !body.contains(op) {
        return false;
    }
    match body.next_op(op) {
        Some(other) => other == next,
        None => false,
    }
}

/// A power of two near the root of a number.
fn root(number: usize) -> u32 {
    for half in 0..16u32 {
        if number >> (2 * half) <= 1 {
            return 1 << half;
        }
    }
    1 << 16
}
