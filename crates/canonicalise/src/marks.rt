//! The worklist of a body: the operations at which patterns are to be tried.
ghost use Rattle.std.specs.Prelude.{◌≡◌, ◌⊎◌, ◌↔◌, ℕ, Some, IsTrue, Contains, OnOk, slice_get};
ghost use Rattle.ir_store.specs.Bodies.{ids_of, ops_of};
ghost use Rattle.ir_store.specs.declared.operation.OpId.{OpId};
ghost use Rattle.ir_store.specs.declared.operation.Value.TheVariants.{Result};
ghost use Rattle.canonicalise.specs.Runs.{IsOf, AreLinked, IsEnd, Breaks};
ghost use Rattle.canonicalise.specs.Settled.{IsSettled, IsUser, IsApart, AreQuiet, Loses};

use crate::runs::Runs;
use ir_store::body::Body;
use ir_store::operation::{OpId, Value};
use std::alloc::{AllocError, Global};

/// Which operations of a body are settled, by their ids: no pattern need be tried at them. At all others patterns are to be tried.
/// Settled ones that stand one after another are runs.
#[derive(Drop)]
pub(crate) struct Marks {
    settled: Vec<bool>,
    runs: Runs,
}

impl Marks {
    /// Patterns are to be tried at all operations of a body, of which there are so many. It takes no memory.
    pub(crate) fn new(alloc: Global, ops: usize) -> Marks
        ensures none { (id : ℕ) → IsSettled result id → ⊥ }
        ensures runs { (r id : ℕ) → IsOf result.runs r id → ⊥ }
    {
        Marks {
            settled: Vec::new(alloc),
            runs: Runs::new(alloc, ops),
        }
    }

    /// Whether an operation is settled.
    pub(crate) fn is_settled(&self, op: OpId) -> bool
        ensures { IsTrue result ↔ IsSettled self.now op.index }
    {
        match self.settled.get(op.number() as usize) {
            Some(settled) => *settled,
            None => false,
        }
    }

    /// The operation up to which a sweep may pass over settled ones from one on: the last of its run, or that one.
    pub(crate) fn end_of(&self, body: &Body, op: OpId) -> OpId
        ensures { (result ≡ op) ⊎ IsEnd self.now.runs op.index result }
    {
        match self.runs.end_of(body, op) {
            Some(end) => end,
            None => op,
        }
    }

    /// Has a settled operation join the run before it, unless it is of a run that stays. In constant time on average.
    pub(crate) fn join(&mut self, body: &Body, op: OpId) -> Result<(), AllocError>
        requires settled { IsSettled self.old op.index }
        requires quiet { AreQuiet self.old }
        requires linked { AreLinked self.old.runs (ids_of body.now) }
        ensures settled { self.new.settled.items ≡ self.old.settled.items }
        ensures quiet { OnOk result (AreQuiet self.new) }
        ensures linked { OnOk result (AreLinked self.new.runs (ids_of body.now)) }
    {
        if self.runs.end_of(body, op).is_some() {
            return Ok(());
        }
        self.runs.join(body, op)
    }

    /// Settles an operation. In constant time on average.
    pub(crate) fn settle(&mut self, op: OpId) -> Result<(), AllocError>
        ensures settled { OnOk result ((id : ℕ) → IsSettled self.new id → (id ≡ op.index) ⊎ IsSettled self.old id) }
        ensures there { OnOk result (IsSettled self.new op.index) }
        ensures stay { OnOk result ((id : ℕ) → IsSettled self.old id → IsSettled self.new id) }
        ensures runs { OnOk result (self.new.runs ≡ self.old.runs) }
    {
        let position = op.number() as usize;
        while self.settled.len() <= position {
            self.settled.push(false)?;
        }
        self.settled[position] = true;
        Ok(())
    }

    /// Patterns are to be tried at an operation.
    pub(crate) fn mark(&mut self, op: OpId)
        ensures marked { (id : ℕ) → IsSettled self.new id → IsSettled self.old id × (id ≡ op.index → ⊥) }
        ensures loses { Loses self.old self.new }
    {
        self.runs.break_at(op);
        self.unsettle(op);
    }

    /// An operation is not settled.
    fn unsettle(&mut self, op: OpId)
        ensures marked { (id : ℕ) → IsSettled self.new id → IsSettled self.old id × (id ≡ op.index → ⊥) }
        ensures others { (id : ℕ) → (id ≡ op.index → ⊥) → IsSettled self.old id → IsSettled self.new id }
        ensures runs { self.new.runs ≡ self.old.runs }
    {
        let position = op.number() as usize;
        if position < self.settled.len() {
            self.settled[position] = false;
        }
    }

    /// Patterns are to be tried at the operations that use a value. Linear in the chain of the value's head.
    pub(crate) fn mark_users(&mut self, body: &Body, value: Value)
        ensures marked { (id : ℕ) → IsSettled self.new id → IsSettled self.old id × (IsUser value (ops_of body.now) id → ⊥) }
        ensures loses { Loses self.old self.new }
    {
        for position in body.uses(value) {
            self.mark(position.op);
        }
    }

    /// Patterns are to be tried where an edit took uses of values: at the operations that made them, where they are gone or
    /// have no use left, and at those that have the only use left. Linear in the values.
    pub(crate) fn mark_makers(&mut self, body: &Body, values: &[Value])
        ensures marked { (id : ℕ) → IsSettled self.new id → IsSettled self.old id × ((k : ℕ) (op : OpId) (n : ℕ) → slice_get values.now k ≡ Some (Result op n) → IsApart body.now op id) }
        ensures loses { Loses self.old self.new }
    {
        for value in values {
            self.mark_value(body, *value);
        }
    }

    /// The same of one value.
    #[tactic(auto, using(crate::proofs::Losing::loses_self))]
    fn mark_value(&mut self, body: &Body, value: Value)
        ensures marked { (id : ℕ) → IsSettled self.new id → IsSettled self.old id × ((op : OpId) (n : ℕ) → value ≡ Result op n → IsApart body.now op id) }
        ensures loses { Loses self.old self.new }
    {
        if let Value::Result(op, _) = value {
            self.mark_maker(body, op);
        }
    }

    /// Patterns are to be tried at an operation, where it is gone or its first result has no use, or else at the one that has the
    /// only use.
    fn mark_maker(&mut self, body: &Body, op: OpId)
        ensures marked { (id : ℕ) → IsSettled self.new id → IsSettled self.old id × IsApart body.now op id }
        ensures loses { Loses self.old self.new }
    {
        if body.contains(op) {
            self.mark_used(body, op);
        } else {
            self.mark(op);
        }
    }

    /// The same of an operation that is there.
    fn mark_used(&mut self, body: &Body, op: OpId)
        requires { Contains (ids_of body.now) op.index }
        ensures marked { (id : ℕ) → IsSettled self.new id → IsSettled self.old id × IsApart body.now op id }
        ensures loses { Loses self.old self.new }
    {
        let mut uses = body.uses(Value::Result(op, 0));
        match uses.next() {
            Some(position) => {
                if uses.next().is_none() {
                    self.mark(position.op);
                }
            }
            None => self.mark(op),
        }
    }
}
