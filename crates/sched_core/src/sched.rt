//! The scheduler: its tables, and how each event changes them.

ghost use Rattle.std.specs.Prelude.{◌≡◌, ◌≢◌, ◌↔◌, [], IsTrue, Some, None, map, slice_get, slice_index_or, IfOk};
ghost use Rattle.sched_core.specs.declared.event.Event.TheVariants.{Claim, Take, TakeEdge, PutDone, PutEdge, Report, Split, Join};
ghost use Rattle.sched_core.specs.State.{IsEdge, callee, leaves, first};
ghost use Rattle.sched_core.specs.Runs.{AreCallees};
ghost use Rattle.sched_core.specs.Events.{May, step};
ghost use Rattle.sched_core.specs.Table.{state_of, heir_after};

use crate::event::Event;
use crate::making;
use crate::parts::{Edge, Fill, Stage, Worker};
use std::alloc::{AllocError, Global};
use std::marker::Model;

/// A scheduler: who owes, has taken or has done each module, what stands on each edge, and who is there. Contracts see
/// its tables, and by `state_of` the state that they tell.
#[derive(Drop)]
pub struct Sched {
    callees: Vec<Vec<u32>>,
    leaves: Vec<u32>,
    uses: Vec<u64>,
    stages: Vec<Stage>,
    pub(crate) edges: Vec<Vec<Edge>>,
    pending_edges: Vec<usize>,
    pub(crate) leaf: u64,
    pub(crate) splits: u32,
    workers: Vec<Worker>,
    heirs: Vec<u32>,
    pub(crate) busy: Vec<u32>,
    pub(crate) untold: Vec<u64>,
}

impl Model for Sched {
    ghost use Rattle.sched_core.specs.Table.{Table, IsKept};

    ghost Value = { Table };

    ghost use Rattle.sched_core.specs.Views.{table_of};

    ghost view = { table_of };

    ghost invariant = { λ s. IsKept (table_of s) };
}

// the heir after a worker has gone and another has kept what it did
fn heir_after(heir: u32, kept: u32, gone: u32) -> u32
    ensures { result ≡ heir_after kept gone heir }
{
    if heir == gone { kept } else { heir }
}

// the one worker is the heir wherever the other was
fn pass_on(heirs: &mut [u32], kept: u32, gone: u32)
    ensures { heirs.new ≡ map (heir_after kept gone) heirs.old }
{
    for i in 0..heirs.len() {
        heirs[i] = heir_after(heirs[i], kept, gone);
    }
}

impl Sched {
    /// A scheduler of modules with these callees: all modules wait, all edges are empty, and the first worker is there.
    /// The room for 64 workers is made here.
    pub fn new(alloc: Global, callees: &[Vec<u32>]) -> Result<Sched, AllocError>
        requires { AreCallees (map (λ row. row.items) callees.now) }
        ensures { IfOk result (λ s. state_of s ≡ first (map (λ row. row.items) callees.now)) }
    {
        Ok(Sched {
            callees: making::clone_callees(alloc, callees)?,
            leaves: making::leaf_modules(alloc, callees)?,
            uses: making::uses(alloc, callees)?,
            stages: making::waiting_stages(alloc, callees.len())?,
            edges: making::new_edges(alloc, callees)?,
            pending_edges: making::lengths(alloc, callees)?,
            leaf: 0,
            splits: 0,
            workers: making::first_worker(alloc)?,
            heirs: making::worker_numbers(alloc)?,
            busy: making::no_modules(alloc)?,
            untold: making::no_edges(alloc)?,
        })
    }

    // where the module stands; a module that there is not waits
    pub(crate) fn stage(&self, m: u32) -> Stage
        ensures { result ≡ (state_of self.now).stage m }
    {
        match self
            .stages
            .get(m as usize)
            .copied()
            .unwrap_or(Stage::Waiting)
        {
            Stage::Waiting => Stage::Waiting,
            Stage::Owed(w) => Stage::Owed(w),
            Stage::Taken(w) => Stage::Taken(w),
            Stage::Done(w) => Stage::Done(self.heirs.get(w as usize).copied().unwrap_or(64)),
        }
    }

    // the edge; one that there is not is as a new one
    pub(crate) fn edge(&self, c: u32, i: u32) -> Edge
        ensures { result ≡ (state_of self.now).edge c i }
    {
        let none = Edge {
            fill: Fill::Empty,
            reported: false,
        };
        match self.edges.get(c as usize) {
            Some(row) => row.get(i as usize).copied().unwrap_or(none),
            None => none,
        }
    }

    // the edges of a caller
    pub(crate) fn row(&self, c: u32) -> &[Edge]
        ensures { result.now ≡ slice_index_or self.now.edges c [] }
    {
        match self.edges.get(c as usize) {
            Some(row) => row.as_slice(),
            None => &[],
        }
    }

    pub(crate) fn has_edge(&self, c: u32, i: u32) -> bool
        ensures { IsTrue result ↔ IsEdge self.now.callees c i }
    {
        match self.callees.get(c as usize) {
            Some(row) => (i as usize) < row.len(),
            None => false,
        }
    }

    pub(crate) fn callee(&self, c: u32, i: u32) -> u32
        requires { IsEdge self.now.callees c i }
        ensures { result ≡ callee self.now.callees c i }
    {
        self.callees[c as usize][i as usize]
    }

    pub(crate) fn worker(&self, w: u32) -> Worker
        ensures { result ≡ (state_of self.now).worker w }
    {
        let none = Worker {
            passed: false,
            gone: true,
        };
        self.workers.get(w as usize).copied().unwrap_or(none)
    }

    // the leaf m, whose turn it is, is owed to the worker
    fn draw(&mut self, w: u32, m: u32)
        requires may { May (state_of self.old) (Claim w) }
        requires turn { slice_get (leaves self.old.callees) self.old.leaf ≡ Some m }
        ensures { state_of self.new ≡ step (state_of self.old) (Claim w) }
    {
        self.stages[m as usize] = Stage::Owed(w);
        self.busy[w as usize] += 1;
        self.leaf += 1;
    }

    // the worker draws past the leaves
    fn pass(&mut self, w: u32)
        requires may { May (state_of self.old) (Claim w) }
        requires past { slice_get (leaves self.old.callees) self.old.leaf ≡ None }
        ensures { state_of self.new ≡ step (state_of self.old) (Claim w) }
    {
        let worker = self.worker(w);
        self.workers[w as usize] = Worker {
            passed: true,
            gone: worker.gone,
        };
        self.leaf += 1;
    }

    fn next_leaf(&self) -> Option<u32>
        ensures { result ≡ slice_get (leaves self.now.callees) self.now.leaf }
    {
        self.leaves.get(self.leaf as usize).copied()
    }

    fn claim(&mut self, w: u32)
        requires { May (state_of self.old) (Claim w) }
        ensures { state_of self.new ≡ step (state_of self.old) (Claim w) }
    {
        match self.next_leaf() {
            Some(m) => self.draw(w, m),
            None => self.pass(w),
        }
    }

    fn take(&mut self, w: u32, m: u32)
        requires { May (state_of self.old) (Take w m) }
        ensures { state_of self.new ≡ step (state_of self.old) (Take w m) }
    {
        self.stages[m as usize] = Stage::Taken(w);
    }

    // the worker takes the copy on an edge; `w` is named by the clauses alone, since the edge keeps no worker
    fn take_edge(&mut self, w: u32, c: u32, i: u32)
        requires { May (state_of self.old) (TakeEdge w c i) }
        ensures { state_of self.new ≡ step (state_of self.old) (TakeEdge w c i) }
    {
        let edge = self.edge(c, i);
        self.edges[c as usize][i as usize] = Edge {
            fill: Fill::Emptied,
            reported: edge.reported,
        };
    }

    fn put_done(&mut self, w: u32, m: u32)
        requires { May (state_of self.old) (PutDone w m) }
        ensures { state_of self.new ≡ step (state_of self.old) (PutDone w m) }
    {
        self.stages[m as usize] = Stage::Done(w);
        self.busy[w as usize] -= 1;
        self.untold[w as usize] += self.uses[m as usize];
    }

    // the worker puts a copy on an edge; `w` is named by the clauses alone, since the edge keeps no worker
    fn put_edge(&mut self, w: u32, c: u32, i: u32)
        requires { May (state_of self.old) (PutEdge w c i) }
        ensures { state_of self.new ≡ step (state_of self.old) (PutEdge w c i) }
    {
        let edge = self.edge(c, i);
        self.edges[c as usize][i as usize] = Edge {
            fill: Fill::Full,
            reported: edge.reported,
        };
    }

    // a report after which the caller has pending edges
    fn report_more(&mut self, w: u32, c: u32, i: u32)
        requires may { May (state_of self.old) (Report w c i) }
        requires more { (state_of self.old).pending_edges c ≢ 1 }
        ensures { state_of self.new ≡ step (state_of self.old) (Report w c i) }
    {
        let edge = self.edge(c, i);
        self.edges[c as usize][i as usize] = Edge {
            fill: edge.fill,
            reported: true,
        };
        self.pending_edges[c as usize] -= 1;
        self.untold[w as usize] -= 1;
    }

    // the last report of the caller's edges
    fn report_last(&mut self, w: u32, c: u32, i: u32)
        requires may { May (state_of self.old) (Report w c i) }
        requires last { (state_of self.old).pending_edges c ≡ 1 }
        ensures { state_of self.new ≡ step (state_of self.old) (Report w c i) }
    {
        let edge = self.edge(c, i);
        self.edges[c as usize][i as usize] = Edge {
            fill: edge.fill,
            reported: true,
        };
        self.pending_edges[c as usize] -= 1;
        self.untold[w as usize] -= 1;
        self.stages[c as usize] = Stage::Owed(w);
        self.busy[w as usize] += 1;
    }

    // how many edges of the caller are not reported
    fn pending_edges(&self, c: u32) -> usize
        ensures { result ≡ (state_of self.now).pending_edges c }
    {
        self.pending_edges.get(c as usize).copied().unwrap_or(0)
    }

    fn report(&mut self, w: u32, c: u32, i: u32)
        requires { May (state_of self.old) (Report w c i) }
        ensures { state_of self.new ≡ step (state_of self.old) (Report w c i) }
    {
        if self.pending_edges(c) == 1 {
            self.report_last(w, c, i);
        } else {
            self.report_more(w, c, i);
        }
    }

    fn split(&mut self)
        requires { May (state_of self.old) Split }
        ensures { state_of self.new ≡ step (state_of self.old) Split }
    {
        self.splits += 1;
        self.workers[self.splits as usize] = Worker {
            passed: false,
            gone: false,
        };
    }

    fn join(&mut self, kept: u32, gone: u32)
        requires { May (state_of self.old) (Join kept gone) }
        ensures { state_of self.new ≡ step (state_of self.old) (Join kept gone) }
    {
        let worker = self.worker(gone);
        self.workers[gone as usize] = Worker {
            passed: worker.passed,
            gone: true,
        };
        pass_on(&mut self.heirs, kept, gone);
    }

    /// Lets the event come.
    pub fn step(&mut self, event: Event)
        requires { May (state_of self.old) event }
        ensures { state_of self.new ≡ step (state_of self.old) event }
    {
        match event {
            Event::Claim { w } => self.claim(w),
            Event::Take { w, m } => self.take(w, m),
            Event::TakeEdge { w, c, i } => self.take_edge(w, c, i),
            Event::PutDone { w, m } => self.put_done(w, m),
            Event::PutEdge { w, c, i } => self.put_edge(w, c, i),
            Event::Report { w, c, i } => self.report(w, c, i),
            Event::Split => self.split(),
            Event::Join { kept, gone } => self.join(kept, gone),
        }
    }
}
