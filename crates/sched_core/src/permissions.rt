//! Which events may come.
ghost use Rattle.std.specs.Prelude.{◌≡◌, ◌↔◌, ℕ, IsTrue};
ghost use Rattle.std.specs.List.{list_all};
ghost use Rattle.sched_core.specs.declared.parts.Stage.TheVariants.{Owed, Taken, Done};
ghost use Rattle.sched_core.specs.declared.parts.Fill.TheVariants.{Emptied};
ghost use Rattle.sched_core.specs.declared.event.Event.TheVariants.{Claim, TakeEdge, PutDone, PutEdge, Report, Split, Join};
ghost use Rattle.sched_core.specs.State.{IsEdge, IsThere, IsFree, HasReported, is_emptied};
ghost use Rattle.sched_core.specs.Events.{May};
ghost use Rattle.sched_core.specs.Sound.{Sound};
ghost use Rattle.sched_core.specs.Table.{state_of};

use crate::event::Event;
use crate::parts::{Edge, Fill, Stage};
use crate::sched::Sched;

// whether each copy was taken
fn all_emptied(row: &[Edge]) -> bool
    ensures { result ≡ list_all (λ e. is_emptied e.fill) row.now }
{
    row.iter().all(|edge| match edge.fill {
        Fill::Emptied => true,
        Fill::Empty | Fill::Full => false,
    })
}

impl Sched {
    fn is_there(&self, w: u32) -> bool
        ensures { IsTrue result ↔ IsThere (state_of self.now) w }
    {
        w <= self.splits && !self.worker(w).gone
    }

    fn is_free(&self, w: u32) -> bool
        requires { IsThere (state_of self.now) w }
        ensures { IsTrue result ↔ IsFree (state_of self.now) w }
    {
        self.busy[w as usize] == 0
    }

    fn has_reported(&self, w: u32) -> bool
        requires { IsThere (state_of self.now) w }
        ensures { IsTrue result ↔ HasReported (state_of self.now) w }
    {
        self.untold[w as usize] == 0
    }

    fn may_claim(&self, w: u32) -> bool
        ensures { IsTrue result ↔ May (state_of self.now) (Claim w) }
    {
        self.is_there(w) && !self.worker(w).passed
    }

    fn is_owed(&self, w: u32, m: u32) -> bool
        ensures { IsTrue result ↔ ((state_of self.now).stage m ≡ Owed w) }
    {
        match self.stage(m) {
            Stage::Owed(v) => v == w,
            Stage::Waiting | Stage::Taken(_) | Stage::Done(_) => false,
        }
    }

    fn is_taken(&self, w: u32, m: u32) -> bool
        ensures { IsTrue result ↔ ((state_of self.now).stage m ≡ Taken w) }
    {
        match self.stage(m) {
            Stage::Taken(v) => v == w,
            Stage::Waiting | Stage::Owed(_) | Stage::Done(_) => false,
        }
    }

    fn is_done(&self, w: u32, m: u32) -> bool
        ensures { IsTrue result ↔ ((state_of self.now).stage m ≡ Done w) }
    {
        match self.stage(m) {
            Stage::Done(v) => v == w,
            Stage::Waiting | Stage::Owed(_) | Stage::Taken(_) => false,
        }
    }

    fn holds(&self, fill: Fill, c: u32, i: u32) -> bool
        ensures { IsTrue result ↔ (((state_of self.now).edge c i).fill ≡ fill) }
    {
        self.edge(c, i).fill == fill
    }

    fn is_emptied(&self, m: u32) -> bool
        ensures { IsTrue result ↔ ((i : ℕ) → IsEdge self.now.callees m i → ((state_of self.now).edge m i).fill ≡ Emptied) }
    {
        let _ = &self.edges;
        all_emptied(self.row(m))
    }

    fn may_take_edge(&self, w: u32, c: u32, i: u32) -> bool
        ensures { IsTrue result ↔ May (state_of self.now) (TakeEdge w c i) }
    {
        self.has_edge(c, i) && (self.is_taken(w, c) && self.holds(Fill::Full, c, i))
    }

    fn may_put_done(&self, w: u32, m: u32) -> bool
        ensures { IsTrue result ↔ May (state_of self.now) (PutDone w m) }
    {
        self.is_taken(w, m) && self.is_emptied(m)
    }

    fn may_put_edge(&self, w: u32, c: u32, i: u32) -> bool
        ensures { IsTrue result ↔ May (state_of self.now) (PutEdge w c i) }
    {
        self.has_edge(c, i) && (self.is_done(w, self.callee(c, i)) && self.holds(Fill::Empty, c, i))
    }

    fn may_report(&self, w: u32, c: u32, i: u32) -> bool
        ensures { IsTrue result ↔ May (state_of self.now) (Report w c i) }
    {
        self.has_edge(c, i)
            && (self.is_done(w, self.callee(c, i))
                && (self.holds(Fill::Full, c, i) && !self.edge(c, i).reported))
    }

    fn may_split(&self) -> bool
        ensures { IsTrue result ↔ May (state_of self.now) Split }
    {
        self.is_there(0) && self.splits < 63
    }

    fn may_join(&self, kept: u32, gone: u32) -> bool
        ensures { IsTrue result ↔ May (state_of self.now) (Join kept gone) }
    {
        kept != gone
            && (self.is_there(kept)
                && (self.is_there(gone) && (self.is_free(gone) && self.has_reported(gone))))
    }

    /// Whether the event may come. The state is sound.
    pub fn may(&self, event: Event) -> bool
        ensures may { IsTrue result ↔ May (state_of self.now) event }
        ensures sound { Sound (state_of self.now) }
    {
        let _ = &self.leaf;
        match event {
            Event::Claim { w } => self.may_claim(w),
            Event::Take { w, m } => self.is_owed(w, m),
            Event::TakeEdge { w, c, i } => self.may_take_edge(w, c, i),
            Event::PutDone { w, m } => self.may_put_done(w, m),
            Event::PutEdge { w, c, i } => self.may_put_edge(w, c, i),
            Event::Report { w, c, i } => self.may_report(w, c, i),
            Event::Split => self.may_split(),
            Event::Join { kept, gone } => self.may_join(kept, gone),
        }
    }
}
