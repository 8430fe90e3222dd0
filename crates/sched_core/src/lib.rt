//! The scheduler's core: a pure machine of events. Workers draw leaf modules, take bodies, hand copies to the callers'
//! edges, report, and join. Over every list of events that may come, in any order of the workers, no module is worked
//! twice or before its callees.
//!
//! `specs/` has the definitions: the state, the events with when each may come and what it changes, what a sound state
//! is, and runs of events. [`every_run_is_sound`] states the theorem on all runs. [`Sched`] is the machine in code. Each
//! call is a few reads and writes of its tables, but that the test of a finished module goes over its edges, and a join
//! over the 64 positions of workers.
#![tactic(auto)]

mod event;
mod laws;
mod making;
mod parts;
mod permissions;
mod sched;

pub use event::Event;
pub use laws::{each_event_keeps_soundness, every_run_is_sound};
pub use making::{clone_callees, leaf_modules, push_if};
pub use parts::{Edge, Fill, Stage, Worker};
pub use sched::Sched;
