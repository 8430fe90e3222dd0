//! Passes by several workers.
use crate::runs::{Failing, run_gated};
use circt_top::Gate;
use std::alloc::{AllocError, AllocGlobal};
use std::sync::atomic::{AtomicU64, Ordering};
use std::test::Fail;
use std::thread::Threads;

/// A design of two modules, neither of which instances the other.
const TWO: &str = "hw.module @A(in %a : i8, out c : i8) {
  hw.output %a : i8
}
hw.module @B(in %a : i8, out c : i8) {
  hw.output %a : i8
}
";

/// How often the first worker looks whether another one has come.
const TURNS: u32 = 100_000_000;

/// How many have come to a gate, and whether two have met there.
#[derive(Drop)]
struct Meeting {
    came: AtomicU64,
    met: AtomicU64,
}

/// A gate that holds the first worker until another one has come.
#[derive(Clone, Copy)]
struct MeetingGate<'m> {
    meeting: &'m Meeting,
}

impl Gate for MeetingGate<'_> {
    ghost use Rattle.std.specs.Prelude.{None};

    ghost told = { λ _. None };

    fn enter(&mut self, _number: u32) {
        if self.meeting.came.fetch_add(1, Ordering::SeqCst) == 0 {
            self.meeting.wait();
        }
    }

    fn another(&mut self) -> Self {
        *self
    }

    fn gather(&mut self, _other: Self) {}
}

impl Meeting {
    fn new() -> Meeting {
        Meeting {
            came: AtomicU64::new(0),
            met: AtomicU64::new(0),
        }
    }

    fn wait(&self) {
        for _ in 0..TURNS {
            if self.came.load(Ordering::SeqCst) > 1 {
                self.met.store(1, Ordering::SeqCst);
                return;
            }
        }
    }
}

// Whether two workers were at work at once.
fn two_meet(rt: &(impl Threads + Sync + AllocGlobal), line: &str) -> Result<bool, AllocError> {
    let meeting = Meeting::new();
    let gate = MeetingGate { meeting: &meeting };
    let ended = run_gated(rt, line, TWO, Failing::No, &gate)?;
    Ok(ended.code == 0 && meeting.met.load(Ordering::SeqCst) == 1)
}

#[test]
fn two_workers_are_at_work_at_once(rt: HostRuntime) -> Result<(), Fail> {
    assert!(rt; two_meet(&rt, "opt --cse --workers 2")?);
    assert!(rt; two_meet(&rt, "opt --hw-flatten-modules --workers 2")?);
    Ok(())
}

#[test]
fn one_worker_is_alone(rt: HostRuntime) -> Result<(), Fail> {
    assert!(rt; !two_meet(&rt, "opt --cse --workers 2 --mlir-disable-threading")?);
    Ok(())
}
