//! Runs of events by hand: which event is the first that may not come.

ghost use Rattle.std.specs.Prelude.{[], true};

use sched_core::Event::{self, Claim, Join, PutDone, PutEdge, Report, Split, Take, TakeEdge};
use sched_core::Sched;
use std::alloc::{AllocError, Global};
use std::test::Fail;

/// The modules of a run.
#[derive(Clone, Copy)]
enum Modules {
    /// Two leaves, 0 and 1, and their caller, 2.
    TwoLeaves,
    /// A leaf, 0, and a caller that has it twice, 1.
    OneCalleeTwice,
}

/// Events that come one after another.
struct Part {
    events: &'static [Event],
    /// The position of the first that may not come, where there is one; it and those after it do not come.
    refused: Option<usize>,
    /// What may come then.
    may: &'static [Event],
    /// What may not.
    may_not: &'static [Event],
}

/// A run in parts.
struct Run {
    name: &'static str,
    modules: Modules,
    parts: &'static [Part],
}

const RUNS: [Run; 7] = [
    Run {
        name: "each worker draws a leaf, and the second reports last",
        modules: Modules::TwoLeaves,
        parts: &[
            Part {
                events: &[
                    Split,
                    Claim { w: 0 },
                    Claim { w: 1 },
                    Take { w: 0, m: 0 },
                    Take { w: 1, m: 1 },
                    PutDone { w: 0, m: 0 },
                    PutDone { w: 1, m: 1 },
                    PutEdge { w: 0, c: 2, i: 0 },
                    Report { w: 0, c: 2, i: 0 },
                    PutEdge { w: 1, c: 2, i: 1 },
                    Report { w: 1, c: 2, i: 1 },
                ],
                refused: None,
                may: &[],
                // the caller is owed to the second worker alone, and its edges are to be emptied
                may_not: &[Take { w: 0, m: 2 }, PutDone { w: 1, m: 2 }],
            },
            Part {
                events: &[
                    Take { w: 1, m: 2 },
                    TakeEdge { w: 1, c: 2, i: 1 },
                    TakeEdge { w: 1, c: 2, i: 0 },
                    PutDone { w: 1, m: 2 },
                    Claim { w: 0 },
                    Claim { w: 1 },
                    Join { kept: 0, gone: 1 },
                ],
                refused: None,
                may: &[],
                // the first worker has drawn past the leaves, and the second is gone
                may_not: &[Claim { w: 0 }, Claim { w: 1 }],
            },
        ],
    },
    Run {
        name: "each worker draws a leaf, and the first reports last",
        modules: Modules::TwoLeaves,
        parts: &[Part {
            events: &[
                Split,
                Claim { w: 1 },
                Claim { w: 0 },
                Take { w: 1, m: 0 },
                PutDone { w: 1, m: 0 },
                PutEdge { w: 1, c: 2, i: 0 },
                Report { w: 1, c: 2, i: 0 },
                Claim { w: 1 },
                Take { w: 0, m: 1 },
                PutDone { w: 0, m: 1 },
                PutEdge { w: 0, c: 2, i: 1 },
                Report { w: 0, c: 2, i: 1 },
                Take { w: 0, m: 2 },
                TakeEdge { w: 0, c: 2, i: 0 },
                Join { kept: 0, gone: 1 },
                TakeEdge { w: 0, c: 2, i: 1 },
                PutDone { w: 0, m: 2 },
                Take { w: 0, m: 2 },
            ],
            refused: Some(17),
            may: &[],
            may_not: &[],
        }],
    },
    Run {
        name: "one worker draws both leaves, and the other joins what it did",
        modules: Modules::TwoLeaves,
        parts: &[
            Part {
                events: &[
                    Split,
                    Claim { w: 1 },
                    Claim { w: 1 },
                    Claim { w: 0 },
                    Take { w: 1, m: 1 },
                    Take { w: 1, m: 0 },
                    PutDone { w: 1, m: 0 },
                    PutDone { w: 1, m: 1 },
                    PutEdge { w: 1, c: 2, i: 1 },
                    PutEdge { w: 1, c: 2, i: 0 },
                    Report { w: 1, c: 2, i: 1 },
                    // its other edge is not reported
                    Join { kept: 0, gone: 1 },
                ],
                refused: Some(11),
                may: &[],
                // it may report no edge twice, and the first worker did nothing
                may_not: &[Report { w: 1, c: 2, i: 1 }, Report { w: 0, c: 2, i: 0 }],
            },
            // after the last report the caller is owed to it
            Part {
                events: &[Report { w: 1, c: 2, i: 0 }, Join { kept: 0, gone: 1 }],
                refused: Some(1),
                may: &[],
                may_not: &[],
            },
        ],
    },
    Run {
        name: "a caller waits for its callees: two draws give the leaves, the third one nothing, and there is no fourth",
        modules: Modules::TwoLeaves,
        parts: &[
            Part {
                events: &[],
                refused: None,
                may: &[],
                may_not: &[Take { w: 0, m: 2 }, PutEdge { w: 0, c: 2, i: 0 }],
            },
            Part {
                events: &[
                    Claim { w: 0 },
                    Claim { w: 0 },
                    Claim { w: 0 },
                    Claim { w: 0 },
                ],
                refused: Some(3),
                may: &[Take { w: 0, m: 0 }, Take { w: 0, m: 1 }],
                may_not: &[Take { w: 0, m: 2 }],
            },
        ],
    },
    Run {
        name: "there are 63 splits",
        modules: Modules::TwoLeaves,
        parts: &[Part {
            events: &[Split; 64],
            refused: Some(63),
            may: &[Claim { w: 63 }],
            may_not: &[Claim { w: 64 }],
        }],
    },
    Run {
        name: "a worker that owes is not joined, nor one into itself, nor one that has not come; the first owes nothing, may go, and then there is no split",
        modules: Modules::TwoLeaves,
        parts: &[
            Part {
                events: &[Split, Claim { w: 1 }, Join { kept: 0, gone: 1 }],
                refused: Some(2),
                may: &[],
                may_not: &[Join { kept: 0, gone: 0 }, Join { kept: 0, gone: 2 }],
            },
            Part {
                events: &[Join { kept: 1, gone: 0 }, Split],
                refused: Some(1),
                may: &[],
                may_not: &[],
            },
        ],
    },
    Run {
        name: "a callee that stands twice is reported twice, and there is no third edge",
        modules: Modules::OneCalleeTwice,
        parts: &[
            Part {
                events: &[
                    Claim { w: 0 },
                    Take { w: 0, m: 0 },
                    PutDone { w: 0, m: 0 },
                    PutEdge { w: 0, c: 1, i: 0 },
                    Report { w: 0, c: 1, i: 0 },
                    Take { w: 0, m: 1 },
                ],
                refused: Some(5),
                may: &[],
                may_not: &[],
            },
            Part {
                events: &[
                    PutEdge { w: 0, c: 1, i: 1 },
                    Report { w: 0, c: 1, i: 1 },
                    Take { w: 0, m: 1 },
                    TakeEdge { w: 0, c: 1, i: 0 },
                    PutDone { w: 0, m: 1 },
                ],
                refused: Some(4),
                may: &[],
                may_not: &[],
            },
            Part {
                events: &[TakeEdge { w: 0, c: 1, i: 1 }, PutDone { w: 0, m: 1 }],
                refused: None,
                may: &[],
                may_not: &[PutEdge { w: 0, c: 1, i: 2 }],
            },
        ],
    },
];

// The machine over some modules.
fn machine(alloc: Global, modules: Modules) -> Result<Sched, AllocError> {
    match modules {
        Modules::TwoLeaves => {
            let caller = Vec::from_slice(alloc, &[0, 1])?;
            Sched::new(alloc, &[Vec::new(alloc), Vec::new(alloc), caller])
        }
        Modules::OneCalleeTwice => {
            let caller = Vec::from_slice(alloc, &[0, 0])?;
            Sched::new(alloc, &[Vec::new(alloc), caller])
        }
    }
}

// The first event of the list that may not come, by its position. Those before it come.
fn first_refused(sched: &mut Sched, events: &[Event]) -> Option<usize> {
    for i in 0..events.len() {
        let event = events[i];
        if !sched.may(event) {
            return Some(i);
        }
        sched.step(event);
    }
    None
}

// Whether each of these events may come, or none may.
fn all_may(sched: &Sched, events: &[Event], may: bool) -> bool {
    for event in events {
        if sched.may(*event) != may {
            return false;
        }
    }
    true
}

// Whether each part of a run goes as it says.
fn is_well(alloc: Global, run: &Run) -> Result<bool, AllocError> {
    let mut sched = machine(alloc, run.modules)?;
    for part in run.parts {
        let refused = first_refused(&mut sched, part.events);
        let is_so = all_may(&sched, part.may, true) && all_may(&sched, part.may_not, false);
        if refused != part.refused || !is_so {
            return Ok(false);
        }
    }
    Ok(true)
}

// The name of the first run that goes otherwise.
fn first_other(alloc: Global, runs: &[Run]) -> Result<Option<&'static str>, AllocError> {
    for run in runs {
        if !is_well(alloc, run)? {
            return Ok(Some(run.name));
        }
    }
    Ok(None)
}

#[test]
fn events_come_in_their_order(rt: HostRuntime) -> Result<(), Fail> {
    assert_eq!(rt; first_other(rt.alloc(), &RUNS)?, None);
    Ok(())
}
