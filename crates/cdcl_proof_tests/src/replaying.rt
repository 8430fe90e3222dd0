//! Logs that are changed.
use crate::formulas::{clause, formula};
use resolution_proof::log::{Hint, HintList, Log, Step};
use resolution_proof::replay::replays;
use std::alloc::Global;
use std::process::Abort;
use std::test::Fail;

/// A log of one step over (1 or 2), (1 or not 2): the clause, and the number and pivot of the second hint.
fn one_step(
    alloc: Global,
    rt: &impl Abort,
    numbers: &[i64],
    second: u64,
    pivot: u64,
) -> Result<bool, Fail> {
    let cnf = formula(alloc, rt, 2, &[&[1, 2], &[1, -2]])?;
    let mut hints = Vec::new(alloc);
    hints.push(Hint {
        clause: 1,
        pivot: 0,
    })?;
    hints.push(Hint {
        clause: second,
        pivot,
    })?;
    let mut steps = Vec::new(alloc);
    steps.push(Step {
        clause: clause(alloc, rt, numbers)?,
        hints: HintList::from_vec(hints),
    })?;
    Ok(replays(&cnf, &Log::from_vec(steps)))
}

/// The step of a log over (1 or 2), (1 or not 2), and whether the log replays.
struct Case {
    name: &'static str,
    clause: &'static [i64],
    /// The number and the pivot of the second hint.
    second: u64,
    pivot: u64,
    replays: bool,
}

const CASES: [Case; 8] = [
    Case {
        name: "the log as it is",
        clause: &[1],
        second: 2,
        pivot: 2,
        replays: true,
    },
    Case {
        name: "a literal flipped",
        clause: &[-1],
        second: 2,
        pivot: 2,
        replays: false,
    },
    Case {
        name: "a literal more",
        clause: &[1, 2],
        second: 2,
        pivot: 2,
        replays: false,
    },
    Case {
        name: "a literal less",
        clause: &[],
        second: 2,
        pivot: 2,
        replays: false,
    },
    Case {
        name: "another pivot",
        clause: &[1],
        second: 2,
        pivot: 1,
        replays: false,
    },
    Case {
        name: "the same clause twice",
        clause: &[1],
        second: 1,
        pivot: 2,
        replays: false,
    },
    Case {
        name: "the step itself",
        clause: &[1],
        second: 3,
        pivot: 2,
        replays: false,
    },
    Case {
        name: "no clause",
        clause: &[1],
        second: 0,
        pivot: 2,
        replays: false,
    },
];

/// The name of the first case that does otherwise.
fn first_other(
    alloc: Global,
    rt: &impl Abort,
    cases: &[Case],
) -> Result<Option<&'static str>, Fail> {
    for case in cases {
        if one_step(alloc, rt, case.clause, case.second, case.pivot)? != case.replays {
            return Ok(Some(case.name));
        }
    }
    Ok(None)
}

#[test]
fn a_changed_log_does_not_replay(rt: HostRuntime) -> Result<(), Fail> {
    assert_eq!(rt; first_other(rt.alloc(), &rt, &CASES)?, None);
    Ok(())
}
