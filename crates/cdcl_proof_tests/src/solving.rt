//! The solver's answers.
use crate::formulas::{formula, pigeonhole, progressions, random_formula};
use cdcl_proof::solve::{Answer, solve};
use resolution_proof::assignment::Assignment;
use resolution_proof::cnf::Cnf;
use resolution_proof::log::Log;
use resolution_proof::replay::replays;
use std::alloc::{AllocError, Global};
use std::process::Abort;
use std::test::Fail;

/// What the solver says of a formula.
#[derive(Clone, Copy, Debug, PartialEq, Eq)]
pub(crate) enum Verdict {
    Refuted,
    Satisfied,
    /// The budget is spent.
    Spent,
    /// What comes with the verdict is wrong, or there was no budget.
    Wrong,
}

use Verdict::{Refuted, Satisfied, Spent, Wrong};

/// Whether a log ends with the empty clause.
fn ends_empty(log: &Log) -> bool {
    match log.as_slice().last() {
        Some(step) => step.clause.as_slice().is_empty(),
        None => false,
    }
}

/// The verdict, once what comes with it is tried.
fn verdict_on(alloc: Global, cnf: &Cnf, budget: u64) -> Result<Verdict, AllocError> {
    if budget == 0 {
        return Ok(Wrong);
    }
    let answer = solve(alloc, cnf, budget)?;
    Ok(verdict_of(cnf, budget, answer))
}

/// The verdict of an answer, once what comes with it is tried.
pub(crate) fn verdict_of(cnf: &Cnf, budget: u64, answer: Answer) -> Verdict {
    match answer {
        Answer::Refuted(log) if replays(cnf, &log) && ends_empty(&log) => Refuted,
        Answer::Satisfied(assignment) if cnf.is_satisfied_by(&assignment) => Satisfied,
        Answer::Spent(log) if replays(cnf, &log) && log.as_slice().len() as u64 == budget => Spent,
        Answer::Refuted(_) | Answer::Satisfied(_) | Answer::Spent(_) => Wrong,
    }
}

/// A formula, how much may be learnt, and the verdict.
struct Case {
    name: &'static str,
    variables: u64,
    clauses: &'static [&'static [i64]],
    budget: u64,
    verdict: Verdict,
}

const CASES: [Case; 12] = [
    Case {
        name: "no variables and no clauses",
        variables: 0,
        clauses: &[],
        budget: 1,
        verdict: Satisfied,
    },
    Case {
        name: "the empty clause",
        variables: 0,
        clauses: &[&[]],
        budget: 1,
        verdict: Refuted,
    },
    Case {
        name: "three variables without clauses",
        variables: 3,
        clauses: &[],
        budget: 1,
        verdict: Satisfied,
    },
    Case {
        name: "a literal and its complement",
        variables: 1,
        clauses: &[&[1], &[-1]],
        budget: 1,
        verdict: Refuted,
    },
    Case {
        name: "all four clauses over two variables",
        variables: 2,
        clauses: &[&[1, 2], &[1, -2], &[-1, 2], &[-1, -2]],
        budget: 9,
        verdict: Refuted,
    },
    Case {
        name: "three clauses over two variables",
        variables: 2,
        clauses: &[&[1, 2], &[1, -2], &[-1, 2]],
        budget: 9,
        verdict: Satisfied,
    },
    Case {
        name: "two variables without clauses, with nothing learnt",
        variables: 2,
        clauses: &[],
        budget: 1,
        verdict: Satisfied,
    },
    Case {
        name: "three literals, with nothing learnt",
        variables: 3,
        clauses: &[&[1], &[-2], &[3]],
        budget: 1,
        verdict: Satisfied,
    },
    Case {
        name: "one clause twice, with nothing learnt",
        variables: 2,
        clauses: &[&[1, 2], &[1, 2]],
        budget: 1,
        verdict: Satisfied,
    },
    Case {
        name: "two literals twice, with nothing learnt",
        variables: 1,
        clauses: &[&[1], &[1], &[-1], &[-1]],
        budget: 1,
        verdict: Refuted,
    },
    Case {
        name: "three literals and their complements, with nothing learnt",
        variables: 3,
        clauses: &[&[1], &[2], &[3], &[-1], &[-2], &[-3]],
        budget: 1,
        verdict: Refuted,
    },
    Case {
        name: "a clause and the complements of its literals, with nothing learnt",
        variables: 3,
        clauses: &[&[1, 2, 3], &[-1], &[-2], &[-3]],
        budget: 1,
        verdict: Refuted,
    },
];

/// The name of the first case with another verdict.
fn first_other(
    alloc: Global,
    rt: &impl Abort,
    cases: &[Case],
) -> Result<Option<&'static str>, Fail> {
    for case in cases {
        let cnf = formula(alloc, rt, case.variables, case.clauses)?;
        if verdict_on(alloc, &cnf, case.budget)? != case.verdict {
            return Ok(Some(case.name));
        }
    }
    Ok(None)
}

#[test]
fn small_formulas(rt: HostRuntime) -> Result<(), Fail> {
    assert_eq!(rt; first_other(rt.alloc(), &rt, &CASES)?, None);
    Ok(())
}

/// One empty clause is refuted by a step with it as the one hint.
#[test]
fn the_empty_clause_is_the_one_hint(rt: HostRuntime) -> Result<(), Fail> {
    let cnf = formula(rt.alloc(), &rt, 0, &[&[]])?;
    let Answer::Refuted(log) = solve(rt.alloc(), &cnf, 1)? else {
        panic!(rt; "one empty clause is refuted");
    };
    let [step] = log.as_slice() else {
        panic!(rt; "one step");
    };
    let [hint] = step.hints.as_slice() else {
        panic!(rt; "one hint");
    };
    assert_eq!(rt; (hint.clause, hint.pivot), (1, 0));
    Ok(())
}

/// One pigeon more than there are holes.
struct Pigeons {
    holes: u64,
    budget: u64,
    verdict: Verdict,
}

const PIGEONS: [Pigeons; 5] = [
    Pigeons {
        holes: 3,
        budget: 1,
        verdict: Spent,
    },
    Pigeons {
        holes: 3,
        budget: 1000000,
        verdict: Refuted,
    },
    Pigeons {
        holes: 6,
        budget: 1,
        verdict: Spent,
    },
    Pigeons {
        holes: 6,
        budget: 10,
        verdict: Spent,
    },
    Pigeons {
        holes: 6,
        budget: 1000000,
        verdict: Refuted,
    },
];

#[test]
fn pigeons_have_too_few_holes(rt: HostRuntime) -> Result<(), Fail> {
    for row in &PIGEONS {
        let cnf = pigeonhole(rt.alloc(), &rt, row.holes)?;
        let found = verdict_on(rt.alloc(), &cnf, row.budget)?;
        assert_eq!(rt; found, row.verdict, "{} at {}", row.holes, row.budget);
    }
    Ok(())
}

#[test]
fn progressions_are_avoided_below_46(rt: HostRuntime) -> Result<(), Fail> {
    for (n, wanted) in [(45, Satisfied), (46, Refuted)] {
        let cnf = progressions(rt.alloc(), &rt, n)?;
        assert_eq!(rt; verdict_on(rt.alloc(), &cnf, 1000000)?, wanted, "{n}");
    }
    Ok(())
}

/// The bits of the number as an assignment of twelve variables.
pub(crate) fn bits_of(alloc: Global, number: u64) -> Result<Assignment, AllocError> {
    let mut values = Vec::new(alloc);
    for position in 0..12 {
        values.push(number.wrapping_shr(position) % 2 == 1)?;
    }
    Ok(Assignment::from_vec(values))
}

/// The verdict by trying all assignments.
fn verdict_by_trying(alloc: Global, cnf: &Cnf) -> Result<Verdict, AllocError> {
    for number in 0..4096 {
        if cnf.is_satisfied_by(&bits_of(alloc, number)?) {
            return Ok(Satisfied);
        }
    }
    Ok(Refuted)
}

#[test]
fn random_formulas(rt: HostRuntime) -> Result<(), Fail> {
    for seed in 1..40u64 {
        for clauses in [20, 45, 50, 55, 90] {
            let cnf = random_formula(rt.alloc(), &rt, clauses, seed.wrapping_mul(7919))?;
            let found = verdict_on(rt.alloc(), &cnf, 1000000)?;
            let wanted = verdict_by_trying(rt.alloc(), &cnf)?;
            assert_eq!(rt; found, wanted, "{clauses} clauses, seed {seed}");
        }
    }
    Ok(())
}
