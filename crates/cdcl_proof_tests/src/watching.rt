//! Propagation by watched literals.
use crate::formulas::{clause, formula};
use clause_learning::watched::Watched;
use resolution_proof::clause::is_within_variables;
use resolution_proof::literal::Literal;
use std::alloc::Global;
use std::process::Abort;
use std::test::Fail;

fn literal(number: i64) -> Literal {
    Literal {
        variable: number.unsigned_abs(),
        positive: number > 0,
    }
}

/// Assumes the literal, which is to be unassigned.
fn assume(rt: &impl Abort, watched: &mut Watched, number: i64) {
    let literal = literal(number);
    assert!(rt; watched.is_open(literal));
    watched.assume(literal);
}

/// Goes back to so many literals.
fn back_to(rt: &impl Abort, watched: &mut Watched, count: u64) {
    assert!(rt; count <= watched.len());
    watched.back_to(count);
}

/// Adds a clause. The result is whether it is over the variables.
fn add(
    alloc: Global,
    rt: &impl Abort,
    watched: &mut Watched,
    numbers: &[i64],
) -> Result<bool, Fail> {
    let clause = clause(alloc, rt, numbers)?;
    let fits = is_within_variables(clause.as_slice(), watched.variables());
    if fits {
        watched.add_clause(clause)?;
    }
    Ok(fits)
}

/// A call of the watched literals, with what it answers.
#[derive(Clone, Copy)]
enum Call {
    Assume(i64),
    /// No clause gets false.
    Propagate,
    /// Some clause gets false.
    Fail,
    /// The clause of this number gets false.
    FailAt(u64),
    BackTo(u64),
    /// The clause is over the variables.
    Add(&'static [i64]),
}

use Call::{Add, Assume, BackTo, FailAt, Propagate};

/// Calls in a row over a formula.
struct Run {
    name: &'static str,
    variables: u64,
    clauses: &'static [&'static [i64]],
    calls: &'static [Call],
}

const RUNS: [Run; 3] = [
    Run {
        name: "a chain of implications is followed to the false clause at its end, and back",
        variables: 5,
        clauses: &[&[-1, 2], &[-2, 3], &[-3, -1, 4], &[-4, -2, -1]],
        calls: &[
            Propagate,
            Assume(5),
            Propagate,
            Assume(1),
            Call::Fail,
            BackTo(1),
            Propagate,
            Assume(-1),
            Propagate,
        ],
    },
    Run {
        name: "a clause that is added while its literals are false is found",
        variables: 3,
        clauses: &[&[-1, 2]],
        calls: &[
            Assume(1),
            Propagate,
            Add(&[-2, 3]),
            Propagate,
            Add(&[-3, -1]),
            FailAt(3),
            BackTo(0),
            Propagate,
            Add(&[]),
            FailAt(4),
        ],
    },
    Run {
        name: "of two false clauses the binary one is found first",
        variables: 3,
        clauses: &[&[-1, 2, 3], &[-1, 2]],
        calls: &[Assume(-2), Assume(-3), Assume(1), FailAt(2)],
    },
];

/// Makes a call. The result is whether it answers as it says.
fn is_answered(
    alloc: Global,
    rt: &impl Abort,
    watched: &mut Watched,
    call: Call,
) -> Result<bool, Fail> {
    match call {
        Assume(number) => assume(rt, watched, number),
        BackTo(count) => back_to(rt, watched, count),
        Add(numbers) => return add(alloc, rt, watched, numbers),
        Propagate => return Ok(watched.propagate()?.is_none()),
        Call::Fail => return Ok(watched.propagate()?.is_some()),
        FailAt(clause) => return Ok(watched.propagate()? == Some(clause)),
    }
    Ok(true)
}

/// The first call of a run that answers otherwise, by its position.
fn first_other(alloc: Global, rt: &impl Abort, run: &Run) -> Result<Option<usize>, Fail> {
    let cnf = formula(alloc, rt, run.variables, run.clauses)?;
    let mut watched = Watched::new(alloc, &cnf)?;
    for (at, call) in run.calls.iter().enumerate() {
        if !is_answered(alloc, rt, &mut watched, *call)? {
            return Ok(Some(at));
        }
    }
    Ok(None)
}

#[test]
fn literals_are_watched(rt: HostRuntime) -> Result<(), Fail> {
    for run in &RUNS {
        assert_eq!(rt; first_other(rt.alloc(), &rt, run)?, None, "{}", run.name);
    }
    Ok(())
}
