//! Formulas and logs that are written, and read again.
use lrat_text::check::check;
use lrat_text::read_cnf::read_cnf;
use lrat_text::write::{write_dimacs, write_lrat};
use resolution_proof::clause::Clause;
use resolution_proof::cnf::Cnf;
use resolution_proof::literal::Literal;
use resolution_proof::log::{Hint, HintList, Log, Step};
use std::alloc::Global;
use std::process::Abort;
use std::test::Fail;

fn clause(alloc: Global, rt: &impl Abort, numbers: &[i64]) -> Result<Clause, Fail> {
    let mut literals = Vec::new(alloc);
    for number in numbers {
        literals.push(Literal {
            variable: number.unsigned_abs(),
            positive: *number > 0,
        })?;
    }
    Ok(Clause::new(literals).expect(rt, "a variable twice"))
}

/// Each clause over two variables.
fn each(alloc: Global, rt: &impl Abort) -> Result<Cnf, Fail> {
    let mut clauses = Vec::new(alloc);
    for numbers in [&[1, 2], &[1, -2], &[-1, 2], &[-1, -2]] {
        clauses.push(clause(alloc, rt, numbers)?)?;
    }
    Ok(Cnf::new(2, clauses).expect(rt, "a variable out of range"))
}

/// A step of these hints, each the number of a clause and the pivot.
fn step(
    alloc: Global,
    rt: &impl Abort,
    numbers: &[i64],
    hints: &[(u64, u64)],
) -> Result<Step, Fail> {
    let mut list = Vec::new(alloc);
    for (clause, pivot) in hints {
        list.push(Hint {
            clause: *clause,
            pivot: *pivot,
        })?;
    }
    Ok(Step {
        clause: clause(alloc, rt, numbers)?,
        hints: HintList::from_vec(list),
    })
}

#[test]
fn a_log_is_written_and_verified(rt: HostRuntime) -> Result<(), Fail> {
    let alloc = rt.alloc();
    let cnf = each(alloc, &rt)?;
    let mut steps = Vec::new(alloc);
    steps.push(step(alloc, &rt, &[1], &[(2, 0), (1, 2)])?)?;
    steps.push(step(alloc, &rt, &[], &[(4, 0), (3, 2), (5, 1)])?)?;
    let formula = write_dimacs(alloc, &cnf)?;
    let proof = write_lrat(alloc, &cnf, &Log::from_vec(steps))?;
    assert_eq!(rt;
        formula.as_bytes(),
        b"p cnf 2 4\n1 2 0\n1 -2 0\n-1 2 0\n-1 -2 0\n".as_slice()
    );
    assert_eq!(rt; proof.as_bytes(), b"5 1 0 1 2 0\n6 0 5 3 4 0\n".as_slice());
    let Ok(read) = read_cnf(alloc, formula.as_bytes()) else {
        assert_eq!(rt; "refused", "read");
        return Ok(());
    };
    assert_eq!(rt; check(alloc, &read, proof.as_bytes()).is_ok(), true);
    Ok(())
}
