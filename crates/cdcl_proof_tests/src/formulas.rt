//! Formulas for the tests.
use resolution_proof::clause::Clause;
use resolution_proof::cnf::Cnf;
use resolution_proof::literal::Literal;
use std::alloc::Global;
use std::process::Abort;
use std::test::Fail;

/// The clause of these literals, each a variable or, negative, its complement, as in DIMACS.
pub(crate) fn clause(alloc: Global, rt: &impl Abort, numbers: &[i64]) -> Result<Clause, Fail> {
    let mut literals = Vec::new(alloc);
    for number in numbers {
        literals.push(Literal {
            variable: number.unsigned_abs(),
            positive: *number > 0,
        })?;
    }
    Ok(Clause::new(literals).expect(rt, "a variable twice"))
}

/// The formula of these clauses, each literal a variable or, negative, its complement, as in DIMACS.
pub(crate) fn formula(
    alloc: Global,
    rt: &impl Abort,
    variables: u64,
    clauses: &[&[i64]],
) -> Result<Cnf, Fail> {
    let mut list = Vec::new(alloc);
    for numbers in clauses {
        list.push(clause(alloc, rt, numbers)?)?;
    }
    Ok(Cnf::new(variables, list).expect(rt, "a variable out of range"))
}

/// One pigeon more than there are holes: pigeon p sits in hole h where variable p * holes + h + 1 is true.
pub(crate) fn pigeonhole(alloc: Global, rt: &impl Abort, holes: u64) -> Result<Cnf, Fail> {
    let mut list = Vec::new(alloc);
    for pigeon in 0..holes.saturating_add(1) {
        let mut literals = Vec::new(alloc);
        for hole in 0..holes {
            literals.push(sits(holes, pigeon, hole, true))?;
        }
        list.push(Clause::new(literals).expect(rt, "a variable twice"))?;
        for other in 0..pigeon {
            for hole in 0..holes {
                let mut literals = Vec::new(alloc);
                literals.push(sits(holes, pigeon, hole, false))?;
                literals.push(sits(holes, other, hole, false))?;
                list.push(Clause::new(literals).expect(rt, "a variable twice"))?;
            }
        }
    }
    let variables = holes.saturating_mul(holes.saturating_add(1));
    Ok(Cnf::new(variables, list).expect(rt, "a variable out of range"))
}

fn sits(holes: u64, pigeon: u64, hole: u64, positive: bool) -> Literal {
    Literal {
        variable: pigeon
            .wrapping_mul(holes)
            .wrapping_add(hole)
            .wrapping_add(1),
        positive,
    }
}

/// Numbers in arithmetic progression, which are not all in one class.
#[derive(Clone, Copy)]
struct Progression {
    first: u64,
    step: u64,
    length: u64,
    // the class
    positive: bool,
}

/// The numbers up to n in two classes, the first without three numbers in arithmetic progression and the second
/// without seven. The van der Waerden number W(3, 7) is 46, so this can be satisfied for n = 45 and not for 46.
pub(crate) fn progressions(alloc: Global, rt: &impl Abort, n: u64) -> Result<Cnf, Fail> {
    let mut list = Vec::new(alloc);
    for (length, positive) in [(3, false), (7, true)] {
        for step in 1..n {
            for first in 1..n {
                let progression = Progression {
                    first,
                    step,
                    length,
                    positive,
                };
                add_progression(alloc, rt, &mut list, n, progression)?;
            }
        }
    }
    Ok(Cnf::new(n, list).expect(rt, "a variable out of range"))
}

// the clause of a progression, where it ends by n
fn add_progression(
    alloc: Global,
    rt: &impl Abort,
    list: &mut Vec<Clause>,
    n: u64,
    progression: Progression,
) -> Result<(), Fail> {
    let positive = progression.positive;
    let mut literals = Vec::new(alloc);
    let mut variable = progression.first;
    for _ in 0..progression.length {
        if variable > n {
            return Ok(());
        }
        literals.push(Literal { variable, positive })?;
        variable = variable.wrapping_add(progression.step);
    }
    list.push(Clause::new(literals).expect(rt, "a variable twice"))?;
    Ok(())
}

/// A literal of one of twelve variables, and the next state of the generator (Marsaglia, Xorshift RNGs, 2003).
fn random_literal(state: u64) -> (Literal, u64) {
    let mut next = state;
    next ^= next.wrapping_shl(13);
    next ^= next.wrapping_shr(7);
    next ^= next.wrapping_shl(17);
    let literal = Literal {
        variable: next.wrapping_shr(8).wrapping_rem(12).wrapping_add(1),
        positive: next.wrapping_shr(40).wrapping_rem(2) == 1,
    };
    (literal, next)
}

/// A formula of so many clauses of at most three literals over twelve variables.
pub(crate) fn random_formula(
    alloc: Global,
    rt: &impl Abort,
    clauses: u64,
    seed: u64,
) -> Result<Cnf, Fail> {
    let mut list = Vec::new(alloc);
    let mut state = seed;
    for _ in 0..clauses {
        let mut literals = Vec::new(alloc);
        for _ in 0..3 {
            let (literal, next) = random_literal(state);
            state = next;
            if !resolution_proof::clause::has_variable(&literals, literal.variable) {
                literals.push(literal)?;
            }
        }
        list.push(Clause::new(literals).expect(rt, "a variable twice"))?;
    }
    Ok(Cnf::new(12, list).expect(rt, "a variable out of range"))
}
