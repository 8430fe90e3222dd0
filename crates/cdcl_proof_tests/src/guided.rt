//! A search with a guide.
use crate::formulas::random_formula;
use crate::solving::{Verdict, bits_of, verdict_of};
use cdcl_proof::guide::{Guide, Outcome, Pair};
use cdcl_proof::solve::solve_guided;
use clause_learning::watched::Watched;
use resolution_proof::assignment::Assignment;
use resolution_proof::cnf::Cnf;
use resolution_proof::literal::Literal;
use std::alloc::{AllocError, Global};
use std::test::Fail;

/// The pairs that are tried.
const PAIRS: u64 = 100;

/// The pair of the number: each sign and each of twelve variables comes, and one variable beyond them.
fn pair_at(number: u64) -> Pair {
    Pair {
        first: Literal {
            variable: number.wrapping_rem(13).wrapping_add(1),
            positive: number.wrapping_rem(2) == 0,
        },
        second: Literal {
            variable: number.wrapping_rem(11).wrapping_add(1),
            positive: number.wrapping_rem(3) == 0,
        },
    }
}

/// What was told of a pair: whether it was proved, and otherwise the values that refute it.
#[derive(Drop)]
struct Told {
    pair: Pair,
    values: Option<Assignment>,
}

/// Proposes pairs in order, and keeps what it is told.
#[derive(Drop)]
struct Pairs {
    alloc: Global,
    near: Vec<u64>,
    next: u64,
    told: Vec<Told>,
}

impl Guide for Pairs {
    fn next_pair(&mut self) -> Result<Option<Pair>, AllocError> {
        if self.next >= PAIRS {
            return Ok(None);
        }
        self.next = self.next.wrapping_add(1);
        Ok(Some(pair_at(self.next)))
    }

    fn near(&self) -> &[u64] {
        &self.near
    }

    fn tell(&mut self, outcome: Outcome, values: &Watched) -> Result<(), AllocError> {
        let values = match outcome {
            Outcome::Proved => None,
            Outcome::Refuted => Some(values_of(self.alloc, values)?),
            Outcome::GaveUp => return Ok(()),
        };
        self.told.push(Told {
            pair: pair_at(self.next),
            values,
        })?;
        Ok(())
    }
}

/// The values of the twelve variables.
fn values_of(alloc: Global, watched: &Watched) -> Result<Assignment, AllocError> {
    let mut values = Vec::new(alloc);
    for variable in 1..13 {
        values.push(watched.is_true(Literal {
            variable,
            positive: true,
        }))?;
    }
    Ok(Assignment::from_vec(values))
}

/// All twelve variables, a variable twice, and numbers of no variable.
fn near_variables(alloc: Global) -> Result<Vec<u64>, AllocError> {
    let mut near = Vec::new(alloc);
    for variable in 0..14 {
        near.push(variable)?;
    }
    near.push(3)?;
    Ok(near)
}

/// Whether the assignment gives the literal's variable, if it is one of twelve, the literal's sign.
fn agrees(values: &Assignment, literal: Literal) -> bool {
    let index = literal.variable.saturating_sub(1) as usize;
    match values.as_slice().get(index) {
        Some(value) => *value == literal.positive,
        None => false,
    }
}

/// The assignments that satisfy the formula.
fn satisfying(alloc: Global, cnf: &Cnf) -> Result<Vec<Assignment>, AllocError> {
    let mut all = Vec::new(alloc);
    for number in 0..4096 {
        let values = bits_of(alloc, number)?;
        if cnf.is_satisfied_by(&values) {
            all.push(values)?;
        }
    }
    Ok(all)
}

/// Whether the assignments that satisfy the formula bear out what was told.
fn is_borne_out(cnf: &Cnf, satisfying: &[Assignment], told: &Told) -> bool {
    let Pair { first, second } = told.pair;
    match &told.values {
        Some(values) => {
            let is_first = first.variable > 12 || agrees(values, first);
            cnf.is_satisfied_by(values) && is_first && !agrees(values, second)
        }
        None => satisfying
            .iter()
            .all(|values| !agrees(values, first) || agrees(values, second)),
    }
}

#[test]
fn a_guide_changes_no_verdict(rt: HostRuntime) -> Result<(), Fail> {
    for seed in 1..4u64 {
        for clauses in [20, 40, 55] {
            let cnf = random_formula(rt.alloc(), &rt, clauses, seed.wrapping_mul(7919))?;
            let satisfying = satisfying(rt.alloc(), &cnf)?;
            let mut guide = Pairs {
                alloc: rt.alloc(),
                near: near_variables(rt.alloc())?,
                next: 0,
                told: Vec::new(rt.alloc()),
            };
            let answer = solve_guided(rt.alloc(), &cnf, &mut guide, 1000000)?;
            let found = verdict_of(&cnf, 1000000, answer);
            let wanted = if satisfying.is_empty() {
                Verdict::Refuted
            } else {
                Verdict::Satisfied
            };
            assert_eq!(rt; found, wanted, "{clauses} clauses, seed {seed}");
            assert!(rt; found == Verdict::Refuted || guide.told.len() == 100);
            for told in &guide.told {
                assert!(rt;
                    is_borne_out(&cnf, &satisfying, told),
                    "{clauses} clauses, seed {seed}"
                );
            }
        }
    }
    Ok(())
}
