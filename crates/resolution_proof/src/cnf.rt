// Formulas in conjunctive normal form.
ghost use Rattle.std.specs.Prelude.{◌≡◌, ◌↔◌, IsSome, IfSome, IsTrue};
ghost use Rattle.resolution_proof.specs.Clause.{is_clause};
ghost use Rattle.resolution_proof.specs.Formula.{Formula, are_clauses, is_true, makes_true, satisfies};
ghost use Rattle.std.specs.List.{list_all};

use crate::assignment::Assignment;
use crate::clause::{Clause, is_within_variables};
use crate::literal::Literal;
use std::marker::Model;

/// A formula in conjunctive normal form: a number of variables, which are numbered from 1, and a list of clauses
/// over these variables alone, as in the DIMACS format. It is true where each of its clauses is.
#[derive(Drop)]
pub struct Cnf {
    variables: u64,
    clauses: Vec<Clause>,
}

impl Model for Cnf {
    ghost use Rattle.std.specs.Prelude.{IsTrue};
    ghost use Rattle.resolution_proof.specs.Formula.{Formula, are_clauses};

    ghost Value = { Formula };

    ghost view = { λ c. record { variables = c.variables; clauses = c.clauses.items } };

    ghost invariant = { λ c. IsTrue (are_clauses c.variables c.clauses.items) };
}

impl Cnf {
    /// The formula of these clauses, or `None` where a literal's variable is 0 or above `variables`.
    pub fn new(variables: u64, clauses: Vec<Clause>) -> Option<Cnf>
        ensures some { IsSome result ↔ IsTrue (are_clauses variables clauses.items) }
        ensures value { IfSome result (λ c. c ≡ record { variables = variables; clauses = clauses.items }) }
    {
        if are_within_variables(&clauses, variables) {
            Some(Cnf { variables, clauses })
        } else {
            None
        }
    }

    /// The number of variables.
    pub fn variables(&self) -> u64
        ensures { result ≡ self.now.variables }
    {
        self.variables
    }

    /// The clauses, in their order: clause number 1 comes first.
    pub fn clauses(&self) -> &[Clause]
        ensures clauses { result.now ≡ self.now.clauses }
        ensures within { IsTrue (are_clauses self.now.variables self.now.clauses) }
    {
        &self.clauses
    }

    /// Whether the assignment has a value for each variable and makes each clause true.
    pub fn is_satisfied_by(&self, assignment: &Assignment) -> bool
        ensures { result ≡ satisfies assignment.now self.now }
    {
        let values = assignment.as_slice();
        values.len() as u64 == self.variables && are_clauses_true(values, &self.clauses)
    }
}

/// Whether the assignment makes the literal true.
fn is_literal_true(values: &[bool], literal: Literal) -> bool
    ensures { result ≡ is_true values.now literal }
{
    let index = literal.variable.saturating_sub(1) as usize;
    values.get(index).copied().unwrap_or(false) == literal.positive
}

fn is_clause_true(values: &[bool], clause: &[Literal]) -> bool
    ensures { result ≡ makes_true values.now clause.now }
{
    clause.iter().any(|l| is_literal_true(values, *l))
}

fn are_clauses_true(values: &[bool], clauses: &[Clause]) -> bool
    ensures { result ≡ list_all (makes_true values.now) clauses.now }
{
    clauses.iter().all(|c| is_clause_true(values, c.as_slice()))
}

fn are_within_variables(clauses: &[Clause], variables: u64) -> bool
    ensures { result ≡ are_clauses variables clauses.now }
{
    clauses.iter().all(|c| is_clause_within(c, variables))
}

fn is_clause_within(clause: &Clause, variables: u64) -> bool
    ensures { result ≡ is_clause variables clause.now }
{
    is_within_variables(clause.as_slice(), variables)
}
