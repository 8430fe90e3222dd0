// Clauses: sets of literals with no variable twice.
ghost use Rattle.std.specs.Prelude.{◌≡◌, ◌↔◌, List, [], IsTrue, IsSome, IfSome, IfOk};
ghost use Rattle.resolution_proof.specs.Literal.{holds, mentions, is_once};
ghost use Rattle.resolution_proof.specs.Clause.{is_within};

use crate::literal::Literal;
use std::alloc::{AllocError, Global};
use std::marker::Model;

/// A set of literals in which no variable stands twice, as a list. It is true where one of its literals is.
#[derive(Drop)]
pub struct Clause {
    literals: Vec<Literal>,
}

impl Model for Clause {
    ghost use Rattle.std.specs.Prelude.{List, IsTrue};
    ghost use Rattle.resolution_proof.specs.declared.literal.Literal.{Literal};
    ghost use Rattle.resolution_proof.specs.Literal.{is_once};

    ghost Value = { List Literal };

    ghost view = { λ c. c.literals.items };

    ghost invariant = { λ c. IsTrue (is_once c.literals.items) };
}

impl Clause {
    /// The clause with no literal, which nothing makes true.
    pub fn empty(alloc: Global) -> Clause
        ensures { result ≡ [] }
    {
        Clause {
            literals: Vec::new(alloc),
        }
    }

    /// The clause of these literals, or `None` where two of them are of one variable.
    pub fn new(literals: Vec<Literal>) -> Option<Clause>
        ensures some { IsSome result ↔ IsTrue (is_once literals.items) }
        ensures value { IfSome result (λ c. c ≡ literals.items) }
    {
        if has_no_variable_twice(&literals) {
            Some(Clause { literals })
        } else {
            None
        }
    }

    /// The clause of these literals, of which no two are of one variable.
    pub fn from_distinct(literals: Vec<Literal>) -> Clause
        requires { IsTrue (is_once literals.items) }
        ensures { result ≡ literals.items }
    {
        Clause { literals }
    }

    /// The clause of the same literals.
    pub fn copy(alloc: Global, clause: &Clause) -> Result<Clause, AllocError>
        ensures { IfOk result (λ c. c ≡ clause.now) }
    {
        let mut literals = Vec::with_capacity(alloc, clause.literals.len())?;
        for literal in &clause.literals {
            literals.push(*literal)?;
        }
        Ok(Clause { literals })
    }

    /// The literals, with no copy.
    pub fn into_vec(self) -> Vec<Literal>
        ensures literals { result.items ≡ self }
        ensures once { IsTrue (is_once result.items) }
    {
        let Clause { literals } = self;
        literals
    }

    /// The literals, in their order.
    pub fn as_slice(&self) -> &[Literal]
        ensures literals { result.now ≡ self.now }
        ensures once { IsTrue (is_once self.now) }
    {
        &self.literals
    }
}

/// Whether the set has a literal of the variable.
pub fn has_variable(literals: &[Literal], variable: u64) -> bool
    ensures { result ≡ mentions literals.now variable }
{
    literals.iter().any(|k| k.variable == variable)
}

/// Whether the set has the literal.
pub fn has_literal(literals: &[Literal], literal: Literal) -> bool
    ensures { result ≡ holds literals.now literal }
{
    literals.iter().any(|k| *k == literal)
}

/// Whether no variable stands twice.
pub fn has_no_variable_twice(literals: &[Literal]) -> bool
    ensures { result ≡ is_once literals.now }
{
    let mut rest = literals;
    while let Some((first, others)) = rest.split_first() {
        if has_variable(others, first.variable) {
            return false;
        }
        rest = others;
    }
    true
}

/// Whether each literal's variable is at least 1 and at most `variables`.
pub fn is_within_variables(literals: &[Literal], variables: u64) -> bool
    ensures { result ≡ is_within variables literals.now }
{
    literals
        .iter()
        .all(|l| 1 <= l.variable && l.variable <= variables)
}
