//! What holds between the lines of a proof.
ghost use Rattle.std.specs.Prelude.{◌≡◌, IfOk};
ghost use Rattle.lrat_text.specs.Checking.{start, numbered, no_clauses};
ghost use Rattle.lrat_text.specs.Stored.{state_of, store_of};

use crate::clauses::Clauses;
use crate::dimacs_cnf::DimacsCnf;
use resolution_proof::items::Items;
use resolution_proof::literal::Literal;
use std::alloc::{AllocError, Global};

/// What holds between the lines of a proof: the clauses that are there, the greatest number of a clause up to now, and
/// whether the empty clause was a step.
#[derive(Drop)]
pub(crate) struct Progress {
    pub(crate) clauses: Clauses,
    pub(crate) last: u64,
    pub(crate) done: bool,
}

impl Progress {
    /// The formula's clauses, numbered from 1.
    pub(crate) fn new(alloc: Global, cnf: &DimacsCnf) -> Result<Progress, AllocError>
        ensures { IfOk result (λ p. state_of p ≡ start cnf.now) }
    {
        let given = cnf.clauses();
        Ok(Progress {
            clauses: numbered(alloc, given)?,
            last: given.len() as u64,
            done: false,
        })
    }
}

/// The clauses, numbered from 1.
fn numbered(alloc: Global, given: &[Items<Literal>]) -> Result<Clauses, AllocError>
    ensures { IfOk result (λ clauses. store_of clauses ≡ numbered 1 no_clauses given.now) }
{
    let mut clauses = Clauses::new(alloc);
    for (i, clause) in given.iter().enumerate() {
        clauses.put(i as u64 + 1, clause.as_slice())?;
    }
    Ok(clauses)
}
