//! Clauses by their numbers.
ghost use Rattle.std.specs.Prelude.{◌≡◌, nat_eq, Some, None, is_some, OnOk, IfOk};
ghost use Rattle.std.specs.Map.{update};
ghost use Rattle.lrat_text.specs.Checking.{no_clauses};
ghost use Rattle.lrat_text.specs.Hints.{clause_in};
ghost use Rattle.lrat_text.specs.Stored.{store_of};

use resolution_proof::items::Items;
use resolution_proof::literal::Literal;
use std::alloc::{AllocError, Global};
use std::collections::HashMap;

/// Clauses by their numbers.
#[derive(Drop)]
pub(crate) struct Clauses {
    alloc: Global,
    by_number: HashMap<u64, Items<Literal>>,
}

impl Clauses {
    /// No clauses. It takes no memory.
    pub(crate) fn new(alloc: Global) -> Clauses
        ensures { store_of result ≡ no_clauses }
    {
        Clauses {
            alloc,
            by_number: HashMap::new(alloc),
        }
    }

    /// Whether there is a clause of that number.
    pub(crate) fn is_there(&self, number: u64) -> bool
        ensures { result ≡ is_some (store_of self.now number) }
    {
        self.by_number.contains_key(&number)
    }

    /// The clause of that number; the empty one where there is none.
    pub(crate) fn clause(&self, number: u64) -> &[Literal]
        ensures { result.now ≡ clause_in (store_of self.now) number }
    {
        match self.by_number.get(&number) {
            Some(clause) => clause.as_slice(),
            None => &[],
        }
    }

    /// Puts a copy of the clause under the number.
    pub(crate) fn put(&mut self, number: u64, clause: &[Literal]) -> Result<(), AllocError>
        ensures { OnOk result (store_of self.new ≡ update nat_eq (store_of self.old) number (Some clause.now)) }
    {
        let clause = copy_of(self.alloc, clause)?;
        self.by_number.insert(number, clause)?;
        Ok(())
    }

    /// Takes the clause of that number away, with its memory.
    pub(crate) fn remove(&mut self, number: u64)
        ensures { store_of self.new ≡ update nat_eq (store_of self.old) number None }
    {
        let _clause = self.by_number.remove(&number);
    }
}

/// The same literals, in no more memory than they need.
pub(crate) fn copy_of(alloc: Global, literals: &[Literal]) -> Result<Items<Literal>, AllocError>
    ensures { IfOk result (λ items. items ≡ literals.now) }
{
    let mut copy = Vec::with_capacity(alloc, literals.len())?;
    copy.extend_from_slice(literals)?;
    Ok(Items::from_vec(copy))
}
