//! Pure operations that were visited, by their hashes.
ghost use Rattle.std.specs.Prelude.{◌≡◌, ℕ, nat_eq, true, OnOk};
ghost use Rattle.indexmap.specs.IndexSet.{contains};
ghost use Rattle.ir_store.specs.BodyOps.{names_in};

use indexmap::{IndexMap, IndexSet};
use ir_store::operation::{OpId, Value};
use std::alloc::{AllocError, Global};

/// Pure operations in groups of one hash, each in text order, and whose results they take.
#[derive(Drop)]
pub struct Groups {
    by_hash: IndexMap<u64, Vec<OpId>>,
    named: IndexSet<u32>,
}

impl Groups {
    ghost use Rattle.std.specs.Prelude.{◌≡◌, ◌++◌, ◌∷◌, [], ℕ, cond, nat_eq, true, OnOk};
    ghost use Rattle.ir_store.specs.BodyOps.{names_in};
    ghost use Rattle.cse_pass.specs.Groups.{group_of, is_noted, IsGrouping};

    /// No operations. It takes no memory.
    pub fn new(alloc: Global) -> Groups
        ensures { IsGrouping result [] }
    {
        Groups {
            by_hash: IndexMap::new(alloc),
            named: IndexSet::new(alloc),
        }
    }

    /// The operations of a hash, in the order in which they were put in.
    pub fn of(&self, hash: u64) -> &[OpId]
        ensures { result.now ≡ group_of self.now hash }
    {
        match self.by_hash.get(&hash) {
            Some(group) => group.as_slice(),
            None => &[],
        }
    }

    /// Whether one of the operations takes a result of another one, or once took it.
    pub fn takes(&self, op: OpId) -> bool
        ensures { result ≡ is_noted self.now op.index }
    {
        self.named.contains(&op.number())
    }

    /// Puts an operation in, by its hash and its operands. Constant on average, and linear in the operands.
    pub fn add(
        &mut self,
        alloc: Global,
        hash: u64,
        op: OpId,
        operands: &[Value],
    ) -> Result<(), AllocError>
        ensures group { OnOk result ((h : ℕ) → group_of self.new h ≡ cond (nat_eq hash h) (group_of self.old h ++ op ∷ []) (group_of self.old h)) }
        ensures noted { OnOk result ((id : ℕ) → is_noted self.old id ≡ true → is_noted self.new id ≡ true) }
        ensures named { OnOk result ((id : ℕ) → names_in id operands.now ≡ true → is_noted self.new id ≡ true) }
    {
        let mut group = match self.by_hash.swap_remove(&hash) {
            Some(group) => group,
            None => Vec::new(alloc),
        };
        group.push(op)?;
        self.by_hash.insert(hash, group)?;
        note_operands(&mut self.named, operands)
    }
}

/// Notes the operations whose results are operands.
fn note_operands(named: &mut IndexSet<u32>, operands: &[Value]) -> Result<(), AllocError>
    ensures stay { OnOk result ((id : ℕ) → contains nat_eq named.old id ≡ true → contains nat_eq named.new id ≡ true) }
    ensures noted { OnOk result ((id : ℕ) → names_in id operands.now ≡ true → contains nat_eq named.new id ≡ true) }
{
    for value in operands {
        if let Value::Result(id, _) = value {
            named.insert(id.number())?;
        }
    }
    Ok(())
}
