//! What stands for the operands of an operation.
ghost use Rattle.std.specs.Prelude.{◌≡◌, IfOk};
ghost use Rattle.aggregate_laws.specs.Leaves.{part};
ghost use Rattle.aggregate_laws.specs.OperationRules.{argument, joined_parts};
ghost use Rattle.lowering_rules.specs.Reading.{new_ref, new_refs};
ghost use Rattle.lowering_rules.specs.LeafTables.{arguments_of};

use crate::leaf_table::LeafTable;
use ir_store::operation::Value;
use std::alloc::{AllocError, Global};

/// The operands of an operation of the old body.
#[derive(Clone, Copy)]
pub struct Arguments<'a> {
    /// What stands for its values.
    pub table: &'a LeafTable,
    /// The operands.
    pub operands: &'a [Value],
}

impl<'a> Arguments<'a> {
    /// What stands for the operand of a number.
    pub fn nth(self, number: usize) -> &'a [Value]
        ensures { new_refs result.now ≡ argument number (arguments_of self.entry) }
    {
        match self.operands.get(number) {
            Some(operand) => self.table.leaves(*operand),
            None => &[],
        }
    }

    /// What stands for all operands.
    pub fn concat(self, alloc: Global) -> Result<Vec<Value>, AllocError>
        ensures { IfOk result (λ all. new_refs all.items ≡ joined_parts (arguments_of self.entry)) }
    {
        let mut all = Vec::new(alloc);
        for operand in self.operands {
            all.extend_from_slice(self.table.leaves(*operand))?;
        }
        Ok(all)
    }
}

/// The value of a number, or nothing.
pub fn part(values: &[Value], number: usize) -> Value
    ensures { new_ref result ≡ part (new_refs values.now) number }
{
    match values.get(number) {
        Some(value) => *value,
        None => Value::Undefined,
    }
}
