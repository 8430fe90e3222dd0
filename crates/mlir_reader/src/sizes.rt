//! Modules put into a design, where they are not too large to be counted.
ghost use Rattle.std.specs.Prelude.{◌≡◌, ◌++◌, ◌∷◌, [], IsTrue, OnOk};
ghost use Rattle.ir_store.specs.Designs.{design_of, module_of, numbered_module};
ghost use Rattle.mlir_reader.specs.Meanings.{HasFewNames};

use ir_store::design::{Design, Module};
use mlir_operations::syntax::{OperationText, ResultNames};
use std::alloc::AllocError;

/// Puts a module after those of a design. On an error the design may be thrown away. A design of 2^32 modules or more,
/// which no text that is read has, counts as out of memory.
pub fn put_module(design: &mut Design, one: Module) -> Result<(), AllocError>
    ensures { OnOk result (design_of design.new ≡ design_of design.old ++ numbered_module (module_of one) ∷ []) }
{
    if design.module_count() == u32::MAX {
        return Err(AllocError);
    }
    design.add_module(one)?;
    Ok(())
}

/// Whether fewer than 2^32 results of an operation are named.
pub fn has_few_names(operation: &OperationText<'_>) -> bool
    ensures { IsTrue result → HasFewNames operation.now }
{
    match &operation.results {
        ResultNames::Unnamed => true,
        ResultNames::Names(_, others) => others.len() < u32::MAX as usize,
        ResultNames::Pack(_, count) => *count <= u32::MAX,
    }
}
