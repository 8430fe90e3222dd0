//! Flat copies of modules.
ghost use Rattle.std.specs.Prelude.{◌≡◌, ◌<◌, IfOk, length};
ghost use Rattle.ir_store.specs.Designs.{design_of, module_of, numbered_module};
ghost use Rattle.op_verifier.specs.Answered.{modules_verified};
ghost use Rattle.miter_blast.specs.FlatCopy.{only_public, is_other, IsOnlyPublicAt, IsFlatCopyAt};

use aggregate_lower::lowering::lower_aggregates;
use inline_pass::dead_modules::symbol_dce;
use inline_pass::flattening::flatten_modules;
use ir_store::design::{Design, Module};
use op_verifier::Verified;
use std::alloc::{AllocError, Global};

/// A copy of the module of a number of a design of which nothing is refused, as a design of that module alone: what it
/// instances is part of it, and each value of an aggregate type is its leaves (CIRCT documentation, "Passes":
/// `hw-flatten-modules`, `hw-lower-aggregates`). Modules that it does not reach by instances are taken out before any is
/// flattened (MLIR documentation, "Passes": `symbol-dce`), so they cost no more than their own text. The error comes only when
/// out of memory.
pub fn flat_copy(alloc: Global, verified: &Verified, number: u32) -> Result<Verified, AllocError>
    requires { number < length (modules_verified verified.now) }
    ensures { IfOk result (λ done. IsFlatCopyAt (design_of verified.now.design) number (design_of done.design)) }
{
    let mut made = public_alone(alloc, verified, number)?;
    symbol_dce(alloc, &mut made)?;
    flatten_modules(alloc, &mut made)?;
    lower_aggregates(alloc, &mut made)?;
    Ok(Verified::new(made))
}

// A copy of a design in which the module of a number is public and all others are private.
fn public_alone(alloc: Global, verified: &Verified, number: u32) -> Result<Design, AllocError>
    requires { number < length (modules_verified verified.now) }
    ensures { IfOk result (λ copy. IsOnlyPublicAt (design_of verified.now.design) number (design_of copy)) }
{
    let design = verified.design();
    copy_with_one_public(alloc, design, design.module(number).symbol.as_bytes())
}

// A copy of a design in which the module of a symbol is public and all others are private.
fn copy_with_one_public(alloc: Global, design: &Design, symbol: &[u8]) -> Result<Design, AllocError>
    ensures { IfOk result (λ copy. design_of copy ≡ only_public (design_of design.now) symbol.now) }
{
    let mut copy = Design::new(alloc);
    for number in 0..design.module_count() {
        let one = marked_copy(alloc, design.module(number), symbol)?;
        let _ = copy.add_module(one)?;
    }
    Ok(copy)
}

// A copy of a module that is private unless it has the symbol.
fn marked_copy(alloc: Global, one: &Module, symbol: &[u8]) -> Result<Module, AllocError>
    ensures { IfOk result (λ copy. numbered_module (module_of copy) ≡ record (numbered_module (module_of one.now)) { is_private = is_other symbol.now (numbered_module (module_of one.now)) }) }
{
    let mut copy = one.try_clone(alloc)?;
    copy.private = one.symbol.as_bytes() != symbol;
    Ok(copy)
}
