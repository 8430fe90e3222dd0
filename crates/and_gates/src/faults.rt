//! Why the gates of a flat module are not told.
ghost use Rattle.std.specs.Prelude.{◌≡◌, IfOk};
ghost use Rattle.ir_store.specs.Bodies.{ops_of};
ghost use Rattle.ir_store.specs.Designs.{design_of, ports_in};
ghost use Rattle.ir_store.specs.Numbered.{ops_by_position};
ghost use Rattle.flat_module_gates.specs.Stepped.{IsAlone};
ghost use Rattle.and_gates.specs.Faults.{variable_count, is_too_large, export_fault, IsFaultOf};

use crate::clocks::{has_async, has_several_clocks};
use crate::fail::ExportFault;
use body_index::op_index::OpIndex;
use flat_module_gates::ports::free_bits;
use flat_module_gates::registers::content_bits;
use flat_module_gates::widths::sum;
use ir_store::design::Module;
use miter_blast::export_prices::export_price;
use op_verifier::Verified;
use std::alloc::{AllocError, Global};

/// How many gates, and how many inputs and bits of registers, there may be.
const MOST_GATES: u64 = 1 << 28;

/// The first cause against the one module of a flat, lowered design. The error comes only when out of memory, for which 2^32
/// operations count, and a value or registers of 2^32 bits. Linear in the operations.
pub(crate) fn fault_of(alloc: Global, copy: &Verified) -> Result<Option<ExportFault>, AllocError>
    requires { IsAlone (design_of copy.now.design) }
    ensures { IfOk result (IsFaultOf (design_of copy.now.design)) }
{
    let one = copy.design().module(0);
    export_fault(alloc, one)
}

// The first cause against a flat module.
fn export_fault(alloc: Global, module: &Module) -> Result<Option<ExportFault>, AllocError>
    ensures { IfOk result (λ f. f ≡ export_fault (ports_in «module».now.ports) (ops_by_position (ops_of «module».now.body))) }
{
    let ops = OpIndex::of(alloc, &module.body)?;
    if has_several_clocks(alloc, &ops)? {
        return Ok(Some(ExportFault::SeveralClocks));
    }
    if has_async(&ops) {
        return Ok(Some(ExportFault::AsynchronousReset));
    }
    if is_too_large(alloc, module)? {
        return Ok(Some(ExportFault::TooManyGates));
    }
    Ok(None)
}

// Whether a flat module may take too many gates, or has too many inputs and bits of registers.
fn is_too_large(alloc: Global, module: &Module) -> Result<bool, AllocError>
    ensures { IfOk result (λ b. b ≡ is_too_large (ports_in «module».now.ports) (ops_by_position (ops_of «module».now.body))) }
{
    let price = export_price(alloc, module)?;
    if price > MOST_GATES {
        return Ok(true);
    }
    let count = u64::from(variable_count(alloc, module)?);
    Ok(count > MOST_GATES)
}

// How many inputs that are no clocks and bits of registers a flat module has together. 2^32 want more memory than there is.
fn variable_count(alloc: Global, module: &Module) -> Result<u32, AllocError>
    ensures { IfOk result (λ n. n ≡ variable_count (ports_in «module».now.ports) (ops_by_position (ops_of «module».now.body))) }
{
    let ops = OpIndex::of(alloc, &module.body)?;
    sum(free_bits(&module.ports)?, content_bits(&ops)?)
}
