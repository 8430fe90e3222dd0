//! The price of a body whose registers load at every step.
ghost use Rattle.std.specs.Prelude.{◌≡◌, min, IfOk};
ghost use Rattle.hw_model.specs.Design.{register_form};
ghost use Rattle.hw_model.specs.KindViews.{kind_of, reset_of};
ghost use Rattle.ir_store.specs.Bodies.{ops_of};
ghost use Rattle.ir_store.specs.Designs.{ports_in};
ghost use Rattle.ir_store.specs.Numbered.{ops_by_position};
ghost use Rattle.body_index.specs.OpIndexes.{op_view};
ghost use Rattle.miter_blast.specs.ExportPrices.{reset_price, load_price, export_op_price, export_price};

use crate::operands::Typed;
use crate::prices::{choice_price, op_price};
use body_index::op_index::OpIndex;
use flat_module_gates::widths::first_bits;
use hw_model::families::Family;
use hw_model::kinds::{OpKind, Reset};
use ir_store::body::Op;
use ir_store::design::Module;
use std::alloc::{AllocError, Global};

/// How many gates a flat module may take whose registers load at every step, or `u64::MAX` where that is more: its operations
/// take as many as in a comparison, and a register of W bits 3W with an enable and 3W with a reset. The error comes only when out
/// of memory, for which 2^32 operations count, and a value of 2^32 bits. Linear in the operations.
pub fn export_price(alloc: Global, module: &Module) -> Result<u64, AllocError>
    ensures { IfOk result (λ n. n ≡ min (export_price (ports_in «module».now.ports) (ops_by_position (ops_of «module».now.body))) u64.MAX) }
{
    let ops = OpIndex::of(alloc, &module.body)?;
    let body = Typed {
        ports: &module.ports,
        ops: &ops,
    };
    let mut price: u64 = 0;
    for position in 0..ops.count() {
        price = price.saturating_add(export_op_price(&body, &ops.op_at(position))?);
    }
    Ok(price)
}

// The price of an operation, with that of the loads of a register.
fn export_op_price(body: &Typed<'_>, op: &Op<'_>) -> Result<u64, AllocError>
    ensures { IfOk result (λ n. n ≡ min (export_op_price (ports_in body.now.ports.now) (ops_by_position (ops_of body.now.ops.now.body.now)) (op_view body.now.ops.now.body.now op.now)) u64.MAX) }
{
    let results = op_price(body, op)?;
    let loads = load_price(op.kind, u64::from(first_bits(op.results)?));
    Ok(results.saturating_add(loads))
}

// The price of the loads of a register of so many bits; 0 of another operation.
fn load_price(kind: &OpKind, width: u64) -> u64
    ensures { result ≡ min (load_price width (register_form (kind_of kind.now))) u64.MAX }
{
    match kind.family() {
        Family::Register(op, reset) => choice_price(op.takes_enable(), width).saturating_add(
            reset_price(reset, width),
        ),
        Family::AsyncFirReg => width.saturating_mul(3),
        _ => 0,
    }
}

// The price of a reset.
fn reset_price(reset: Reset, width: u64) -> u64
    ensures { result ≡ min (reset_price (reset_of reset) width) u64.MAX }
{
    match reset {
        Reset::No => 0,
        Reset::Sync => width.saturating_mul(3),
    }
}
