//! The price of a body.
ghost use Rattle.std.specs.Prelude.{◌≡◌, ◌+◌, ◌*◌, false, ℕ, List, length, min, IfOk};
ghost use Rattle.hw_model.specs.Design.{register_form};
ghost use Rattle.hw_model.specs.Flat.{has_async_reset};
ghost use Rattle.hw_model.specs.KindViews.{kind_of, reset_of};
ghost use Rattle.hw_model.specs.FamilyViews.{family_of, variadic_of};
ghost use Rattle.ir_store.specs.Bodies.{ops_of};
ghost use Rattle.ir_store.specs.Designs.{ports_in};
ghost use Rattle.ir_store.specs.Numbered.{ops_by_position};
ghost use Rattle.ir_store.specs.OperationViews.{results_in};
ghost use Rattle.body_index.specs.OpIndexes.{op_view};
ghost use Rattle.operation_gates.specs.Prices.{price, pair_price, first_width};
ghost use Rattle.flat_module_laws.specs.FlatPrices.{op_price, results_price};
ghost use Rattle.miter_blast.specs.ComparisonPrices.{choice_price, clock_price, form_price, register_price};
ghost use Rattle.miter_blast.specs.BodyPrices.{whole_price, body_price};

use crate::operands::{Typed, first_width};
use body_index::op_index::OpIndex;
use flat_module_gates::widths::{bits_of, first_bits};
use hw_model::families::{Family, Variadic};
use hw_model::kinds::{OpKind, Reset};
use ir_store::body::Op;
use ir_store::design::Module;
use ir_store::operation::NewResultList;
use std::alloc::{AllocError, Global};

/// How many gates a flat module with its registers may take, or `u64::MAX` where that is more: for operands of W bits, of
/// which there are n, and, or W(n - 1); xor 3W(n - 1); add 12W(n - 1); sub 12W; mul 13WW(n - 1); shifts 32W; divisions
/// 16WW + 64W; icmp 12W + 3; parity and mux 3W; a register 3W, with an asynchronous reset 9W, and 3W more with an enable and
/// with a synchronous reset; all else none. The error comes only when out of memory, for which 2^32 operations count, and a
/// value of 2^32 bits. Linear in the operations.
pub fn body_price(alloc: Global, module: &Module) -> Result<u64, AllocError>
    ensures { IfOk result (λ n. n ≡ min (body_price (ports_in «module».now.ports) (ops_by_position (ops_of «module».now.body))) u64.MAX) }
{
    let ops = OpIndex::of(alloc, &module.body)?;
    let body = Typed {
        ports: &module.ports,
        ops: &ops,
    };
    let mut price: u64 = 0;
    for position in 0..ops.count() {
        price = price.saturating_add(whole_price(&body, &ops.op_at(position))?);
    }
    Ok(price)
}

// The price of an operation, with that of a register's step.
fn whole_price(body: &Typed<'_>, op: &Op<'_>) -> Result<u64, AllocError>
    ensures { IfOk result (λ n. n ≡ min (whole_price (ports_in body.now.ports.now) (ops_by_position (ops_of body.now.ops.now.body.now)) (op_view body.now.ops.now.body.now op.now)) u64.MAX) }
{
    let results = op_price(body, op)?;
    let step = register_price(op.kind, u64::from(first_bits(op.results)?));
    Ok(results.saturating_add(step))
}

/// The price of an operation's gate list, or `u64::MAX` where that is more; a register has none. The error comes only when out of
/// memory, for which a value of 2^32 bits counts.
pub(crate) fn op_price(body: &Typed<'_>, op: &Op<'_>) -> Result<u64, AllocError>
    ensures { IfOk result (λ n. n ≡ min (op_price (ports_in body.now.ports.now) (ops_by_position (ops_of body.now.ops.now.body.now)) (op_view body.now.ops.now.body.now op.now)) u64.MAX) }
{
    let operands = Operands {
        count: op.operands.len() as u64,
        first: u64::from(first_width(body, op.operands)?),
    };
    results_price(op.kind, operands, op.results)
}

// How many operands there are, and how wide the first one is.
#[derive(Clone, Copy)]
struct Operands {
    count: u64,
    first: u64,
}

// The prices of the results of an operation together.
fn results_price(
    kind: &OpKind,
    operands: Operands,
    results: &NewResultList,
) -> Result<u64, AllocError>
    ensures { (ns : List ℕ) → length ns ≡ operands.count → first_width ns ≡ operands.first → IfOk result (λ n. n ≡ min (results_price (kind_of kind.now) ns (results_in results.now)) u64.MAX) }
{
    let mut price: u64 = 0;
    for one in results.as_slice() {
        price = price.saturating_add(gate_list_price(
            kind.family(),
            u64::from(bits_of(&one.ty)?),
            operands,
        ));
    }
    Ok(price)
}

// The price of a gate list with a result of so many bits.
fn gate_list_price(family: Family<'_>, width: u64, operands: Operands) -> u64
    ensures { (ns : List ℕ) → length ns ≡ operands.count → first_width ns ≡ operands.first → result ≡ min (price (family_of family.entry) width ns) u64.MAX }
{
    match family {
        Family::Variadic(op) => pair_price(op, width).saturating_mul(
            operands.count.saturating_sub(1),
        ),
        Family::Sub => width.saturating_mul(12),
        Family::Division(_) => square(width)
            .saturating_mul(16)
            .saturating_add(width.saturating_mul(64)),
        Family::Shift(_) => width.saturating_mul(32),
        Family::Icmp(_) => operands.first.saturating_mul(12).saturating_add(3),
        Family::Parity => operands.first.saturating_mul(3),
        Family::Mux => width.saturating_mul(3),
        _ => 0,
    }
}

// The price for each operand after the first one.
fn pair_price(op: Variadic, width: u64) -> u64
    ensures { result ≡ min (pair_price (variadic_of op) width) u64.MAX }
{
    match op {
        Variadic::Add => width.saturating_mul(12),
        Variadic::Mul => square(width).saturating_mul(13),
        Variadic::And | Variadic::Or => width,
        Variadic::Xor => width.saturating_mul(3),
    }
}

fn square(width: u64) -> u64
    ensures { result ≡ min (width * width) u64.MAX }
{
    width.saturating_mul(width)
}

// The price of the step of a register of so many bits; 0 of another operation.
fn register_price(kind: &OpKind, width: u64) -> u64
    ensures { result ≡ min (form_price (has_async_reset (kind_of kind.now)) width (register_form (kind_of kind.now))) u64.MAX }
{
    match kind.family() {
        Family::Register(op, reset) => choice_price(op.takes_enable(), width).saturating_add(
            clock_price(reset, width),
        ),
        Family::AsyncFirReg => width.saturating_mul(9),
        _ => 0,
    }
}

/// The price of a choice by an enable.
pub(crate) fn choice_price(has_enable: bool, width: u64) -> u64
    ensures { result ≡ min (choice_price has_enable width) u64.MAX }
{
    if has_enable {
        width.saturating_mul(3)
    } else {
        0
    }
}

// The price of a clock, and of a synchronous reset.
fn clock_price(reset: Reset, width: u64) -> u64
    ensures { result ≡ min (clock_price false (reset_of reset) width) u64.MAX }
{
    match reset {
        Reset::No => width.saturating_mul(3),
        Reset::Sync => width.saturating_mul(6),
    }
}
