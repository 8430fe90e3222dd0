//! The price and the formula of two flat modules.
ghost use Rattle.std.specs.Prelude.{◌≡◌, ◌≤◌, min, IfOk, OnOk};
ghost use Rattle.gates.specs.Order.{AreInOrder};
ghost use Rattle.ir_store.specs.Designs.{design_of};
ghost use Rattle.flat_module_gates.specs.Stepped.{IsAlone};
ghost use Rattle.miter_blast.specs.Building.{pair_price, most_gates, AreReady, AreInputsOf, IsDifferenceBuilt, IsBuilt};

use crate::formula::formula_of;
use crate::miter::Miter;
use crate::pair::module_in;
use crate::prices::body_price;
use crate::widths::{input_widths, output_bits, register_bits, total_of};
use flat_module_gates::stepped::stepped_signals;
use gate_words::bitwise::unlike;
use gates::circuit::Gates;
use gates::signal::Signal;
use op_verifier::Verified;
use std::alloc::{AllocError, Global};

/// The price of two flat modules, or `u64::MAX` where it is more: both, and 4 for each bit of an output of the first or of
/// its content.
pub(crate) fn price_of(
    alloc: Global,
    first: &Verified,
    second: &Verified,
) -> Result<u64, AllocError>
    requires one { IsAlone (design_of first.now.design) }
    requires two { IsAlone (design_of second.now.design) }
    ensures { IfOk result (λ n. n ≡ min (pair_price (design_of first.now.design) (design_of second.now.design)) u64.MAX) }
{
    let one = module_in(first, 0);
    let two = module_in(second, 0);
    let both = body_price(alloc, one)?.saturating_add(body_price(alloc, two)?);
    let outputs = u64::from(output_bits(&one.ports)?);
    let bits = outputs.saturating_add(u64::from(register_bits(alloc, one)?));
    Ok(both.saturating_add(bits.saturating_mul(4)))
}

/// The comparison of two flat modules, the registers of the first having these widths. It has not too many gates.
pub(crate) fn built(
    alloc: Global,
    first: &Verified,
    second: &Verified,
    held: Vec<u32>,
) -> Result<Miter, AllocError>
    requires ready { AreReady (design_of first.now.design) (design_of second.now.design) held.items }
    requires few { pair_price (design_of first.now.design) (design_of second.now.design) ≤ most_gates }
    ensures { IfOk result (IsBuilt (design_of first.now.design) (design_of second.now.design)) }
{
    let mut widths = input_widths(alloc, &module_in(first, 0).ports)?;
    widths.extend_from_slice(held.as_slice())?;
    let mut gates = Gates::new(alloc, total_of(widths.as_slice())?);
    let differ = difference(alloc, &mut gates, first, second)?;
    let cnf = formula_of(alloc, &gates, differ)?;
    Ok(Miter { cnf, widths })
}

// Whether the two modules differ in a step, as a signal.
fn difference(
    alloc: Global,
    gates: &mut Gates,
    first: &Verified,
    second: &Verified,
) -> Result<Signal, AllocError>
    requires { AreInputsOf (design_of first.now.design) (design_of second.now.design) gates.old }
    ensures difference { IfOk result (IsDifferenceBuilt (design_of first.now.design) (design_of second.now.design) gates.old gates.new) }
    ensures order { OnOk result (AreInOrder gates.new.inputs gates.new.gates) }
{
    let one = stepped_signals(alloc, gates, first)?;
    let two = stepped_signals(alloc, gates, second)?;
    unlike(alloc, gates, one.as_slice(), two.as_slice())
}
