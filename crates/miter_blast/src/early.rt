//! What is refused of two modules before a copy of any is made.
ghost use Rattle.std.specs.Prelude.{◌≡◌, ◌<◌, cond, map, min, length, IfOk, IfSome, IfNone, slice_get, Some};
ghost use Rattle.wiring.specs.Lists.{total};
ghost use Rattle.hw_model.specs.Types.{Name, width};
ghost use Rattle.hw_model.specs.Design.{Module as HwModule};
ghost use Rattle.hw_model.specs.Sound.{output_types};
ghost use Rattle.ir_store.specs.Designs.{design_of, port_of, ports_in};
ghost use Rattle.run_lists.specs.Runs.{expanded, AreRunsOf};
ghost use Rattle.miter_blast.specs.Comparable.{register_widths};
ghost use Rattle.miter_blast.specs.Comparisons.{IsComparisonRefusal};
ghost use Rattle.miter_blast.specs.LightPairs.{least_price, IsLight};
ghost use Rattle.miter_blast.specs.Pairs.{HasPair, IsPair};

use crate::comparing::MOST_GATES;
use crate::pair::{Pair, at_module, module_in};
use diag::cause::Cause;
use diag::refusal::Refusal;
use ir_store::design::{Port, PortList};
use module_sums::{modules_below, register_runs};
use op_verifier::Verified;
use run_lists::{RunList, same_runs, total_of};
use std::alloc::{AllocError, Global};

/// The refusal of the modules of a pair, where the widths of the leaves of their registers differ, or where the bits of outputs
/// and registers alone take more gates than may be. Nothing is copied: each module is gone over once, however often it is
/// instanced. Where nothing is refused, the widths are the same, and so few bits are not too many. The error comes only when out
/// of memory.
pub(crate) fn early_refusal(
    alloc: Global,
    left: &Verified,
    right: &Verified,
    pair: Pair,
) -> Result<Option<Refusal>, AllocError>
    requires { HasPair (design_of left.now.design) (design_of right.now.design) pair.left pair.right }
    ensures refused { (a b : Name) → IsPair (design_of left.now.design) a (design_of right.now.design) b pair.left pair.right → IfOk result (λ early. IfSome early (IsComparisonRefusal (design_of left.now.design) a (design_of right.now.design) b)) }
    ensures passed { IfOk result (λ early. IfNone early (IsLight (design_of left.now.design) (design_of right.now.design) pair.left pair.right)) }
{
    let first = registers_of(alloc, left, pair.left)?;
    let second = registers_of(alloc, right, pair.right)?;
    if !same_runs(&first, &second) {
        let location = module_in(right, pair.right).location;
        return Ok(Some(at_module(1, location, Cause::RegistersDiffer)));
    }
    let module = module_in(left, pair.left);
    if least_price(&module.ports, &first) > MOST_GATES {
        return Ok(Some(at_module(0, module.location, Cause::TooManyGates)));
    }
    Ok(None)
}

// The widths of the leaves of the registers of a module, in order.
fn registers_of(alloc: Global, verified: &Verified, number: u32) -> Result<RunList, AllocError>
    requires { number < length (design_of verified.now.design) }
    ensures { (m : HwModule) → slice_get (design_of verified.now.design) number ≡ Some m → IfOk result (λ list. AreRunsOf (register_widths (design_of verified.now.design) m.symbol) list.runs.items) }
{
    let design = verified.design();
    let below = modules_below(alloc, design, number)?;
    register_runs(alloc, design, number, below.as_slice())
}

// What two modules with these outputs and these registers take at least, or `u64::MAX` where it is more: 3 for each bit of a
// register of both, and 4 for each bit of an output or of a register.
fn least_price(ports: &PortList, registers: &RunList) -> u64
    ensures { result ≡ min (least_price (expanded registers.now.runs.items) (ports_in ports.now)) u64.MAX }
{
    let held = total_of(registers).saturating_mul(10);
    held.saturating_add(output_bits(ports).saturating_mul(4))
}

// How many bits the outputs among ports have, or `u64::MAX` where they have more.
fn output_bits(ports: &PortList) -> u64
    ensures { result ≡ min (total (map width (output_types (ports_in ports.now)))) u64.MAX }
{
    let mut bits: u64 = 0;
    for port in &ports.ports {
        bits = bits.saturating_add(bits_of_output(port));
    }
    bits
}

// How many bits a port has if it is an output, or `u64::MAX` where it has more; else none.
fn bits_of_output(port: &Port) -> u64
    ensures { result ≡ min (cond (port_of port.now).is_output (width (port_of port.now).type) 0) u64.MAX }
{
    if port.out { port.ty.width() } else { 0 }
}
