//! The step of a design's one module, in gates.
ghost use Rattle.std.specs.Prelude.{IfOk, OnOk};
ghost use Rattle.gates.specs.Order.{AreInOrder};
ghost use Rattle.ir_store.specs.Designs.{design_of};
ghost use Rattle.flat_module_gates.specs.Stepped.{IsAlone, HasInputsOf, IsStepped, IsSteppedOver, AreAsWide};

use crate::order::operation_order;
use crate::sides::{side_signals, side_signals_over};
use gates::circuit::Gates;
use gates::signal::Signal;
use op_verifier::Verified;
use std::alloc::{AllocError, Global};

/// Builds the one module of a flat, lowered design over the first variables of a circuit: those of its inputs, then those of
/// what its registers hold. Gives the signals of its outputs in the order of its ports, and then those of what its registers
/// hold after a step, asynchronous resets coming first. The error comes only when out of memory, for which 2^32 variables or
/// operations count. Linear in the operations and their gates.
pub fn stepped_signals(
    alloc: Global,
    gates: &mut Gates,
    verified: &Verified,
) -> Result<Vec<Signal>, AllocError>
    requires plain { IsAlone (design_of verified.now.design) }
    requires room { HasInputsOf (design_of verified.now.design) gates.old }
    ensures step { IfOk result (λ v. IsStepped (design_of verified.now.design) gates.old gates.new v.items) }
    ensures order { OnOk result (AreInOrder gates.new.inputs gates.new.gates) }
{
    let one = verified.design().module(0);
    let order = operation_order(alloc, &one.body)?;
    side_signals(alloc, gates, one, order.as_slice())
}

/// Builds it over given signals of its inputs and of what its registers hold. Gives the signals of its outputs in the order of
/// its ports, and then those of what its registers hold after a step. The error comes only when out of memory, for which 2^32
/// variables or operations count. Linear in the operations and their gates.
pub fn stepped_signals_over(
    alloc: Global,
    gates: &mut Gates,
    verified: &Verified,
    inputs: &[Signal],
    content: &[Signal],
) -> Result<Vec<Signal>, AllocError>
    requires plain { IsAlone (design_of verified.now.design) }
    requires wide { AreAsWide (design_of verified.now.design) inputs.now content.now }
    ensures { IfOk result (λ v. IsSteppedOver (design_of verified.now.design) inputs.now content.now gates.old gates.new v.items) }
{
    let one = verified.design().module(0);
    let order = operation_order(alloc, &one.body)?;
    side_signals_over(alloc, gates, one, order.as_slice(), inputs, content)
}
