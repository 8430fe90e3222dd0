//! The gates of a module in which every clock rises at every step.
ghost use Rattle.std.specs.Prelude.{◌<◌, length, IfOk, IfErr};
ghost use Rattle.ir_store.specs.Designs.{design_of};
ghost use Rattle.op_verifier.specs.Answered.{modules_verified};
ghost use Rattle.flat_module_gates.specs.Stepped.{IsAlone};
ghost use Rattle.and_gates.specs.Exports.{IsClockedStep, IsExport};
ghost use Rattle.and_gates.specs.Faults.{IsRefusedExport};

use crate::fail::ExportFail;
use crate::faults::fault_of;
use body_index::op_index::OpIndex;
use flat_module_gates::ports::{clocked_signals, free_bits};
use flat_module_gates::registers::content_bits;
use flat_module_gates::stepped::stepped_signals_over;
use flat_module_gates::widths::{sum, variables};
use gates::circuit::Gates;
use gates::signal::Signal;
use miter_blast::flat_copy;
use op_verifier::Verified;
use std::alloc::{AllocError, Global};

/// The gates of a module.
#[derive(Drop)]
pub struct StepGates {
    /// A copy of the module, flat and without aggregates, as a design of that module alone.
    pub copy: Verified,
    /// The gates of its step.
    pub step: ClockedStep,
}

/// The gates of a step of a flat module in which every clock rises.
#[derive(Drop)]
pub struct ClockedStep {
    /// The gates. Their inputs are the inputs that are no clocks, and then what the registers hold.
    pub circuit: Gates,
    /// The signals of the outputs in the order of the ports, and then of what the registers hold next.
    pub signals: Vec<Signal>,
}

/// The gates of the module of a number: of a copy of it, flat and without aggregates, in which clocks are 1. It is refused for
/// the first of these causes: the registers of the copy have several clocks; one is reset without its clock; the copy may take
/// more than 2^28 gates, or has more than 2^28 inputs and bits of registers. No gate is made before that is known. Linear in
/// the copy and its gates.
pub fn and_gates(alloc: Global, design: &Verified, number: u32) -> Result<StepGates, ExportFail>
    requires { number < length (modules_verified design.now) }
    ensures ok { IfOk result (λ g. IsExport (design_of design.now.design) number (design_of g.copy.design) g.step.circuit g.step.signals.items) }
    ensures refused { IfErr result (IsRefusedExport (design_of design.now.design) number) }
{
    let copy = flat_copy(alloc, design, number)?;
    if let Some(fault) = fault_of(alloc, &copy)? {
        return Err(ExportFail::Refused(fault));
    }
    let step = clocked_step(alloc, &copy)?;
    Ok(StepGates { copy, step })
}

// The gates of the step of the one module of a flat, lowered design, clocks being 1.
fn clocked_step(alloc: Global, copy: &Verified) -> Result<ClockedStep, AllocError>
    requires { IsAlone (design_of copy.now.design) }
    ensures { IfOk result (λ s. IsClockedStep (design_of copy.now.design) s.circuit s.signals.items) }
{
    let one = copy.design().module(0);
    let inputs = clocked_signals(alloc, &one.ports)?;
    let free = free_bits(&one.ports)?;
    let held = content_bits(&OpIndex::of(alloc, &one.body)?)?;
    let content = variables(alloc, free, held)?;
    let mut circuit = Gates::new(alloc, sum(free, held)?);
    let signals = stepped_signals_over(
        alloc,
        &mut circuit,
        copy,
        inputs.as_slice(),
        content.as_slice(),
    )?;
    Ok(ClockedStep { circuit, signals })
}
