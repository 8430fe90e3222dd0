//! The text of the gates of a flat module.
ghost use Rattle.std.specs.Prelude.{◌≡◌, ◌+◌, length, IfOk};
ghost use Rattle.ir_store.specs.Bodies.{ops_of};
ghost use Rattle.ir_store.specs.Designs.{design_of, module_of, numbered_module, ports_in};
ghost use Rattle.ir_store.specs.Numbered.{ops_by_position};
ghost use Rattle.net_gates.specs.ClockedInputs.{free_bits};
ghost use Rattle.flat_module_laws.specs.FlatPrices.{output_bits};
ghost use Rattle.flat_module_gates.specs.FlatSteps.{content_width};
ghost use Rattle.and_gates.specs.Exports.{IsClockedStep};
ghost use Rattle.aiger_circuits.specs.CircuitTexts.{tree_text};
ghost use Rattle.aiger_export.specs.BitNames.{bit_symbols};
ghost use Rattle.aiger_export.specs.Exports.{step_tree};

use crate::bit_names::bit_symbols;
use aiger_circuits::write::{BitNames, write_circuit};
use and_gates::steps::{ClockedStep, StepGates};
use body_index::op_index::OpIndex;
use flat_module_gates::registers::content_bits;
use io_edge::byte_text::Text;
use ir_store::design::Module;
use std::alloc::{AllocError, Global};

/// The text of the gates of a module, with the names of its bits. The error comes only when out of memory, for which 2^32 - 124
/// ports and registers count.
pub(crate) fn step_text(alloc: Global, made: &StepGates) -> Result<Text, AllocError>
    requires { IsClockedStep (design_of made.now.copy.design) made.now.step.circuit made.now.step.signals.items }
    ensures { (is : IsClockedStep (design_of made.now.copy.design) made.now.step.circuit made.now.step.signals.items) → IfOk result (λ text. text ≡ tree_text (step_tree is.one made.now.step.circuit made.now.step.signals.items) (bit_symbols is.one.ports is.one.body)) }
{
    let one = made.copy.design().module(0);
    module_text(alloc, one, &made.step)
}

// The text of the gates of a flat module.
fn module_text(alloc: Global, one: &Module, step: &ClockedStep) -> Result<Text, AllocError>
    requires inputs { step.now.circuit.inputs ≡ free_bits (ports_in one.now.ports) + content_width (ops_by_position (ops_of one.now.body)) }
    requires signals { length step.now.signals.items ≡ output_bits (numbered_module (module_of one.now)) + content_width (ops_by_position (ops_of one.now.body)) }
    ensures { IfOk result (λ text. text ≡ tree_text (step_tree (numbered_module (module_of one.now)) step.now.circuit step.now.signals.items) (bit_symbols (ports_in one.now.ports) (ops_by_position (ops_of one.now.body)))) }
{
    let names = bit_symbols(alloc, one)?;
    let held = content_bits(&OpIndex::of(alloc, &one.body)?)? as usize;
    let signals = step.signals.as_slice();
    let (outputs, nexts) = signals.split_at(signals.len() - held);
    let bits = BitNames {
        inputs: names.inputs.as_slice(),
        latches: names.latches.as_slice(),
        outputs: names.outputs.as_slice(),
    };
    write_circuit(alloc, &step.circuit, outputs, nexts, bits)
}
