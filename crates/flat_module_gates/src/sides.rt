//! The signals of a flat module: those of its outputs, and those of what its registers hold after a step.
ghost use Rattle.std.specs.Prelude.{◌≡◌, map, IfOk};
ghost use Rattle.gates.specs.Circuits.{Runs};
ghost use Rattle.hw_model.specs.Design.{output_refs};
ghost use Rattle.hw_model.specs.Flat.{input_width};
ghost use Rattle.ir_store.specs.Bodies.{ops_of};
ghost use Rattle.ir_store.specs.Designs.{ports_in};
ghost use Rattle.ir_store.specs.Numbered.{ops_by_position};
ghost use Rattle.operation_gates.specs.OperationGateLists.{concatenation};
ghost use Rattle.flat_module_gates.specs.FlatGateLists.{starts_from, words_over, word_at};
ghost use Rattle.flat_module_gates.specs.FlatSteps.{content_width, flat_gate_list_over, first_content, flat_gate_list, FlatFitsOver, FlatFits};

use crate::kinds::is_output;
use crate::ports::words_over;
use crate::registers::{Valued, content_bits, loaded_content, next_content};
use crate::values::{Held, Words, built_words, starts_of, words_of};
use crate::widths::{input_bits, port_words, variables};
use body_index::op_index::OpIndex;
use gates::circuit::Gates;
use gates::signal::Signal;
use ir_store::design::Module;
use operation_gates::parts::concatenation;
use operation_gates::signal_word::SignalWord;
use std::alloc::{AllocError, Global};

/// How many bits the inputs of a module have, and how many its registers hold.
#[derive(Clone, Copy)]
pub struct Sizes {
    /// The bits of the inputs.
    pub inputs: u32,
    /// The bits of the registers.
    pub content: u32,
}

/// The sizes of a flat module. 2^32 bits want more memory than there is.
pub fn sizes_of(alloc: Global, module: &Module) -> Result<Sizes, AllocError>
    ensures inputs { IfOk result (λ s. s.inputs ≡ input_width (ports_in «module».now.ports)) }
    ensures content { IfOk result (λ s. s.content ≡ content_width (ops_by_position (ops_of «module».now.body))) }
{
    let ops = OpIndex::of(alloc, &module.body)?;
    Ok(Sizes {
        inputs: input_bits(&module.ports)?,
        content: content_bits(&ops)?,
    })
}

/// Builds a flat module, its operations in an order in which each stands after those whose results it takes, over the first
/// variables: those of its inputs, then those of what its registers hold. Gives the signals of its outputs in the order of
/// its ports, and then those of what its registers hold after a step, asynchronous resets coming first. The error comes only
/// when out of memory, for which 2^32 variables count. Linear in the operations and their gates.
pub fn side_signals(
    alloc: Global,
    gates: &mut Gates,
    module: &Module,
    order: &[u32],
) -> Result<Vec<Signal>, AllocError>
    requires { FlatFits (input_width (ports_in «module».now.ports)) (ports_in «module».now.ports) (ops_by_position (ops_of «module».now.body)) order.now gates.old }
    ensures { IfOk result (λ v. Runs (flat_gate_list (input_width (ports_in «module».now.ports)) (ports_in «module».now.ports) (ops_by_position (ops_of «module».now.body)) order.now) gates.old gates.new v.items) }
{
    let ops = OpIndex::of(alloc, &module.body)?;
    let starts = starts_of(alloc, &ops)?;
    let content = first_content(alloc, gates, module, &ops, starts.as_slice())?;
    let held = Held {
        ops: &ops,
        content: content.as_slice(),
        starts: starts.as_slice(),
    };
    let ports = port_words(alloc, &module.ports)?;
    held_signals(alloc, gates, &held, ports, order)
}

/// The same over signals of the inputs and of what the registers hold: asynchronous resets have loaded them already. The error
/// comes only when out of memory, for which 2^32 variables count. Linear in the operations and their gates.
pub fn side_signals_over(
    alloc: Global,
    gates: &mut Gates,
    module: &Module,
    order: &[u32],
    inputs: &[Signal],
    content: &[Signal],
) -> Result<Vec<Signal>, AllocError>
    requires { FlatFitsOver (words_over inputs.now 0 (ports_in «module».now.ports)) content.now (ops_by_position (ops_of «module».now.body)) order.now gates.old }
    ensures { IfOk result (λ v. Runs (flat_gate_list_over (words_over inputs.now 0 (ports_in «module».now.ports)) content.now (ops_by_position (ops_of «module».now.body)) order.now) gates.old gates.new v.items) }
{
    let ops = OpIndex::of(alloc, &module.body)?;
    let starts = starts_of(alloc, &ops)?;
    let held = Held {
        ops: &ops,
        content,
        starts: starts.as_slice(),
    };
    let ports = words_over(alloc, &module.ports, inputs)?;
    held_signals(alloc, gates, &held, ports, order)
}

// The signals of a body whose ports have these words and whose registers have content.
fn held_signals(
    alloc: Global,
    gates: &mut Gates,
    held: &Held<'_>,
    ports: Vec<SignalWord>,
    order: &[u32],
) -> Result<Vec<Signal>, AllocError>
    requires { FlatFitsOver ports.items held.now.content.now (ops_by_position (ops_of held.now.ops.now.body.now)) order.now gates.old }
    ensures { IfOk result (λ v. Runs (flat_gate_list_over ports.items held.now.content.now (ops_by_position (ops_of held.now.ops.now.body.now)) order.now) gates.old gates.new v.items) }
{
    let words = built_words(alloc, gates, held, ports, order)?;
    let body = Valued {
        ops: held.ops,
        words: &words,
        starts: held.starts,
    };
    let next = next_content(alloc, gates, &body, held.content)?;
    let mut made = output_word(alloc, held.ops, &words)?;
    made.extend_from_slice(next.as_slice())?;
    Ok(made)
}

// The content of a module's registers, whose variables follow those of its inputs, once they are loaded.
fn first_content(
    alloc: Global,
    gates: &mut Gates,
    module: &Module,
    ops: &OpIndex<'_>,
    starts: &[u32],
) -> Result<Vec<Signal>, AllocError>
    requires { starts.now ≡ starts_from 0 (ops_by_position (ops_of ops.now.body.now)) }
    ensures { IfOk result (λ v. Runs (first_content (input_width (ports_in «module».now.ports)) (ports_in «module».now.ports) (ops_by_position (ops_of ops.now.body.now))) gates.old gates.new v.items) }
{
    let words = Words {
        ports: port_words(alloc, &module.ports)?,
        results: Vec::new(alloc),
    };
    let content = variables(alloc, input_bits(&module.ports)?, content_bits(ops)?)?;
    let body = Valued {
        ops,
        words: &words,
        starts,
    };
    loaded_content(alloc, gates, &body, content.as_slice())
}

// The signals of the outputs, in the order of the ports.
fn output_word(alloc: Global, ops: &OpIndex<'_>, words: &Words) -> Result<Vec<Signal>, AllocError>
    ensures { IfOk result (λ v. v.items ≡ concatenation (map (word_at words.now.ports.items words.now.results.items) (output_refs (ops_by_position (ops_of ops.now.body.now))))) }
{
    for position in 0..ops.count() {
        let op = ops.op_at(position);
        if is_output(op.kind) {
            let given = words_of(alloc, ops, words, op.operands)?;
            return concatenation(alloc, given.as_slice());
        }
    }
    Ok(Vec::new(alloc))
}
