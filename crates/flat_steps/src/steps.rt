//! Steps of a flat module.
ghost use Rattle.std.specs.Prelude.{◌≡◌, ◌++◌, map, length, OnOk, IfOk, slice_get};
ghost use Rattle.hw_model.specs.Flat.{held_width};
ghost use Rattle.ir_store.specs.Bodies.{ids_of};
ghost use Rattle.ir_store.specs.Numbered.{position_of, ref_by};
ghost use Rattle.body_index.specs.OpIndexes.{op_view};
ghost use Rattle.flat_steps.specs.Tables.{no_words, word_in, with_words, register_positions, made, CanMake, OpCanMake, with_op, settled_results, TableFits};
ghost use Rattle.flat_steps.specs.Steps.{with_inputs, first_ports, HaveWords, first_results, risen_results, loaded_results, step_results, output_words};
ghost use Rattle.flat_steps.specs.Plans.{ports_of, body_of};

use crate::made::made;
use crate::plan::Plan;
use crate::registers::{Valued, next_words, risen_words};
use crate::start::{first_ports, no_words};
use crate::tables::{put, put_words, word_in};
use bits_core::Bits;
use body_index::op_index::OpIndex;
use flat_module_gates::kinds::stands_anywhere;
use flat_module_gates::widths::first_bits;
use ir_store::body::Op;
use ir_store::operation::Value;
use std::alloc::{AllocError, Global};

/// The words of the values of a module, and room to work in.
#[derive(Drop)]
pub struct Tables {
    /// The words of its ports.
    pub ports: Vec<Bits>,
    /// The words of the first results of its operations, a register's being its content.
    pub results: Vec<Bits>,
    // the words of the ports in the step before
    before: Vec<Bits>,
    // words that are gathered
    words: Vec<Bits>,
}

impl Tables {
    /// Tables before the first step: all bits of the ports are 0, the registers hold words in their order, and the operations
    /// have theirs in an order in which each stands after those whose results it takes. The error comes only when out of memory.
    pub fn start(
        alloc: Global,
        plan: &Plan<'_>,
        order: &[u32],
        content: &[Bits],
    ) -> Result<Tables, AllocError>
        requires ports { HaveWords (ports_of plan.now) }
        requires fits { TableFits (first_ports (ports_of plan.now)) (body_of plan.now) order.now (with_words (register_positions 0 (body_of plan.now)) content.now (no_words (length (body_of plan.now)))) }
        ensures ports { IfOk result (λ t. t.ports.items ≡ first_ports (ports_of plan.now)) }
        ensures results { IfOk result (λ t. t.results.items ≡ first_results (ports_of plan.now) (body_of plan.now) order.now content.now) }
    {
        let ports = first_ports(alloc, plan.ports)?;
        let mut results = no_words(alloc, plan.ops.count())?;
        put_words(plan.registers.as_slice(), content, &mut results);
        let mut words = Vec::new(alloc);
        settle(plan, ports.as_slice(), order, &mut results, &mut words)?;
        Ok(Tables {
            ports,
            results,
            before: Vec::new(alloc),
            words,
        })
    }

    /// One step: first all registers whose asynchronous reset rises take its value, then the operations have their words in an
    /// order in which each stands after those whose results it takes, then the words of the outputs are gathered, and then all
    /// registers load at once. The error comes only when out of memory.
    pub fn step(
        &mut self,
        plan: &Plan<'_>,
        order: &[u32],
        inputs: &[Bits],
        outputs: &mut Vec<Bits>,
    ) -> Result<(), AllocError>
        requires { TableFits (with_inputs (ports_of plan.now) inputs.now self.old.ports.items) (body_of plan.now) order.now (risen_results (body_of plan.now) self.old.ports.items (with_inputs (ports_of plan.now) inputs.now self.old.ports.items) self.old.results.items) }
        ensures ports { OnOk result (self.new.ports.items ≡ with_inputs (ports_of plan.now) inputs.now self.old.ports.items) }
        ensures outputs { OnOk result (outputs.new.items ≡ output_words (body_of plan.now) self.new.ports.items (step_results (ports_of plan.now) (body_of plan.now) order.now inputs.now self.old.ports.items self.old.results.items)) }
        ensures results { OnOk result (self.new.results.items ≡ loaded_results (body_of plan.now) self.new.ports.items (step_results (ports_of plan.now) (body_of plan.now) order.now inputs.now self.old.ports.items self.old.results.items)) }
    {
        self.take_inputs(plan, inputs)?;
        self.rise(plan)?;
        settle(
            plan,
            self.ports.as_slice(),
            order,
            &mut self.results,
            &mut self.words,
        )?;
        outputs.clear();
        push_words(
            &plan.ops,
            self.ports.as_slice(),
            self.results.as_slice(),
            plan.outputs.as_slice(),
            outputs,
        )?;
        self.load(plan)
    }

    // Puts the inputs of a step in their places, and keeps those of the step before.
    fn take_inputs(&mut self, plan: &Plan<'_>, inputs: &[Bits]) -> Result<(), AllocError>
        ensures before { OnOk result (self.new.before.items ≡ self.old.ports.items) }
        ensures ports { OnOk result (self.new.ports.items ≡ with_inputs (ports_of plan.now) inputs.now self.old.ports.items) }
        ensures results { OnOk result (self.new.results.items ≡ self.old.results.items) }
    {
        self.before.clear();
        self.before.extend_from_slice(&self.ports)?;
        put_words(plan.inputs.as_slice(), inputs, &mut self.ports);
        Ok(())
    }

    // Registers whose asynchronous reset rises take its value.
    fn rise(&mut self, plan: &Plan<'_>) -> Result<(), AllocError>
        ensures ports { OnOk result (self.new.ports.items ≡ self.old.ports.items) }
        ensures results { OnOk result (self.new.results.items ≡ risen_results (body_of plan.now) self.old.before.items self.old.ports.items self.old.results.items) }
    {
        let body = Valued {
            ops: &plan.ops,
            ports: self.ports.as_slice(),
            results: self.results.as_slice(),
        };
        risen_words(
            &body,
            self.before.as_slice(),
            plan.registers.as_slice(),
            &mut self.words,
        )?;
        put_words(
            plan.registers.as_slice(),
            self.words.as_slice(),
            &mut self.results,
        );
        Ok(())
    }

    // Registers take their next words.
    fn load(&mut self, plan: &Plan<'_>) -> Result<(), AllocError>
        ensures ports { OnOk result (self.new.ports.items ≡ self.old.ports.items) }
        ensures results { OnOk result (self.new.results.items ≡ loaded_results (body_of plan.now) self.old.ports.items self.old.results.items) }
    {
        let body = Valued {
            ops: &plan.ops,
            ports: self.ports.as_slice(),
            results: self.results.as_slice(),
        };
        next_words(&body, plan.registers.as_slice(), &mut self.words)?;
        put_words(
            plan.registers.as_slice(),
            self.words.as_slice(),
            &mut self.results,
        );
        Ok(())
    }
}

// Gives operations their words, one after another.
fn settle(
    plan: &Plan<'_>,
    ports: &[Bits],
    order: &[u32],
    results: &mut Vec<Bits>,
    words: &mut Vec<Bits>,
) -> Result<(), AllocError>
    requires { TableFits ports.now (body_of plan.now) order.now results.old.items }
    ensures { OnOk result (results.new.items ≡ settled_results ports.now (body_of plan.now) order.now results.old.items) }
{
    let mut left = order;
    while let Some((position, others)) = left.split_first() {
        settle_at(plan, ports, *position as usize, results, words)?;
        left = others;
    }
    Ok(())
}

// Gives the operation at a position its word, where it makes one.
fn settle_at(
    plan: &Plan<'_>,
    ports: &[Bits],
    position: usize,
    results: &mut Vec<Bits>,
    words: &mut Vec<Bits>,
) -> Result<(), AllocError>
    requires { OpCanMake ports.now results.old.items (slice_get (body_of plan.now) position) }
    ensures { OnOk result (results.new.items ≡ with_op ports.now results.old.items position (slice_get (body_of plan.now) position)) }
{
    if position >= plan.ops.count() {
        return Ok(());
    }
    let op = plan.ops.op_at(position);
    if stands_anywhere(op.kind) {
        return Ok(());
    }
    let word = made_word(plan, ports, results.as_slice(), &op, words)?;
    put(results, position, word);
    Ok(())
}

// The word that an operation makes of those of its operands.
fn made_word(
    plan: &Plan<'_>,
    ports: &[Bits],
    results: &[Bits],
    op: &Op<'_>,
    words: &mut Vec<Bits>,
) -> Result<Bits, AllocError>
    requires { CanMake (op_view plan.now.ops.body.now op.now).kind (held_width (op_view plan.now.ops.body.now op.now)) (map (word_in ports.now results.now) (op_view plan.now.ops.body.now op.now).operands) }
    ensures { IfOk result (λ word. word ≡ made (op_view plan.now.ops.body.now op.now) (map (word_in ports.now results.now) (op_view plan.now.ops.body.now op.now).operands)) }
{
    let width = first_bits(op.results)?;
    words.clear();
    push_words(&plan.ops, ports, results, op.operands, words)?;
    Ok(made(op.kind, width, words.as_slice()))
}

// Adds the words of values.
fn push_words(
    ops: &OpIndex<'_>,
    ports: &[Bits],
    results: &[Bits],
    values: &[Value],
    words: &mut Vec<Bits>,
) -> Result<(), AllocError>
    ensures { OnOk result (words.new.items ≡ words.old.items ++ map (word_in ports.now results.now) (map (ref_by (position_of (ids_of ops.now.body.now))) values.now)) }
{
    for value in values {
        words.push(word_in(ops, ports, results, *value))?;
    }
    Ok(())
}
