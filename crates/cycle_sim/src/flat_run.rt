//! The run of the one module of a flat design.
ghost use Rattle.std.specs.Prelude.{◌≡◌, IfOk, IfErr};
ghost use Rattle.ir_store.specs.Designs.{design_of, module_of, numbered_module};
ghost use Rattle.step_file.specs.Answers.{rows_in, steps_in};
ghost use Rattle.flat_module_gates.specs.Stepped.{IsAlone};
ghost use Rattle.flat_steps.specs.Plans.{ports_of, body_of};
ghost use Rattle.flat_steps.specs.Runs.{run_outputs};
ghost use Rattle.cycle_sim.specs.RunLines.{words_lines};
ghost use Rattle.cycle_sim.specs.FlatRuns.{StepsFit, CanRun, IsModuleRun, IsFlatSimulation, IsFlatFault};

use crate::lines::push_line;
use flat_module_gates::order::operation_order;
use flat_steps::plan::Plan;
use flat_steps::steps::Tables;
use io_edge::byte_text::Text;
use ir_store::design::Module;
use miter_blast::widths::{input_widths, register_widths};
use op_verifier::Verified;
use std::alloc::{AllocError, Global};
use step_file::fail::StepFail;
use step_file::step_file::{Row, StepFile, read_steps};

/// The lines of the run of the one module of a flat design, from the content and with the inputs that a step file says.
pub(crate) fn copy_run(alloc: Global, copy: &Verified, steps: &[u8]) -> Result<Text, StepFail>
    requires { IsAlone (design_of copy.now.design) }
    ensures ok { IfOk result (IsFlatSimulation (design_of copy.now.design) steps.now) }
    ensures err { IfErr result (IsFlatFault (design_of copy.now.design) steps.now) }
{
    let one = copy.design().module(0);
    let registers = register_widths(alloc, one)?;
    let inputs = input_widths(alloc, &one.ports)?;
    let held = registers.as_slice();
    let given = inputs.as_slice();
    let file = match read_steps(alloc, held, given, steps) {
        Ok(file) => file,
        Err(fail) => return Err(fail),
    };
    match module_run(alloc, one, &file) {
        Ok(text) => Ok(text),
        Err(_) => Err(StepFail::NoMemory),
    }
}

// The lines of the run of a flat module, from the content and with the inputs that a step file says.
fn module_run(alloc: Global, module: &Module, file: &StepFile) -> Result<Text, AllocError>
    requires { CanRun (numbered_module (module_of «module».now)) (steps_in file.now) }
    ensures { IfOk result (IsModuleRun (numbered_module (module_of «module».now)) (steps_in file.now)) }
{
    let order = operation_order(alloc, &module.body)?;
    let plan = Plan::of(alloc, module)?;
    let positions = order.as_slice();
    let content = file.content.words.as_slice();
    let rows = file.steps.as_slice();
    let mut tables = Tables::start(alloc, &plan, positions, content)?;
    steps_lines(alloc, &plan, positions, rows, &mut tables)
}

// The lines of steps, one after another.
fn steps_lines(
    alloc: Global,
    plan: &Plan<'_>,
    order: &[u32],
    steps: &[Row],
    tables: &mut Tables,
) -> Result<Text, AllocError>
    requires { StepsFit (ports_of plan.now) (body_of plan.now) order.now (rows_in steps.now) tables.old.ports.items tables.old.results.items }
    ensures { IfOk result (λ text. text ≡ words_lines (run_outputs (ports_of plan.now) (body_of plan.now) order.now (rows_in steps.now) tables.old.ports.items tables.old.results.items)) }
{
    let mut text = Text::new(alloc);
    let mut outputs = Vec::new(alloc);
    let mut left = steps;
    while let Some((row, others)) = left.split_first() {
        let inputs = row.words.as_slice();
        tables.step(plan, order, inputs, &mut outputs)?;
        let words = outputs.as_slice();
        push_line(&mut text, words)?;
        left = others;
    }
    Ok(text)
}
