//! Runs of a module, step by step, as a text says them.
use crate::designs::modules_of;
use crate::words::{join_words, words_of, zeros};
use bits_core::Bits;
use hw_interpreter::design::Setting;
use hw_interpreter::machine;
use operation_values::bit_string::BitString;
use std::alloc::{AllocError, Global};
use verilog_interpreter::fault::Fault;
use verilog_interpreter::machine::{Machine, Stepped};
use verilog_interpreter::text::modules;

// More than the nets that stand one before another in any design.
const DEPTH: u32 = 2100;

/// The inputs of a step and its outputs, by their leaves.
#[derive(Drop)]
struct Step {
    inputs: Vec<Bits>,
    outputs: Vec<Bits>,
}

/// The name of a module, its content at first, its steps, and its content in the end.
#[derive(Drop)]
pub struct Run {
    top: String,
    first: Vec<Bits>,
    steps: Vec<Step>,
    last: Vec<Bits>,
}

impl Run {
    /// The name of the module.
    pub fn top(&self) -> &str {
        self.top.as_str()
    }
}

// The step that a line says, its inputs before `->` and its outputs after it.
fn step_of(alloc: Global, text: &str) -> Result<Option<Step>, AllocError> {
    let Some((before, after)) = text.split_once("->") else {
        return Ok(None);
    };
    let Some(inputs) = words_of(alloc, before)? else {
        return Ok(None);
    };
    let Some(outputs) = words_of(alloc, after)? else {
        return Ok(None);
    };
    Ok(Some(Step { inputs, outputs }))
}

// Puts what a line says into a run, and answers whether it says something.
fn add_line(alloc: Global, run: &mut Run, line: &str) -> Result<bool, AllocError> {
    let Some((word, rest)) = line.split_once(' ') else {
        return Ok(false);
    };
    match word {
        "top" => run.top = String::from_str(alloc, rest)?,
        "from" => match words_of(alloc, rest)? {
            Some(words) => run.first = words,
            None => return Ok(false),
        },
        "step" => match step_of(alloc, rest)? {
            Some(step) => run.steps.push(step)?,
            None => return Ok(false),
        },
        "to" => match words_of(alloc, rest)? {
            Some(words) => run.last = words,
            None => return Ok(false),
        },
        _ => return Ok(false),
    }
    Ok(true)
}

/// The run that a text says, or none where a line of it says nothing. A line is `top NAME`, `from WORDS` (the content at first),
/// `step INPUTS -> OUTPUTS` or `to WORDS` (the content in the end). The error comes only when out of memory.
pub fn run_of(alloc: Global, text: &str) -> Result<Option<Run>, AllocError> {
    let mut run = Run {
        top: String::new(alloc),
        first: Vec::new(alloc),
        steps: Vec::new(alloc),
        last: Vec::new(alloc),
    };
    for line in text.lines() {
        if !add_line(alloc, &mut run, line)? {
            return Ok(None);
        }
    }
    Ok(Some(run))
}

// Whether words are these, in width and value.
fn are(words: &[Bits], expected: &[Bits]) -> bool {
    let mut same = words.len() == expected.len();
    for (word, other) in words.iter().zip(expected) {
        same &= word.width() == other.width() && word.value() == other.value();
    }
    same
}

// Whether the bits are those of words.
fn are_bits(alloc: Global, bits: &BitString, expected: &[Bits]) -> Result<bool, AllocError> {
    let expected = join_words(alloc, expected)?;
    Ok(bits.as_slice() == expected.as_slice())
}

/// Whether a design takes the steps of a run, with its outputs and its content in the end. The error comes only when out of memory.
pub fn design_runs(alloc: Global, text: &str, run: &Run) -> Result<bool, AllocError> {
    let Some(modules) = modules_of(alloc, text.as_bytes())? else {
        return Ok(false);
    };
    let mut before = BitString::new(alloc);
    let mut content = join_words(alloc, run.first.as_slice())?;
    for step in &run.steps {
        let inputs = join_words(alloc, step.inputs.as_slice())?;
        let at = Setting {
            modules: modules.as_slice(),
            top: run.top.as_bytes(),
            inputs: inputs.as_slice(),
            content: content.as_slice(),
        };
        let Ok(stepped) = machine::step(alloc, before.as_slice(), &at, DEPTH) else {
            return Ok(false);
        };
        if !are_bits(alloc, &stepped.outputs, step.outputs.as_slice())? {
            return Ok(false);
        }
        before = inputs;
        content = stepped.content;
    }
    are_bits(alloc, &content, run.last.as_slice())
}

// The step of the module of a name in a text, from the inputs of the step before.
fn verilog_step(
    alloc: Global,
    text: &str,
    top: &str,
    before: &[Bits],
    inputs: &[Bits],
    content: &[Bits],
) -> Result<Stepped, Fault> {
    let read = modules(alloc, text.as_bytes())?;
    let machine = Machine::new(alloc, read.as_slice(), top.as_bytes())?;
    machine.step_after(alloc, before, inputs, content)
}

// The inputs before the first step of a run, all of them 0.
fn inputs_at_first(alloc: Global, run: &Run) -> Result<Vec<Bits>, AllocError> {
    match run.steps.first() {
        Some(step) => zeros(alloc, step.inputs.as_slice()),
        None => Ok(Vec::new(alloc)),
    }
}

/// Whether a Verilog text takes the steps of a run, with its outputs and its content in the end. The error comes only when out of
/// memory.
pub fn verilog_runs(alloc: Global, text: &str, run: &Run) -> Result<bool, AllocError> {
    let top = run.top.as_str();
    let mut before = inputs_at_first(alloc, run)?;
    let mut content = Vec::from_slice(alloc, run.first.as_slice())?;
    for step in &run.steps {
        let inputs = step.inputs.as_slice();
        let taken = verilog_step(
            alloc,
            text,
            top,
            before.as_slice(),
            inputs,
            content.as_slice(),
        );
        let Ok(stepped) = taken else {
            return Ok(false);
        };
        if !are(stepped.outputs.as_slice(), step.outputs.as_slice()) {
            return Ok(false);
        }
        before = Vec::from_slice(alloc, inputs)?;
        content = stepped.content;
    }
    Ok(are(content.as_slice(), run.last.as_slice()))
}
