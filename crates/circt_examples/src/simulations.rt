//! Runs of a module by `sim`, as a text says them.
use crate::runs::run_beside;
use std::alloc::{AllocError, Global};
use std::thread::Threads;

/// What `sim` is given for a run, and what it has to print.
#[derive(Drop)]
struct Simulation {
    top: String,
    content: String,
    steps: String,
    lines: String,
}

// Adds words and the end of their line.
fn push_line(text: &mut String, words: &str) -> Result<(), AllocError> {
    text.push_str(words.trim())?;
    text.push_str("\n")
}

// Puts what a line says into a simulation. A step without inputs is none for `sim`.
fn add_line(alloc: Global, run: &mut Simulation, line: &str) -> Result<(), AllocError> {
    let (word, rest) = line.split_once(' ').unwrap_or((line, ""));
    match word {
        "top" => run.top = String::from_str(alloc, rest)?,
        "from" => run.content = String::from_str(alloc, rest)?,
        "step" => {
            let (inputs, outputs) = rest.split_once("->").unwrap_or((rest, ""));
            if !inputs.trim().is_empty() {
                push_line(&mut run.steps, inputs)?;
                push_line(&mut run.lines, outputs)?;
            }
        }
        _ => {}
    }
    Ok(())
}

// What `sim` is given for the run that a text says, and what it has to print.
fn simulation_of(alloc: Global, text: &str) -> Result<Simulation, AllocError> {
    let mut run = Simulation {
        top: String::new(alloc),
        content: String::new(alloc),
        steps: String::new(alloc),
        lines: String::new(alloc),
    };
    for line in text.lines() {
        add_line(alloc, &mut run, line)?;
    }
    Ok(run)
}

/// Whether `sim` prints of a design the outputs of the run that a text says. The error comes only when out of memory.
pub fn sim_prints(
    rt: &(impl Threads + Sync),
    alloc: Global,
    design: &str,
    text: &str,
) -> Result<bool, AllocError> {
    let run = simulation_of(alloc, text)?;
    let words = format!(in alloc; "sim - steps --top {}", run.top)?;
    let steps = format!(in alloc; "state {}\n{}", run.content, run.steps)?;
    let ended = run_beside(rt, alloc, words.as_str(), design, steps.as_str())?;
    Ok(ended.is(0, run.lines.as_str(), ""))
}
