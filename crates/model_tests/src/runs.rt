//! Small designs, run.

use crate::designs::{Line, Part, RUNS, Run};
use crate::kinds::{Shape, kind_of, type_of, types_of, word};
use crate::register_designs;
use hw_interpreter::design::{Module, Operation, Port};
use hw_interpreter::machine::run;
use io_edge::byte_text::Text;
use operation_values::bit_string::{BitString, bits_of};
use operation_values::refusal::Refusal;
use std::alloc::Global;
use std::test::Fail;

fn operation(alloc: Global, line: &Line) -> Result<Operation, Refusal> {
    Ok(Operation {
        kind: kind_of(alloc, line.kind)?,
        operands: Vec::from_slice(alloc, line.operands)?,
        types: types_of(alloc, line.types)?,
        results: types_of(alloc, line.results)?,
    })
}

fn push_ports(
    alloc: Global,
    ports: &mut Vec<Port>,
    shapes: &[Shape],
    is_output: bool,
) -> Result<(), Refusal> {
    for shape in shapes {
        let ty = type_of(alloc, *shape)?;
        ports.push(Port {
            name: Text::new(alloc),
            is_output,
            ty,
        })?;
    }
    Ok(())
}

fn module(alloc: Global, part: &Part) -> Result<Module, Refusal> {
    let mut ports = Vec::new(alloc);
    push_ports(alloc, &mut ports, part.inputs, false)?;
    push_ports(alloc, &mut ports, part.outputs, true)?;
    let mut body = Vec::new(alloc);
    for line in part.body {
        body.push(operation(alloc, line)?)?;
    }
    Ok(Module {
        symbol: Text::of(alloc, part.symbol.as_bytes())?,
        is_private: false,
        ports,
        body,
    })
}

fn modules_of(alloc: Global, parts: &[Part]) -> Result<Vec<Module>, Refusal> {
    let mut modules = Vec::new(alloc);
    for part in parts {
        modules.push(module(alloc, part)?)?;
    }
    Ok(modules)
}

fn content_of(alloc: Global, words: &[(u32, u128)]) -> Result<BitString, Refusal> {
    let mut content = BitString::new(alloc);
    for (width, number) in words {
        content.push_bits(word(alloc, *width, *number)?.as_slice())?;
    }
    Ok(content)
}

// The outputs of a run, each step a word.
fn outputs_of(alloc: Global, example: &Run) -> Result<Vec<BitString>, Refusal> {
    let modules = modules_of(alloc, example.design)?;
    let content = content_of(alloc, example.content)?;
    let mut steps = Vec::new(alloc);
    for number in example.steps {
        steps.push(word(alloc, example.width, *number)?)?;
    }
    match example.design.last() {
        Some(part) => run(
            alloc,
            modules.as_slice(),
            part.symbol.as_bytes(),
            content.as_slice(),
            steps.as_slice(),
            8,
        ),
        None => Err(Refusal::NotFitting),
    }
}

// Whether words are these numbers.
fn are(words: &[BitString], numbers: &[u128]) -> Result<bool, Refusal> {
    for (word, number) in words.iter().zip(numbers) {
        if bits_of(word.as_slice())?.value() != *number {
            return Ok(false);
        }
    }
    Ok(words.len() == numbers.len())
}

// The first run that gives other outputs, by its position.
fn first_other(alloc: Global, runs: &[Run]) -> Result<Option<usize>, Refusal> {
    for (at, run) in runs.iter().enumerate() {
        let outputs = outputs_of(alloc, run)?;
        if !are(outputs.as_slice(), run.outputs)? {
            return Ok(Some(at));
        }
    }
    Ok(None)
}

#[test]
fn designs_run(rt: HostRuntime) -> Result<(), Fail> {
    assert_eq!(rt; first_other(rt.alloc(), &RUNS)?, None);
    Ok(())
}

#[test]
fn designs_with_registers_run(rt: HostRuntime) -> Result<(), Fail> {
    assert_eq!(rt; first_other(rt.alloc(), &register_designs::RUNS)?, None);
    Ok(())
}
