//! Differences that are printed, replayed by an interpreter of designs.
use crate::designs::modules_of;
use crate::words::word_of;
use hw_interpreter::design::{Module, Setting};
use hw_interpreter::machine::{Stepped, step};
use hw_interpreter::modules::{depth_of, module_state};
use operation_values::bit_string::BitString;
use std::alloc::{AllocError, Global};

// How deep values of nets stand at most.
const DEPTH: u32 = 400;

// The bits of the words of all lines but the first, each `NAME = WORD`, or none where a line has no word.
fn bits_in(alloc: Global, text: &str) -> Result<Option<BitString>, AllocError> {
    let mut bits = BitString::new(alloc);
    for line in text.lines().skip(1) {
        let Some((_, literal)) = line.split_once(" = ") else {
            return Ok(None);
        };
        let Some(word) = word_of(literal) else {
            return Ok(None);
        };
        let own = BitString::from_bits(alloc, &word)?;
        bits.push_bits(own.as_slice())?;
    }
    Ok(Some(bits))
}

// The step of a module of a symbol from no inputs, so that each reset that is 1 rises, at bits of inputs and then of content.
fn step_at(
    alloc: Global,
    modules: &[Module],
    symbol: &str,
    bits: &[bool],
) -> Result<Option<Stepped>, AllocError> {
    let Ok(held) = module_state(modules, depth_of(modules), symbol.as_bytes()) else {
        return Ok(None);
    };
    let inputs = bits.len().saturating_sub(held as usize);
    let (inputs, content) = bits.split_at(inputs);
    let before = BitString::zeros(alloc, inputs.len() as u64)?;
    let at = Setting {
        modules,
        top: symbol.as_bytes(),
        inputs,
        content,
    };
    match step(alloc, before.as_slice(), &at, DEPTH) {
        Ok(stepped) => Ok(Some(stepped)),
        Err(_) => Ok(None),
    }
}

/// Whether modules `p` and `q` of a text give other outputs or leave other content at the words that a difference's text has. The
/// error comes only when out of memory.
pub fn do_differ(alloc: Global, source: &str, difference: &str) -> Result<bool, AllocError> {
    let Some(bits) = bits_in(alloc, difference)? else {
        return Ok(false);
    };
    let Some(modules) = modules_of(alloc, source.as_bytes())? else {
        return Ok(false);
    };
    let one = step_at(alloc, modules.as_slice(), "p", bits.as_slice())?;
    let two = step_at(alloc, modules.as_slice(), "q", bits.as_slice())?;
    let (Some(one), Some(two)) = (one, two) else {
        return Ok(false);
    };
    Ok(
        one.outputs.as_slice() != two.outputs.as_slice()
            || one.content.as_slice() != two.content.as_slice(),
    )
}
