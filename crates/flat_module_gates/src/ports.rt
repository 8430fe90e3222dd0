//! Words of ports over given signals of the inputs, and those signals where clocks are 1.
ghost use Rattle.std.specs.Prelude.{◌≡◌, ◌+◌, IfOk};
ghost use Rattle.hw_model.specs.TypeViews.{type_of};
ghost use Rattle.ir_store.specs.Designs.{port_of, ports_in};
ghost use Rattle.net_gates.specs.ClockedInputs.{free_width, free_word, port_bits, clocked_word, free_bits, clocked_signals};
ghost use Rattle.flat_module_gates.specs.FlatGateLists.{word_over, words_over};

use crate::values::held_word;
use crate::widths::{after_port, bits_of, sum, variables};
use gates::signal::Signal;
use hw_model::types::Ty;
use ir_store::design::{Port, PortList};
use operation_gates::signal_word::SignalWord;
use std::alloc::{AllocError, Global};

/// The words of ports in order, where the inputs have these signals; an output has none.
pub fn words_over(
    alloc: Global,
    ports: &PortList,
    inputs: &[Signal],
) -> Result<Vec<SignalWord>, AllocError>
    ensures { IfOk result (λ v. v.items ≡ words_over inputs.now 0 (ports_in ports.now)) }
{
    let mut words = Vec::with_capacity(alloc, ports.ports.len())?;
    let mut start = 0;
    for port in &ports.ports {
        words.push(word_over(alloc, port, inputs, start)?)?;
        start = after_port(port, start)?;
    }
    Ok(words)
}

// The word of a port, so many signals of inputs being before it.
fn word_over(
    alloc: Global,
    port: &Port,
    inputs: &[Signal],
    start: u32,
) -> Result<SignalWord, AllocError>
    ensures { IfOk result (λ w. w ≡ word_over inputs.now start (port_of port.now)) }
{
    if port.out {
        return Ok(SignalWord::new(alloc));
    }
    held_word(alloc, inputs, start, bits_of(&port.ty)?)
}

/// The signals of the inputs among ports in order: 1 for each clock, and the first variables for the others.
pub fn clocked_signals(alloc: Global, ports: &PortList) -> Result<Vec<Signal>, AllocError>
    ensures { IfOk result (λ v. v.items ≡ clocked_signals 0 (ports_in ports.now)) }
{
    let mut signals = Vec::new(alloc);
    let mut start = 0;
    for port in &ports.ports {
        let word = clocked_word(alloc, port, start)?;
        signals.extend_from_slice(word.as_slice())?;
        start = sum(start, port_bits(port)?)?;
    }
    Ok(signals)
}

/// How many variables they take: as many as the inputs have bits that are no clocks.
pub fn free_bits(ports: &PortList) -> Result<u32, AllocError>
    ensures { IfOk result (λ n. n ≡ free_bits (ports_in ports.now)) }
{
    let mut bits = 0;
    let mut left = ports.ports.len();
    while left > 0 {
        left -= 1;
        bits = sum(port_bits(&ports.ports[left])?, bits)?;
    }
    Ok(bits)
}

// How many variables a port takes; an output takes none.
fn port_bits(port: &Port) -> Result<u32, AllocError>
    ensures { IfOk result (λ n. n ≡ port_bits (port_of port.now)) }
{
    if port.out {
        Ok(0)
    } else {
        free_width(&port.ty)
    }
}

// How many variables an input of a type takes.
fn free_width(ty: &Ty) -> Result<u32, AllocError>
    ensures { IfOk result (λ n. n ≡ free_width (type_of ty.now)) }
{
    match ty {
        Ty::Clock => Ok(0),
        _ => bits_of(ty),
    }
}

// The signals of a port, so many variables being before it.
fn clocked_word(alloc: Global, port: &Port, start: u32) -> Result<Vec<Signal>, AllocError>
    ensures { IfOk result (λ v. v.items ≡ clocked_word start (port_of port.now)) }
{
    if port.out {
        Ok(Vec::new(alloc))
    } else {
        free_word(alloc, &port.ty, start)
    }
}

// Those of an input of a type.
fn free_word(alloc: Global, ty: &Ty, start: u32) -> Result<Vec<Signal>, AllocError>
    ensures { IfOk result (λ v. v.items ≡ free_word start (type_of ty.now)) }
{
    match ty {
        Ty::Clock => {
            let mut word = Vec::new(alloc);
            word.push(Signal::Fixed(true))?;
            Ok(word)
        }
        _ => variables(alloc, start, bits_of(ty)?),
    }
}
