//! Widths, and words of variables.
ghost use Rattle.std.specs.Prelude.{◌≡◌, ◌+◌, IfOk, cond, slice_get, option_map};
ghost use Rattle.hw_model.specs.Types.{width};
ghost use Rattle.hw_model.specs.TypeViews.{type_of};
ghost use Rattle.hw_model.specs.Design.{OpResult};
ghost use Rattle.hw_model.specs.Flat.{width_of, input_width};
ghost use Rattle.ir_store.specs.Designs.{port_of, ports_in};
ghost use Rattle.ir_store.specs.OperationViews.{results_in};
ghost use Rattle.net_gates.specs.NetGateLists.{variables};
ghost use Rattle.flat_module_gates.specs.FlatGateLists.{port_word, after_port, port_words};

use gates::signal::{Pin, Signal};
use hw_model::types::Ty;
use ir_store::design::{Port, PortList};
use ir_store::operation::NewResultList;
use operation_gates::signal_word::SignalWord;
use std::alloc::{AllocError, Global};

/// How many bits a value of a type has. 2^32 want more memory than there is.
pub fn bits_of(ty: &Ty) -> Result<u32, AllocError>
    ensures { IfOk result (λ w. w ≡ width (type_of ty.now)) }
{
    match u32::try_from(ty.width()) {
        Ok(width) => Ok(width),
        Err(_) => Err(AllocError),
    }
}

/// How many bits the first of results has; 0 where there is none.
pub fn first_bits(results: &NewResultList) -> Result<u32, AllocError>
    ensures { IfOk result (λ w. w ≡ width_of (option_map (λ (r : OpResult). r.type) (slice_get (results_in results.now) 0))) }
{
    match results.as_slice() {
        [] => Ok(0),
        [first, ..] => bits_of(&first.ty),
    }
}

/// The sum of two numbers of bits. 2^32 want more memory than there is.
pub fn sum(a: u32, b: u32) -> Result<u32, AllocError>
    ensures { IfOk result (λ c. c ≡ a + b) }
{
    match a.checked_add(b) {
        Some(sum) => Ok(sum),
        None => Err(AllocError),
    }
}

/// The word of so many variables, so many being before them.
pub fn variables(alloc: Global, start: u32, width: u32) -> Result<Vec<Signal>, AllocError>
    ensures { IfOk result (λ v. v.items ≡ variables start width) }
{
    let end = sum(start, width)?;
    let mut word = Vec::with_capacity(alloc, width as usize)?;
    for before in start..end {
        word.push(Signal::Wire(Pin {
            variable: before + 1,
            positive: true,
        }))?;
    }
    Ok(word)
}

/// The words of ports in order: the inputs' variables are the first ones, an output has none.
pub fn port_words(alloc: Global, ports: &PortList) -> Result<Vec<SignalWord>, AllocError>
    ensures { IfOk result (λ v. v.items ≡ port_words 0 (ports_in ports.now)) }
{
    let mut words = Vec::with_capacity(alloc, ports.ports.len())?;
    let mut start = 0;
    for port in &ports.ports {
        words.push(port_word(alloc, port, start)?)?;
        start = after_port(port, start)?;
    }
    Ok(words)
}

/// How many bits the inputs among ports have.
pub fn input_bits(ports: &PortList) -> Result<u32, AllocError>
    ensures { IfOk result (λ n. n ≡ input_width (ports_in ports.now)) }
{
    let mut bits = 0;
    let mut left = ports.ports.len();
    while left > 0 {
        left -= 1;
        bits = before_port(&ports.ports[left], bits)?;
    }
    Ok(bits)
}

// How many bits of inputs there are from a port on, so many being after it.
fn before_port(port: &Port, bits: u32) -> Result<u32, AllocError>
    ensures { IfOk result (λ n. n ≡ cond port.now.out bits (width (type_of port.now.ty) + bits)) }
{
    if port.out {
        return Ok(bits);
    }
    sum(bits_of(&port.ty)?, bits)
}

// The word of a port, so many bits of inputs being before it.
fn port_word(alloc: Global, port: &Port, start: u32) -> Result<SignalWord, AllocError>
    ensures { IfOk result (λ w. w ≡ port_word start (port_of port.now)) }
{
    if port.out {
        return Ok(SignalWord::new(alloc));
    }
    let word = variables(alloc, start, bits_of(&port.ty)?)?;
    Ok(SignalWord::from_vec(word))
}

/// How many bits of inputs are before the port after it.
pub(crate) fn after_port(port: &Port, start: u32) -> Result<u32, AllocError>
    ensures { IfOk result (λ n. n ≡ after_port start (port_of port.now)) }
{
    if port.out {
        return Ok(start);
    }
    sum(start, bits_of(&port.ty)?)
}
