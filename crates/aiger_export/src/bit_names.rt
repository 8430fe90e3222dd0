//! The names of the bits of a flat module.
ghost use Rattle.std.specs.Prelude.{◌≡◌, ◌++◌, map, IfOk, OnOk};
ghost use Rattle.ir_store.specs.Bodies.{ops_of};
ghost use Rattle.ir_store.specs.Designs.{port_of, ports_in};
ghost use Rattle.ir_store.specs.Numbered.{ops_by_position};
ghost use Rattle.net_gates.specs.ClockedInputs.{port_bits};
ghost use Rattle.aiger_export.specs.BitNames.{bit_name, bit_names, word_bits, given_bits, bit_symbols};
ghost use Rattle.aiger_export.specs.Named.{symbols_in};

use flat_module_gates::widths::bits_of;
use hw_model::types::Ty;
use io_edge::byte_text::Text;
use ir_store::design::{Module, Port, PortList};
use itoa::Buffer;
use miter_blast::widths::register_widths;
use module_names::all_names;
use std::alloc::{AllocError, Global};

/// The names of the bits of a flat module.
#[derive(Drop)]
pub(crate) struct BitSymbols {
    /// Those of its inputs but clocks.
    pub(crate) inputs: Vec<Text>,
    /// Those of its registers.
    pub(crate) latches: Vec<Text>,
    /// Those of its outputs.
    pub(crate) outputs: Vec<Text>,
}

/// The names of the bits of a flat module: of its inputs but clocks, of its registers, and of its outputs. The error comes only
/// when out of memory, for which 2^32 - 124 ports and registers count. Linear in the names.
pub(crate) fn bit_symbols(alloc: Global, module: &Module) -> Result<BitSymbols, AllocError>
    ensures { IfOk result (λ s. symbols_in s ≡ bit_symbols (ports_in «module».now.ports) (ops_by_position (ops_of «module».now.body))) }
{
    let names = all_names(alloc, module)?;
    let (_, registers) = names.as_slice().split_at(module.ports.ports.len());
    let free = free_widths(alloc, &module.ports)?;
    let held = register_widths(alloc, module)?;
    let given = given_widths(alloc, &module.ports)?;
    Ok(BitSymbols {
        inputs: word_bits(alloc, names.as_slice(), free.as_slice())?,
        latches: word_bits(alloc, registers, held.as_slice())?,
        outputs: word_bits(alloc, names.as_slice(), given.as_slice())?,
    })
}

// How many bits each port takes that are no clocks: none of an output.
fn free_widths(alloc: Global, ports: &PortList) -> Result<Vec<u32>, AllocError>
    ensures { IfOk result (λ v. v.items ≡ map port_bits (ports_in ports.now)) }
{
    let mut widths = Vec::with_capacity(alloc, ports.ports.len())?;
    for port in &ports.ports {
        widths.push(free_bits(port)?)?;
    }
    Ok(widths)
}

// How many bits each port gives: none of an input.
fn given_widths(alloc: Global, ports: &PortList) -> Result<Vec<u32>, AllocError>
    ensures { IfOk result (λ v. v.items ≡ map given_bits (ports_in ports.now)) }
{
    let mut widths = Vec::with_capacity(alloc, ports.ports.len())?;
    for port in &ports.ports {
        widths.push(given_bits(port)?)?;
    }
    Ok(widths)
}

// How many bits a port takes that are no clocks: none of an output.
fn free_bits(port: &Port) -> Result<u32, AllocError>
    ensures { IfOk result (λ n. n ≡ port_bits (port_of port.now)) }
{
    if port.out {
        return Ok(0);
    }
    match port.ty {
        Ty::Clock => Ok(0),
        _ => bits_of(&port.ty),
    }
}

// How many bits a port gives: none of an input.
fn given_bits(port: &Port) -> Result<u32, AllocError>
    ensures { IfOk result (λ n. n ≡ given_bits (port_of port.now)) }
{
    if port.out { bits_of(&port.ty) } else { Ok(0) }
}

// The names of the bits of words of these names and of so many bits, one after another.
fn word_bits(alloc: Global, names: &[Text], widths: &[u32]) -> Result<Vec<Text>, AllocError>
    ensures { IfOk result (λ v. v.items ≡ word_bits names.now widths.now) }
{
    let mut bits = Vec::new(alloc);
    for (name, width) in names.iter().zip(widths) {
        push_bits(alloc, &mut bits, name, *width)?;
    }
    Ok(bits)
}

// Adds the names of the bits of a word, the greatest number first.
fn push_bits(alloc: Global, bits: &mut Vec<Text>, name: &Text, width: u32) -> Result<(), AllocError>
    ensures { OnOk result (bits.new.items ≡ bits.old.items ++ bit_names name.now width) }
{
    let mut left = width;
    while left > 0 {
        left -= 1;
        bits.push(bit_name(alloc, name, left)?)?;
    }
    Ok(())
}

// The name of a bit: that of its word, and its number in brackets.
#[tactic(auto, unfolding(crate::specs::BitNames::bit_name))]
fn bit_name(alloc: Global, name: &Text, number: u32) -> Result<Text, AllocError>
    ensures { IfOk result (λ text. text ≡ bit_name name.now number) }
{
    let mut buffer = Buffer::new();
    let mut text = Text::new(alloc);
    text.push_bytes(name.as_bytes())?;
    text.push(b'[')?;
    text.push_bytes(buffer.format(number).as_bytes())?;
    text.push(b']')?;
    Ok(text)
}
