//! Words before the first step.
ghost use Rattle.std.specs.Prelude.{◌≡◌, ◌≤◌, IfOk};
ghost use Rattle.bits_core.specs.Word.{zeros};
ghost use Rattle.hw_model.specs.Types.{width};
ghost use Rattle.ir_store.specs.Designs.{port_of, ports_in};
ghost use Rattle.flat_steps.specs.Tables.{no_words};
ghost use Rattle.flat_steps.specs.Steps.{first_ports, HaveWords};

use bits_core::Bits;
use flat_module_gates::widths::bits_of;
use ir_store::design::{Port, PortList};
use std::alloc::{AllocError, Global};

/// So many bits of 0, each a word.
pub(crate) fn no_words(alloc: Global, count: usize) -> Result<Vec<Bits>, AllocError>
    ensures { IfOk result (λ v. v.items ≡ no_words count) }
{
    let mut words = Vec::with_capacity(alloc, count)?;
    for _ in 0..count {
        words.push(Bits::from(false))?;
    }
    Ok(words)
}

/// The words of ports before the first step: all bits are 0.
pub(crate) fn first_ports(alloc: Global, ports: &PortList) -> Result<Vec<Bits>, AllocError>
    requires { HaveWords (ports_in ports.now) }
    ensures { IfOk result (λ v. v.items ≡ first_ports (ports_in ports.now)) }
{
    let mut words = Vec::with_capacity(alloc, ports.ports.len())?;
    for port in &ports.ports {
        words.push(first_word(port)?)?;
    }
    Ok(words)
}

// The word of a port before the first step.
fn first_word(port: &Port) -> Result<Bits, AllocError>
    requires least { 1 ≤ width (port_of port.now).type }
    requires most { width (port_of port.now).type ≤ 128 }
    ensures { IfOk result (λ word. word ≡ zeros (width (port_of port.now).type)) }
{
    let width = bits_of(&port.ty)?;
    Ok(Bits::truncate(width, 0))
}
