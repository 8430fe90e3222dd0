//! The widths of the leaves of a flat module: of its inputs, and of its registers.
ghost use Rattle.std.specs.Prelude.{◌≡◌, ◌+◌, cond, map, IfOk};
ghost use Rattle.wiring.specs.Lists.{total};
ghost use Rattle.ir_store.specs.Bodies.{ops_of};
ghost use Rattle.ir_store.specs.Designs.{ports_in};
ghost use Rattle.ir_store.specs.Numbered.{ops_by_position};
ghost use Rattle.hw_model.specs.Types.{width};
ghost use Rattle.hw_model.specs.TypeViews.{type_of};
ghost use Rattle.hw_model.specs.Sound.{output_types};
ghost use Rattle.flat_module_gates.specs.FlatSteps.{content_width};
ghost use Rattle.miter_blast.specs.Leaves.{held_widths, input_widths};

use body_index::op_index::OpIndex;
use flat_module_gates::kinds::is_register;
use flat_module_gates::registers::content_bits;
use flat_module_gates::widths::{bits_of, first_bits, sum};
use ir_store::design::{Module, Port, PortList};
use std::alloc::{AllocError, Global};

/// The widths of the registers of a flat module, in order.
pub fn register_widths(alloc: Global, module: &Module) -> Result<Vec<u32>, AllocError>
    ensures { IfOk result (λ v. v.items ≡ held_widths (ops_by_position (ops_of «module».now.body))) }
{
    let ops = OpIndex::of(alloc, &module.body)?;
    let mut widths = Vec::new(alloc);
    for position in 0..ops.count() {
        let op = ops.op_at(position);
        if is_register(op.kind) {
            widths.push(first_bits(op.results)?)?;
        }
    }
    Ok(widths)
}

/// The widths of the inputs among ports, in order.
pub fn input_widths(alloc: Global, ports: &PortList) -> Result<Vec<u32>, AllocError>
    ensures { IfOk result (λ v. v.items ≡ input_widths (ports_in ports.now)) }
{
    let mut widths = Vec::new(alloc);
    for port in &ports.ports {
        if !port.out {
            widths.push(bits_of(&port.ty)?)?;
        }
    }
    Ok(widths)
}

/// How many bits the outputs among ports have. 2^32 want more memory than there is.
pub(crate) fn output_bits(ports: &PortList) -> Result<u32, AllocError>
    ensures { IfOk result (λ n. n ≡ total (map width (output_types (ports_in ports.now)))) }
{
    let mut bits = 0;
    let mut left = ports.ports.len();
    while left > 0 {
        left -= 1;
        bits = before_output(&ports.ports[left], bits)?;
    }
    Ok(bits)
}

// How many bits of outputs there are from a port on, so many being after it.
fn before_output(port: &Port, bits: u32) -> Result<u32, AllocError>
    ensures { IfOk result (λ n. n ≡ cond port.now.out (width (type_of port.now.ty) + bits) bits) }
{
    if port.out {
        return sum(bits_of(&port.ty)?, bits);
    }
    Ok(bits)
}

/// The sum of widths. 2^32 bits want more memory than there is.
pub(crate) fn total_of(widths: &[u32]) -> Result<u32, AllocError>
    ensures { IfOk result (λ n. n ≡ total widths.now) }
{
    let mut bits = 0;
    let mut left = widths.len();
    while left > 0 {
        left -= 1;
        bits = sum(widths[left], bits)?;
    }
    Ok(bits)
}

/// How many bits the registers of a flat module hold. 2^32 want more memory than there is.
pub(crate) fn register_bits(alloc: Global, module: &Module) -> Result<u32, AllocError>
    ensures { IfOk result (λ n. n ≡ content_width (ops_by_position (ops_of «module».now.body))) }
{
    content_bits(&OpIndex::of(alloc, &module.body)?)
}
