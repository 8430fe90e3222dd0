//! The names of the ports and the registers of a flat module, as its Verilog has them.
ghost use Rattle.std.specs.Prelude.{◌≡◌, ◌++◌, IfOk, OnOk};
ghost use Rattle.ir_store.specs.Bodies.{ops_of};
ghost use Rattle.ir_store.specs.Designs.{ports_in};
ghost use Rattle.ir_store.specs.Numbered.{ops_by_position};
ghost use Rattle.module_names.specs.ModuleNames.{register_name, wanted_names, register_names, all_names};

use body_index::op_index::OpIndex;
use flat_module_gates::kinds::is_register;
use io_edge::byte_text::Text;
use ir_store::design::Module;
use name_legalise::names::legal_list;
use std::alloc::{AllocError, Global};

/// How many names there may be.
const MOST_NAMES: usize = (1 << 32) - 125;

/// The names of the ports of a flat module without aggregates, in order, and then of its registers, made legal for Verilog
/// together. A register without a name wants `_reg`. The error comes only when out of memory, for which 2^32 - 124 names
/// count.
pub fn all_names(alloc: Global, module: &Module) -> Result<Vec<Text>, AllocError>
    ensures { IfOk result (λ v. v.items ≡ all_names (ports_in «module».now.ports) (ops_by_position (ops_of «module».now.body))) }
{
    let wanted = wanted_names(alloc, module)?;
    if wanted.len() > MOST_NAMES {
        return Err(AllocError);
    }
    legal_list(alloc, wanted.as_slice())
}

// The names that the ports and the registers of a flat module want.
fn wanted_names(alloc: Global, module: &Module) -> Result<Vec<Text>, AllocError>
    ensures { IfOk result (λ v. v.items ≡ wanted_names (ports_in «module».now.ports) (ops_by_position (ops_of «module».now.body))) }
{
    let mut names = Vec::new(alloc);
    for port in &module.ports.ports {
        names.push(port.name.try_clone(alloc)?)?;
    }
    push_register_names(alloc, &mut names, module)?;
    Ok(names)
}

// Adds the names that the registers of a flat module want.
fn push_register_names(
    alloc: Global,
    names: &mut Vec<Text>,
    module: &Module,
) -> Result<(), AllocError>
    ensures { OnOk result (names.new.items ≡ names.old.items ++ register_names (ops_by_position (ops_of «module».now.body))) }
{
    let ops = OpIndex::of(alloc, &module.body)?;
    for position in 0..ops.count() {
        let op = ops.op_at(position);
        if is_register(op.kind) {
            names.push(register_name(alloc, op.name)?)?;
        }
    }
    Ok(())
}

// The name that a register wants: its own, or `_reg`.
fn register_name(alloc: Global, own: &Text) -> Result<Text, AllocError>
    ensures { IfOk result (λ name. name ≡ register_name own.now) }
{
    if own.is_empty() {
        Text::of(alloc, b"_reg")
    } else {
        own.try_clone(alloc)
    }
}
