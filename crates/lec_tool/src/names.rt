//! The names of the leaves of a module's inputs and registers, as its Verilog has them.
ghost use Rattle.std.specs.Prelude.{◌≡◌, ◌++◌, IfOk, OnOk, Some, cond, [], ◌∷◌};
ghost use Rattle.hw_model.specs.Design.{find_module};
ghost use Rattle.ir_store.specs.Designs.{design_of, ports_in};
ghost use Rattle.lec_tool.specs.LeafNames.{input_names, is_output_at, AreLeafNames};

use io_edge::byte_text::Text;
use ir_store::design::PortList;
use miter_blast::flat_copy;
use module_names::all_names;
use op_verifier::Verified;
use std::alloc::{AllocError, Global};

/// The names of the leaves of the inputs of the module of a symbol, in order, and then of its registers, once it is flat and
/// without aggregates: made legal for Verilog together with those of its other ports, in the order of all ports and then of the
/// registers. A register without a name wants `_reg`. The error comes only when out of memory, for which
/// 2^32 - 124 names count.
pub fn leaf_names(
    alloc: Global,
    verified: &Verified,
    symbol: &[u8],
) -> Result<Vec<Text>, AllocError>
    requires { (m : _) × (find_module (design_of verified.now.design) symbol.now ≡ Some m) }
    ensures { IfOk result (λ names. AreLeafNames (design_of verified.now.design) symbol.now names.items) }
{
    let Some(number) = verified.design().find(symbol) else {
        unreachable!()
    };
    let copy = flat_copy(alloc, verified, number)?;
    let module = copy.design().module(0);
    let all = all_names(alloc, module)?;
    input_names(alloc, &module.ports, all)
}

// The names without those of ports that are outputs.
fn input_names(alloc: Global, ports: &PortList, names: Vec<Text>) -> Result<Vec<Text>, AllocError>
    ensures { IfOk result (λ v. v.items ≡ input_names (ports_in ports.now) names.items) }
{
    let mut kept = Vec::with_capacity(alloc, names.len())?;
    let mut position = 0;
    for name in names {
        push_unless(&mut kept, name, is_output(ports, position))?;
        position += 1;
    }
    Ok(kept)
}

// Adds a name unless it is one of an output.
fn push_unless(names: &mut Vec<Text>, name: Text, is_output: bool) -> Result<(), AllocError>
    ensures { OnOk result (names.new.items ≡ names.old.items ++ cond is_output [] (name ∷ [])) }
{
    if !is_output {
        names.push(name)?;
    }
    Ok(())
}

// Whether the port at a position is there, and is an output.
fn is_output(ports: &PortList, position: usize) -> bool
    ensures { result ≡ is_output_at (ports_in ports.now) position }
{
    match ports.ports.get(position) {
        Some(port) => port.out,
        None => false,
    }
}
