//! The modules of a generated design.
ghost use Rattle.std.specs.Prelude.{◌≡◌, ◌<◌, ◌≤◌, IfOk};
ghost use Rattle.hw_model.specs.TypeViews.{type_of};
ghost use Rattle.ir_store.specs.Designs.{module_of, numbered_module, port_of, ports_in};
ghost use Rattle.generator.specs.Draws.{state_after};
ghost use Rattle.generator.specs.Generated.{port_named, generated_ports, generated_module};

use crate::bodies::body_with;
use crate::draws::Draws;
use crate::operations::{WIDTH, module_ops};
use crate::symbols::module_symbol;
use diag::refusal::Location;
use hw_model::types::Ty;
use io_edge::byte_text::Text;
use ir_store::design::{Module, Port, PortList};
use ir_store::dictionary::Dictionary;
use std::alloc::{AllocError, Global};

/// Module `k` of `n`. The error comes only when out of memory.
pub fn generated_module(
    alloc: Global,
    n: u32,
    k: u32,
    draws: &mut Draws,
) -> Result<Module, AllocError>
    requires { k ≤ 10000 }
    ensures made { IfOk result (λ made. numbered_module (module_of made) ≡ generated_module n k draws.old.state) }
    ensures state { draws.new.state ≡ state_after draws.old.state 4 }
{
    let ops = module_ops(alloc, k, draws)?;
    Ok(Module {
        symbol: module_symbol(alloc, k)?,
        private: 2 * k + 1 < n,
        ports: generated_ports(alloc)?,
        dictionary: Dictionary::new(alloc),
        body: body_with(alloc, ops)?,
        location: Location::start(),
    })
}

/// The ports of each module.
fn generated_ports(alloc: Global) -> Result<PortList, AllocError>
    ensures { IfOk result (λ list. ports_in list ≡ generated_ports) }
{
    let ports = vec![in alloc;
        port_named(alloc, b"clk", false, Ty::Clock)?,
        port_named(alloc, b"rst", false, Ty::Int(1))?,
        port_named(alloc, b"a", false, Ty::Int(WIDTH))?,
        port_named(alloc, b"b", false, Ty::Int(WIDTH))?,
        port_named(alloc, b"c", true, Ty::Int(WIDTH))?,
    ]?;
    Ok(PortList { ports })
}

/// A port that no other has the name of.
fn port_named(alloc: Global, name: &[u8], out: bool, ty: Ty) -> Result<Port, AllocError>
    ensures { IfOk result (λ port. port_of port ≡ port_named name.now out (type_of ty)) }
{
    Ok(Port {
        name: Text::of(alloc, name)?,
        out,
        ty,
        again: false,
    })
}
