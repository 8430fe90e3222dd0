//! Why the header of a module is refused.
ghost use Rattle.std.specs.Prelude.{◌≡◌, map, take, is_some, IfOk};
ghost use Rattle.hw_model.specs.Design.{find_module};
ghost use Rattle.ir_store.specs.Designs.{port_of, design_of};
ghost use Rattle.op_checks.specs.TypeChecks.{is_outside, has_bad_field};
ghost use Rattle.op_verifier.specs.Headers.{has_port, has_wrong_clock, is_among, has_twice, has_output, ports_cause, names_cause};
ghost use Rattle.op_verifier.specs.BodyViews.{ports_viewed, body_viewed};

use crate::body_view::BodyView;
use crate::operations::is_output;
use diag::cause::Cause;
use indexmap::IndexSet;
use io_edge::byte_text::Text;
use ir_store::design::{Design, Port};
use op_checks::type_checks::{has_bad_field, has_clock_part, is_clock, is_outside};
use std::alloc::{AllocError, Global};

/// What a header is refused for by the types and marks of its ports.
pub(crate) fn ports_cause(ports: &[Port]) -> Option<Cause>
    ensures { result ≡ ports_cause (map port_of ports.now) }
{
    if has_again(ports) {
        Some(Cause::Redefined)
    } else if has_outside(ports) {
        Some(Cause::WidthLimit)
    } else if has_bad_fields(ports) {
        Some(Cause::Field)
    } else if has_wrong_clocks(ports) {
        Some(Cause::ClockOperand)
    } else {
        None
    }
}

/// Whether the value name of some port was defined earlier.
fn has_again(ports: &[Port]) -> bool
    ensures { result ≡ has_port (λ (q : _). q.again) (map port_of ports.now) }
{
    for port in ports {
        if port.again {
            return true;
        }
    }
    false
}

/// Whether the type of some port is outside the limits.
fn has_outside(ports: &[Port]) -> bool
    ensures { result ≡ has_port (λ (q : _). is_outside q.type) (map port_of ports.now) }
{
    for port in ports {
        if is_outside(&port.ty) {
            return true;
        }
    }
    false
}

/// Whether the type of some port has a field name twice.
fn has_bad_fields(ports: &[Port]) -> bool
    ensures { result ≡ has_port (λ (q : _). has_bad_field q.type) (map port_of ports.now) }
{
    for port in ports {
        if has_bad_field(&port.ty) {
            return true;
        }
    }
    false
}

/// Whether some port is an output clock, or has a clock as a part.
fn has_wrong_clocks(ports: &[Port]) -> bool
    ensures { result ≡ has_port has_wrong_clock (map port_of ports.now) }
{
    for port in ports {
        if (port.out && is_clock(&port.ty)) || has_clock_part(&port.ty) {
            return true;
        }
    }
    false
}

/// The most ports whose names are compared one by one.
const FEW: usize = 16;

/// Whether a name stands twice among the ports.
pub(crate) fn has_twice(alloc: Global, ports: &[Port]) -> Result<bool, AllocError>
    ensures { IfOk result (λ twice. twice ≡ has_twice (map (λ q. q.name) (map port_of ports.now))) }
{
    if ports.len() <= FEW {
        return Ok(has_twice_among_few(ports));
    }
    let mut seen = IndexSet::new(alloc);
    for port in ports {
        if seen.contains(port.name.as_bytes()) {
            return Ok(true);
        }
        seen.insert(port.name.as_bytes())?;
    }
    Ok(false)
}

/// The same, in the time of the square of their number.
fn has_twice_among_few(ports: &[Port]) -> bool
    ensures { result ≡ has_twice (map (λ q. q.name) (map port_of ports.now)) }
{
    for (position, port) in ports.iter().enumerate() {
        if is_named(&ports[..position], &port.name) {
            return true;
        }
    }
    false
}

/// Whether a port has the name.
fn is_named(ports: &[Port], name: &Text) -> bool
    ensures { result ≡ is_among name.now (map (λ q. q.name) (map port_of ports.now)) }
{
    for port in ports {
        if port.name == *name {
            return true;
        }
    }
    false
}

/// What a header is refused for by symbols, names and the body.
pub(crate) fn names_cause(
    alloc: Global,
    design: &Design,
    number: u32,
    symbol: &[u8],
    view: &BodyView<'_>,
) -> Result<Option<Cause>, AllocError>
    ensures { IfOk result (λ cause. cause ≡ names_cause (design_of design.now) number symbol.now (ports_viewed view.now) (body_viewed view.now)) }
{
    if is_defined_before(design, number, symbol) {
        return Ok(Some(Cause::DuplicateSymbol));
    }
    if has_twice(alloc, view.ports)? {
        return Ok(Some(Cause::DuplicatePort));
    }
    if has_output(view) {
        Ok(None)
    } else {
        Ok(Some(Cause::MissingOutput))
    }
}

/// Whether a module before that of the number has the symbol.
fn is_defined_before(design: &Design, number: u32, symbol: &[u8]) -> bool
    ensures { result ≡ is_some (find_module (take number (design_of design.now)) symbol.now) }
{
    match design.find(symbol) {
        Some(first) => first < number,
        None => false,
    }
}

/// Whether a body gives its module's outputs.
fn has_output(view: &BodyView<'_>) -> bool
    ensures { result ≡ has_output (body_viewed view.now) }
{
    for entry in &view.entries {
        if is_output(entry.op.kind) {
            return true;
        }
    }
    false
}
