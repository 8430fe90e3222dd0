//! The first refusal of a design, but for those that look at the design as a whole.
ghost use Rattle.std.specs.Prelude.{◌≡◌, IfOk};
ghost use Rattle.ir_store.specs.Bodies.{ops_of};
ghost use Rattle.ir_store.specs.Designs.{design_of, module_of, numbered_module};
ghost use Rattle.ir_store.specs.OperationViews.{location_of};
ghost use Rattle.port_checks.specs.Marked.{AreResetPorts};
ghost use Rattle.op_verifier.specs.Entries.{AreSettled};
ghost use Rattle.op_verifier.specs.BodyViews.{ops_viewed, ports_viewed, body_viewed};
ghost use Rattle.op_verifier.specs.Faults.{refused_at, body_fault, module_fault, first_fault};

use crate::body_view::BodyView;
use crate::headers::{names_cause, ports_cause};
use diag::cause::Cause;
use diag::refusal::{Location, OpName, Refusal};
use ir_store::design::{Design, Module};
use opcode::listed::Listed;
use port_checks::ResetPorts;
use std::alloc::{AllocError, Global};

/// The first refusal of a header or an operation, in text order, but for those that look at the design as a whole: those
/// that instance themselves, weights, and cycles.
pub fn first_fault(alloc: Global, design: &Design) -> Result<Option<Refusal>, AllocError>
    ensures { IfOk result (λ fault. fault ≡ first_fault (design_of design.now)) }
{
    let resets = ResetPorts::of(alloc, design)?;
    let mut view = BodyView::empty(alloc);
    for number in 0..design.module_count() {
        let module = design.module(number);
        view = BodyView::again(alloc, view, &module.ports.ports, &module.body)?;
        match module_fault(alloc, design, &resets, number, module, &view)? {
            Some(refusal) => return Ok(Some(refusal)),
            None => {}
        }
    }
    Ok(None)
}

/// The first refusal of a module's header and operations, of which there is a view.
fn module_fault(
    alloc: Global,
    design: &Design,
    resets: &ResetPorts,
    number: u32,
    module: &Module,
    view: &BodyView<'_>,
) -> Result<Option<Refusal>, AllocError>
    requires resets { AreResetPorts (design_of design.now) resets.now }
    requires ops { ops_viewed view.now ≡ ops_of «module».now.body }
    requires ports { view.now.ports.now ≡ «module».now.ports.ports.items }
    requires settled { AreSettled view.now.entries.items }
    ensures { IfOk result (λ fault. fault ≡ module_fault (design_of design.now) number (numbered_module (module_of «module».now))) }
{
    if let Some(cause) = ports_cause(view.ports) {
        return Ok(Some(refused_at(module.location, Listed::HwModule, cause)));
    }
    let symbol = module.symbol.as_bytes();
    if let Some(cause) = names_cause(alloc, design, number, symbol, view)? {
        return Ok(Some(refused_at(module.location, Listed::HwModule, cause)));
    }
    body_fault(alloc, design, resets, view)
}

/// The first refusal of an operation of a body.
fn body_fault(
    alloc: Global,
    design: &Design,
    resets: &ResetPorts,
    view: &BodyView<'_>,
) -> Result<Option<Refusal>, AllocError>
    requires resets { AreResetPorts (design_of design.now) resets.now }
    requires settled { AreSettled view.now.entries.items }
    ensures { IfOk result (λ fault. fault ≡ body_fault (design_of design.now) (ports_viewed view.now) (body_viewed view.now) (body_viewed view.now)) }
{
    let count = view.entries.len();
    for (position, entry) in view.entries.iter().enumerate() {
        match view.op_cause(alloc, design, resets, entry, position + 1 == count)? {
            Some(cause) => {
                let name = entry.op.kind.listed();
                return Ok(Some(refused_at(entry.op.location, name, cause)));
            }
            None => {}
        }
    }
    Ok(None)
}

/// A refusal of the design's text.
pub fn refused_at(location: Location, listed: Listed, cause: Cause) -> Refusal
    ensures { result ≡ refused_at (location_of location) listed cause }
{
    Refusal {
        file: 0,
        location,
        op: OpName::Listed(listed),
        cause,
    }
}
