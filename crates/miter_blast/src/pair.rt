//! The two modules that are compared: whether they are there, with ports of the same types.
ghost use Rattle.std.specs.Prelude.{◌≡◌, ◌<◌, length, map, IfOk, IfErr, Some, slice_get};
ghost use Rattle.hw_model.specs.TypeViews.{type_of};
ghost use Rattle.ir_store.specs.Designs.{design_of, ports_in, module_of, numbered_module};
ghost use Rattle.ir_store.specs.OperationViews.{location_of};
ghost use Rattle.port_checks.specs.InstanceChecks.{port_types};
ghost use Rattle.miter_blast.specs.Pairs.{IsPair, IsFoundAt, HaveSamePorts, at_file, at_module, IsRefusedPair, Tells};

use crate::fail::MiterFail;
use diag::cause::Cause;
use diag::refusal::{Location, OpName, Refusal};
use hw_model::types::Ty;
use ir_store::design::{Module, PortList};
use op_verifier::Verified;
use opcode::listed::Listed;
use port_checks::are_types;
use std::alloc::{AllocError, Global};

/// The numbers of the modules that are compared.
#[derive(Clone, Copy)]
pub(crate) struct Pair {
    /// In the first design.
    pub(crate) left: u32,
    /// In the second design.
    pub(crate) right: u32,
}

/// The numbers of the modules of two symbols, which have inputs of the same types in order, and outputs. They are refused
/// where one is not there, at the beginning of its text, or where the ports differ, at the second one.
pub(crate) fn pair_of(
    alloc: Global,
    left: &Verified,
    a: &[u8],
    right: &Verified,
    b: &[u8],
) -> Result<Pair, MiterFail>
    ensures ok { IfOk result (λ p. IsPair (design_of left.now.design) a.now (design_of right.now.design) b.now p.left p.right) }
    ensures refused { IfErr result (IsRefusedPair (design_of left.now.design) a.now (design_of right.now.design) b.now) }
{
    let Some(first) = find_in(left, a) else {
        return Err(MiterFail::Refused(at_file(0, Cause::NoSuchModule)));
    };
    let Some(second) = find_in(right, b) else {
        return Err(MiterFail::Refused(at_file(1, Cause::NoSuchModule)));
    };
    let one = module_in(left, first);
    let two = module_in(right, second);
    if !have_same_ports(alloc, &one.ports, &two.ports)? {
        return Err(MiterFail::Refused(at_module(1, two.location, Cause::PortsDiffer)));
    }
    Ok(Pair {
        left: first,
        right: second,
    })
}

// The number of the module of a symbol.
fn find_in(verified: &Verified, symbol: &[u8]) -> Option<u32>
    ensures { IsFoundAt (design_of verified.now.design) symbol.now result }
{
    verified.design().find(symbol)
}

/// The module of a number.
pub(crate) fn module_in(verified: &Verified, number: u32) -> &Module
    requires { number < length (design_of verified.now.design) }
    ensures { slice_get (design_of verified.now.design) number ≡ Some (numbered_module (module_of result.now)) }
{
    verified.design().module(number)
}

// Whether two lists of ports have the same types of inputs in order, and of outputs.
fn have_same_ports(alloc: Global, one: &PortList, two: &PortList) -> Result<bool, AllocError>
    ensures { IfOk result (λ same. Tells same (HaveSamePorts (ports_in one.now) (ports_in two.now))) }
{
    let inputs = types_of(alloc, one, false)?;
    if !are_types(&inputs, &two.ports, false) {
        return Ok(false);
    }
    let outputs = types_of(alloc, one, true)?;
    Ok(are_types(&outputs, &two.ports, true))
}

// The types of the ports of one direction.
fn types_of(alloc: Global, ports: &PortList, out: bool) -> Result<Vec<Ty>, AllocError>
    ensures { IfOk result (λ v. map type_of v.items ≡ port_types out (ports_in ports.now)) }
{
    let mut types = Vec::new(alloc);
    for port in &ports.ports {
        if port.out == out {
            types.push(port.ty.try_clone(alloc)?)?;
        }
    }
    Ok(types)
}

/// A refusal at the beginning of a text.
pub(crate) fn at_file(number: u32, cause: Cause) -> Refusal
    ensures { result ≡ at_file number cause }
{
    Refusal {
        file: number,
        location: Location::start(),
        op: OpName::File,
        cause,
    }
}

/// A refusal at a module's header.
pub(crate) fn at_module(number: u32, location: Location, cause: Cause) -> Refusal
    ensures { result ≡ at_module number (location_of location) cause }
{
    Refusal {
        file: number,
        location,
        op: OpName::Listed(Listed::HwModule),
        cause,
    }
}
