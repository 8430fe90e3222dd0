//! The ports that registers name as their asynchronous resets.
ghost use Rattle.std.specs.Prelude.{◌≡◌, ◌++◌, map, option_map, IfOk, OnOk};
ghost use Rattle.hw_model.specs.Flat.{ResetBy, async_parts};
ghost use Rattle.ir_store.specs.Designs.{port_of, module_of, numbered_module, design_of};
ghost use Rattle.port_checks.specs.Joins.{named_port, position_of, named_in, made_from};
ghost use Rattle.port_checks.specs.Seen.{ref_seen, op_seen};

use crate::ports::bit_port;
use hw_model::kinds::OpKind;
use ir_store::body::Op;
use ir_store::design::{Design, Module, Port};
use ir_store::operation::Value;
use std::alloc::{AllocError, Global};

/// A port of a module of a design.
#[derive(Clone, Copy, PartialEq, Eq)]
pub(crate) struct PortPosition {
    /// The module's number.
    pub(crate) owner: u32,
    /// The port's number in the module.
    pub(crate) port: u32,
}

/// The i1 inputs of a design's modules that registers name as asynchronous resets. Where none does, it takes no memory.
pub(crate) fn named_ports(alloc: Global, design: &Design) -> Result<Vec<PortPosition>, AllocError>
    ensures { IfOk result (λ named. named.items ≡ made_from named_in 0 (design_of design.now)) }
{
    let mut named = Vec::new(alloc);
    for number in 0..design.module_count() {
        push_named(design.module(number), number, &mut named)?;
    }
    Ok(named)
}

/// Appends those that the registers of a module name.
fn push_named(owner: &Module, number: u32, named: &mut Vec<PortPosition>) -> Result<(), AllocError>
    ensures { OnOk result (named.new.items ≡ named.old.items ++ named_in number (numbered_module (module_of owner.now))) }
{
    for id in owner.body.ops() {
        let op = owner.body.op(id);
        push_port(number, named_port(&owner.ports.ports, &op), named)?;
    }
    Ok(())
}

/// Appends a port, where there is one.
fn push_port(owner: u32, port: Option<u32>, named: &mut Vec<PortPosition>) -> Result<(), AllocError>
    ensures { OnOk result (named.new.items ≡ named.old.items ++ position_of owner port) }
{
    match port {
        Some(port) => {
            named.push(PortPosition { owner, port })?;
            Ok(())
        }
        None => Ok(()),
    }
}

/// The i1 input that an operation names as its asynchronous reset.
fn named_port(ports: &[Port], op: &Op<'_>) -> Option<u32>
    ensures { result ≡ named_port (map port_of ports.now) (op_seen op.now) }
{
    match op.kind {
        OpKind::AsyncFirReg => bit_port(ports, reset_operand(op.operands)),
        _ => None,
    }
}

/// The reset among the operands of a register with an asynchronous reset: data, clock, reset, value.
fn reset_operand(operands: &[Value]) -> Option<Value>
    ensures { option_map ref_seen result ≡ option_map (λ (r : ResetBy). r.signal) (async_parts (map ref_seen operands.now)) }
{
    match operands {
        [_, _, reset, _] => Some(*reset),
        _ => None,
    }
}
