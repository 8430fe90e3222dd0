//! The clocks and the resets of the registers of a flat body.
ghost use Rattle.std.specs.Prelude.{◌≡◌, ℕ, ◌++◌, ◌==◌, not, IfOk, OnOk};
ghost use Rattle.std.specs.List.{list_any};
ghost use Rattle.ir_store.specs.Bodies.{ops_of};
ghost use Rattle.ir_store.specs.Numbered.{ref_by, ops_by_position};
ghost use Rattle.body_index.specs.OpIndexes.{op_view};
ghost use Rattle.hw_model.specs.Flat.{has_async_reset};
ghost use Rattle.hw_model.specs.KindViews.{kind_of};
ghost use Rattle.and_gates.specs.Clocks.{listed, port_in, clock_of, clock_ports, are_several, has_several_clocks, has_async};

use body_index::op_index::OpIndex;
use hw_model::kinds::OpKind;
use hw_model::registers::register_of;
use ir_store::body::Op;
use ir_store::operation::Value;
use std::alloc::{AllocError, Global};

/// Whether more than one port clocks the registers of a body.
pub(crate) fn has_several_clocks(alloc: Global, ops: &OpIndex<'_>) -> Result<bool, AllocError>
    ensures { IfOk result (λ b. b ≡ has_several_clocks (ops_by_position (ops_of ops.now.body.now))) }
{
    let ports = clock_ports(alloc, ops)?;
    Ok(are_several(ports.as_slice()))
}

// Whether a member is not the first one.
fn are_several(ports: &[u32]) -> bool
    ensures { result ≡ are_several ports.now }
{
    match ports.split_first() {
        None => false,
        Some((first, others)) => has_other(*first, others),
    }
}

// Whether a port among others is another one.
fn has_other(first: u32, others: &[u32]) -> bool
    ensures { result ≡ list_any (λ (port : _). not (port == first)) others.now }
{
    others.iter().any(|port| is_other(*port, first))
}

// Whether a port is another one.
fn is_other(port: u32, first: u32) -> bool
    ensures { result ≡ not (port == first) }
{
    port != first
}

// The ports that clock the registers of a body, register by register.
fn clock_ports(alloc: Global, ops: &OpIndex<'_>) -> Result<Vec<u32>, AllocError>
    ensures { IfOk result (λ v. v.items ≡ clock_ports (ops_by_position (ops_of ops.now.body.now))) }
{
    let mut ports = Vec::new(alloc);
    for position in 0..ops.count() {
        let op = ops.op_at(position);
        push_clock(&op, &mut ports)?;
    }
    Ok(ports)
}

// Adds the port that clocks an operation, where it is a register.
fn push_clock(op: &Op<'_>, ports: &mut Vec<u32>) -> Result<(), AllocError>
    ensures { (b : _) → OnOk result (ports.new.items ≡ ports.old.items ++ clock_of (op_view b op.now)) }
{
    match clock_of(op) {
        Some(port) => {
            ports.push(port)?;
            Ok(())
        }
        None => Ok(()),
    }
}

// The port that clocks an operation, where it is a register.
fn clock_of(op: &Op<'_>) -> Option<u32>
    ensures { (b : _) → listed result ≡ clock_of (op_view b op.now) }
{
    match register_of(op.kind, op.operands) {
        Some(register) => port_in(register.clock),
        None => None,
    }
}

// The port that a value is, where it is one.
fn port_in(value: Value) -> Option<u32>
    ensures { (position : ℕ → ℕ) → listed result ≡ port_in (ref_by position value) }
{
    match value {
        Value::Port(port) => Some(port),
        Value::Result(_, _) | Value::Undefined => None,
    }
}

/// Whether a register of a body is reset without its clock.
pub(crate) fn has_async(ops: &OpIndex<'_>) -> bool
    ensures { result ≡ has_async (ops_by_position (ops_of ops.now.body.now)) }
{
    for position in 0..ops.count() {
        let op = ops.op_at(position);
        if is_async(op.kind) {
            return true;
        }
    }
    false
}

// Whether an operation of a kind is a register that is reset without its clock.
fn is_async(kind: &OpKind) -> bool
    ensures { result ≡ has_async_reset (kind_of kind.now) }
{
    matches!(kind, OpKind::AsyncFirReg)
}
