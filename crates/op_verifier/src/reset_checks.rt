//! The checks of asynchronous resets: what resets a register, and what instances join to the reset ports of their modules.
ghost use Rattle.std.specs.Prelude.{◌≡◌, ◌≤◌, ◌&&◌, cond, map, length, Some, slice_get};
ghost use Rattle.hw_model.specs.KindViews.{kind_of, instance_of};
ghost use Rattle.hw_model.specs.Design.{find_module, callee};
ghost use Rattle.hw_model.specs.Flat.{operand_for, port_ref, async_parts, async_reset_in};
ghost use Rattle.hw_model.specs.Resets.{is_constant};
ghost use Rattle.ir_store.specs.Designs.{port_of, design_of};
ghost use Rattle.port_checks.specs.Marked.{has_reset, AreResetPorts};
ghost use Rattle.op_verifier.specs.ResetChecks.{is_input_port, is_no_input, is_constant_op, is_constant_ref, has_other_reset, joins_other, has_other_join, reset_cause};

use crate::body_view::BodyView;
use crate::entries::Entry;
use crate::values::input_type;
use diag::cause::Cause;
use hw_model::kinds::{Instance, OpKind};
use ir_store::design::{Design, Port};
use ir_store::operation::{OpId, Value};
use port_checks::ResetPorts;

impl<'b> BodyView<'b> {
    ghost use Rattle.op_verifier.specs.Entries.{op_in};
    ghost use Rattle.op_verifier.specs.BodyViews.{ports_viewed, body_viewed, ref_viewed, position_viewed, op_viewed};

    /// Why the operation of an entry is refused for an asynchronous reset.
    pub(crate) fn reset_cause(
        &self,
        design: &Design,
        resets: &ResetPorts,
        entry: &Entry<'_>,
    ) -> Option<Cause>
        requires { AreResetPorts (design_of design.now) resets.now }
        ensures { result ≡ reset_cause (design_of design.now) (ports_viewed self.now) (body_viewed self.now) (op_viewed self.now (op_in entry.now)) }
    {
        if self.has_other_reset(entry) || self.has_other_join(design, resets, entry) {
            Some(Cause::AsyncReset)
        } else {
            None
        }
    }

    /// Whether an operation's asynchronous reset is no input port, or its value is no constant.
    fn has_other_reset(&self, entry: &Entry<'_>) -> bool
        ensures { result ≡ has_other_reset (ports_viewed self.now) (body_viewed self.now) (async_reset_in (op_viewed self.now (op_in entry.now))) }
    {
        match entry.op.kind {
            OpKind::AsyncFirReg => self.is_reset_to_other(entry.op.operands),
            _ => false,
        }
    }

    /// Whether the third of four operands is no input port, or the fourth no constant.
    fn is_reset_to_other(&self, operands: &[Value]) -> bool
        ensures { result ≡ has_other_reset (ports_viewed self.now) (body_viewed self.now) (async_parts (map (ref_viewed self.now) operands.now)) }
    {
        match operands {
            [_, _, signal, value] => {
                !(self.is_input_port(*signal) && self.is_constant_result(*value))
            }
            _ => false,
        }
    }

    /// Whether an instance joins a reset port of its module to another value than an input port.
    fn has_other_join(&self, design: &Design, resets: &ResetPorts, entry: &Entry<'_>) -> bool
        requires { AreResetPorts (design_of design.now) resets.now }
        ensures { result ≡ has_other_join (design_of design.now) (ports_viewed self.now) (op_viewed self.now (op_in entry.now)).operands (callee (design_of design.now) (op_viewed self.now (op_in entry.now))) }
    {
        match entry.op.kind {
            OpKind::Instance(instance) => {
                self.joins_other(design, resets, instance, entry.op.operands)
            }
            _ => false,
        }
    }

    /// Whether an instance with these operands does so.
    fn joins_other(
        &self,
        design: &Design,
        resets: &ResetPorts,
        instance: &Instance,
        operands: &[Value],
    ) -> bool
        requires { AreResetPorts (design_of design.now) resets.now }
        ensures { result ≡ has_other_join (design_of design.now) (ports_viewed self.now) (map (ref_viewed self.now) operands.now) (find_module (design_of design.now) (instance_of instance.now).symbol) }
    {
        match design.find(instance.symbol.as_bytes()) {
            Some(number) => {
                let ports = &design.module(number).ports.ports;
                self.joins_other_among(resets, number, ports, operands)
            }
            None => false,
        }
    }

    /// Whether the module of a number, which has these ports, has a reset port to which another of the operands than an
    /// input port is joined.
    fn joins_other_among(
        &self,
        resets: &ResetPorts,
        owner: u32,
        ports: &[Port],
        operands: &[Value],
    ) -> bool
        ensures { result ≡ joins_other (has_reset resets.now owner) (ports_viewed self.now) (port_ref (map port_of ports.now) (map (ref_viewed self.now) operands.now)) (length ports.now) }
    {
        let mut inputs = 0;
        for (number, port) in ports.iter().enumerate() {
            let is_reset = resets.has(owner as usize, number);
            if self.joins_other_at(is_reset, port, operands, inputs) {
                return true;
            }
            inputs += input_count(port);
        }
        false
    }

    /// Whether a port is a reset port to which another value than an input port is joined, so many inputs being before it.
    fn joins_other_at(&self, is_reset: bool, port: &Port, operands: &[Value], inputs: usize) -> bool
        ensures { result ≡ (is_reset && is_no_input (ports_viewed self.now) (operand_for (Some (port_of port.now)) (map (ref_viewed self.now) operands.now) inputs)) }
    {
        is_reset && self.is_other(port, operands, inputs)
    }

    /// Whether what is joined to a port, where something is, is another value than an input port.
    fn is_other(&self, port: &Port, operands: &[Value], inputs: usize) -> bool
        ensures { result ≡ is_no_input (ports_viewed self.now) (operand_for (Some (port_of port.now)) (map (ref_viewed self.now) operands.now) inputs) }
    {
        if port.out {
            return false;
        }
        match operands.get(inputs) {
            Some(value) => !self.is_input_port(*value),
            None => false,
        }
    }

    /// Whether a value is an input port.
    fn is_input_port(&self, value: Value) -> bool
        ensures { result ≡ is_input_port (ports_viewed self.now) (ref_viewed self.now value) }
    {
        match value {
            Value::Port(number) => input_type(self.ports.get(number as usize)).is_some(),
            Value::Result(_, _) | Value::Undefined => false,
        }
    }

    /// Whether a value is the result of a constant.
    fn is_constant_result(&self, value: Value) -> bool
        ensures { result ≡ is_constant_ref (body_viewed self.now) (ref_viewed self.now value) }
    {
        match value {
            Value::Result(id, _) => self.is_constant_op(id),
            Value::Port(_) | Value::Undefined => false,
        }
    }

    /// Whether the operation of an id is a constant.
    fn is_constant_op(&self, id: OpId) -> bool
        ensures { result ≡ is_constant_op (slice_get (body_viewed self.now) (position_viewed self.now id.index)) }
    {
        match self.find(id) {
            Some(entry) => is_constant(entry.op.kind),
            None => false,
        }
    }
}

/// Whether a kind is a constant.
fn is_constant(kind: &OpKind) -> bool
    ensures { result ≡ is_constant (kind_of kind.now) }
{
    match kind {
        OpKind::Constant(_) | OpKind::AggregateConstant(_) => true,
        _ => false,
    }
}

/// How many inputs a port is.
fn input_count(port: &Port) -> usize
    ensures count { result ≡ cond port.now.out 0 1 }
    ensures few { result ≤ 1 }
{
    if port.out { 0 } else { 1 }
}
