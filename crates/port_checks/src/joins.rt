//! Which ports instances join to which.
ghost use Rattle.std.specs.Prelude.{◌≡◌, ◌+◌, ◌<◌, ◌^◌, cond, map, option_map, length, OnOk, Some};
ghost use Rattle.hw_model.specs.Flat.{operand_for};
ghost use Rattle.ir_store.specs.Designs.{port_of, module_of, numbered_module, design_of};
ghost use Rattle.graphs.specs.Graphs.{lists_of};
ghost use Rattle.port_checks.specs.Pairs.{AddsPairs};
ghost use Rattle.port_checks.specs.Joins.{operand_pairs, call_pairs, instance_pairs, pairs_in, made_from};
ghost use Rattle.port_checks.specs.Seen.{ref_seen, op_seen};

use crate::instances::instance_cause;
use crate::joined_ports::push_joined;
use crate::numbers::{optional_number, port_number};
use crate::ports::bit_port;
use graphs::NodeList;
use hw_model::kinds::{Instance, OpKind};
use ir_store::body::Op;
use ir_store::design::{Design, Module, Port};
use ir_store::operation::Value;
use std::alloc::AllocError;

/// The ports of a module of a design.
#[derive(Clone, Copy)]
struct ModulePorts<'d> {
    /// The module's number.
    number: usize,
    /// Its ports.
    ports: &'d [Port],
}

/// Appends to each port of a design the i1 inputs that instances join to it.
pub(crate) fn push_joins(
    design: &Design,
    starts: &[u32],
    joined: &mut Vec<NodeList>,
) -> Result<(), AllocError>
    ensures { OnOk result (AddsPairs (made_from (pairs_in (design_of design.now) starts.now) 0 (design_of design.now)) (lists_of joined.old.items) (lists_of joined.new.items)) }
{
    for number in 0..design.module_count() {
        push_module(design, starts, number, design.module(number), joined)?;
    }
    Ok(())
}

/// Appends those that the instances of one module join.
fn push_module(
    design: &Design,
    starts: &[u32],
    number: u32,
    owner: &Module,
    joined: &mut Vec<NodeList>,
) -> Result<(), AllocError>
    ensures { OnOk result (AddsPairs (pairs_in (design_of design.now) starts.now number (numbered_module (module_of owner.now))) (lists_of joined.old.items) (lists_of joined.new.items)) }
{
    let caller = ModulePorts {
        number: number as usize,
        ports: &owner.ports.ports,
    };
    for id in owner.body.ops() {
        let op = owner.body.op(id);
        push_operation(design, starts, &caller, &op, joined)?;
    }
    Ok(())
}

/// Appends those that an operation joins, where it is an instance that its module does not refuse.
fn push_operation(
    design: &Design,
    starts: &[u32],
    caller: &ModulePorts<'_>,
    op: &Op<'_>,
    joined: &mut Vec<NodeList>,
) -> Result<(), AllocError>
    ensures { OnOk result (AddsPairs (instance_pairs (design_of design.now) starts.now caller.now.number (map port_of caller.now.ports.now) (op_seen op.now)) (lists_of joined.old.items) (lists_of joined.new.items)) }
{
    let refused = instance_cause(design, op.kind, op.types.as_slice()).is_some();
    match op.kind {
        OpKind::Instance(instance) if !refused => {
            push_call(design, starts, caller, instance, op.operands, joined)
        }
        _ => Ok(()),
    }
}

/// Appends those that an instance joins.
fn push_call(
    design: &Design,
    starts: &[u32],
    caller: &ModulePorts<'_>,
    instance: &Instance,
    operands: &[Value],
    joined: &mut Vec<NodeList>,
) -> Result<(), AllocError>
    ensures { OnOk result (AddsPairs (call_pairs (design_of design.now) starts.now caller.now.number (map port_of caller.now.ports.now) (map ref_seen operands.now) instance.now.symbol) (lists_of joined.old.items) (lists_of joined.new.items)) }
{
    match design.find(instance.symbol.as_bytes()) {
        Some(number) => {
            let called = ModulePorts {
                number: number as usize,
                ports: &design.module(number).ports.ports,
            };
            push_operands(starts, &called, caller, operands, joined)
        }
        None => Ok(()),
    }
}

/// Appends the i1 inputs of the caller that operands join to the ports of the module that is called.
fn push_operands(
    starts: &[u32],
    called: &ModulePorts<'_>,
    caller: &ModulePorts<'_>,
    operands: &[Value],
    joined: &mut Vec<NodeList>,
) -> Result<(), AllocError>
    ensures { OnOk result (AddsPairs (operand_pairs starts.now called.now.number (map port_of called.now.ports.now) caller.now.number (map port_of caller.now.ports.now) (map ref_seen operands.now) (length called.now.ports.now)) (lists_of joined.old.items) (lists_of joined.new.items)) }
{
    let mut inputs = 0;
    for number in 0..called.ports.len() {
        let port = &called.ports[number];
        let value = bit_port(caller.ports, operand_for(port, operands, inputs));
        let to = port_number(starts, called.number, number);
        push_joined(joined, to, optional_number(starts, caller.number, value))?;
        inputs = inputs_after(port, inputs);
    }
    Ok(())
}

/// How many inputs stand before the port after one, before which so many stand.
fn inputs_after(port: &Port, inputs: usize) -> usize
    requires { inputs + 1 < 2 ^ 64 }
    ensures { result ≡ cond port.now.out inputs (inputs + 1) }
{
    if port.out { inputs } else { inputs + 1 }
}

/// The operand for a port, before which so many inputs stand; none for an output.
fn operand_for(port: &Port, operands: &[Value], inputs: usize) -> Option<Value>
    ensures { option_map ref_seen result ≡ operand_for (Some (port_of port.now)) (map ref_seen operands.now) inputs }
{
    if port.out {
        None
    } else {
        operands.get(inputs).copied()
    }
}
