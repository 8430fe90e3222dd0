//! What the steps of a flat module need of it.
ghost use Rattle.std.specs.Prelude.{◌≡◌, ◌+◌, ◌++◌, map, IfOk, OnOk};
ghost use Rattle.ir_store.specs.Bodies.{ids_of, ops_of};
ghost use Rattle.ir_store.specs.Designs.{port_of, ports_in};
ghost use Rattle.ir_store.specs.declared.body.Body.{Body};
ghost use Rattle.body_index.specs.OpIndexes.{op_view};
ghost use Rattle.ir_store.specs.Numbered.{position_of, ref_by, ops_by_position};
ghost use Rattle.hw_model.specs.Design.{output_refs};
ghost use Rattle.flat_steps.specs.Tables.{own_place, input_places, own_position, register_positions};

use body_index::op_index::OpIndex;
use flat_module_gates::kinds::{is_output, is_register};
use ir_store::body::Op;
use ir_store::design::{Module, Port, PortList};
use ir_store::operation::Value;
use std::alloc::{AllocError, Global};

/// What the steps of a flat module need of it.
#[derive(Drop)]
pub struct Plan<'m> {
    /// Its ports.
    pub(crate) ports: &'m PortList,
    /// Its operations.
    pub(crate) ops: OpIndex<'m>,
    /// The places of its input ports.
    pub(crate) inputs: Vec<u32>,
    /// The positions of its registers.
    pub(crate) registers: Vec<u32>,
    /// The values of its outputs.
    pub(crate) outputs: Vec<Value>,
    ghost inputs_are: { inputs.items ≡ input_places 0 (ports_in ports.now) },
    ghost registers_are: { registers.items ≡ register_positions 0 (ops_by_position (ops_of ops.body.now)) },
    ghost outputs_are: { map (ref_by (position_of (ids_of ops.body.now))) outputs.items ≡ output_refs (ops_by_position (ops_of ops.body.now)) },
}

impl<'m> Plan<'m> {
    /// What the steps of a module need of it. The error comes only when out of memory, for which 2^32 ports and operations count.
    pub fn of(alloc: Global, module: &'m Module) -> Result<Plan<'m>, AllocError>
        ensures ports { IfOk result (λ p. ports_in p.ports.now ≡ ports_in «module».now.ports) }
        ensures body { IfOk result (λ p. ops_by_position (ops_of p.ops.body.now) ≡ ops_by_position (ops_of «module».now.body)) }
    {
        let ops = OpIndex::of(alloc, &module.body)?;
        let inputs = input_places(alloc, &module.ports)?;
        let registers = register_positions(alloc, &ops)?;
        let outputs = output_values(alloc, &ops)?;
        Ok(Plan {
            ports: &module.ports,
            ops,
            inputs,
            registers,
            outputs,
        })
    }
}

// The places of the input ports.
fn input_places(alloc: Global, ports: &PortList) -> Result<Vec<u32>, AllocError>
    ensures { IfOk result (λ places. places.items ≡ input_places 0 (ports_in ports.now)) }
{
    let mut places = Vec::new(alloc);
    let mut place = 0;
    for port in &ports.ports {
        push_place(port, place, &mut places)?;
        place = next_of(place)?;
    }
    Ok(places)
}

// Adds the place of a port, if it is an input.
fn push_place(port: &Port, place: u32, places: &mut Vec<u32>) -> Result<(), AllocError>
    ensures { OnOk result (places.new.items ≡ places.old.items ++ own_place place (port_of port.now)) }
{
    if !port.out {
        places.push(place)?;
    }
    Ok(())
}

// The next number.
fn next_of(number: u32) -> Result<u32, AllocError>
    ensures { IfOk result (λ next. next ≡ number + 1) }
{
    match number.checked_add(1) {
        Some(next) => Ok(next),
        None => Err(AllocError),
    }
}

// The positions of the registers.
fn register_positions(alloc: Global, ops: &OpIndex<'_>) -> Result<Vec<u32>, AllocError>
    ensures { IfOk result (λ positions. positions.items ≡ register_positions 0 (ops_by_position (ops_of ops.now.body.now))) }
{
    let mut positions = Vec::new(alloc);
    for position in 0..ops.count() {
        push_position(&ops.op_at(position), position, &mut positions)?;
    }
    Ok(positions)
}

// Adds the position of an operation, if it is a register.
fn push_position(op: &Op<'_>, position: usize, positions: &mut Vec<u32>) -> Result<(), AllocError>
    ensures { (b : Body) → OnOk result (positions.new.items ≡ positions.old.items ++ own_position position (op_view b op.now)) }
{
    if is_register(op.kind) {
        positions.push(number_of(position)?)?;
    }
    Ok(())
}

// The values of the outputs.
fn output_values(alloc: Global, ops: &OpIndex<'_>) -> Result<Vec<Value>, AllocError>
    ensures { IfOk result (λ values. map (ref_by (position_of (ids_of ops.now.body.now))) values.items ≡ output_refs (ops_by_position (ops_of ops.now.body.now))) }
{
    for position in 0..ops.count() {
        let op = ops.op_at(position);
        if is_output(op.kind) {
            let values = Vec::from_slice(alloc, op.operands)?;
            return Ok(values);
        }
    }
    Ok(Vec::new(alloc))
}

// A place as a number of 32 bits.
fn number_of(place: usize) -> Result<u32, AllocError>
    ensures { IfOk result (λ number. number ≡ place) }
{
    u32::try_from(place).map_err(|_| AllocError)
}
