//! The operations of a module that stand in the place of its instance, and where its values then are.
ghost use Rattle.std.specs.Prelude.{◌≡◌, map, slice_get, IfOk};
ghost use Rattle.hw_model.specs.KindViews.{kind_of};
ghost use Rattle.hw_model.specs.Design.{is_output_kind};
ghost use Rattle.ir_store.specs.Bodies.{ops_of};
ghost use Rattle.ir_store.specs.Designs.{ports_in};
ghost use Rattle.ir_store.specs.OperationViews.{results_in, location_of};
ghost use Rattle.ir_store.specs.Numbered.{position_of};
ghost use Rattle.hw_model.specs.TypeViews.{type_of};
ghost use Rattle.body_edits.specs.WiresOut.{value_or_undefined};
ghost use Rattle.inline_pass.specs.MovedOps.{AreMoved, joined_values, without_id, wire_of, wires_of};
ghost use Rattle.inline_pass.specs.Destinations.{AreDestinations, destination_ids, value_there};

use crate::renamed_ops::renamed_op;
use diag::refusal::Location;
use hw_model::kinds::OpKind;
use hw_model::types::Ty;
use ir_store::body::Body;
use ir_store::design::PortList;
use ir_store::operation::{NewOp, NewResultList, OpId, Value};
use std::alloc::{AllocError, Global};

/// What stands in the place of an instance of a module.
#[derive(Drop)]
pub(crate) struct Moved {
    /// The ids of the operations of the module before its output.
    pub(crate) ids: Vec<OpId>,
    /// A copy of each, named anew, with the operands that it has in the module.
    pub(crate) copies: Vec<NewOp>,
    /// The operands of the output.
    pub(crate) given: Vec<Value>,
}

/// Where the values of a module are in the place of its instance.
#[derive(Drop)]
pub(crate) struct Destinations<'a> {
    /// What the instance joins to each port.
    pub(crate) joined: &'a [Value],
    /// The ids of the operations before the output.
    pub(crate) ids: &'a [OpId],
    /// Their positions, by ids.
    pub(crate) positions: &'a [u32],
    /// The copies of these operations, in order.
    pub(crate) copies: &'a [OpId],
}

/// The operations of a module, for its instance of this name.
pub(crate) fn moved_ops(alloc: Global, instance: &[u8], body: &Body) -> Result<Moved, AllocError>
    ensures { IfOk result (λ moved. AreMoved instance.now (ops_of body.now) moved.ids.items moved.copies.items moved.given.items) }
{
    let mut ids = Vec::new(alloc);
    let mut copies = Vec::new(alloc);
    for id in body.ops() {
        let op = body.op(id);
        if is_output(op.kind) {
            let given = Vec::from_slice(alloc, op.operands)?;
            return Ok(Moved { ids, copies, given });
        }
        ids.push(id)?;
        copies.push(renamed_op(alloc, instance, &op)?)?;
    }
    let given = Vec::new(alloc);
    Ok(Moved { ids, copies, given })
}

/// Whether a kind is `hw.output`.
pub(crate) fn is_output(kind: &OpKind) -> bool
    ensures { result ≡ is_output_kind (kind_of kind.now) }
{
    matches!(kind, OpKind::Output)
}

/// What an instance with these operands joins to each port of its module.
pub(crate) fn values_joined(
    alloc: Global,
    ports: &PortList,
    operands: &[Value],
) -> Result<Vec<Value>, AllocError>
    ensures { IfOk result (λ joined. joined.items ≡ joined_values (ports_in ports.now) operands.now) }
{
    let mut joined = Vec::new(alloc);
    let mut rest = operands;
    for port in &ports.ports {
        if port.out {
            joined.push(Value::Undefined)?;
        } else if let Some((first, others)) = rest.split_first() {
            joined.push(*first)?;
            rest = others;
        } else {
            joined.push(Value::Undefined)?;
        }
    }
    Ok(joined)
}

/// A wire for each result of an instance at a place of the text, for the value that its module gives to its output of that
/// number.
pub(crate) fn wires_for(
    alloc: Global,
    results: &NewResultList,
    given: &[Value],
    location: Location,
) -> Result<Vec<NewOp>, AllocError>
    ensures { IfOk result (λ wires. map without_id wires.items ≡ wires_of (location_of location) (results_in results.now) given.now) }
{
    let mut wires = Vec::new(alloc);
    let mut rest = given;
    for one in results.as_slice() {
        let value = match rest.split_first() {
            Some((first, others)) => {
                rest = others;
                *first
            }
            None => Value::Undefined,
        };
        wires.push(wire_for(alloc, &one.ty, value, location)?)?;
    }
    Ok(wires)
}

/// A wire without a name that carries a value.
fn wire_for(alloc: Global, ty: &Ty, value: Value, location: Location) -> Result<NewOp, AllocError>
    ensures { IfOk result (λ wire. without_id wire ≡ wire_of (location_of location) (type_of ty.now) value) }
{
    NewOp::of_type(alloc, OpKind::Wire, &[value], ty, location)
}

impl<'a> Destinations<'a> {
    /// Values of the module in the place of its instance.
    pub(crate) fn all_moved(
        &self,
        alloc: Global,
        values: &[Value],
    ) -> Result<Vec<Value>, AllocError>
        requires { AreDestinations self.now }
        ensures { IfOk result (λ all. all.items ≡ map (value_there self.now) values.now) }
    {
        let mut all = Vec::with_capacity(alloc, values.len())?;
        for value in values {
            all.push(self.moved_value(*value))?;
        }
        Ok(all)
    }

    /// A value of the module in the place of its instance.
    fn moved_value(&self, value: Value) -> Value
        requires { AreDestinations self.now }
        ensures { result ≡ value_there self.now value }
    {
        match value {
            Value::Port(port) => self.joined_to(port),
            Value::Result(id, number) => match self.copy(id) {
                Some(copy) => Value::Result(copy, number),
                None => Value::Undefined,
            },
            Value::Undefined => Value::Undefined,
        }
    }

    /// What the instance joins to a port.
    fn joined_to(&self, port: u32) -> Value
        ensures { result ≡ value_or_undefined (slice_get self.now.joined.now port) }
    {
        match self.joined.get(port as usize) {
            Some(value) => *value,
            None => Value::Undefined,
        }
    }

    /// The copy of an operation of the module before its output.
    fn copy(&self, id: OpId) -> Option<OpId>
        requires { AreDestinations self.now }
        ensures { result ≡ slice_get self.now.copies.now (position_of (destination_ids self.now) id.index) }
    {
        self.copies.get(self.position(id)).copied()
    }

    /// The position of an operation before the output; of another one, their number.
    fn position(&self, id: OpId) -> usize
        requires { AreDestinations self.now }
        ensures { result ≡ position_of (destination_ids self.now) id.index }
    {
        match self.noted_position(id) {
            Some(position) => (position as usize).min(self.ids.len()),
            None => self.ids.len(),
        }
    }

    /// What the table of positions has for an id.
    fn noted_position(&self, id: OpId) -> Option<u32>
        ensures { result ≡ slice_get self.now.positions.now id.index }
    {
        self.positions.get(id.number() as usize).copied()
    }
}
