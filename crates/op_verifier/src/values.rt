//! The values of a body: what an operand is, the type that is settled for it, and whether it is a constant.
ghost use Rattle.std.specs.Prelude.{◌≡◌, is_some, map, option_map, option_copied, slice_get, IfOk, Some};
ghost use Rattle.hw_model.specs.TypeViews.{type_of};
ghost use Rattle.hw_model.specs.KindViews.{kind_of, integer_of};
ghost use Rattle.hw_model.specs.Sound.{input_type, type_in};
ghost use Rattle.ir_store.specs.Designs.{port_of};
ghost use Rattle.op_verifier.specs.Entries.{AreSettled};
ghost use Rattle.op_verifier.specs.OpChecks.{has_undefined, settled_type, is_nonzero, is_nonzero_kind, is_nonzero_op, is_nonzero_ref, divides_by_constant};

use crate::body_view::BodyView;
use crate::entries::Entry;
use hw_model::kinds::{Integer, OpKind};
use hw_model::types::Ty;
use ir_store::design::Port;
use ir_store::operation::{OpId, Value};
use smallvec::SmallVec;
use std::alloc::{AllocError, Global};

impl<'b> BodyView<'b> {
    ghost use Rattle.op_verifier.specs.BodyViews.{ports_viewed, body_viewed, ref_viewed, position_viewed};

    /// The entry of an id.
    pub(crate) fn find(&self, id: OpId) -> Option<&Entry<'b>>
        ensures { option_copied result ≡ slice_get self.now.entries.items (position_viewed self.now id.index) }
    {
        match self.positions.get(id.number() as usize) {
            Some(position) => self.entries.get(*position),
            None => None,
        }
    }

    /// Whether a value is an input port or a result of the body.
    fn is_value(&self, value: Value) -> bool
        ensures { result ≡ is_some (type_in (ports_viewed self.now) (body_viewed self.now) (ref_viewed self.now value)) }
    {
        match value {
            Value::Port(j) => input_type(self.ports.get(j as usize)).is_some(),
            Value::Result(id, k) => match self.find(id) {
                Some(entry) => {
                    let results = entry.op.results.as_slice();
                    (k as usize) < results.len()
                }
                None => false,
            },
            Value::Undefined => false,
        }
    }

    /// The type that is settled for a value.
    fn settled_type(&self, value: Value) -> Option<&Ty>
        requires { AreSettled self.now.entries.items }
        ensures { option_map (λ t. type_of t.now) result ≡ settled_type (ports_viewed self.now) (body_viewed self.now) (ref_viewed self.now value) }
    {
        match value {
            Value::Port(j) => input_type(self.ports.get(j as usize)),
            Value::Result(id, k) => match self.find(id) {
                Some(entry) => entry.settled.at(k as usize),
                None => None,
            },
            Value::Undefined => None,
        }
    }

    /// Whether some operand is no value of the body.
    pub(crate) fn has_undefined(&self, operands: &[Value]) -> bool
        ensures { result ≡ has_undefined (ports_viewed self.now) (body_viewed self.now) (map (ref_viewed self.now) operands.now) }
    {
        for value in operands {
            if !self.is_value(*value) {
                return true;
            }
        }
        false
    }

    /// The types that are settled for operands.
    pub(crate) fn settled_types(
        &self,
        alloc: Global,
        operands: &[Value],
    ) -> Result<SmallVec<Option<&Ty>, 4, Global>, AllocError>
        requires { AreSettled self.now.entries.items }
        ensures { IfOk result (λ ts. map (option_map (λ t. type_of t.now)) ts.items ≡ map (settled_type (ports_viewed self.now) (body_viewed self.now)) (map (ref_viewed self.now) operands.now)) }
    {
        let mut types = SmallVec::new(alloc);
        for value in operands {
            types.push(self.settled_type(*value))?;
        }
        Ok(types)
    }

    /// Whether the second operand is the result of a constant other than zero.
    pub(crate) fn divides_by_constant(&self, operands: &[Value]) -> bool
        ensures { result ≡ divides_by_constant (body_viewed self.now) (map (ref_viewed self.now) operands.now) }
    {
        match operands.get(1) {
            Some(value) => self.is_nonzero(*value),
            None => false,
        }
    }

    /// Whether a value is the result of a constant other than zero.
    fn is_nonzero(&self, value: Value) -> bool
        ensures { result ≡ is_nonzero_ref (body_viewed self.now) (Some (ref_viewed self.now value)) }
    {
        match value {
            Value::Result(id, number) => number == 0 && self.is_constant(id),
            Value::Port(_) | Value::Undefined => false,
        }
    }

    /// Whether the operation of an id is a constant other than zero.
    fn is_constant(&self, id: OpId) -> bool
        ensures { result ≡ is_nonzero_op (slice_get (body_viewed self.now) (position_viewed self.now id.index)) }
    {
        match self.find(id) {
            Some(entry) => is_nonzero_kind(entry.op.kind),
            None => false,
        }
    }
}

/// The type of an input port.
pub(crate) fn input_type(port: Option<&Port>) -> Option<&Ty>
    ensures { option_map (λ t. type_of t.now) result ≡ input_type (option_map (λ p. port_of p.now) port.entry) }
{
    match port {
        Some(port) if !port.out => Some(&port.ty),
        Some(_) | None => None,
    }
}

/// Whether a kind is a constant other than zero, as it is written.
fn is_nonzero_kind(kind: &OpKind) -> bool
    ensures { result ≡ is_nonzero_kind (kind_of kind.now) }
{
    match kind {
        OpKind::Constant(value) => is_nonzero(*value),
        _ => false,
    }
}

fn is_nonzero(value: Integer) -> bool
    ensures { result ≡ is_nonzero (integer_of value) }
{
    match value {
        Integer::NonNegative(number) => number != 0,
        Integer::Negative(_) => true,
    }
}
