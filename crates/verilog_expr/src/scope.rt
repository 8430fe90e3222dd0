//! A body with its ports, its operations by their positions in text order.
ghost use Rattle.std.specs.Prelude.{◌≡◌, map, min, option_map, slice_get};
ghost use Rattle.hw_model.specs.Design.{result_type};
ghost use Rattle.hw_model.specs.Flat.{width_of};
ghost use Rattle.hw_model.specs.Sound.{input_type};
ghost use Rattle.ir_store.specs.Designs.{port_of, ports_in};
ghost use Rattle.ir_store.specs.Bodies.{ops_of, op_id, read_op};
ghost use Rattle.ir_store.specs.Numbered.{op_by, ops_by_position};
ghost use Rattle.verilog_expr.specs.Marks.{AreSmall};

use body_index::op_index::OpIndex;
use ir_store::body::{Body, Op};
use ir_store::design::{Port, PortList};
use ir_store::operation::{OpId, Value};
use std::alloc::{AllocError, Global};

/// A body with its ports. Contracts see it by `scope_ports` and `scope_ops`.
#[derive(Drop)]
pub struct Scope<'m> {
    ports: &'m PortList,
    ops: OpIndex<'m>,
    ghost small: { AreSmall (ports_in ports.now) (ops_by_position (ops_of ops.body.now)) },
}

impl<'m> Scope<'m> {
    ghost use Rattle.std.specs.Prelude.{◌≡◌, ◌<◌, length, IfOk, Some, None, slice_get, option_map, cond, nat_lt};
    ghost use Rattle.ir_store.specs.Bodies.{ids_of, ops_of};
    ghost use Rattle.ir_store.specs.Designs.{ports_in};
    ghost use Rattle.ir_store.specs.Numbered.{position_of, ops_by_position};
    ghost use Rattle.verilog_expr.specs.Expressions.{value_width};
    ghost use Rattle.verilog_expr.specs.Marks.{first_position};
    ghost use Rattle.verilog_expr.specs.Scopes.{scope_ports, scope_ops, scope_ids, scope_ref, op_read};

    /// A body with its ports, in which no value has more than 128 bits. One of 2^32 operations or more wants more memory than
    /// there is.
    pub fn of(alloc: Global, ports: &'m PortList, body: &'m Body) -> Result<Scope<'m>, AllocError>
        requires small { AreSmall (ports_in ports.now) (ops_by_position (ops_of body.now)) }
        ensures ports { IfOk result (λ s. ports_in s.ports.now ≡ ports_in ports.now) }
        ensures ops { IfOk result (λ s. scope_ops s ≡ ops_by_position (ops_of body.now)) }
        ensures ids { IfOk result (λ s. scope_ids s ≡ ids_of body.now) }
    {
        let ops = OpIndex::of(alloc, body)?;
        Ok(Scope { ports, ops })
    }

    /// The ports, in order.
    pub fn ports(&self) -> &'m [Port]
        ensures { map port_of result.now ≡ scope_ports self.now }
    {
        self.ports.ports.as_slice()
    }

    /// How many operations there are.
    pub fn count(&self) -> usize
        ensures { result ≡ length (scope_ops self.now) }
    {
        self.ops.count()
    }

    /// The operation at a position.
    pub fn op_at(&self, position: usize) -> Op<'m>
        requires { position < length (scope_ops self.now) }
        ensures { slice_get (scope_ops self.now) position ≡ Some (op_read self.now result) }
    {
        self.ops.op_at(position)
    }

    /// The id of the operation at a position.
    pub fn id_at(&self, position: usize) -> OpId
        requires { position < length (scope_ops self.now) }
        ensures { position_of (scope_ids self.now) result.index ≡ position }
    {
        self.ops.id_at(position)
    }

    /// The position of the operation of an id; of one that is not there, the number of operations.
    pub fn position(&self, id: OpId) -> usize
        ensures { result ≡ position_of (scope_ids self.now) id.index }
    {
        self.ops.position(id)
    }

    /// The operation of an id, where it is there.
    pub fn op(&self, id: OpId) -> Option<Op<'m>>
        ensures { option_map (op_read self.now) result ≡ slice_get (scope_ops self.now) (position_of (scope_ids self.now) id.index) }
    {
        let position = self.position(id);
        if position < self.count() {
            Some(self.op_at(position))
        } else {
            None
        }
    }

    /// The position of the operation whose first result the value is, where it is there.
    pub fn result_position(&self, value: Value) -> Option<usize>
        ensures { result ≡ first_position (length (scope_ops self.now)) (scope_ref self.now value) }
    {
        match value {
            Value::Result(id, 0) => self.within(self.position(id)),
            Value::Result(_, _) | Value::Port(_) | Value::Undefined => None,
        }
    }

    // A position, where an operation stands there.
    fn within(&self, position: usize) -> Option<usize>
        ensures { result ≡ cond (nat_lt position (length (scope_ops self.now))) (Some position) None }
    {
        if position < self.count() {
            Some(position)
        } else {
            None
        }
    }

    /// The bits of a value.
    pub fn width(&self, value: Value) -> u64
        ensures { result ≡ value_width (scope_ports self.now) (scope_ops self.now) (scope_ref self.now value) }
    {
        self.small_width(value)
    }

    // The bits of a value, where no value has more than 128.
    fn small_width(&self, value: Value) -> u64
        requires { AreSmall (scope_ports self.now) (scope_ops self.now) }
        ensures { result ≡ value_width (scope_ports self.now) (scope_ops self.now) (scope_ref self.now value) }
    {
        match value {
            Value::Port(port) => input_width(self.ports.ports.get(port as usize)),
            Value::Result(id, number) => match self.op(id) {
                Some(op) => result_width(&op, number),
                None => 0,
            },
            Value::Undefined => 0,
        }
    }
}

// The bits of an input port, or 0.
fn input_width(port: Option<&Port>) -> u64
    ensures { result ≡ min (width_of (input_type (option_map (λ p. port_of p.now) port.entry))) u64.MAX }
{
    match port {
        Some(port) if !port.out => port.ty.width(),
        _ => 0,
    }
}

/// The bits of a result of an operation, or 0 where there is none.
pub fn result_width(op: &Op<'_>, number: u32) -> u64
    ensures { result ≡ min (width_of (result_type (op_by (λ i. i) (read_op (op_id 0) op.now)) number)) u64.MAX }
{
    match op.results.as_slice().get(number as usize) {
        Some(one) => one.ty.width(),
        None => 0,
    }
}
