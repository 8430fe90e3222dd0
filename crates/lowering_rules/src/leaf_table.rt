//! What stands for each value of a body: its leaves in the new body.
ghost use Rattle.std.specs.Prelude.{◌≡◌, ◌<◌, ℕ, true, false, List, [], Some, map, option_map, slice_get, cond, length, IfOk, option_and_then};
ghost use Rattle.hw_model.specs.Kinds.{Kind};
ghost use Rattle.hw_model.specs.KindViews.{kind_of};
ghost use Rattle.hw_model.specs.Design.{Ref, Op as HwOp};
ghost use Rattle.hw_model.specs.Design.Ref.{port};
ghost use Rattle.ir_store.specs.Bodies.{ids_of, ops_of, op_id};
ghost use Rattle.ir_store.specs.Designs.{ports_in};
ghost use Rattle.ir_store.specs.Numbered.{ops_by_position};
ghost use Rattle.ir_store.specs.OperationViews.{results_in};
ghost use Rattle.aggregate_laws.specs.Leaves.{in_row};
ghost use Rattle.aggregate_laws.specs.LeafPorts.{split_ports};
ghost use Rattle.aggregate_laws.specs.Rules.{stays_one};
ghost use Rattle.aggregate_laws.specs.Aggregates.{aggregate_rules};
ghost use Rattle.lowering_rules.specs.Reading.{plain_of, new_refs};
ghost use Rattle.lowering_rules.specs.LeafTables.{IsLeafTable, IsBlockTable, AddsBlock, or_none, refs_in, results_at, leaves_at, port_table, op_seen, kind_is_one, offset_ref, divided};

use crate::forms::form_of;
use crate::shapes::{Shape, shape_of};
use crate::written_types::{leaf_count, sum};
use body_index::position_table::{ids_in, positions_of};
use hw_model::kinds::OpKind;
use ir_store::body::{Body, Op};
use ir_store::design::PortList;
use ir_store::operation::{NewResultList, OpId, Value};
use std::alloc::{AllocError, Global};

/// What stands for the values of a body, each operation of which becomes a block of operations of a new one.
#[derive(Drop)]
pub struct LeafTable {
    /// The ids of the operations, in order.
    pub ids: Vec<OpId>,
    // Their positions, by ids.
    positions: Vec<u32>,
    // The leaves of each port.
    ports: Vec<Vec<Value>>,
    // The leaves of each result of each operation, by positions.
    results: Vec<Vec<Vec<Value>>>,
    /// Where what each operation becomes begins, by positions.
    pub starts: Vec<u32>,
    /// Where it ends.
    pub ends: Vec<u32>,
}

// What the operations of a body become, by their positions.
#[derive(Drop)]
struct BlockTable {
    // The leaves of each result of each operation.
    results: Vec<Vec<Vec<Value>>>,
    // Where what each operation becomes begins.
    starts: Vec<u32>,
    // Where it ends.
    ends: Vec<u32>,
}

/// What stands for the values of a body of a module with these ports. The error comes only when out of memory, for which 2^32 leaves or
/// operations count. Linear in the leaves of ports and results.
pub fn leaf_table(alloc: Global, ports: &PortList, body: &Body) -> Result<LeafTable, AllocError>
    ensures { (named : HwOp → Kind) → IfOk result (IsLeafTable (aggregate_rules split_ports named) (ports_in ports.now) body.now) }
{
    let ids = ids_in(alloc, body)?;
    let positions = positions_of(alloc, ids.as_slice())?;
    let leaves = port_leaves(alloc, ports)?;
    let blocks = block_table(alloc, ids.as_slice(), body)?;
    Ok(LeafTable {
        ids,
        positions,
        ports: leaves,
        results: blocks.results,
        starts: blocks.starts,
        ends: blocks.ends,
    })
}

impl LeafTable {
    /// What stands for a value.
    pub fn leaves(&self, value: Value) -> &[Value]
        ensures { new_refs result.now ≡ leaves_at self.now value }
    {
        match value {
            Value::Port(port) => values_in(self.ports.get(port as usize)),
            Value::Result(id, number) => match self.results_of(id) {
                Some(all) => values_in(all.get(number as usize)),
                None => &[],
            },
            Value::Undefined => &[],
        }
    }

    // The leaves of an operation's results, where there is one.
    fn results_of(&self, id: OpId) -> Option<&[Vec<Value>]>
        ensures { option_map (λ (rs : _). refs_in rs.now) result ≡ option_and_then (λ (j : ℕ). slice_get (results_at self.now) j) (slice_get self.now.positions.items id.index) }
    {
        let position = *self.positions.get(id.number() as usize)?;
        let all = self.results.get(position as usize)?;
        Some(all.as_slice())
    }
}

// The values, where there is a list of them.
fn values_in(values: Option<&Vec<Value>>) -> &[Value]
    ensures { new_refs result.now ≡ or_none (option_map (λ (vs : _). new_refs vs.now.items) values.entry) }
{
    match values {
        Some(values) => values.as_slice(),
        None => &[],
    }
}

// The leaves of ports: those of an output are no values of the body.
fn port_leaves(alloc: Global, ports: &PortList) -> Result<Vec<Vec<Value>>, AllocError>
    ensures { IfOk result (λ all. refs_in all.items ≡ port_table 0 (ports_in ports.now)) }
{
    let mut all = Vec::with_capacity(alloc, ports.ports.len())?;
    let mut next = 0;
    for port in &ports.ports {
        let count = leaf_count(&port.ty)?;
        all.push(leaves_of_port(alloc, port.out, next, count)?)?;
        next = sum(next, count)?;
    }
    Ok(all)
}

// So many leaves of a port, from one on; of an output none.
fn leaves_of_port(
    alloc: Global,
    out: bool,
    first: u32,
    count: u32,
) -> Result<Vec<Value>, AllocError>
    ensures { IfOk result (λ values. new_refs values.items ≡ cond out [] (in_row port first count)) }
{
    if out {
        return Ok(Vec::new(alloc));
    }
    ports_from(alloc, first, count)
}

// So many ports, from one on.
fn ports_from(alloc: Global, first: u32, count: u32) -> Result<Vec<Value>, AllocError>
    ensures { IfOk result (λ values. new_refs values.items ≡ in_row port first count) }
{
    let mut values = Vec::with_capacity(alloc, count as usize)?;
    let end = sum(first, count)?;
    for number in first..end {
        values.push(Value::Port(number))?;
    }
    Ok(values)
}

// What the operations of a body become, `ids` being those of all.
fn block_table(alloc: Global, ids: &[OpId], body: &Body) -> Result<BlockTable, AllocError>
    requires { ids.now ≡ map op_id (ids_of body.now) }
    ensures { (named : HwOp → Kind) → IfOk result (IsBlockTable (aggregate_rules split_ports named) body.now) }
{
    let mut table = BlockTable {
        results: Vec::new(alloc),
        starts: Vec::new(alloc),
        ends: Vec::new(alloc),
    };
    let mut start = 0;
    for position in 0..ids.len() {
        let op = op_at(body, ids, position);
        start = table.add(alloc, &op, start)?;
    }
    Ok(table)
}

// The operation at a position, `ids` being those of all.
fn op_at<'b>(body: &'b Body, ids: &[OpId], position: usize) -> Op<'b>
    requires all { ids.now ≡ map op_id (ids_of body.now) }
    requires within { position < length ids.now }
    ensures { slice_get (ops_by_position (ops_of body.now)) position ≡ Some (op_seen body.now result) }
{
    body.op(ids[position])
}

impl BlockTable {
    // Adds what an operation becomes, beginning at a position, and gives where it ends.
    fn add(&mut self, alloc: Global, op: &Op<'_>, start: u32) -> Result<u32, AllocError>
        ensures { (named : HwOp → Kind) (rs : List Ref) → IfOk result (AddsBlock named (record (plain_of op.now) { operands = rs }) start self.old self.new) }
    {
        let shape = shape_of(alloc, op, &form_of(op))?;
        let leaves = leaves_of_results(alloc, op, &shape, start)?;
        let end = sum(start, shape.count)?;
        self.results.push(leaves)?;
        self.starts.push(start)?;
        self.ends.push(end)?;
        Ok(end)
    }
}

// The leaves of an operation's results, where what it becomes begins at a position.
fn leaves_of_results(
    alloc: Global,
    op: &Op<'_>,
    shape: &Shape,
    start: u32,
) -> Result<Vec<Vec<Value>>, AllocError>
    ensures { IfOk result (λ all. refs_in all.items ≡ divided (plain_of op.now).results (map (offset_ref (stays_one (plain_of op.now)) start) shape.now.offsets.items)) }
{
    let values = if is_one(op.kind) {
        results_of_one(alloc, shape, start)?
    } else {
        results_of_many(alloc, shape, start)?
    };
    values_by_result(alloc, op.results, values.as_slice())
}

// Whether all leaves of the results of an operation of a kind are results of one operation.
fn is_one(kind: &OpKind) -> bool
    ensures { result ≡ kind_is_one (kind_of kind.now) }
{
    matches!(kind, OpKind::Instance(_) | OpKind::Output)
}

// Results of one operation, by the positions of leaves.
fn results_of_one(alloc: Global, shape: &Shape, start: u32) -> Result<Vec<Value>, AllocError>
    ensures { IfOk result (λ values. new_refs values.items ≡ map (offset_ref true start) shape.now.offsets.items) }
{
    let mut values = Vec::with_capacity(alloc, shape.offsets.len())?;
    for offset in &shape.offsets {
        values.push(Value::Result(OpId::nth(start), *offset))?;
    }
    Ok(values)
}

// The first results of operations in the places of leaves.
fn results_of_many(alloc: Global, shape: &Shape, start: u32) -> Result<Vec<Value>, AllocError>
    ensures { IfOk result (λ values. new_refs values.items ≡ map (offset_ref false start) shape.now.offsets.items) }
{
    let mut values = Vec::with_capacity(alloc, shape.offsets.len())?;
    for offset in &shape.offsets {
        let position = sum(start, *offset)?;
        values.push(Value::Result(OpId::nth(position), 0))?;
    }
    Ok(values)
}

// Values for each result, as many as it has leaves.
fn values_by_result(
    alloc: Global,
    results: &NewResultList,
    values: &[Value],
) -> Result<Vec<Vec<Value>>, AllocError>
    ensures { IfOk result (λ all. refs_in all.items ≡ divided (results_in results.now) (new_refs values.now)) }
{
    let mut all = Vec::with_capacity(alloc, results.len())?;
    let mut rest = values;
    for one in results.as_slice() {
        let count = leaf_count(&one.ty)? as usize;
        let (own, others) = rest.split_at(count.min(rest.len()));
        all.push(Vec::from_slice(alloc, own)?)?;
        rest = others;
    }
    Ok(all)
}
