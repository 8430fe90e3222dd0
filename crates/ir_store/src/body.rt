//! The body of a module: its operations in text order.
ghost use Rattle.std.specs.Prelude.{◌≡◌, ℕ, ◌<◌, ◌≤◌, length, min, Some};
ghost use Rattle.std.specs.Vec.{vec_len, vec_capacity};
ghost use Rattle.linked_lists.specs.Ids.{put_at};
ghost use Rattle.ir_store.specs.BodyOps.{position_before};

use crate::dictionary::Dictionary;
use crate::operands::OperandTable;
use crate::operation::{
    NewOp, NewResultList, OpId, Parts, TyList, UseId, UsePosition, Value, copied_parts,
};
use crate::ops::Ops;
use crate::order::Order;
use crate::uses::Uses;
use diag::refusal::Location;
use hw_model::kinds::OpKind;
use io_edge::byte_text::Text;
use std::alloc::{AllocError, Global};

/// The operations of a module in text order, each with an id that stays while the body changes.
/// Contracts see them by `ops_of`.
#[derive(Drop)]
pub struct Body {
    order: Order,
    parts: Vec<Parts>,
    operands: OperandTable,
    ghost parts_fit: { length parts.items ≡ length order.links.items },
    ghost lists_fit: { length operands.lists ≡ length order.links.items },
}

/// An operation of a body, its parts by reference.
#[derive(Drop)]
pub struct Op<'b> {
    /// Its kind.
    pub kind: &'b OpKind,
    /// Its operands.
    pub operands: &'b [Value],
    /// The types that are written, in text order.
    pub types: &'b TyList,
    /// Its results.
    pub results: &'b NewResultList,
    /// How many of its results are named.
    pub named: u32,
    /// The own name of a register or a wire, empty where there is none.
    pub name: &'b Text,
    /// Its dictionary.
    pub dictionary: &'b Dictionary,
    /// Whether it has the mark `bin`.
    pub bin: bool,
    /// Its location in the source.
    pub location: Location,
}

impl Body {
    ghost use Rattle.std.specs.Prelude.{◌≡◌, ℕ, suc, ◌+◌, ◌<◌, ◌≤◌, ◌^◌, [], ◌∷◌, Some, None, map, min, length, drop, Contains, IfOk, IfSome, IsOk, IsTrue, ◌↔◌, OnOk, OnErr, slice_set, insert, remove};
    ghost use Rattle.ir_store.specs.BodyOps.{op_at, put_before, position_before, as_new, operands_at, operand_count, HasOperand, HasPosition, IsUnused, all_replaced, taken_out};
    ghost use Rattle.ir_store.specs.Bodies.{ids_of, ops_of, gaps, spare_ops, spare_uses, read_op, read_parts, op_id, first_id, ids_left};
    ghost use Rattle.ir_store.specs.Numbered.{position_of};
    ghost use Rattle.ir_store.specs.OperationViews.{parts_of};
    ghost use Rattle.ir_store.specs.Orders.{live_ids};
    ghost use Rattle.ir_store.specs.Uses.{uses_in, use_times, use_some};
    ghost use Rattle.ir_store.specs.UseChains.{IsUse, use_chain, use_left, use_position, used_value, first_use_of};
    ghost use Rattle.ir_store.specs.UsesLeft.{uses_left};

    /// The body without operations. It takes no memory.
    pub fn new(alloc: Global) -> Body
        ensures ops { ops_of result ≡ [] }
        ensures gaps { gaps result ≡ 0 }
    {
        Body {
            order: Order::new(alloc),
            parts: Vec::new(alloc),
            operands: OperandTable::new(alloc),
        }
    }

    /// Makes room for at least `ops` more operations and `uses` more operands. The operations stay.
    pub fn reserve(&mut self, ops: u32, uses: u32) -> Result<(), AllocError>
        ensures stay { ops_of self.new ≡ ops_of self.old }
        ensures gaps { gaps self.new ≡ gaps self.old }
        ensures ok { OnOk result ((ops ≤ spare_ops self.new) × (uses ≤ spare_uses self.new)) }
        ensures spare { (spare_ops self.old ≤ spare_ops self.new) × (spare_uses self.old ≤ spare_uses self.new) }
    {
        let wanted = (ops as usize).saturating_sub(self.order.free());
        self.order.reserve(ops as usize)?;
        self.parts.reserve(wanted)?;
        self.operands.reserve(wanted, uses as usize)
    }

    /// How many more operations, and how many more operands, can be added without memory; where
    /// there are more than a u32 can say, the greatest.
    pub fn spare(&self) -> (u32, u32)
        ensures ops { result.0 ≡ min (spare_ops self.now) u32.MAX }
        ensures uses { result.1 ≡ min (spare_uses self.now) u32.MAX }
    {
        let lists = self.operands.list_capacity();
        let ops = self.order.capacity().min(self.parts.capacity().min(lists));
        (
            saturating_u32(ops.saturating_sub(self.order.count())),
            saturating_u32(self.operands.room()),
        )
    }

    /// The ids of the operations in text order.
    pub fn ops(&self) -> Ops<'_>
        ensures { ids_left result ≡ map op_id (ids_of self.now) }
    {
        Ops::along(&self.order)
    }

    /// The id of the operation after this one in text order, where there is one. In constant time.
    pub fn next_op(&self, op: OpId) -> Option<OpId>
        requires { Contains (ids_of self.now) op.index }
        ensures { result ≡ first_id (map op_id (drop (suc (position_of (ids_of self.now) op.index)) (ids_of self.now))) }
    {
        self.order.after(op)
    }

    /// How many operations there are.
    pub fn op_count(&self) -> usize
        ensures { result ≡ length (ids_of self.now) }
    {
        self.order.count()
    }

    /// Whether an operation of the body has this id.
    pub fn contains(&self, id: OpId) -> bool
        ensures { IsTrue result ↔ Contains (ids_of self.now) id.index }
    {
        self.order.contains(id.index)
    }

    /// Whether no operand is a result of the operation `op`. Linear in the chain of the head that its results have: those
    /// of their uses that stand before the first, and of other values with the same head.
    pub fn is_unused(&self, op: OpId) -> bool
        ensures { IsTrue result ↔ IsUnused op.index (ops_of self.now) }
    {
        !self.operands.is_named(op, self.order.links())
    }

    /// The operation `id`.
    pub fn op(&self, id: OpId) -> Op<'_>
        requires { Contains (ids_of self.now) id.index }
        ensures { op_at (ops_of self.now) id.index ≡ Some (read_op id result) }
    {
        let index = self.index_of(id);
        let parts = &self.parts[index];
        let operands = self.operands.get(index);
        Body::read(parts, operands)
    }

    /// The positions that name `value`, each once, in no promised order. Linear in the chain of the value's head.
    pub fn uses(&self, value: Value) -> Uses<'_>
        ensures uses { (p : UsePosition) → use_times p (uses_left result) ≡ use_times p (uses_in value (ops_of self.now)) }
        ensures chain { map use_some (uses_left result) ≡ map (λ u. use_position u self.now) (use_chain value self.now) }
    {
        Uses::among(value, &self.operands, self.order.links())
    }

    /// The first use of `value`, where it has one. The uses from it on, by `next_use`, are all of them, in an order that
    /// stays until the body changes. Linear in the cells before it in the chain of the value's head.
    pub fn first_use(&self, value: Value) -> Option<UseId>
        ensures first { result ≡ first_use_of (use_chain value self.now) }
        ensures left { use_left value result self.now ≡ use_chain value self.now }
        ensures is_use { IfSome result (λ u. IsUse u self.now) }
        ensures value { IfSome result (λ u. used_value u self.now ≡ value) }
    {
        match self.operands.first_use(value, self.order.links()) {
            Some(cell) => Some(UseId { cell }),
            None => None,
        }
    }

    /// The use of the same value after this one, where there is one. Linear in the cells between them in the chain.
    pub fn next_use(&self, id: UseId) -> Option<UseId>
        requires { IsUse id self.now }
        ensures left { use_left (used_value id self.now) (Some id) self.now ≡ id ∷ use_left (used_value id self.now) result self.now }
        ensures first { result ≡ first_use_of (use_left (used_value id self.now) result self.now) }
        ensures is_use { IfSome result (λ u. IsUse u self.now) }
        ensures value { IfSome result (λ u. used_value u self.now ≡ used_value id self.now) }
    {
        match self.operands.next_use(id.cell, self.order.links()) {
            Some(cell) => Some(UseId { cell }),
            None => None,
        }
    }

    /// Where a use is, in constant time.
    pub fn use_at(&self, id: UseId) -> UsePosition
        requires { IsUse id self.now }
        ensures { use_position id self.now ≡ Some result }
    {
        match self.operands.use_of(id.cell, self.order.links()) {
            Some(position) => position,
            None => unreachable!(),
        }
    }

    /// Puts `op` before the operation `before`, or at the end, and gives its id. On an error, which comes where memory that
    /// is needed is refused, the operations stay. Linear in its operands, and constant on average in the body.
    pub fn add_op(&mut self, before: Option<OpId>, op: NewOp) -> Result<OpId, AllocError>
        requires room { length (ids_of self.old) + 1 < 2 ^ 32 }
        requires live { IfSome before (λ b. Contains (ids_of self.old) b.index) }
        ensures ok { IfOk result (λ id. ops_of self.new ≡ put_before before (as_new id op) (ops_of self.old)) }
        ensures fresh { IfOk result (λ id. ¬ Contains (ids_of self.old) id.index) }
        ensures there { IfOk result (λ id. Contains (ids_of self.new) id.index) }
        ensures next { gaps self.old ≡ 0 → IfOk result (λ id. id.index ≡ length (ids_of self.old)) }
        ensures gaps { gaps self.old ≡ 0 → OnOk result (gaps self.new ≡ 0) }
        ensures err { OnErr result (ops_of self.new ≡ ops_of self.old) }
        ensures succeeds { 1 ≤ spare_ops self.old → length op.operands.items ≤ spare_uses self.old → IsOk result }
        ensures spare { (spare_ops self.old ≤ spare_ops self.new + 1) × (spare_uses self.old ≤ spare_uses self.new + length op.operands.items) }
    {
        let wanted = 1usize.saturating_sub(self.order.free());
        self.order.reserve(1)?;
        self.parts.reserve(wanted)?;
        self.operands.reserve(wanted, op.operands.len())?;
        let id = self.order.add(before);
        self.operands.put(id as usize, op.operands.as_slice());
        put_parts(&mut self.parts, id as usize, op.into_parts());
        Ok(OpId { index: id })
    }

    /// Takes an operation out. No operand may name one of its results. Linear in its operands.
    pub fn erase(&mut self, op: OpId)
        requires live { Contains (ids_of self.old) op.index }
        requires unused { IsUnused op.index (ops_of self.old) }
        ensures ops { ops_of self.new ≡ taken_out op.index (ops_of self.old) }
        ensures spare { (spare_ops self.old + 1 ≤ spare_ops self.new) × (spare_uses self.old + operand_count op.index (ops_of self.old) ≤ spare_uses self.new) }
    {
        let alloc = *self.parts.allocator();
        let index = self.index_of(op);
        self.order.remove(op);
        self.operands.clear(index);
        self.parts[index] = Parts::empty(alloc);
    }

    /// Puts `value` in before operand `at` of `op`, or after the last. On an error, which comes where memory that is needed
    /// is refused, the operations stay. Linear in the operands of `op`, and constant on average in the body.
    pub fn insert_operand(&mut self, op: OpId, at: u32, value: Value) -> Result<(), AllocError>
        requires live { Contains (ids_of self.old) op.index }
        requires position { HasPosition (ops_of self.old) op.index at }
        ensures ok { OnOk result (ops_of self.new ≡ operands_at op.index (λ operands. insert operands at value) (ops_of self.old)) }
        ensures err { OnErr result (ops_of self.new ≡ ops_of self.old) }
        ensures succeeds { 1 ≤ spare_uses self.old → IsOk result }
        ensures spare { (spare_ops self.new ≡ spare_ops self.old) × (spare_uses self.old ≤ spare_uses self.new + 1) }
    {
        let index = self.index_of(op);
        self.operands.reserve_insert(index)?;
        self.operands.insert(index, at as usize, value);
        Ok(())
    }

    /// Puts `value` in the place `at` of the operands of `op`, in constant time.
    pub fn set_operand(&mut self, op: OpId, at: u32, value: Value)
        requires live { Contains (ids_of self.old) op.index }
        requires position { HasOperand (ops_of self.old) op.index at }
        ensures ops { ops_of self.new ≡ operands_at op.index (λ operands. slice_set operands at value) (ops_of self.old) }
        ensures spare { (spare_ops self.new ≡ spare_ops self.old) × (spare_uses self.new ≡ spare_uses self.old) }
    {
        let index = self.index_of(op);
        self.operands.set(index, at as usize, value);
    }

    /// Puts `values` in the place of the operands of `op`. On an error, which comes where memory that is needed is refused,
    /// the operations stay. Linear in both lists, and constant on average in the body.
    pub fn set_operands(&mut self, op: OpId, values: &[Value]) -> Result<(), AllocError>
        requires live { Contains (ids_of self.old) op.index }
        ensures ok { OnOk result (ops_of self.new ≡ operands_at op.index (λ operands. values.now) (ops_of self.old)) }
        ensures err { OnErr result (ops_of self.new ≡ ops_of self.old) }
        ensures succeeds { length values.now ≤ spare_uses self.old → IsOk result }
        ensures spare { (spare_ops self.old ≤ spare_ops self.new) × (spare_uses self.old ≤ spare_uses self.new + length values.now) }
    {
        let index = self.index_of(op);
        self.operands.reserve_operands(values.len())?;
        self.operands.put(index, values);
        Ok(())
    }

    /// Takes operand `at` of `op` out. Linear in the operands of `op`.
    pub fn drop_operand(&mut self, op: OpId, at: u32)
        requires live { Contains (ids_of self.old) op.index }
        requires position { HasOperand (ops_of self.old) op.index at }
        ensures ops { ops_of self.new ≡ operands_at op.index (λ operands. remove operands at) (ops_of self.old) }
        ensures spare { (spare_ops self.new ≡ spare_ops self.old) × (spare_uses self.new ≡ spare_uses self.old + 1) }
    {
        let index = self.index_of(op);
        self.operands.remove(index, at as usize);
    }

    /// Puts `to` in the place of each operand that is `from`. Linear in the chain of the head of `from`: its uses, and those
    /// of other values with the same head.
    pub fn replace_all_uses(&mut self, from: Value, to: Value)
        ensures ops { ops_of self.new ≡ all_replaced from to (ops_of self.old) }
        ensures spare { (spare_ops self.new ≡ spare_ops self.old) × (spare_uses self.new ≡ spare_uses self.old) }
    {
        self.operands.replace(from, to);
    }

    /// An equal body with memory of its own.
    pub fn try_clone(&self, alloc: Global) -> Result<Body, AllocError>
        ensures { IfOk result (λ copy. ops_of copy ≡ ops_of self.now) }
    {
        let order = self.order.try_clone(alloc)?;
        let parts = copied_parts(alloc, self.parts.as_slice())?;
        let operands = self.operands.try_clone(alloc)?;
        Ok(Body {
            order,
            parts,
            operands,
        })
    }

    /// The operation of these parts.
    fn read<'b>(parts: &'b Parts, operands: &'b [Value]) -> Op<'b>
        ensures parts { read_parts result ≡ parts_of parts.now }
        ensures operands { result.operands.now ≡ operands.now }
    {
        Op {
            kind: &parts.kind,
            operands,
            types: &parts.types,
            results: &parts.results,
            named: parts.named,
            name: &parts.name,
            dictionary: &parts.dictionary,
            bin: parts.bin,
            location: parts.location,
        }
    }

    /// Where the parts and the operands of a live operation stand.
    fn index_of(&self, id: OpId) -> usize
        requires { Contains (live_ids self.now.order) id.index }
        ensures value { result ≡ id.index }
        ensures within { result < length self.now.order.links.items }
    {
        id.index as usize
    }
}

/// Puts `one` in the place of the parts `i`, or after the others, where there is room for it.
fn put_parts(parts: &mut Vec<Parts>, i: usize, one: Parts)
    requires position { i ≤ length parts.old.items }
    requires room { length parts.old.items ≤ i → vec_len parts.old < vec_capacity parts.old }
    ensures items { parts.new.items ≡ put_at i one parts.old.items }
    ensures capacity { vec_capacity parts.new ≡ vec_capacity parts.old }
{
    if i == parts.len() {
        parts.push_reserved(one);
    } else {
        parts[i] = one;
    }
}

fn saturating_u32(count: usize) -> u32
    ensures { result ≡ min count u32.MAX }
{
    u32::try_from(count).unwrap_or(u32::MAX)
}
