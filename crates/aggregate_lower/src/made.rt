//! What the operations of a body become, but for the wires of those that only join values or take them apart.
ghost use Rattle.std.specs.Prelude.{◌≡◌, ◌-◌, ◌++◌, length, map, replicate, IfOk, OnOk};
ghost use Rattle.hw_model.specs.KindViews.{kind_of};
ghost use Rattle.hw_model.specs.Design.Ref.{result as result_ref};
ghost use Rattle.ir_store.specs.Bodies.{ids_of, ops_of, op_id};
ghost use Rattle.ir_store.specs.Designs.{design_of};
ghost use Rattle.aggregate_laws.specs.Leaves.{in_row};
ghost use Rattle.aggregate_laws.specs.Aggregates.{rule_of};
ghost use Rattle.aggregate_acceptance.specs.Joins.{only_joins};
ghost use Rattle.lowering_rules.specs.Callees.{AreCallees};
ghost use Rattle.lowering_rules.specs.LeafTables.{arguments_of};
ghost use Rattle.lowering_rules.specs.LoweringRules.{leaf_named};
ghost use Rattle.lowering_rules.specs.Made.{made_in};
ghost use Rattle.lowering_rules.specs.Reading.{plain_of, new_refs};
ghost use Rattle.aggregate_lower.specs.Targets.MadeOp.{wire, kept};
ghost use Rattle.aggregate_lower.specs.MadeBodies.{all_made_by, all_made, carried_ref, IsMade, AddsMade};

use crate::places::count_of;
use hw_model::kinds::OpKind;
use ir_store::body::{Body, Op};
use ir_store::operation::{NewOp, OpId, Value};
use lowering_rules::arguments::{Arguments, part};
use lowering_rules::blocks::put_block;
use lowering_rules::instances::Callees;
use lowering_rules::leaf_table::LeafTable;
use std::alloc::{AllocError, Global};

/// What the operations of a body become.
#[derive(Drop)]
pub struct Made {
    /// The operations that are no wires of those that only join. Their operands are named as where these wires stand too.
    pub kept: Vec<NewOp>,
    /// Of each operation, these wires among them, whether it is such a wire.
    pub flags: Vec<bool>,
    /// Of each operation where its first result goes: that of one that is kept to its own place, that of a wire to what it carries, as
    /// that is named before any has left.
    pub targets: Vec<Value>,
}

/// What all operations of a body become. The error comes only when out of memory, for which 2^32 operations count. Linear in the leaves of
/// its values and in the operations that are made.
pub fn all_made(
    alloc: Global,
    callees: &Callees<'_>,
    body: &Body,
    table: &LeafTable,
) -> Result<Made, AllocError>
    requires callees { AreCallees callees.now }
    requires ids { table.now.ids.items ≡ map op_id (ids_of body.now) }
    requires starts { length table.now.starts.items ≡ length table.now.ids.items }
    ensures { IfOk result (IsMade (all_made (design_of callees.now.design.now) table.now (ops_of body.now) table.now.starts.items)) }
{
    let kept = Vec::new(alloc);
    let flags = Vec::with_capacity(alloc, op_count(table))?;
    let targets = Vec::with_capacity(alloc, op_count(table))?;
    let mut made = Made {
        kept,
        flags,
        targets,
    };
    for (position, id) in table.ids.as_slice().iter().enumerate() {
        let op = body.op(*id);
        let arguments = Arguments {
            table,
            operands: op.operands,
        };
        made.add(alloc, callees, &op, arguments, table.starts[position])?;
    }
    Ok(made)
}

// How many operations all become, wires among them.
fn op_count(table: &LeafTable) -> usize {
    match table.ends.as_slice().last() {
        Some(end) => *end as usize,
        None => 0,
    }
}

impl Made {
    // Adds what an operation becomes.
    fn add(
        &mut self,
        alloc: Global,
        callees: &Callees<'_>,
        op: &Op<'_>,
        arguments: Arguments<'_>,
        start: u32,
    ) -> Result<(), AllocError>
        requires { AreCallees callees.now }
        ensures { OnOk result (AddsMade (all_made_by (only_joins (kind_of op.now.kind.now)) ((rule_of (leaf_named (design_of callees.now.design.now)) (plain_of op.now) (kind_of op.now.kind.now)).made (arguments_of arguments.entry) start)) self.old self.new) }
    {
        if only_joins(op.kind) {
            self.add_wires(alloc, callees, op, arguments, start)
        } else {
            self.add_kept(alloc, callees, op, arguments, start)
        }
    }

    // Adds the wires of an operation that only joins: what they carry is kept.
    fn add_wires(
        &mut self,
        alloc: Global,
        callees: &Callees<'_>,
        op: &Op<'_>,
        arguments: Arguments<'_>,
        start: u32,
    ) -> Result<(), AllocError>
        requires { AreCallees callees.now }
        ensures { OnOk result (AddsMade (map wire ((rule_of (leaf_named (design_of callees.now.design.now)) (plain_of op.now) (kind_of op.now.kind.now)).made (arguments_of arguments.entry) start)) self.old self.new) }
    {
        let mut wires = Vec::new(alloc);
        put_block(alloc, &mut wires, callees, op, arguments, start)?;
        push_carried(&mut self.targets, wires.as_slice())?;
        push_flags(&mut self.flags, true, 0, wires.len())?;
        Ok(())
    }

    // Adds the operations that another one becomes.
    fn add_kept(
        &mut self,
        alloc: Global,
        callees: &Callees<'_>,
        op: &Op<'_>,
        arguments: Arguments<'_>,
        start: u32,
    ) -> Result<(), AllocError>
        requires { AreCallees callees.now }
        ensures { OnOk result (AddsMade (map kept ((rule_of (leaf_named (design_of callees.now.design.now)) (plain_of op.now) (kind_of op.now.kind.now)).made (arguments_of arguments.entry) start)) self.old self.new) }
    {
        let before = self.kept.len();
        put_block(alloc, &mut self.kept, callees, op, arguments, start)?;
        let after = self.kept.len();
        let (low, high) = (count_of(before)?, count_of(after)?);
        push_results(&mut self.targets, low, high)?;
        push_flags(&mut self.flags, false, before, after)?;
        Ok(())
    }
}

// Puts what wires carry after other values.
#[tactic(auto, unfolding(lowering_rules::specs::Made::made_in))]
fn push_carried(targets: &mut Vec<Value>, wires: &[NewOp]) -> Result<(), AllocError>
    ensures { OnOk result (new_refs targets.new.items ≡ new_refs targets.old.items ++ map carried_ref (made_in wires.now)) }
{
    for wire in wires {
        targets.push(part(wire.operands.as_slice(), 0))?;
    }
    Ok(())
}

// Puts the first results of the operations between two numbers after other values.
fn push_results(targets: &mut Vec<Value>, low: u32, high: u32) -> Result<(), AllocError>
    ensures { OnOk result (new_refs targets.new.items ≡ new_refs targets.old.items ++ in_row (λ i. result_ref i 0) low (high - low)) }
{
    for number in low..high {
        targets.push(Value::Result(OpId::nth(number), 0))?;
    }
    Ok(())
}

// Puts a flag after the others once for each number between two.
fn push_flags(flags: &mut Vec<bool>, flag: bool, low: usize, high: usize) -> Result<(), AllocError>
    ensures { OnOk result (flags.new.items ≡ flags.old.items ++ replicate (high - low) flag) }
{
    for _ in low..high {
        flags.push(flag)?;
    }
    Ok(())
}

// Whether an operation only joins values or takes them apart.
fn only_joins(kind: &OpKind) -> bool
    ensures { result ≡ only_joins (kind_of kind.now) }
{
    matches!(
        kind,
        OpKind::ArrayCreate
            | OpKind::ArrayConcat
            | OpKind::StructCreate
            | OpKind::StructExtract(_)
            | OpKind::StructInject(_)
            | OpKind::StructExplode
    )
}
