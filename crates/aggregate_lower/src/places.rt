//! Where values go once the wires of operations that only join values or take them apart have left.
ghost use Rattle.std.specs.Prelude.{◌≡◌, List, Bool, false, [], Some, None, map, set, length, cond, IfOk, OnOk};
ghost use Rattle.hw_model.specs.Design.{Ref};
ghost use Rattle.edit_laws.specs.Edit.{retarget};
ghost use Rattle.lowering_rules.specs.Made.{made_in};
ghost use Rattle.lowering_rules.specs.Reading.{new_ref, new_refs, new_seen};
ghost use Rattle.aggregate_lower.specs.Targets.{is_flagged, with_number, target_ref, moved_ref, Places, AreSettled};
ghost use Rattle.aggregate_lower.specs.Settling.{waiting_wire, Settling, Followed};
ghost use Rattle.aggregate_lower.specs.MadeBodies.{AreMoved};

use ir_store::operation::{NewOp, OpId, Value};
use lowering_rules::arguments::part;
use smallvec::SmallVec;
use std::alloc::{AllocError, Global};

// Has the first result of each wire that leaves go where what it carries goes in the end, where no value needs itself.
fn settle(alloc: Global, flags: &[bool], targets: &mut [Value]) -> Result<(), AllocError>
    requires { length targets.old ≡ length flags.now }
    ensures settled { (s : Places flags.now (new_refs targets.old)) → OnOk result (AreSettled flags.now (new_refs targets.old) s (new_refs targets.new)) }
    ensures many { OnOk result (length targets.new ≡ length targets.old) }
{
    let mut waiting = Vec::from_slice(alloc, flags)?;
    let count = count_of(targets.len())?;
    settle_all(alloc, flags, waiting.as_mut_slice(), targets, count)
}

// The same, where of so many operations all wires wait.
fn settle_all(
    alloc: Global,
    flags: &[bool],
    waiting: &mut [bool],
    targets: &mut [Value],
    count: u32,
) -> Result<(), AllocError>
    requires many { length targets.old ≡ length flags.now }
    requires count { count ≡ length targets.old }
    requires waiting { waiting.old ≡ flags.now }
    ensures settled { (s : Places flags.now (new_refs targets.old)) → OnOk result (AreSettled flags.now (new_refs targets.old) s (new_refs targets.new)) }
    ensures many { OnOk result (length targets.new ≡ length targets.old) }
{
    let mut path = Vec::new(alloc);
    for number in 0..count {
        let start = Value::Result(OpId::nth(number), 0);
        let last = follow(waiting, targets, start, &mut path)?;
        settle_path(flags, targets, &mut path, last);
    }
    Ok(())
}

/// A length, where it is below 2^32; more count as out of memory.
pub fn count_of(length: usize) -> Result<u32, AllocError>
    ensures { IfOk result (λ n. n ≡ length) }
{
    let Ok(count) = u32::try_from(length) else {
        return Err(AllocError);
    };
    Ok(count)
}

// Puts the wire that waits whose result a value is, and those behind it, after others: none waits any more. Gives the value that the last
// of them carries.
fn follow(
    waiting: &mut [bool],
    targets: &[Value],
    start: Value,
    path: &mut Vec<usize>,
) -> Result<Value, AllocError>
    ensures { (flags : List Bool) (ts : List Ref) (s : Places flags ts) → Settling flags ts s waiting.old (new_refs targets.now) path.old.items (new_ref start) → IfOk result (λ last. Followed flags ts s waiting.old waiting.new (new_refs targets.now) path.new.items (new_ref start) (new_ref last)) }
{
    let mut value = start;
    while let Some(at) = waiting_wire(waiting, value) {
        mark(waiting, at);
        path.push(at)?;
        value = part(targets, at);
    }
    Ok(value)
}

// Has the wires of a path, which carry one value in the end, go where that goes.
fn settle_path(flags: &[bool], targets: &mut [Value], path: &mut Vec<usize>, last: Value)
    ensures settled { (ts : List Ref) (s : Places flags.now ts) (waiting : List Bool) → Settling flags.now ts s waiting (new_refs targets.old) path.old.items (new_ref last) → waiting_wire waiting (new_ref last) ≡ None → Settling flags.now ts s waiting (new_refs targets.new) [] (new_ref last) }
    ensures none { path.new.items ≡ [] }
    ensures many { length targets.new ≡ length targets.old }
{
    let place = moved_value(flags, targets, last);
    while let Some(at) = path.pop() {
        put_value(targets, at, place);
    }
}

// The position of the wire that waits whose first result a value is.
fn waiting_wire(waiting: &[bool], value: Value) -> Option<usize>
    ensures { result ≡ waiting_wire waiting.now (new_ref value) }
{
    match value {
        Value::Result(wire, 0) => waiting_at(waiting, wire.number() as usize),
        _ => None,
    }
}

// A position, if what is there waits.
fn waiting_at(waiting: &[bool], position: usize) -> Option<usize>
    ensures { result ≡ cond (is_flagged waiting.now position) (Some position) None }
{
    match waiting.get(position) {
        Some(true) => Some(position),
        _ => None,
    }
}

// What is at a position does not wait any more.
fn mark(waiting: &mut [bool], position: usize)
    ensures { waiting.new ≡ set waiting.old position false }
{
    if position < waiting.len() {
        waiting[position] = false;
    }
}

// Puts a value in a position, if that is there.
fn put_value(values: &mut [Value], position: usize, value: Value)
    ensures { values.new ≡ set values.old position value }
{
    if position < values.len() {
        values[position] = value;
    }
}

/// These operations with operands that go where they go in the end, by where first results go, where no value needs itself. The error comes
/// only when out of memory. Linear in the operations and their operands.
pub fn settled_ops(
    alloc: Global,
    flags: &[bool],
    targets: &mut [Value],
    kept: Vec<NewOp>,
) -> Result<Vec<NewOp>, AllocError>
    requires { length targets.old ≡ length flags.now }
    ensures { (s : Places flags.now (new_refs targets.old)) → IfOk result (λ moved. AreMoved flags.now (new_refs targets.old) s kept.items moved.items) }
{
    settle(alloc, flags, targets)?;
    let moved = moved_ops(alloc, flags, targets, kept)?;
    Ok(moved)
}

// These operations with operands that go where first results go.
#[tactic(auto, unfolding(lowering_rules::specs::Made::made_in))]
fn moved_ops(
    alloc: Global,
    flags: &[bool],
    targets: &[Value],
    kept: Vec<NewOp>,
) -> Result<Vec<NewOp>, AllocError>
    ensures { IfOk result (λ moved. made_in moved.items ≡ map (retarget (moved_ref flags.now (new_refs targets.now))) (made_in kept.items)) }
{
    let mut moved = Vec::with_capacity(alloc, kept.len())?;
    for op in kept {
        moved.push(moved_op(alloc, flags, targets, op)?)?;
    }
    Ok(moved)
}

// An operation with operands that go where first results go.
fn moved_op(
    alloc: Global,
    flags: &[bool],
    targets: &[Value],
    op: NewOp,
) -> Result<NewOp, AllocError>
    ensures { IfOk result (λ moved. new_seen moved ≡ retarget (moved_ref flags.now (new_refs targets.now)) (new_seen op)) }
{
    let values = moved_values(alloc, flags, targets, op.operands.as_slice())?;
    let operands = SmallVec::from_slice(alloc, values.as_slice())?;
    Ok(NewOp { operands, ..op })
}

// Where values go.
fn moved_values(
    alloc: Global,
    flags: &[bool],
    targets: &[Value],
    values: &[Value],
) -> Result<Vec<Value>, AllocError>
    ensures { IfOk result (λ moved. new_refs moved.items ≡ map (moved_ref flags.now (new_refs targets.now)) (new_refs values.now)) }
{
    let mut moved = Vec::with_capacity(alloc, values.len())?;
    for value in values {
        moved.push(moved_value(flags, targets, *value))?;
    }
    Ok(moved)
}

// Where a value goes, by where first results go.
fn moved_value(flags: &[bool], targets: &[Value], value: Value) -> Value
    ensures { new_ref result ≡ moved_ref flags.now (new_refs targets.now) (new_ref value) }
{
    match value {
        Value::Result(op, number) => {
            let position = op.number() as usize;
            numbered(part(targets, position), is_flagged(flags, position), number)
        }
        Value::Port(_) | Value::Undefined => value,
    }
}

// Where the result of a number goes of an operation whose first result goes somewhere.
fn numbered(first: Value, flag: bool, number: u32) -> Value
    ensures { new_ref result ≡ target_ref number flag (new_ref first) }
{
    match number {
        0 => first,
        _ => {
            if flag {
                Value::Undefined
            } else {
                further(first, number)
            }
        }
    }
}

// The result of a number of the operation of which a value is a result.
fn further(first: Value, number: u32) -> Value
    ensures { new_ref result ≡ with_number (new_ref first) number }
{
    match first {
        Value::Result(op, _) => Value::Result(op, number),
        Value::Port(_) | Value::Undefined => first,
    }
}

// Whether a position is flagged.
fn is_flagged(flags: &[bool], position: usize) -> bool
    ensures { result ≡ is_flagged flags.now position }
{
    match flags.get(position) {
        Some(flag) => *flag,
        None => false,
    }
}
