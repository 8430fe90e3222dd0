//! The choices that patterns make of the operands that go or move.
ghost use Rattle.std.specs.Prelude.{◌≡◌, ◌+◌, ◌<◌, ◌&&◌, ℕ, false, nat_eq, nat_lt, not, drop, Some, length, position, option_map, IfSome};
ghost use Rattle.std.specs.List.{list_any};
ghost use Rattle.fold_laws.specs.Constants.{is_constant_where};
ghost use Rattle.fold_laws.specs.ConstantOperands.{with_first_last};
ghost use Rattle.fold_laws.specs.Fewer.{without_first_of_more, without_repeat, without_pair_of_more};
ghost use Rattle.fold_laws.specs.Fold.{is_constant_in};
ghost use Rattle.ir_store.specs.Bodies.{ops_of, read_op};
ghost use Rattle.ir_store.specs.BodyOps.{op_at, same_value};
ghost use Rattle.ir_store.specs.Uses.{use_at, uses_in, use_times};
ghost use Rattle.body_edits.specs.OperandEdits.{first_repeat, IsWithin, operands_after};
ghost use Rattle.body_edits.specs.Readable.{IsReadable};
ghost use Rattle.body_edits.specs.Sites.{IsReadableSite, ops_at, ref_at, refs_at};
ghost use Rattle.body_edits.specs.Tests.{test_of};
ghost use Rattle.body_edits.specs.Views.{body_ops, value_ref};

use crate::constants::Test;
use crate::operands::OperandEdit;
use crate::reading::{constant_of, meets};
use crate::site::Site;
use ir_store::body::Body;
use ir_store::operation::{OpId, UsePosition, Value, is_same};

/// The positions of two equal operands.
#[derive(Clone, Copy)]
struct Repeat {
    first: usize,
    second: usize,
}

/// The first operand that is a constant which meets a test goes, where there are two operands or more. Linear in the
/// operands.
pub fn without_constant(site: &Site<'_>, test: Test) -> Option<OperandEdit>
    requires { IsReadableSite site.now }
    ensures operands { option_map (λ e. operands_after e (refs_at site.now)) result ≡ without_first_of_more (is_constant_where (test_of test) (ops_at site.now)) (refs_at site.now) }
    ensures within { IfSome result (IsWithin (length (refs_at site.now))) }
{
    if site.op.operands.len() < 2 {
        return None;
    }
    match first_constant_where(site, test) {
        Some(at) => Some(OperandEdit::Drop(at)),
        None => None,
    }
}

/// The position of the first operand that is a constant which meets a test.
fn first_constant_where(site: &Site<'_>, test: Test) -> Option<usize>
    requires { IsReadableSite site.now }
    ensures { result ≡ position (λ v. is_constant_where (test_of test) (ops_at site.now) (ref_at site.now v)) site.now.op.operands.now }
{
    site.op
        .operands
        .iter()
        .position(|value| meets(site.body, test, *value))
}

/// The second of two equal operands of the operation `id` goes, the first of the earliest such pair. Linear in the operands
/// and the chains of the heads that they have, where each has few uses, and at most quadratic in the operands.
pub fn without_repeat(site: &Site<'_>, id: OpId) -> Option<OperandEdit>
    requires readable { IsReadableSite site.now }
    requires own { op_at (ops_of site.now.body.now) id.index ≡ Some (read_op id site.now.op) }
    ensures operands { option_map (λ e. operands_after e (refs_at site.now)) result ≡ without_repeat (refs_at site.now) }
    ensures within { IfSome result (IsWithin (length (refs_at site.now))) }
{
    match first_repeat(site, id) {
        Some(repeat) => Some(OperandEdit::Drop(repeat.second)),
        None => None,
    }
}

/// Two equal operands of the operation `id` go, the first of the earliest such pair, where there are three operands or
/// more. Linear in the operands and the chains of the heads that they have, where each has few uses, and at most quadratic
/// in the operands.
pub fn without_pair(site: &Site<'_>, id: OpId) -> Option<OperandEdit>
    requires readable { IsReadableSite site.now }
    requires own { op_at (ops_of site.now.body.now) id.index ≡ Some (read_op id site.now.op) }
    ensures operands { option_map (λ e. operands_after e (refs_at site.now)) result ≡ without_pair_of_more (refs_at site.now) }
    ensures within { IfSome result (IsWithin (length (refs_at site.now))) }
{
    if site.op.operands.len() < 3 {
        return None;
    }
    match first_repeat(site, id) {
        Some(repeat) => Some(OperandEdit::DropBoth(repeat.first, repeat.second)),
        None => None,
    }
}

/// The earliest operand of the operation `id` that stands again later, and where it first does.
fn first_repeat(site: &Site<'_>, id: OpId) -> Option<Repeat>
    requires { op_at (ops_of site.now.body.now) id.index ≡ Some (read_op id site.now.op) }
    ensures { result ≡ first_repeat same_value site.now.op.operands.now }
{
    let values = site.op.operands;
    for first in 0..values.len() {
        if let Some(between) = next_same(site, id, first, values[first]) {
            let second = first + 1 + between;
            return Some(Repeat { first, second });
        }
    }
    None
}

/// How many operands of the operation `id` stand after a position before the first one that is a value.
fn next_same(site: &Site<'_>, id: OpId, at: usize, value: Value) -> Option<usize>
    requires own { op_at (ops_of site.now.body.now) id.index ≡ Some (read_op id site.now.op) }
    requires within { at < length site.now.op.operands.now }
    ensures { result ≡ position (same_value value) (drop (at + 1) site.now.op.operands.now) }
{
    let values = site.op.operands;
    if may_stand_after(site.body, id, at, value, values.len()) {
        first_same(&values[at + 1..], value)
    } else {
        None
    }
}

/// Whether a value may be an operand of an operation after a position. It is none where it has fewer than `most` uses, and
/// none of them is there. Linear in the chain of the value's head, as far as `most` uses reach.
fn may_stand_after(body: &Body, op: OpId, at: usize, value: Value, most: usize) -> bool
    ensures { result ≡ false → (j : ℕ) → at < j → use_times (use_at op.index j) (uses_in value (ops_of body.now)) ≡ 0 }
{
    let mut left = most;
    for position in body.uses(value) {
        if left == 0 || is_after(position, op, at) {
            return true;
        }
        left -= 1;
    }
    false
}

/// Whether a position is one of an operation after a position.
fn is_after(position: UsePosition, op: OpId, at: usize) -> bool
    ensures { result ≡ (nat_eq position.op.index op.index && nat_lt at position.at) }
{
    position.op == op && at < position.at as usize
}

/// The position of the first value that is the same as one.
fn first_same(values: &[Value], value: Value) -> Option<usize>
    ensures { result ≡ position (same_value value) values.now }
{
    values.iter().position(|other| is_same(value, *other))
}

/// The first constant before another operand becomes the last operand. Linear in the operands.
pub fn with_constant_last(site: &Site<'_>) -> Option<OperandEdit>
    requires { IsReadableSite site.now }
    ensures operands { option_map (λ e. operands_after e (refs_at site.now)) result ≡ with_first_last (is_constant_in (ops_at site.now)) (refs_at site.now) }
    ensures within { IfSome result (IsWithin (length (refs_at site.now))) }
{
    match first_constant(site) {
        Some(at) => {
            if has_other(site, &site.op.operands[at + 1..]) {
                Some(OperandEdit::MoveLast(at))
            } else {
                None
            }
        }
        None => None,
    }
}

/// The position of the first operand that is a constant.
fn first_constant(site: &Site<'_>) -> Option<usize>
    requires { IsReadableSite site.now }
    ensures { result ≡ position (λ v. is_constant_in (ops_at site.now) (ref_at site.now v)) site.now.op.operands.now }
{
    site.op
        .operands
        .iter()
        .position(|value| is_constant(site.body, *value))
}

/// Whether some value is no constant.
fn has_other(site: &Site<'_>, values: &[Value]) -> bool
    requires { IsReadableSite site.now }
    ensures { result ≡ list_any (λ v. not (is_constant_in (ops_at site.now) (ref_at site.now v))) values.now }
{
    values.iter().any(|value| !is_constant(site.body, *value))
}

/// Whether a value is a constant of an integer type.
fn is_constant(body: &Body, value: Value) -> bool
    requires { IsReadable body.now }
    ensures { result ≡ is_constant_in (body_ops body.now) (value_ref body.now value) }
{
    constant_of(body, value).is_some()
}
