//! Heights of a body's operations: how deep the expression of each would be.
ghost use Rattle.std.specs.Prelude.{◌≡◌, ◌<◌, ℕ, length, None, Some, is_some, true, IfOk};
ghost use Rattle.wiring.specs.Wiring.{IsAcyclic};
ghost use Rattle.hw_model.specs.Design.Ref.{result as result_of};
ghost use Rattle.verilog_expr.specs.Scopes.{scope_ports, scope_ops, scope_ref};
ghost use Rattle.verilog_expr.specs.Spilling as told;
ghost use Rattle.verilog_expr.specs.Spilling.{AreHeights, height, inner_needs};
ghost use Rattle.verilog_expr.specs.PartTables.{AreParts, AreKnown, AreHeightsAt, height_get, starting, IsStanding, IsWaiting, IsStep, AreStill};

use crate::nesting::Part;
use crate::scope::Scope;
use ir_store::operation::Value;
use std::alloc::{AllocError, Global};

// The height under which an operation without a wire stands.
const LIMIT: u32 = 64;

// How high a value stands in the expression of an operation that uses it.
enum Stand {
    Known(u32),
    // not known yet: the height of the operation at this position has to be known first
    Unknown(usize),
}

// An operation whose height waits for that of an operand.
#[derive(Clone, Copy)]
struct Waiting {
    position: usize,
    // how many of its operands are passed, and the greatest of how high these stand
    passed: usize,
    most: u32,
}

// What is found of an operation that waits.
enum Step {
    // its height
    Height(u32),
    // where it waits next, and the position of the operation that it waits for
    Down(Waiting, usize),
}

// How high an operation of this height stands where it has a wire only for its height.
fn height_in_expression(height: u32) -> u32
    ensures { result ≡ told.height_under told.Part.nested height }
{
    if height < LIMIT { height } else { 0 }
}

// How high a value stands in the expression of an operation that uses it, where that is known.
fn stand_of(scope: &Scope<'_>, parts: &[Part], heights: &[Option<u32>], value: Value) -> Stand
    requires parts { AreParts (scope_ports scope.now) (scope_ops scope.now) parts.now }
    requires part_count { length parts.now ≡ length (scope_ops scope.now) }
    requires known { AreKnown (scope_ports scope.now) (scope_ops scope.now) heights.now }
    requires height_count { length heights.now ≡ length (scope_ops scope.now) }
    ensures { IsStanding (scope_ports scope.now) (scope_ops scope.now) heights.now (scope_ref scope.now value) result }
{
    let Some(position) = scope.result_position(value) else {
        return Stand::Known(0);
    };
    match parts[position] {
        Part::Flat | Part::Shared => Stand::Known(0),
        Part::Nested => match heights[position] {
            Some(height) => Stand::Known(height_in_expression(height)),
            None => Stand::Unknown(position),
        },
    }
}

// Goes on with an operation that waits: through the operands that are not passed, to the first whose height is not known.
fn go_on(scope: &Scope<'_>, parts: &[Part], heights: &[Option<u32>], waiting: Waiting) -> Step
    requires parts { AreParts (scope_ports scope.now) (scope_ops scope.now) parts.now }
    requires part_count { length parts.now ≡ length (scope_ops scope.now) }
    requires known { AreKnown (scope_ports scope.now) (scope_ops scope.now) heights.now }
    requires height_count { length heights.now ≡ length (scope_ops scope.now) }
    requires heights { AreHeights (scope_ports scope.now) (scope_ops scope.now) (height (scope_ports scope.now) (scope_ops scope.now)) }
    requires waiting { IsWaiting (scope_ports scope.now) (scope_ops scope.now) waiting }
    ensures { IsStep (scope_ports scope.now) (scope_ops scope.now) heights.now waiting result }
{
    let operands = scope.op_at(waiting.position).operands;
    let mut most = waiting.most;
    for passed in waiting.passed..operands.len() {
        match stand_of(scope, parts, heights, operands[passed]) {
            Stand::Known(height) => most = height.max(most),
            Stand::Unknown(below) => {
                return Step::Down(
                    Waiting {
                        passed,
                        most,
                        ..waiting
                    },
                    below,
                );
            }
        }
    }
    Step::Height(most + 1)
}

// An operation none of whose operands is passed.
fn start(position: usize) -> Waiting
    ensures { result ≡ starting position }
{
    Waiting {
        position,
        passed: 0,
        most: 0,
    }
}

// Finds the height of the operation at a position, and first those of the operations that it needs. A path of operations
// that wait has room in `path`, each waiting for the next: as no value needs itself, it is no longer than the body.
fn find_height(
    scope: &Scope<'_>,
    parts: &[Part],
    position: usize,
    heights: &mut [Option<u32>],
    path: &mut [Waiting],
)
    requires parts { AreParts (scope_ports scope.now) (scope_ops scope.now) parts.now }
    requires part_count { length parts.now ≡ length (scope_ops scope.now) }
    requires known { AreKnown (scope_ports scope.now) (scope_ops scope.now) heights.old }
    requires height_count { length heights.old ≡ length (scope_ops scope.now) }
    requires heights { AreHeights (scope_ports scope.now) (scope_ops scope.now) (height (scope_ports scope.now) (scope_ops scope.now)) }
    requires acyclic { IsAcyclic (inner_needs (scope_ops scope.now)) }
    requires within { position < length (scope_ops scope.now) }
    requires above { told.part (scope_ports scope.now) (scope_ops scope.now) (result_of position 0) ≡ told.Part.flat → ⊥ }
    requires unknown { height_get heights.old position ≡ None }
    requires room { length (scope_ops scope.now) < length path.old }
    ensures known { AreKnown (scope_ports scope.now) (scope_ops scope.now) heights.new }
    ensures found { is_some (height_get heights.new position) ≡ true }
    ensures still { AreStill heights.old heights.new }
{
    path[0] = start(position);
    let mut depth: usize = 1;
    while depth > 0 {
        match go_on(scope, parts, heights, path[depth - 1]) {
            Step::Height(height) => {
                depth -= 1;
                heights[path[depth].position] = Some(height);
            }
            Step::Down(waiting, below) => {
                path[depth - 1] = waiting;
                path[depth] = start(below);
                depth += 1;
            }
        }
    }
}

// Finds the height of the operation at a position, and those of the operations that it needs.
fn find_at(
    scope: &Scope<'_>,
    parts: &[Part],
    position: usize,
    heights: &mut [Option<u32>],
    path: &mut [Waiting],
)
    requires parts { AreParts (scope_ports scope.now) (scope_ops scope.now) parts.now }
    requires part_count { length parts.now ≡ length (scope_ops scope.now) }
    requires known { AreKnown (scope_ports scope.now) (scope_ops scope.now) heights.old }
    requires height_count { length heights.old ≡ length (scope_ops scope.now) }
    requires heights { AreHeights (scope_ports scope.now) (scope_ops scope.now) (height (scope_ports scope.now) (scope_ops scope.now)) }
    requires acyclic { IsAcyclic (inner_needs (scope_ops scope.now)) }
    requires within { position < length (scope_ops scope.now) }
    requires room { length (scope_ops scope.now) < length path.old }
    ensures known { AreKnown (scope_ports scope.now) (scope_ops scope.now) heights.new }
    ensures found { is_some (height_get heights.new position) ≡ true }
    ensures still { AreStill heights.old heights.new }
{
    if heights[position].is_some() {
        return;
    }
    match parts[position] {
        Part::Flat => heights[position] = Some(0),
        Part::Shared | Part::Nested => find_height(scope, parts, position, heights, path),
    }
}

// Finds the height of each operation.
fn find_all(scope: &Scope<'_>, parts: &[Part], heights: &mut [Option<u32>], path: &mut [Waiting])
    requires parts { AreParts (scope_ports scope.now) (scope_ops scope.now) parts.now }
    requires part_count { length parts.now ≡ length (scope_ops scope.now) }
    requires known { AreKnown (scope_ports scope.now) (scope_ops scope.now) heights.old }
    requires height_count { length heights.old ≡ length (scope_ops scope.now) }
    requires heights { AreHeights (scope_ports scope.now) (scope_ops scope.now) (height (scope_ports scope.now) (scope_ops scope.now)) }
    requires acyclic { IsAcyclic (inner_needs (scope_ops scope.now)) }
    requires room { length (scope_ops scope.now) < length path.old }
    ensures { AreHeightsAt (scope_ports scope.now) (scope_ops scope.now) heights.new }
{
    for position in 0..parts.len() {
        find_at(scope, parts, position, heights, path);
    }
}

/// The height of each operation, by its position. The error is out of memory.
pub(crate) fn heights_of(
    alloc: Global,
    scope: &Scope<'_>,
    parts: &[Part],
) -> Result<Vec<Option<u32>>, AllocError>
    requires parts { AreParts (scope_ports scope.now) (scope_ops scope.now) parts.now }
    requires part_count { length parts.now ≡ length (scope_ops scope.now) }
    requires heights { AreHeights (scope_ports scope.now) (scope_ops scope.now) (height (scope_ports scope.now) (scope_ops scope.now)) }
    requires acyclic { IsAcyclic (inner_needs (scope_ops scope.now)) }
    ensures count { IfOk result (λ hs. length hs.items ≡ length (scope_ops scope.now)) }
    ensures heights { IfOk result (λ hs. AreHeightsAt (scope_ports scope.now) (scope_ops scope.now) hs.items) }
{
    let mut heights = no_heights(alloc, parts.len())?;
    let mut path = no_path(alloc, parts.len() + 1)?;
    find_all(scope, parts, heights.as_mut_slice(), path.as_mut_slice());
    Ok(heights)
}

// So many heights that are not known.
fn no_heights(alloc: Global, count: usize) -> Result<Vec<Option<u32>>, AllocError>
    ensures count { IfOk result (λ hs. length hs.items ≡ count) }
    ensures none { IfOk result (λ hs. (i : ℕ) → i < count → height_get hs.items i ≡ None) }
{
    let mut heights = Vec::with_capacity(alloc, count)?;
    for position in 0..count {
        heights.push(None)?;
    }
    Ok(heights)
}

// Room for a path of so many operations.
fn no_path(alloc: Global, count: usize) -> Result<Vec<Waiting>, AllocError>
    ensures { IfOk result (λ path. length path.items ≡ count) }
{
    let path = vec![in alloc; start(0); count]?;
    Ok(path)
}
