//! How many operations become of one, and where among these its leaves stand.
ghost use Rattle.std.specs.Prelude.{◌≡◌, ◌+◌, ◌-◌, ◌%◌, map, length, replicate, IfOk};
ghost use Rattle.hw_model.specs.Kinds.{Kind};
ghost use Rattle.hw_model.specs.Design.{Op as HwOp, result_type};
ghost use Rattle.aggregate_laws.specs.Leaves.{in_row, leaves_of};
ghost use Rattle.aggregate_laws.specs.Choices.{element_of};
ghost use Rattle.lowering_rules.specs.FormRules.{form_rule};
ghost use Rattle.lowering_rules.specs.Reading.{plain_of};
ghost use Rattle.lowering_rules.specs.Pieces.{end_of};
ghost use Rattle.lowering_rules.specs.Shapes.{HasShape, HasOffsets, HasBlocks, test_count, get_sizes, slice_sizes, bitcast_sizes};

use crate::forms::Form;
use crate::pieces::{Piece, leaf_pieces};
use crate::written_types::{
    count_of, element_leaves, leaf_count, operand_leaves, operand_length, result_leaf_count,
    result_leaves, result_length, sum,
};
use ir_store::body::Op;
use std::alloc::{AllocError, Global};

/// How many operations become of one, and where among these the operation stands whose result is each leaf.
#[derive(Drop)]
pub struct Shape {
    /// How many operations there are.
    pub count: u32,
    /// The positions of the leaves, in order.
    pub offsets: Vec<u32>,
}

/// The shape of what becomes of an operation. The error comes only when out of memory, for which 2^32 operations or more count.
/// Linear in the leaves of its types and in the operations that are made.
pub fn shape_of(alloc: Global, op: &Op<'_>, form: &Form<'_>) -> Result<Shape, AllocError>
    ensures { (named : HwOp → Kind) → IfOk result (HasShape (form_rule named form.now (plain_of op.now)) (plain_of op.now)) }
{
    let count = result_leaf_count(alloc, op)?;
    match form {
        Form::Stays => one_for_all(alloc, count),
        Form::Wires
        | Form::Join
        | Form::Extract(_)
        | Form::Inject(_)
        | Form::Mux
        | Form::Constant(_) => in_turn(alloc, 0, count),
        Form::Registers(_) => registers(alloc, op, count),
        Form::OneRegister(_) | Form::Instance(_) | Form::Output => together(alloc, count),
        Form::Get => get(alloc, op, count),
        Form::Slice => slice(alloc, op, count),
        Form::ArrayInject => array_inject(alloc, op, count),
        Form::Bitcast => bitcast(alloc, op),
    }
}

// Leaves in positions one after another, from one on.
fn in_turn(alloc: Global, first: u32, leaves: u32) -> Result<Shape, AllocError>
    ensures { IfOk result (HasOffsets (first + leaves) (in_row (λ i. i) first leaves)) }
{
    let count = sum(first, leaves)?;
    let mut offsets = Vec::with_capacity(alloc, leaves as usize)?;
    for offset in first..count {
        offsets.push(offset)?;
    }
    Ok(Shape { count, offsets })
}

// One operation, of which all leaves are.
fn one_for_all(alloc: Global, leaves: u32) -> Result<Shape, AllocError>
    ensures { IfOk result (HasOffsets 1 (replicate leaves 0)) }
{
    let offsets = vec![in alloc; 0u32; leaves as usize]?;
    Ok(Shape { count: 1, offsets })
}

// One operation, whose results are the leaves.
fn together(alloc: Global, leaves: u32) -> Result<Shape, AllocError>
    ensures { IfOk result (HasOffsets 1 (in_row (λ i. i) 0 leaves)) }
{
    let turn = in_turn(alloc, 0, leaves)?;
    Ok(Shape {
        count: 1,
        offsets: turn.offsets,
    })
}

// A register for each leaf of the first result.
fn registers(alloc: Global, op: &Op<'_>, leaves: u32) -> Result<Shape, AllocError>
    ensures { IfOk result (HasOffsets (length (leaves_of (result_type (plain_of op.now) 0))) (in_row (λ i. i) 0 leaves)) }
{
    let turn = in_turn(alloc, 0, leaves)?;
    Ok(Shape {
        count: first_leaf_count(op)?,
        offsets: turn.offsets,
    })
}

// How many leaves the first result has.
fn first_leaf_count(op: &Op<'_>) -> Result<u32, AllocError>
    ensures { IfOk result (λ n. n ≡ length (leaves_of (result_type (plain_of op.now) 0))) }
{
    match op.results.as_slice().first() {
        Some(one) => leaf_count(&one.ty),
        None => Ok(0),
    }
}

// Operations of which each leaf has so many of its own and one, after others.
fn in_blocks(alloc: Global, first: u32, sizes: &[u32]) -> Result<Shape, AllocError>
    ensures { IfOk result (HasBlocks first sizes.now) }
{
    let mut offsets = Vec::with_capacity(alloc, sizes.len())?;
    let mut next = first;
    for size in sizes {
        let end = sum(next, *size)?;
        offsets.push(end)?;
        next = sum(end, 1)?;
    }
    Ok(Shape {
        count: next,
        offsets,
    })
}

// Two operations for each element of an array, and then for each leaf multiplexers among them.
fn get(alloc: Global, op: &Op<'_>, leaves: u32) -> Result<Shape, AllocError>
    ensures { IfOk result (HasBlocks (test_count (plain_of op.now)) (get_sizes (plain_of op.now) leaves)) }
{
    let length = operand_length(op);
    let sizes = vec![in alloc; length; leaves as usize]?;
    in_blocks(alloc, sum(length, length)?, sizes.as_slice())
}

// Two operations for each element of an array, and then for each leaf multiplexers among those from the own one on.
fn slice(alloc: Global, op: &Op<'_>, leaves: u32) -> Result<Shape, AllocError>
    ensures { IfOk result (HasBlocks (test_count (plain_of op.now)) (slice_sizes (plain_of op.now) leaves)) }
{
    let length = operand_length(op);
    let element = element_leaves(op)?;
    let sizes = sizes_from(alloc, length, result_length(op), element, leaves)?;
    in_blocks(alloc, sum(length, length)?, sizes.as_slice())
}

// How many elements of so many there are from the own one on, of each leaf of a part of an array.
fn sizes_from(
    alloc: Global,
    length: u32,
    own: u32,
    element: u32,
    count: u32,
) -> Result<Vec<u32>, AllocError>
    ensures { IfOk result (λ sizes. sizes.items ≡ in_row (λ l. length - element_of own element l) 0 count) }
{
    let mut sizes = Vec::with_capacity(alloc, count as usize)?;
    for leaf in 0..count {
        let first = element_of(own, element, leaf)?;
        sizes.push(length.saturating_sub(first))?;
    }
    Ok(sizes)
}

/// Of which of so many elements a leaf is, where each has some leaves.
pub fn element_of(elements: u32, leaves: u32, leaf: u32) -> Result<u32, AllocError>
    ensures { IfOk result (λ n. n ≡ element_of elements leaves leaf) }
{
    if leaves == 0 {
        return Err(AllocError);
    }
    Ok(elements.saturating_sub(sum(leaf / leaves, 1)?))
}

/// The number of a leaf within its element, where each has some leaves.
pub fn leaf_within(leaves: u32, leaf: u32) -> Result<u32, AllocError>
    ensures { IfOk result (λ n. n ≡ leaf % leaves) }
{
    if leaves == 0 {
        return Err(AllocError);
    }
    Ok(leaf % leaves)
}

// Two operations for each element of an array, and then one for each leaf.
fn array_inject(alloc: Global, op: &Op<'_>, leaves: u32) -> Result<Shape, AllocError>
    ensures { IfOk result (HasOffsets (test_count (plain_of op.now) + leaves) (in_row (λ i. i) (test_count (plain_of op.now)) leaves)) }
{
    let length = operand_length(op);
    in_turn(alloc, sum(length, length)?, leaves)
}

// Extracts for each leaf, and where they are not one, what joins them.
fn bitcast(alloc: Global, op: &Op<'_>) -> Result<Shape, AllocError>
    ensures { IfOk result (HasBlocks 0 (bitcast_sizes (plain_of op.now))) }
{
    let own = operand_leaves(alloc, op)?;
    let leaves = result_leaves(alloc, op)?;
    let pieces = leaf_pieces(alloc, own.as_slice(), leaves.as_slice())?;
    let sizes = joined_ends(alloc, pieces.as_slice())?;
    in_blocks(alloc, 0, sizes.as_slice())
}

// How many operations stand before what joins the pieces of each leaf.
fn joined_ends(alloc: Global, all: &[Vec<Piece>]) -> Result<Vec<u32>, AllocError>
    ensures { IfOk result (λ sizes. sizes.items ≡ map (λ ps. end_of ps.items) all.now) }
{
    let mut sizes = Vec::with_capacity(alloc, all.len())?;
    for one in all {
        sizes.push(joined_end(one.as_slice())?)?;
    }
    Ok(sizes)
}

// How many operations stand before what joins pieces; one is not joined.
fn joined_end(pieces: &[Piece]) -> Result<u32, AllocError>
    ensures { IfOk result (λ n. n ≡ end_of pieces.now) }
{
    match pieces {
        [_] => Ok(0),
        _ => count_of(pieces.len()),
    }
}
