//! The same bits as leaves of another type: extracts of the leaves that each leaf overlaps, joined.
ghost use Rattle.std.specs.Prelude.{◌≡◌, ◌++◌, ◌∷◌, suc, [], map, IfOk, OnOk};
ghost use Rattle.hw_model.specs.Types.{leaves as type_leaves};
ghost use Rattle.hw_model.specs.TypeViews.{type_of};
ghost use Rattle.hw_model.specs.Value.{nth_type};
ghost use Rattle.hw_model.specs.Design.Ref.{result as result_ref};
ghost use Rattle.ir_store.specs.OperationViews.{types_in};
ghost use Rattle.aggregate_laws.specs.Leaves.{in_row};
ghost use Rattle.aggregate_laws.specs.Bitcasts.{leaf_pieces};
ghost use Rattle.lowering_rules.specs.Reading.{plain_of, new_refs};
ghost use Rattle.lowering_rules.specs.Made.{made_in};
ghost use Rattle.lowering_rules.specs.Pieces.{code_piece};
ghost use Rattle.lowering_rules.specs.PieceRules.{view_extract, view_extracts, view_type, views_concat, joined_views, view_end, nth_views, leaf_views};

use crate::arguments::part;
use crate::made_ops::{Recipe, put_made};
use crate::pieces::{Piece, leaf_pieces};
use crate::written_types::{count_of, operand_leaves, sum};
use hw_model::kinds::OpKind;
use hw_model::types::Ty;
use io_edge::byte_text::Text;
use ir_store::body::Op;
use ir_store::operation::{NewOp, OpId, TyList, Value};
use std::alloc::{AllocError, Global};

/// `hw.bitcast`: for each leaf the extracts of the leaves that it overlaps, joined, beginning at a position.
pub fn put_bitcast(
    alloc: Global,
    made: &mut Vec<NewOp>,
    op: &Op<'_>,
    leaves: &[Ty],
    values: &[Value],
    start: u32,
) -> Result<(), AllocError>
    ensures { OnOk result (made_in made.new.items ≡ made_in made.old.items ++ leaf_pieces (plain_of op.now) (new_refs values.now) (type_leaves (nth_type (plain_of op.now).types 0)) 0 start (map type_of leaves.now)) }
{
    let own = operand_leaves(alloc, op)?;
    let types = own.as_slice();
    let all = leaf_pieces(alloc, types, leaves)?;
    put_leaves(
        alloc,
        made,
        op,
        types,
        leaves,
        values,
        all.as_slice(),
        start,
    )
}

// For each leaf its pieces of values of types, joined, beginning at a position.
fn put_leaves(
    alloc: Global,
    made: &mut Vec<NewOp>,
    op: &Op<'_>,
    types: &[Ty],
    leaves: &[Ty],
    values: &[Value],
    all: &[Vec<Piece>],
    start: u32,
) -> Result<(), AllocError>
    ensures { OnOk result (made_in made.new.items ≡ made_in made.old.items ++ leaf_views (plain_of op.now) (new_refs values.now) (map type_of types.now) (map (λ ps. map code_piece ps.items) all.now) 0 start (map type_of leaves.now)) }
{
    let mut next = start;
    for (number, ty) in leaves.iter().enumerate() {
        let pieces = pieces_of(all, number);
        let count = put_joined(alloc, made, op, types, values, pieces, ty, next)?;
        next = sum(next, count)?;
    }
    Ok(())
}

// The pieces of a leaf's number, or none.
fn pieces_of(all: &[Vec<Piece>], number: usize) -> &[Piece]
    ensures { map code_piece result.now ≡ nth_views (map (λ ps. map code_piece ps.items) all.now) number }
{
    match all.get(number) {
        Some(pieces) => pieces.as_slice(),
        None => &[],
    }
}

// Pieces joined, beginning at a position, and how many operations these are; one piece is an extract alone.
fn put_joined(
    alloc: Global,
    made: &mut Vec<NewOp>,
    op: &Op<'_>,
    types: &[Ty],
    values: &[Value],
    pieces: &[Piece],
    ty: &Ty,
    start: u32,
) -> Result<u32, AllocError>
    ensures made { OnOk result (made_in made.new.items ≡ made_in made.old.items ++ joined_views (plain_of op.now) (new_refs values.now) (map type_of types.now) (type_of ty.now) start (map code_piece pieces.now)) }
    ensures count { IfOk result (λ n. n ≡ suc (view_end (map code_piece pieces.now))) }
{
    if let [piece] = pieces {
        put_extract(alloc, made, op, types, values, *piece, ty)?;
        return Ok(1);
    }
    put_extracts(alloc, made, op, types, values, pieces)?;
    let count = count_of(pieces.len())?;
    put_concat(alloc, made, op, pieces, ty, start, count)?;
    sum(count, 1)
}

// An extract of each piece, as an integer.
fn put_extracts(
    alloc: Global,
    made: &mut Vec<NewOp>,
    op: &Op<'_>,
    types: &[Ty],
    values: &[Value],
    pieces: &[Piece],
) -> Result<(), AllocError>
    ensures { OnOk result (made_in made.new.items ≡ made_in made.old.items ++ view_extracts (plain_of op.now) (new_refs values.now) (map type_of types.now) (map code_piece pieces.now)) }
{
    for piece in pieces {
        let own = Ty::Int(piece.size);
        put_extract(alloc, made, op, types, values, *piece, &own)?;
    }
    Ok(())
}

// An extract of a piece, of a type.
fn put_extract(
    alloc: Global,
    made: &mut Vec<NewOp>,
    op: &Op<'_>,
    types: &[Ty],
    values: &[Value],
    piece: Piece,
    ty: &Ty,
) -> Result<(), AllocError>
    ensures { OnOk result (made_in made.new.items ≡ made_in made.old.items ++ view_extract (plain_of op.now) (new_refs values.now) (map type_of types.now) (type_of ty.now) (code_piece piece) ∷ []) }
{
    let written = extract_types(alloc, types, piece, ty)?;
    let recipe = Recipe {
        kind: OpKind::Extract(piece.low),
        operands: &[part(values, piece.value as usize)],
        types: written,
        name: Text::new(alloc),
        ty: ty.try_clone(alloc)?,
    };
    put_made(alloc, made, op, recipe)
}

// The types that an extract of a piece writes: the value's, and its own.
fn extract_types(alloc: Global, types: &[Ty], piece: Piece, ty: &Ty) -> Result<TyList, AllocError>
    ensures { IfOk result (λ written. types_in written ≡ nth_type (map type_of types.now) piece.value ∷ type_of ty.now ∷ []) }
{
    let Some(from) = types.get(piece.value as usize) else {
        return Err(AllocError);
    };
    let mut written = TyList::with_room(alloc, 2)?;
    written.push(alloc, from.try_clone(alloc)?)?;
    written.push(alloc, ty.try_clone(alloc)?)?;
    Ok(written)
}

// So many extracts from a position on, joined.
fn put_concat(
    alloc: Global,
    made: &mut Vec<NewOp>,
    op: &Op<'_>,
    pieces: &[Piece],
    ty: &Ty,
    start: u32,
    count: u32,
) -> Result<(), AllocError>
    ensures { OnOk result (made_in made.new.items ≡ made_in made.old.items ++ views_concat (plain_of op.now) (type_of ty.now) start count (map code_piece pieces.now) ∷ []) }
{
    let operands = results_from(alloc, start, count)?;
    let recipe = Recipe {
        kind: OpKind::Concat,
        operands: operands.as_slice(),
        types: piece_types(alloc, pieces)?,
        name: Text::new(alloc),
        ty: ty.try_clone(alloc)?,
    };
    put_made(alloc, made, op, recipe)
}

// The pieces as integers.
fn piece_types(alloc: Global, pieces: &[Piece]) -> Result<TyList, AllocError>
    ensures { IfOk result (λ types. types_in types ≡ map view_type (map code_piece pieces.now)) }
{
    let mut types = TyList::with_room(alloc, pieces.len())?;
    for piece in pieces {
        types.push(alloc, Ty::Int(piece.size))?;
    }
    Ok(types)
}

// The results of so many operations, from a position on.
fn results_from(alloc: Global, start: u32, count: u32) -> Result<Vec<Value>, AllocError>
    ensures { IfOk result (λ values. new_refs values.items ≡ in_row (λ i. result_ref i 0) start count) }
{
    let end = sum(start, count)?;
    let mut values = Vec::with_capacity(alloc, count as usize)?;
    for number in start..end {
        values.push(Value::Result(OpId::nth(number), 0))?;
    }
    Ok(values)
}
