//! Of which bits of other values each leaf of a bitcast is made.
ghost use Rattle.std.specs.Prelude.{◌≡◌, ◌+◌, ◌≤◌, ◌++◌, map, IfOk, OnOk};
ghost use Rattle.hw_model.specs.Types.{width};
ghost use Rattle.hw_model.specs.TypeViews.{type_of};
ghost use Rattle.lowering_rules.specs.Pieces.{code_piece, piece_view, leaf_pieces_of, SkipsWithin, rest_types, pushed_piece, IsRestAfter, IsCutOff};

use crate::written_types::{small_width, sum};
use hw_model::types::Ty;
use std::alloc::{AllocError, Global};

/// Bits of one of some values.
#[derive(Clone, Copy)]
pub struct Piece {
    /// The number of the value.
    pub value: u32,
    /// The lowest bit.
    pub low: u32,
    /// How many bits.
    pub size: u32,
}

/// Values of which some bits are cut off.
#[derive(Clone, Copy)]
pub struct Rest<'t> {
    /// The types of those that are left.
    pub types: &'t [Ty],
    /// The number of the first of these.
    pub value: u32,
    /// How many of its bits are cut off.
    pub skip: u32,
}

/// Of values of some types, the pieces of which each leaf of another type is made. Linear in the values and leaves.
pub fn leaf_pieces(
    alloc: Global,
    types: &[Ty],
    leaves: &[Ty],
) -> Result<Vec<Vec<Piece>>, AllocError>
    ensures { IfOk result (λ all. map (λ ps. map code_piece ps.items) all.items ≡ map (map piece_view) (leaf_pieces_of 0 (map type_of types.now) 0 (map type_of leaves.now))) }
{
    let mut rest = Rest {
        types,
        value: 0,
        skip: 0,
    };
    let mut all = Vec::with_capacity(alloc, leaves.len())?;
    for leaf in leaves {
        let (pieces, left) = cut(alloc, rest, small_width(leaf)?)?;
        all.push(pieces)?;
        rest = left;
    }
    Ok(all)
}

// Cuts off so many bits.
fn cut<'t>(alloc: Global, before: Rest<'t>, size: u32) -> Result<(Vec<Piece>, Rest<'t>), AllocError>
    requires { SkipsWithin before.skip (rest_types before) }
    ensures { IfOk result (λ both. IsCutOff before.entry size both.0.items both.1) }
{
    let mut pieces = Vec::new(alloc);
    let mut rest = before;
    let mut left = size;
    while let Some((first, others)) = rest.types.split_first() {
        if left == 0 {
            return Ok((pieces, rest));
        }
        let width = small_width(first)?;
        let own = (width - rest.skip).min(left);
        push_piece(&mut pieces, rest.value, width - rest.skip - own, own)?;
        left -= own;
        rest = rest_after(rest, others, own, width)?;
    }
    Ok((pieces, rest))
}

// Puts a piece after others, where it has any bits.
fn push_piece(pieces: &mut Vec<Piece>, value: u32, low: u32, size: u32) -> Result<(), AllocError>
    ensures { OnOk result (map code_piece pieces.new.items ≡ map code_piece pieces.old.items ++ pushed_piece value low size) }
{
    if size > 0 {
        pieces.push(Piece { value, low, size })?;
    }
    Ok(())
}

// What is left once so many bits of the first value are cut off, which has a width, `others` being the types of the others.
fn rest_after<'t>(
    rest: Rest<'t>,
    others: &'t [Ty],
    own: u32,
    width: u32,
) -> Result<Rest<'t>, AllocError>
    requires { rest.skip + own ≤ width }
    ensures { IfOk result (IsRestAfter rest.entry (map type_of others.now) own width) }
{
    if rest.skip + own == width {
        return Ok(Rest {
            types: others,
            value: sum(rest.value, 1)?,
            skip: 0,
        });
    }
    Ok(Rest {
        types: rest.types,
        value: rest.value,
        skip: rest.skip + own,
    })
}
