//! The ids of a body's operations in text order, and the positions of these by the numbers of their ids.
ghost use Rattle.std.specs.Prelude.{◌≡◌, ◌<◌, ℕ, map, slice_get, IfOk, Some};
ghost use Rattle.ir_store.specs.Bodies.{ids_of, op_id};
ghost use Rattle.ir_store.specs.Live.{AreDistinct};
ghost use Rattle.body_index.specs.PositionTables.{ArePositions};

use ir_store::body::Body;
use ir_store::operation::OpId;
use std::alloc::{AllocError, Global};

/// The ids of a body's operations in text order.
pub fn ids_in(alloc: Global, body: &Body) -> Result<Vec<OpId>, AllocError>
    ensures { IfOk result (λ ids. ids.items ≡ map op_id (ids_of body.now)) }
{
    body.ops().collect(alloc)
}

/// The position of each id by its number. 2^32 ids or more want more memory than there is.
pub fn positions_of(alloc: Global, ids: &[OpId]) -> Result<Vec<u32>, AllocError>
    requires { AreDistinct (map (λ (i : OpId). i.index) ids.now) }
    ensures { IfOk result (λ ps. ArePositions (map (λ (i : OpId). i.index) ids.now) ps.items) }
{
    let Ok(count) = u32::try_from(ids.len()) else {
        return Err(AllocError);
    };
    let mut positions = vec![in alloc; count; size_for(ids)]?;
    for position in 0..ids.len() {
        positions[ids[position].number() as usize] = position as u32;
    }
    Ok(positions)
}

/// One more than the greatest number of an id.
fn size_for(ids: &[OpId]) -> usize
    ensures { (j q : ℕ) → slice_get (map (λ (i : OpId). i.index) ids.now) j ≡ Some q → q < result }
{
    let mut size: usize = 0;
    for id in ids {
        size = size.max((id.number() as usize).saturating_add(1));
    }
    size
}
