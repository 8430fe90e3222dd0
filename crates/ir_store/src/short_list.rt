//! Lists of which most have one item or none.
ghost use Rattle.std.specs.Prelude.{◌≡◌, ◌++◌, ◌∷◌, [], length, IfOk, OnOk, OnErr};
ghost use Rattle.std.specs.Mem.{FitsInMemory};
ghost use Rattle.ir_store.specs.ShortLists.{short_items};

use std::alloc::{AllocError, Global};
use std::{mem, slice};

/// Items in order, of which one alone takes no memory. Contracts see them by `short_items`.
#[derive(Drop)]
pub enum ShortList<T> {
    /// None.
    Empty,
    /// One.
    One(T),
    /// As many as there are.
    Many(Vec<T>),
}

impl<T: Drop> ShortList<T> {
    /// No items. It takes no memory.
    pub fn new() -> ShortList<T>
        ensures { short_items result ≡ [] }
    {
        ShortList::Empty
    }

    /// No items, with room for so many.
    pub fn with_room(alloc: Global, room: usize) -> Result<ShortList<T>, AllocError>
        ensures { IfOk result (λ list. short_items list ≡ []) }
    {
        if room < 2 {
            return Ok(ShortList::Empty);
        }
        Ok(ShortList::Many(Vec::with_capacity(alloc, room)?))
    }

    /// The items of a vector. It takes no memory.
    pub fn of(items: Vec<T>) -> ShortList<T>
        ensures { short_items result ≡ items.items }
    {
        ShortList::Many(items)
    }

    /// The items.
    #[inline]
    pub fn as_slice(&self) -> &[T]
        requires { FitsInMemory T.row }
        ensures { result.now ≡ short_items self.now }
    {
        match self {
            ShortList::Empty => &[],
            ShortList::One(item) => slice::from_ref(item),
            ShortList::Many(items) => items.as_slice(),
        }
    }

    /// How many items there are.
    #[inline]
    pub fn len(&self) -> usize
        ensures { result ≡ length (short_items self.now) }
    {
        match self {
            ShortList::Empty => 0,
            ShortList::One(_) => 1,
            ShortList::Many(items) => items.len(),
        }
    }

    /// Makes room for so many more items. The items stay.
    pub fn reserve(&mut self, alloc: Global, more: usize) -> Result<(), AllocError>
        ensures { short_items self.new ≡ short_items self.old }
    {
        match self {
            ShortList::Empty => {
                *self = ShortList::with_room(alloc, more)?;
                Ok(())
            }
            ShortList::One(_) => Ok(()),
            ShortList::Many(items) => items.reserve(more),
        }
    }

    /// Puts an item after the others. A first one takes no memory. On an error the items stay.
    pub fn push(&mut self, alloc: Global, item: T) -> Result<(), AllocError>
        ensures ok { OnOk result (short_items self.new ≡ short_items self.old ++ item ∷ []) }
        ensures err { OnErr result (short_items self.new ≡ short_items self.old) }
    {
        match self {
            ShortList::Empty => *self = ShortList::One(item),
            ShortList::One(_) => {
                let mut items = Vec::with_capacity(alloc, 2)?;
                if let ShortList::One(first) = mem::replace(self, ShortList::Empty) {
                    items.push_reserved(first);
                }
                items.push_reserved(item);
                *self = ShortList::Many(items);
            }
            ShortList::Many(items) => items.push(item)?,
        }
        Ok(())
    }
}
