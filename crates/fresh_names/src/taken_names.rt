//! A table of names that are taken.
ghost use Rattle.std.specs.Prelude.{◌≡◌, length, map, IfOk};
ghost use Rattle.fresh_names.specs.Fresh.{with_suffix};
ghost use Rattle.fresh_names.specs.Tried.{AreTried};

use indexmap::IndexSet;
use itoa::Buffer;
use std::alloc::{AllocError, Global};

// The most names whose memory is used again: to clear it takes time in proportion.
const MOST_KEPT: usize = 64;

/// What names a taken name.
#[derive(Clone, Copy)]
pub struct NameId {
    pub(crate) index: u32,
}

/// Names that are taken, in order. Contracts see them by `taken_names`.
#[derive(Drop)]
pub struct TakenNames {
    names: IndexSet<Vec<u8>>,
    // of each name how many of its suffixed names are known to be taken
    tried: Vec<usize>,
    // the memory of names that are taken no more
    spare: Vec<Vec<u8>>,
    ghost paired: { length tried.items ≡ length names.keys },
    ghost taken: { AreTried (map (λ (name : _). name.items) names.keys) tried.items },
}

// The name, `_`, and the number.
#[tactic(auto, using(std::proofs::Common::append_assoc), unfolding(crate::specs::Fresh::with_suffix))]
fn with_suffix(alloc: Global, wanted: &[u8], number: usize) -> Result<Vec<u8>, AllocError>
    ensures { IfOk result (λ name. name.items ≡ with_suffix wanted.now number) }
{
    let mut buffer = Buffer::new();
    let digits = buffer.format(number).as_bytes();
    let mut name = Vec::from_slice(alloc, wanted)?;
    name.push(b'_')?;
    name.extend_from_slice(digits)?;
    Ok(name)
}

// Moves names out of a table to those whose memory is used again, as far as there is room for them.
fn keep_memory(names: &mut IndexSet<Vec<u8>>, spare: &mut Vec<Vec<u8>>) {
    while let Some(name) = names.pop() {
        if spare.push(name).is_err() {
            return;
        }
    }
}

// A name of these bytes, in memory that is used again where there is such.
fn copied_name(
    alloc: Global,
    spare: &mut Vec<Vec<u8>>,
    wanted: &[u8],
) -> Result<Vec<u8>, AllocError>
    ensures { IfOk result (λ name. name.items ≡ wanted.now) }
{
    let Some(used) = spare.pop() else {
        return Vec::from_slice(alloc, wanted);
    };
    let mut name = used;
    name.clear();
    name.extend_from_slice(wanted)?;
    Ok(name)
}

impl TakenNames {
    ghost use Rattle.std.specs.Prelude.{◌≡◌, ◌+◌, ◌<◌, ◌^◌, [], ◌∷◌, ◌++◌, length, Some, slice_get, true, false, not, cond, IfOk, OnOk, OnErr};
    ghost use Rattle.fresh_names.specs.Fresh.{free_from, free_name, is_taken, with_suffix};
    ghost use Rattle.fresh_names.specs.Tried.{IsTried};
    ghost use Rattle.fresh_names.specs.TakenViews.{taken_names};

    /// No name is taken. It takes no memory.
    pub fn new(alloc: Global) -> TakenNames
        ensures { taken_names result ≡ [] }
    {
        TakenNames {
            names: IndexSet::new(alloc),
            tried: Vec::new(alloc),
            spare: Vec::new(alloc),
        }
    }

    /// Takes no name any more. The memory is used again where the names are few.
    pub fn clear(&mut self)
        ensures { taken_names self.new ≡ [] }
    {
        if self.names.len() > MOST_KEPT {
            *self = TakenNames::new(*self.tried.allocator());
        } else {
            keep_memory(&mut self.names, &mut self.spare);
            self.names.clear();
            self.tried.clear();
        }
    }

    // Whether a name is taken.
    fn is_taken(&self, name: &[u8]) -> bool
        ensures { result ≡ is_taken (taken_names self.now) name.now }
    {
        self.names.contains(name)
    }

    // The first number from another one on of which the suffixed name is not taken, and that name;
    // the last number is that of the names.
    fn free_from(
        &self,
        alloc: Global,
        wanted: &[u8],
        first: usize,
    ) -> Result<(usize, Vec<u8>), AllocError>
        requires { IsTried (taken_names self.now) wanted.now first }
        ensures name { IfOk result (λ r. r.1.items ≡ free_from (taken_names self.now) wanted.now (length (taken_names self.now)) 0) }
        ensures suffixed { IfOk result (λ r. r.1.items ≡ with_suffix wanted.now r.0) }
        ensures tried { IfOk result (λ r. IsTried (taken_names self.now) wanted.now r.0) }
    {
        for number in first..self.names.len() {
            let name = with_suffix(alloc, wanted, number)?;
            if !self.is_taken(name.as_slice()) {
                return Ok((number, name));
            }
        }
        let number = self.names.len();
        Ok((number, with_suffix(alloc, wanted, number)?))
    }

    // Takes a name where it is not taken, and says whether it was not.
    fn add_free(&mut self, name: Vec<u8>) -> Result<bool, AllocError>
        ensures free { IfOk result (λ free. free ≡ not (is_taken (taken_names self.old) name.items)) }
        ensures ok { OnOk result (taken_names self.new ≡ cond (is_taken (taken_names self.old) name.items) (taken_names self.old) (taken_names self.old ++ name.items ∷ [])) }
        ensures tried { OnOk result (self.new.tried.items ≡ cond (is_taken (taken_names self.old) name.items) self.old.tried.items (self.old.tried.items ++ 0 ∷ [])) }
        ensures err { OnErr result (taken_names self.new ≡ taken_names self.old) }
    {
        self.tried.reserve(1)?;
        let free = self.names.insert(name)?;
        if free {
            self.tried.push_reserved(0);
        }
        Ok(free)
    }

    // Takes a name that is not taken.
    fn add(&mut self, name: Vec<u8>) -> Result<(), AllocError>
        requires { is_taken (taken_names self.old) name.items ≡ false }
        ensures ok { OnOk result (taken_names self.new ≡ taken_names self.old ++ name.items ∷ []) }
        ensures tried { OnOk result (self.new.tried.items ≡ self.old.tried.items ++ 0 ∷ []) }
        ensures err { OnErr result (taken_names self.new ≡ taken_names self.old) }
    {
        let _ = self.add_free(name)?;
        Ok(())
    }

    // Takes the first suffixed name that is not taken, of the name at a position.
    fn add_suffixed(&mut self, wanted: &[u8], position: usize) -> Result<(), AllocError>
        requires { slice_get (taken_names self.old) position ≡ Some wanted.now }
        ensures ok { OnOk result (taken_names self.new ≡ taken_names self.old ++ free_from (taken_names self.old) wanted.now (length (taken_names self.old)) 0 ∷ []) }
        ensures err { OnErr result (taken_names self.new ≡ taken_names self.old) }
    {
        let alloc = *self.tried.allocator();
        let (number, name) = self.free_from(alloc, wanted, self.tried[position])?;
        self.add(name)?;
        self.tried[position] = number + 1;
        Ok(())
    }

    /// Takes the free name of a wanted one.
    #[tactic(auto, unfolding(crate::specs::Fresh::free_name))]
    pub fn take(&mut self, wanted: &[u8]) -> Result<NameId, AllocError>
        requires { length (taken_names self.old) + 1 < 2 ^ 32 }
        ensures ok { OnOk result (taken_names self.new ≡ taken_names self.old ++ free_name (taken_names self.old) wanted.now ∷ []) }
        ensures id { IfOk result (λ id. id.index ≡ length (taken_names self.old)) }
        ensures err { OnErr result (taken_names self.new ≡ taken_names self.old) }
    {
        let index = self.names.len() as u32;
        let alloc = *self.tried.allocator();
        let name = copied_name(alloc, &mut self.spare, wanted)?;
        if !self.add_free(name)? {
            self.add_again(wanted)?;
        }
        Ok(NameId { index })
    }

    // Takes the first suffixed name that is not taken, of a name that is.
    #[tactic(auto, unfolding(crate::specs::Fresh::free_name))]
    fn add_again(&mut self, wanted: &[u8]) -> Result<(), AllocError>
        requires { is_taken (taken_names self.old) wanted.now ≡ true }
        ensures ok { OnOk result (taken_names self.new ≡ taken_names self.old ++ free_name (taken_names self.old) wanted.now ∷ []) }
        ensures err { OnErr result (taken_names self.new ≡ taken_names self.old) }
    {
        match self.names.get_index_of(wanted) {
            Some(position) => self.add_suffixed(wanted, position),
            None => unreachable!(),
        }
    }

    /// The name of an id.
    pub fn name(&self, id: NameId) -> &[u8]
        requires { id.index < length (taken_names self.now) }
        ensures { Some result.now ≡ slice_get (taken_names self.now) id.index }
    {
        match self.names.get_index(id.index as usize) {
            Some(name) => name.as_slice(),
            None => &[],
        }
    }

    /// How many names are taken.
    pub fn len(&self) -> usize
        ensures { result ≡ length (taken_names self.now) }
    {
        self.names.len()
    }
}
