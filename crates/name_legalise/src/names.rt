//! A table of legal names.
ghost use Rattle.std.specs.Prelude.{◌≡◌, ◌+◌, ◌<◌, ◌^◌, ◌⊎◌, [], ◌∷◌, ◌++◌, length, map, IfOk, OnOk, OnErr};
ghost use Rattle.fresh_names.specs.Fresh.{free_name};
ghost use Rattle.fresh_names.specs.TakenViews.{taken_names};
ghost use Rattle.name_legalise.specs.Kept.{IsTable, with_reserved};
ghost use Rattle.name_legalise.specs.Legal.{clean, legal};

use crate::cleaning::{clean, is_clean};
use crate::reserved::is_reserved;
use fresh_names::taken_names as table;
use fresh_names::taken_names::TakenNames;
use io_edge::byte_text::Text;
use std::alloc::{AllocError, Global};

/// What names a legal name: the number of names that were added before it.
#[derive(Clone, Copy)]
pub struct NameId {
    pub(crate) index: u32,
}

/// Names that are legal in Verilog, in the order in which they were added. Contracts see them by `legal_names`.
#[derive(Drop)]
pub struct Names {
    // the legal names, and each reserved word that was wanted
    taken: TakenNames,
    // the legal names among them, in order
    legal: Vec<table::NameId>,
    ghost table: { IsTable (taken_names taken) (map (λ (id : _). id.index) legal.items) },
}

// Takes the free name of a wanted one that is no reserved word. A suffixed name is none, so where the first one is, the
// second is not.
fn take_unreserved(taken: &mut TakenNames, wanted: &[u8]) -> Result<table::NameId, AllocError>
    requires { length (with_reserved (taken_names taken.old) wanted.now) + 1 < 2 ^ 32 }
    ensures ok { OnOk result (taken_names taken.new ≡ with_reserved (taken_names taken.old) wanted.now ++ free_name (with_reserved (taken_names taken.old) wanted.now) wanted.now ∷ []) }
    ensures id { IfOk result (λ id. id.index ≡ length (with_reserved (taken_names taken.old) wanted.now)) }
    ensures err { OnErr result ((taken_names taken.new ≡ taken_names taken.old) ⊎ (taken_names taken.new ≡ with_reserved (taken_names taken.old) wanted.now)) }
{
    let id = taken.take(wanted)?;
    if !is_reserved(taken.name(id)) {
        return Ok(id);
    }
    taken.take(wanted)
}

// Takes the free name of a wanted one once that is cleaned. It copies no name that is clean as it is.
fn take_cleaned(
    alloc: Global,
    taken: &mut TakenNames,
    wanted: &[u8],
) -> Result<table::NameId, AllocError>
    requires { length (with_reserved (taken_names taken.old) (clean wanted.now)) + 1 < 2 ^ 32 }
    ensures ok { OnOk result (taken_names taken.new ≡ with_reserved (taken_names taken.old) (clean wanted.now) ++ free_name (with_reserved (taken_names taken.old) (clean wanted.now)) (clean wanted.now) ∷ []) }
    ensures id { IfOk result (λ id. id.index ≡ length (with_reserved (taken_names taken.old) (clean wanted.now))) }
    ensures err { OnErr result ((taken_names taken.new ≡ taken_names taken.old) ⊎ (taken_names taken.new ≡ with_reserved (taken_names taken.old) (clean wanted.now))) }
{
    if is_clean(wanted) {
        return take_unreserved(taken, wanted);
    }
    let name = clean(alloc, wanted)?;
    take_unreserved(taken, name.as_slice())
}

impl Names {
    ghost use Rattle.std.specs.Prelude.{◌≡◌, ◌+◌, ◌<◌, ◌^◌, [], ◌∷◌, ◌++◌, length, Some, slice_get, IfOk, OnOk, OnErr};
    ghost use Rattle.name_legalise.specs.Legal.{legal_name};
    ghost use Rattle.name_legalise.specs.LegalViews.{legal_names};

    /// No name. It takes no memory.
    pub fn new(alloc: Global) -> Names
        ensures { legal_names result ≡ [] }
    {
        Names {
            taken: TakenNames::new(alloc),
            legal: Vec::new(alloc),
        }
    }

    /// Adds the legal name of a wanted one. There have to be fewer than 2^32 - 125 names: with the 124 reserved words and
    /// this one they are fewer than 2^32. Fails where memory runs out, and the names are then as they were.
    pub fn add(&mut self, wanted: &[u8]) -> Result<NameId, AllocError>
        requires { length (legal_names self.old) + 125 < 2 ^ 32 }
        ensures ok { OnOk result (legal_names self.new ≡ legal_names self.old ++ legal_name (legal_names self.old) wanted.now ∷ []) }
        ensures id { IfOk result (λ id. id.index ≡ length (legal_names self.old)) }
        ensures err { OnErr result (legal_names self.new ≡ legal_names self.old) }
    {
        let alloc = *self.legal.allocator();
        let index = self.legal.len() as u32;
        self.legal.reserve(1)?;
        let id = take_cleaned(alloc, &mut self.taken, wanted)?;
        self.legal.push_reserved(id);
        Ok(NameId { index })
    }

    /// The name of an id.
    pub fn name(&self, id: NameId) -> &[u8]
        requires { id.index < length (legal_names self.now) }
        ensures { Some result.now ≡ slice_get (legal_names self.now) id.index }
    {
        self.taken.name(self.legal[id.index as usize])
    }

    /// How many names there are.
    pub fn len(&self) -> usize
        ensures { result ≡ length (legal_names self.now) }
    {
        self.legal.len()
    }
}

/// The legal names of wanted ones, in order. There have to be fewer than 2^32 - 124 of them. Fails where memory runs out.
pub fn legal_list(alloc: Global, wanted: &[Text]) -> Result<Vec<Text>, AllocError>
    requires { length wanted.now + 124 < 2 ^ 32 }
    ensures { IfOk result (λ names. names.items ≡ legal wanted.now) }
{
    let mut names = Names::new(alloc);
    let mut list = Vec::with_capacity(alloc, wanted.len())?;
    for text in wanted {
        let id = names.add(text.as_bytes())?;
        list.push(Text::of(alloc, names.name(id))?)?;
    }
    Ok(list)
}
