//! What the names of a module stand for.
ghost use Rattle.std.specs.Prelude.{ℕ, ◌≡◌, ◌≤◌, [], Some, None, cond, nat_eq, length, is_some, IfOk, OnOk};
ghost use Rattle.std.specs.List.{list_all};
ghost use Rattle.std.specs.Option.{option_map};
ghost use Rattle.mlir_lexer.specs.Classes.{is_digit};
ghost use Rattle.mlir_syntax.specs.Numerals.{number_in};
ghost use Rattle.mlir_reader.specs.PlainNumbers.{number_of};
ghost use Rattle.mlir_reader.specs.Resolving.{no_meaning, with_definition};
ghost use Rattle.mlir_reader.specs.Meanings.{defined_of, meaning_at, table_meanings, number_meaning, meanings_of, definition};

use indexmap::IndexMap;
use mlir_lexer::classes::{Class, Digit};
use std::alloc::{AllocError, Global};
use std::mem;

// The most names for which a table that is cleared keeps its room, since clearing goes through all of it.
const MOST_KEPT: usize = 1024;

/// What a name stands for.
#[derive(Clone, Copy)]
pub enum Defined {
    /// A port, by its position.
    Port(u32),
    /// A result of the operation at a position, by its number.
    Result(u32, u32),
    /// The first so many results of the operation at a position.
    Pack(u32, u32),
}

/// Names, each with what it stood for first. Contracts see them by `meanings_of`.
#[derive(Drop)]
pub struct Names<'s> {
    // What plain numbers stand for, each at its own location.
    pub(crate) numbered: Vec<Option<Defined>>,
    // What plain numbers stand for that are far above those.
    pub(crate) far: IndexMap<&'s [u8], Defined>,
    // What all other names stand for.
    pub(crate) named: IndexMap<&'s [u8], Defined>,
    // How many definitions came so far.
    count: usize,
}

impl<'s> Names<'s> {
    /// No names. It takes no memory.
    #[tactic(auto, unfolding(crate::specs::Meanings::meanings_of))]
    pub fn new(alloc: Global) -> Names<'s>
        ensures { meanings_of result ≡ no_meaning }
    {
        Names {
            numbered: Vec::new(alloc),
            far: IndexMap::new(alloc),
            named: IndexMap::new(alloc),
            count: 0,
        }
    }

    /// Forgets all names, and keeps room for further ones. It takes no memory, and no more time than the names that
    /// there were took: a table with room for more than 1024 is let go, and another is cleared whole.
    pub fn clear(&mut self, alloc: Global)
        ensures { meanings_of self.new ≡ no_meaning }
    {
        self.numbered.clear();
        clear_table(alloc, &mut self.far);
        clear_table(alloc, &mut self.named);
        self.count = 0;
    }

    /// What a name stands for.
    #[tactic(auto, unfolding(crate::specs::Meanings::meanings_of))]
    pub fn find(&self, name: &[u8]) -> Option<Defined>
        ensures { option_map defined_of result ≡ meanings_of self.now name.now }
    {
        match number_of(name) {
            Some(number) => self.find_number(name, number),
            None => self.named.get(name).copied(),
        }
    }

    // What a plain number stands for.
    fn find_number(&self, name: &[u8], number: u32) -> Option<Defined>
        ensures { option_map defined_of result ≡ number_meaning self.now name.now number }
    {
        match self.numbered.get(number as usize) {
            Some(Some(defined)) => Some(*defined),
            Some(None) | None => self.find_far(name),
        }
    }

    // What a plain number stands for that is far above those with a location.
    fn find_far(&self, name: &[u8]) -> Option<Defined>
        ensures { option_map defined_of result ≡ table_meanings self.now.far.entries name.now }
    {
        if self.far.is_empty() {
            return None;
        }
        self.far.get(name).copied()
    }

    /// Defines a name, which keeps what it stands for already, and says whether it stands for something.
    pub fn define(&mut self, name: &'s [u8], defined: Defined) -> Result<bool, AllocError>
        ensures again { IfOk result (λ again. again ≡ is_some (meanings_of self.old name.now)) }
        ensures means { OnOk result (meanings_of self.new ≡ with_definition (meanings_of self.old) (definition name.now defined)) }
    {
        self.count = self.count.saturating_add(1);
        match number_of(name) {
            Some(number) => self.define_number(name, number, defined),
            None => define_listed(&mut self.named, name, defined),
        }
    }

    // Defines a plain number.
    fn define_number(
        &mut self,
        name: &'s [u8],
        number: u32,
        defined: Defined,
    ) -> Result<bool, AllocError>
        requires { number_of name.now ≡ Some number }
        ensures again { IfOk result (λ again. again ≡ is_some (meanings_of self.old name.now)) }
        ensures means { OnOk result (meanings_of self.new ≡ with_definition (meanings_of self.old) (definition name.now defined)) }
    {
        if self.find_number(name, number).is_some() {
            return Ok(true);
        }
        // So the table stays linear in the definitions, whatever numbers a text has.
        let room = self.count.saturating_mul(4).saturating_add(64);
        if (number as usize) < room {
            put(&mut self.numbered, number, defined)?;
            return Ok(false);
        }
        define_listed(&mut self.far, name, defined)
    }
}

// Takes all names out of a table, which keeps its room where that is little.
fn clear_table<'s>(alloc: Global, table: &mut IndexMap<&'s [u8], Defined>)
    ensures { table.new.entries ≡ [] }
{
    if table.capacity() > MOST_KEPT {
        let _ = mem::replace(table, IndexMap::new(alloc));
    } else {
        table.clear();
    }
}

// Puts what a number stands for into its slot, after empty ones where there are fewer.
fn put(slots: &mut Vec<Option<Defined>>, number: u32, defined: Defined) -> Result<(), AllocError>
    ensures { OnOk result ((n : ℕ) → meaning_at slots.new.items n ≡ cond (nat_eq number n) (Some defined) (meaning_at slots.old.items n)) }
{
    let slot = number as usize;
    if slot < slots.len() {
        slots[slot] = Some(defined);
        return Ok(());
    }
    slots.resize(slot, None)?;
    slots.push(Some(defined))?;
    Ok(())
}

// Defines a name in a table, which keeps what the name stands for already, and says whether it stands for something.
fn define_listed<'s>(
    table: &mut IndexMap<&'s [u8], Defined>,
    name: &'s [u8],
    defined: Defined,
) -> Result<bool, AllocError>
    ensures again { IfOk result (λ again. again ≡ is_some (table_meanings table.old.entries name.now)) }
    ensures means { OnOk result (table_meanings table.new.entries ≡ with_definition (table_meanings table.old.entries) (definition name.now defined)) }
{
    match table.insert(name, defined)? {
        None => Ok(false),
        Some(known) => {
            table.insert(name, known)?;
            Ok(true)
        }
    }
}

// The number that a name is, where it is a plain one: one to nine digits, with no zero before others.
#[tactic(auto, unfolding(crate::specs::PlainNumbers::number_of))]
fn number_of(name: &[u8]) -> Option<u32>
    ensures { result ≡ number_of name.now }
{
    match name {
        [] | [b'0', _, ..] => None,
        digits if digits.len() <= 9 => decimal(digits),
        _ => None,
    }
}

// The number that at most nine bytes are, where all are digits.
fn decimal(bytes: &[u8]) -> Option<u32>
    requires { length bytes.now ≤ 9 }
    ensures { result ≡ cond (list_all is_digit bytes.now) (Some (number_in 10 0 bytes.now)) None }
{
    let mut number: u32 = 0;
    for byte in bytes {
        if !Digit::has(*byte) {
            return None;
        }
        number = number * 10 + u32::from(*byte - b'0');
    }
    Some(number)
}
