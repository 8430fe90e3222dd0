//! Names that are chosen one after another.
ghost use Rattle.std.specs.Prelude.{◌≡◌, ◌<◌, ◌≤◌, ◌^◌, length};
ghost use Rattle.fresh_names.specs.TakenViews.{taken_names};
ghost use Rattle.mlir_printer.specs.Spelled.{spelled_below};
ghost use Rattle.mlir_printer.specs.Choices.{AreKnown, HaveWords, AreFree, names_chosen};

use crate::numerals::Numerals;
use fresh_names::taken_names::{NameId, TakenNames};
use std::alloc::{AllocError, Global};

/// How a name was chosen.
#[derive(Clone, Copy)]
pub enum Choice {
    /// It is a word of the table.
    Word(NameId),
    /// It is a number.
    Number(u32),
}

/// Names that are chosen one after another: words, which begin with no digit, and numbers in order. A number is a free name
/// whatever words are taken, so it stands in no table. Contracts see the names by `names_in`, and with the next number by
/// `chosen_in`.
#[derive(Drop)]
pub struct ChosenNames {
    // the words that are taken
    words: TakenNames,
    // how each name was chosen
    choices: Vec<Choice>,
    // how many of them are numbers
    numbered: u32,
    // the digits of these numbers, and of those of earlier modules
    numerals: Numerals,
    ghost few: { length choices.items < 2 ^ 32 },
    ghost fewer: { length (taken_names words) ≤ length choices.items },
    ghost numbers: { numbered ≤ length choices.items },
    ghost spelled: { numbered ≤ spelled_below numerals },
    ghost known: { AreKnown (length (taken_names words)) numbered choices.items },
    ghost same: { HaveWords (taken_names words) (names_chosen (taken_names words) choices.items) },
    ghost free: { AreFree (names_chosen (taken_names words) choices.items) numbered },
}

impl ChosenNames {
    ghost use Rattle.std.specs.Prelude.{◌≡◌, ◌≤◌, ◌++◌, [], ◌∷◌, None, length, drop, false, IfOk, OnOk};
    ghost use Rattle.fresh_names.specs.Fresh.{free_name};
    ghost use Rattle.mlir_lexer.specs.Classes.{is_digit};
    ghost use Rattle.mlir_lexer.specs.Runs.{begins};
    ghost use Rattle.mlir_printer.specs.Naming.{first_name};
    ghost use Rattle.mlir_printer.specs.Chosen.{with_name_hint};
    ghost use Rattle.mlir_printer.specs.ChosenViews.{names_in, chosen_in};

    /// No names. It takes no memory.
    pub fn new(alloc: Global) -> ChosenNames
        ensures names { names_in result ≡ [] }
        ensures next { result.numbered ≡ 0 }
    {
        ChosenNames {
            words: TakenNames::new(alloc),
            choices: Vec::new(alloc),
            numbered: 0,
            numerals: Numerals::new(alloc),
        }
    }

    /// The same memory without names. The digits of numbers are kept.
    pub fn into_empty(self) -> ChosenNames
        ensures names { names_in result ≡ [] }
        ensures next { result.numbered ≡ 0 }
    {
        let ChosenNames {
            mut words,
            mut choices,
            numbered: _,
            numerals,
        } = self;
        words.clear();
        choices.clear();
        ChosenNames {
            words,
            choices,
            numbered: 0,
            numerals,
        }
    }

    /// How many names there are.
    pub fn count(&self) -> u32
        ensures { result ≡ length (names_in self.now) }
    {
        self.choices.len() as u32
    }

    // The number of the next name, where it is no greater than a name's may be.
    fn next(&self) -> Result<u32, AllocError>
        ensures { IfOk result (λ n. (n ≡ length (names_in self.now)) × (n < u32.MAX)) }
    {
        let number = self.count();
        if number == u32::MAX {
            return Err(AllocError);
        }
        Ok(number)
    }

    /// Chooses the free name of a word that is wanted, and gives its number.
    pub fn take_word(&mut self, wanted: &[u8]) -> Result<u32, AllocError>
        requires some { 1 ≤ length wanted.now }
        requires word { begins is_digit wanted.now ≡ false }
        ensures names { OnOk result (names_in self.new ≡ names_in self.old ++ free_name (names_in self.old) wanted.now ∷ []) }
        ensures number { IfOk result (λ n. n ≡ length (names_in self.old)) }
        ensures next { self.new.numbered ≡ self.old.numbered }
    {
        let number = self.next()?;
        self.choices.reserve(1)?;
        let id = self.words.take(wanted)?;
        self.choices.push_reserved(Choice::Word(id));
        Ok(number)
    }

    /// Chooses the next number, and gives the number of the name.
    pub fn take_number(&mut self) -> Result<u32, AllocError>
        ensures chosen { OnOk result (chosen_in self.new ≡ with_name_hint (chosen_in self.old) None) }
        ensures number { IfOk result (λ n. n ≡ length (names_in self.old)) }
    {
        let number = self.next()?;
        self.choices.reserve(1)?;
        self.numerals.reach(self.numbered)?;
        self.choices.push_reserved(Choice::Number(self.numbered));
        self.numbered += 1;
        Ok(number)
    }

    /// The name after so many others; the empty one where there is none.
    pub fn nth(&self, number: usize) -> &[u8]
        ensures { result.now ≡ first_name (drop number (names_in self.now)) }
    {
        match self.choices.get(number) {
            Some(Choice::Word(id)) => self.words.name(*id),
            Some(Choice::Number(number)) => self.numerals.digits(*number),
            None => &[],
        }
    }
}
