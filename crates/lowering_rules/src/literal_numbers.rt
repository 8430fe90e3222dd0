//! The numbers of a constant's leaves.
ghost use Rattle.std.specs.Prelude.{◌≡◌, ◌++◌, map, OnOk};
ghost use Rattle.hw_model.specs.KindViews.{integer_of, literal_of, literals_of};
ghost use Rattle.aggregate_laws.specs.OperationRules.{literal_numbers, literals_numbers, number_at};

use hw_model::kinds::{Integer, Literal};
use std::alloc::AllocError;

/// The number in a position, or 0.
pub fn number_at(numbers: &[Integer], offset: usize) -> Integer
    ensures { integer_of result ≡ number_at (map integer_of numbers.now) offset }
{
    match numbers.get(offset) {
        Some(number) => *number,
        None => Integer::NonNegative(0),
    }
}

/// Puts the numbers of the leaves of constants after others. Linear in the leaves.
#[cycle(numbers)]
pub fn push_all_numbers(numbers: &mut Vec<Integer>, literals: &[Literal]) -> Result<(), AllocError>
    ensures { OnOk result (map integer_of numbers.new.items ≡ map integer_of numbers.old.items ++ literals_numbers (literals_of (map literal_of literals.now))) }
{
    for literal in literals {
        push_numbers(numbers, literal)?;
    }
    Ok(())
}

// Puts the numbers of a constant's leaves after others.
#[cycle(numbers)]
fn push_numbers(numbers: &mut Vec<Integer>, literal: &Literal) -> Result<(), AllocError>
    ensures { OnOk result (map integer_of numbers.new.items ≡ map integer_of numbers.old.items ++ literal_numbers (literal_of literal.now)) }
{
    match literal {
        Literal::Leaf(number, _) => numbers.push(*number)?,
        Literal::Parts(list) => push_all_numbers(numbers, &list.literals)?,
    }
    Ok(())
}
