//! Words of known bits.
ghost use Rattle.std.specs.Prelude.{◌≡◌, [], replicate, IfOk};
ghost use Rattle.bits_core.specs.Word.{bits, bits_of_ℤ, not_word};
ghost use Rattle.hw_model.specs.KindViews.{integer_of};
ghost use Rattle.hw_model.specs.FamilyViews.{variadic_of};
ghost use Rattle.hw_model.specs.Value.{variadic_value};
ghost use Rattle.operation_gates.specs.OperationGateLists.{known_word};

use gate_words::bitwise::{copies, inverses};
use gates::signal::Signal;
use hw_model::families::Variadic;
use hw_model::kinds::Integer;
use std::alloc::{AllocError, Global};

/// The low bits of a number.
pub fn number_bits(alloc: Global, width: u32, value: u128) -> Result<Vec<Signal>, AllocError>
    ensures { IfOk result (λ v. v.items ≡ known_word (bits width value)) }
{
    let mut made = vec![in alloc; Signal::Fixed(false); width as usize]?;
    let mut left = value;
    let mut i = width as usize;
    while i > 0 {
        i -= 1;
        made[i] = Signal::Fixed(left % 2 == 1);
        left /= 2;
    }
    Ok(made)
}

/// The low bits of a number, each inverted.
fn inverted_bits(alloc: Global, width: u32, value: u128) -> Result<Vec<Signal>, AllocError>
    ensures { IfOk result (λ v. v.items ≡ known_word (not_word (bits width value))) }
{
    let bits = number_bits(alloc, width, value)?;
    inverses(alloc, &bits)
}

/// The low bits of an integer in two's complement.
pub fn integer_bits(alloc: Global, width: u32, value: Integer) -> Result<Vec<Signal>, AllocError>
    ensures { IfOk result (λ v. v.items ≡ known_word (bits_of_ℤ width (integer_of value))) }
{
    match value {
        Integer::NonNegative(n) => number_bits(alloc, width, n),
        Integer::Negative(n) => inverted_bits(alloc, width, n),
    }
}

/// So many copies of a bit.
fn bit_copies(alloc: Global, width: u32, bit: bool) -> Result<Vec<Signal>, AllocError>
    ensures { IfOk result (λ v. v.items ≡ known_word (replicate width bit)) }
{
    copies(alloc, Signal::Fixed(bit), width as usize)
}

/// The value of an operation of any number of operands where it has none.
pub fn value_of_none(alloc: Global, op: Variadic, width: u32) -> Result<Vec<Signal>, AllocError>
    ensures { IfOk result (λ v. v.items ≡ known_word (variadic_value (variadic_of op) width [])) }
{
    match op {
        Variadic::Add => number_bits(alloc, width, 0),
        Variadic::Mul => number_bits(alloc, width, 1),
        Variadic::And => bit_copies(alloc, width, true),
        Variadic::Or => bit_copies(alloc, width, false),
        Variadic::Xor => bit_copies(alloc, width, false),
    }
}
