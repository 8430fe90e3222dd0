//! Integers, as they are printed.
ghost use Rattle.std.specs.Prelude.{◌≡◌, ◌++◌, ◌-◌, ◌^◌, true, map, OnOk};
ghost use Rattle.hw_model.specs.TypeViews.{type_of};
ghost use Rattle.hw_model.specs.KindViews.{integer_of};
ghost use Rattle.printing_laws.specs.Numbers.{count_bytes, further_bytes, integer_bytes, is_negative, shown_number, shown_integer, shown_by_first, is_truth, is_one_bit, is_shown_as_truth, truth_bytes, is_one};

use crate::commas::push_few;
use hw_model::kinds::Integer;
use hw_model::types::Ty;
use io_edge::byte_text::Text;
use itoa::Buffer;
use std::alloc::AllocError;

/// Adds a number.
#[tactic(auto, unfolding(printing_laws::specs::Numbers::count_bytes))]
pub fn push_count(out: &mut Text, count: u32) -> Result<(), AllocError>
    ensures { OnOk result (out.new ≡ out.old ++ count_bytes count) }
{
    let mut buffer = Buffer::new();
    push_few(out, buffer.format(count).as_bytes())?;
    Ok(())
}

/// Adds a length.
#[tactic(auto, unfolding(printing_laws::specs::Numbers::count_bytes))]
pub fn push_length(out: &mut Text, length: usize) -> Result<(), AllocError>
    ensures { OnOk result (out.new ≡ out.old ++ count_bytes length) }
{
    let mut buffer = Buffer::new();
    out.push_bytes(buffer.format(length).as_bytes())?;
    Ok(())
}

/// Adds an integer with its sign.
#[tactic(auto, unfolding(printing_laws::specs::Numbers::integer_bytes))]
pub fn push_integer(out: &mut Text, value: Integer) -> Result<(), AllocError>
    ensures { OnOk result (out.new ≡ out.old ++ integer_bytes (integer_of value)) }
{
    let mut buffer = Buffer::new();
    match value {
        Integer::NonNegative(n) => out.push_bytes(buffer.format(n).as_bytes())?,
        Integer::Negative(n) => {
            out.push_bytes(b"-")?;
            push_further(out, n)?;
        }
    }
    Ok(())
}

// Adds the number after one.
fn push_further(out: &mut Text, n: u128) -> Result<(), AllocError>
    ensures { OnOk result (out.new ≡ out.old ++ further_bytes n) }
{
    if n == u128::MAX {
        out.push_bytes(b"340282366920938463463374607431768211456")?;
        return Ok(());
    }
    let mut buffer = Buffer::new();
    out.push_bytes(buffer.format(n + 1).as_bytes())?;
    Ok(())
}

// Whether a number is the bits of a negative one in an integer type of 2 to 128 bits.
fn is_negative(width: u32, n: u128) -> bool
    ensures { result ≡ is_negative width n }
{
    1 < width && (width < 129 && (1 << (width - 1) <= n && (width == 128 || n < 1 << width)))
}

// The distance from -1 of the bits of a negative number.
fn distance(width: u32, n: u128) -> u128
    requires { is_negative width n ≡ true }
    ensures { result ≡ 2 ^ width - 1 - n }
{
    let half = 1u128 << (width - 1);
    half - 1 - (n - half)
}

// A constant of an integer type as it is printed.
fn shown_number(width: u32, value: Integer) -> Integer
    ensures { integer_of result ≡ shown_number width (integer_of value) }
{
    match value {
        Integer::NonNegative(n) if is_negative(width, n) => Integer::Negative(distance(width, n)),
        Integer::NonNegative(_) | Integer::Negative(_) => value,
    }
}

/// A constant of a type as it is printed: of an integer type signed, where it is in range; of `i1`
/// as it is.
pub fn shown_integer(ty: &Ty, value: Integer) -> Integer
    ensures { integer_of result ≡ shown_integer (type_of ty.now) (integer_of value) }
{
    match ty {
        Ty::Int(width) => shown_number(*width, value),
        Ty::Clock | Ty::Array(..) | Ty::Struct(_) => value,
    }
}

/// A constant of the first of some types.
pub fn shown_by_first(types: &[Ty], value: Integer) -> Integer
    ensures { integer_of result ≡ shown_by_first (map type_of types.now) (integer_of value) }
{
    match types.first() {
        Some(ty) => shown_integer(ty, value),
        None => value,
    }
}

// Whether an integer is 0 or 1.
fn is_truth(value: Integer) -> bool
    ensures { result ≡ is_truth (integer_of value) }
{
    match value {
        Integer::NonNegative(n) => n < 2,
        Integer::Negative(_) => false,
    }
}

fn is_one_bit(ty: &Ty) -> bool
    ensures { result ≡ is_one_bit (type_of ty.now) }
{
    match ty {
        Ty::Int(width) => *width == 1,
        Ty::Clock | Ty::Array(..) | Ty::Struct(_) => false,
    }
}

/// Whether an integer of a type is printed as `true` or `false`.
pub fn is_shown_as_truth(ty: &Ty, value: Integer) -> bool
    ensures { result ≡ is_shown_as_truth (type_of ty.now) (integer_of value) }
{
    is_one_bit(ty) && is_truth(value)
}

/// `true` and `false`.
pub fn truth_text(truth: bool) -> &'static [u8]
    ensures { result.now ≡ truth_bytes truth }
{
    if truth { b"true" } else { b"false" }
}

/// Whether an integer is 1.
pub fn is_one(value: Integer) -> bool
    ensures { result ≡ is_one (integer_of value) }
{
    match value {
        Integer::NonNegative(n) => n == 1,
        Integer::Negative(_) => false,
    }
}
