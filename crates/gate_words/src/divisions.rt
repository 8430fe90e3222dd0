//! Quotients and rests, by restoring division.
ghost use Rattle.std.specs.Prelude.{◌≡◌, ◌++◌, ◌∷◌, [], true, drop, length, IfOk};
ghost use Rattle.gates.specs.Circuits.{Runs};
ghost use Rattle.gate_words.specs.GateLists.{inverses, tried, divided, quotient, rest, top, signed_quotient, signed_rest};

use crate::bitwise::{Bitwise, copies, each, inverses, mask, reduce};
use crate::sums::{negate, sum};
use gates::circuit::Gates;
use gates::signal::Signal;
use std::alloc::{AllocError, Global};

/// One step: twice the rest and a bit, less the divisor where it is not less. It gives the bit of the quotient and the
/// new rest.
fn division_step(
    alloc: Global,
    gates: &mut Gates,
    rest: &[Signal],
    bit: Signal,
    divisor: &[Signal],
) -> Result<(Signal, Vec<Signal>), AllocError>
    requires { length rest.now ≡ length divisor.now }
    ensures runs { IfOk result (λ t. Runs (tried rest.now bit divisor.now) gates.old gates.new (record { bit = t.0; rest = t.1.items })) }
    ensures width { IfOk result (λ t. length t.1.items ≡ length divisor.now) }
{
    let wide = with_low(alloc, rest, bit)?;
    let complement = with_top(alloc, divisor)?;
    let (less, enough) = sum(alloc, gates, &wide, &complement, Signal::Fixed(true))?;
    let kept = each(alloc, gates, Bitwise::Choice(enough), &less, &wide)?;
    let low = without_top(alloc, &kept)?;
    Ok((enough, low))
}

/// The word with a bit below it.
fn with_low(alloc: Global, xs: &[Signal], bit: Signal) -> Result<Vec<Signal>, AllocError>
    ensures { IfOk result (λ v. v.items ≡ xs.now ++ bit ∷ []) }
{
    let mut made = Vec::from_slice(alloc, xs)?;
    made.push(bit)?;
    Ok(made)
}

/// The inverse of the word with a bit of 0 above it.
fn with_top(alloc: Global, xs: &[Signal]) -> Result<Vec<Signal>, AllocError>
    ensures { IfOk result (λ v. v.items ≡ Signal.Fixed true ∷ inverses xs.now) }
{
    let mut made = Vec::with_capacity(alloc, 1)?;
    made.push(Signal::Fixed(true))?;
    let low = inverses(alloc, xs)?;
    made.extend_from_slice(&low)?;
    Ok(made)
}

/// The word without its top bit.
fn without_top(alloc: Global, xs: &[Signal]) -> Result<Vec<Signal>, AllocError>
    ensures { IfOk result (λ v. v.items ≡ drop 1 xs.now) }
{
    let mut made = Vec::with_capacity(alloc, xs.len())?;
    if let Some((_, low)) = xs.split_first() {
        made.extend_from_slice(low)?;
    }
    Ok(made)
}

/// The quotient and the rest of two words of one width.
pub fn divide(
    alloc: Global,
    gates: &mut Gates,
    xs: &[Signal],
    divisor: &[Signal],
) -> Result<(Vec<Signal>, Vec<Signal>), AllocError>
    requires { length xs.now ≡ length divisor.now }
    ensures { IfOk result (λ q. Runs (divided xs.now divisor.now) gates.old gates.new (record { quotient = q.0.items; rest = q.1.items })) }
{
    let mut bits = Vec::with_capacity(alloc, xs.len())?;
    let mut left = copies(alloc, Signal::Fixed(false), xs.len())?;
    for x in xs {
        let (bit, next) = division_step(alloc, gates, &left, *x, divisor)?;
        bits.push(bit)?;
        left = next;
    }
    Ok((bits, left))
}

/// The quotient of two words of one width, and 0 where the divisor is 0.
pub fn quotient(
    alloc: Global,
    gates: &mut Gates,
    xs: &[Signal],
    divisor: &[Signal],
) -> Result<Vec<Signal>, AllocError>
    requires { length xs.now ≡ length divisor.now }
    ensures { IfOk result (λ v. Runs (quotient xs.now divisor.now) gates.old gates.new v.items) }
{
    let (bits, _) = divide(alloc, gates, xs, divisor)?;
    let some = reduce(gates, Bitwise::Or, divisor)?;
    mask(alloc, gates, some, &bits)
}

/// The rest of two words of one width, and the first where the divisor is 0.
pub fn rest(
    alloc: Global,
    gates: &mut Gates,
    xs: &[Signal],
    divisor: &[Signal],
) -> Result<Vec<Signal>, AllocError>
    requires { length xs.now ≡ length divisor.now }
    ensures { IfOk result (λ v. Runs (rest xs.now divisor.now) gates.old gates.new v.items) }
{
    let (_, left) = divide(alloc, gates, xs, divisor)?;
    Ok(left)
}

/// The quotient of the signed readings of two words of one width, rounded to zero, and 0 where the divisor is 0.
pub fn signed_quotient(
    alloc: Global,
    gates: &mut Gates,
    xs: &[Signal],
    divisor: &[Signal],
) -> Result<Vec<Signal>, AllocError>
    requires { length xs.now ≡ length divisor.now }
    ensures { IfOk result (λ v. Runs (signed_quotient xs.now divisor.now) gates.old gates.new v.items) }
{
    let a = negate(alloc, gates, top(xs), xs)?;
    let b = negate(alloc, gates, top(divisor), divisor)?;
    let q = quotient(alloc, gates, &a, &b)?;
    let differ = gates.exclusive(top(xs), top(divisor))?;
    negate(alloc, gates, differ, &q)
}

/// The rest of that quotient, with the sign of the first word.
pub fn signed_rest(
    alloc: Global,
    gates: &mut Gates,
    xs: &[Signal],
    divisor: &[Signal],
) -> Result<Vec<Signal>, AllocError>
    requires { length xs.now ≡ length divisor.now }
    ensures { IfOk result (λ v. Runs (signed_rest xs.now divisor.now) gates.old gates.new v.items) }
{
    let a = negate(alloc, gates, top(xs), xs)?;
    let b = negate(alloc, gates, top(divisor), divisor)?;
    let r = rest(alloc, gates, &a, &b)?;
    negate(alloc, gates, top(xs), &r)
}

/// The top bit of a word; 0 of a word without bits.
pub fn top(xs: &[Signal]) -> Signal
    ensures { result ≡ top xs.now }
{
    match xs.first() {
        Some(x) => *x,
        None => Signal::Fixed(false),
    }
}
