//! Sums and comparisons.
ghost use Rattle.std.specs.Prelude.{◌≡◌, length, IfOk};
ghost use Rattle.gates.specs.Circuits.{Runs};
ghost use Rattle.gate_words.specs.GateLists.{sum, carried, inverses, difference, added, subtracted, less, signed_less, top_inverted, negated};

use crate::bitwise::{copies, inverses, invert_if};
use gates::circuit::Gates;
use gates::signal::Signal;
use std::alloc::{AllocError, Global};

/// The sum of two words of one width and a carry, with the carry that it leaves.
pub fn sum(
    alloc: Global,
    gates: &mut Gates,
    xs: &[Signal],
    ys: &[Signal],
    carry: Signal,
) -> Result<(Vec<Signal>, Signal), AllocError>
    requires { length xs.now ≡ length ys.now }
    ensures { IfOk result (λ t. Runs (sum xs.now ys.now carry) gates.old gates.new (record { word = t.0.items; carry = t.1 })) }
{
    let mut word = vec![in alloc; Signal::Fixed(false); xs.len()]?;
    let mut over = carry;
    let mut i = xs.len();
    while i > 0 {
        i -= 1;
        let bit = gates.full(xs[i], ys[i], over)?;
        word[i] = bit.sum;
        over = bit.carry;
    }
    Ok((word, over))
}

/// The carry of the sum of two words of one width and a carry.
pub fn carry_out(
    gates: &mut Gates,
    xs: &[Signal],
    ys: &[Signal],
    carry: Signal,
) -> Result<Signal, AllocError>
    requires { length xs.now ≡ length ys.now }
    ensures { IfOk result (Runs (carried xs.now ys.now carry) gates.old gates.new) }
{
    let mut over = carry;
    let mut i = xs.len();
    while i > 0 {
        i -= 1;
        over = gates.majority(xs[i], ys[i], over)?;
    }
    Ok(over)
}

/// The difference of two words of one width, with a carry that is 1 where the first is not less.
pub fn difference(
    alloc: Global,
    gates: &mut Gates,
    xs: &[Signal],
    ys: &[Signal],
) -> Result<(Vec<Signal>, Signal), AllocError>
    requires { length xs.now ≡ length ys.now }
    ensures { IfOk result (λ t. Runs (difference xs.now ys.now) gates.old gates.new (record { word = t.0.items; carry = t.1 })) }
{
    let inverted = inverses(alloc, ys)?;
    sum(alloc, gates, xs, &inverted, Signal::Fixed(true))
}

/// The sum of two words of one width.
pub fn add(
    alloc: Global,
    gates: &mut Gates,
    xs: &[Signal],
    ys: &[Signal],
) -> Result<Vec<Signal>, AllocError>
    requires { length xs.now ≡ length ys.now }
    ensures { IfOk result (λ v. Runs (added xs.now ys.now) gates.old gates.new v.items) }
{
    let (word, _) = sum(alloc, gates, xs, ys, Signal::Fixed(false))?;
    Ok(word)
}

/// The difference of two words of one width.
pub fn subtract(
    alloc: Global,
    gates: &mut Gates,
    xs: &[Signal],
    ys: &[Signal],
) -> Result<Vec<Signal>, AllocError>
    requires { length xs.now ≡ length ys.now }
    ensures { IfOk result (λ v. Runs (subtracted xs.now ys.now) gates.old gates.new v.items) }
{
    let (word, _) = difference(alloc, gates, xs, ys)?;
    Ok(word)
}

/// Whether the first of two words of one width is less.
pub fn less(
    alloc: Global,
    gates: &mut Gates,
    xs: &[Signal],
    ys: &[Signal],
) -> Result<Signal, AllocError>
    requires { length xs.now ≡ length ys.now }
    ensures { IfOk result (Runs (less xs.now ys.now) gates.old gates.new) }
{
    let inverted = inverses(alloc, ys)?;
    let enough = carry_out(gates, xs, &inverted, Signal::Fixed(true))?;
    Ok(enough.inverse())
}

/// Whether the signed reading of the first of two words of one width is less.
pub fn signed_less(
    alloc: Global,
    gates: &mut Gates,
    xs: &[Signal],
    ys: &[Signal],
) -> Result<Signal, AllocError>
    requires { length xs.now ≡ length ys.now }
    ensures { IfOk result (Runs (signed_less xs.now ys.now) gates.old gates.new) }
{
    let first = top_inverted(alloc, xs)?;
    let second = top_inverted(alloc, ys)?;
    less(alloc, gates, &first, &second)
}

/// The word with its top bit inverted.
fn top_inverted(alloc: Global, xs: &[Signal]) -> Result<Vec<Signal>, AllocError>
    ensures { IfOk result (λ v. v.items ≡ top_inverted xs.now) }
{
    let mut made = Vec::with_capacity(alloc, xs.len())?;
    if let Some((top, low)) = xs.split_first() {
        made.push(top.inverse())?;
        made.extend_from_slice(low)?;
    }
    Ok(made)
}

/// The word, or what it lacks to the power of its width where the condition is 1.
pub fn negate(
    alloc: Global,
    gates: &mut Gates,
    condition: Signal,
    xs: &[Signal],
) -> Result<Vec<Signal>, AllocError>
    ensures { IfOk result (λ v. Runs (negated condition xs.now) gates.old gates.new v.items) }
{
    let bits = invert_if(alloc, gates, condition, xs)?;
    let zeros = copies(alloc, Signal::Fixed(false), bits.len())?;
    let (word, _) = sum(alloc, gates, &bits, &zeros, condition)?;
    Ok(word)
}
