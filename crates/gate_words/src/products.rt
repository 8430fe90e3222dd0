//! Products.
ghost use Rattle.std.specs.Prelude.{◌≡◌, length, IfOk};
ghost use Rattle.gates.specs.Circuits.{Runs};
ghost use Rattle.gate_words.specs.GateLists.{doubled, product_step, product};

use crate::bitwise::{copies, mask};
use crate::sums::sum;
use gates::circuit::Gates;
use gates::signal::Signal;
use std::alloc::{AllocError, Global};

/// The product of two words, at the width of the first: a masked sum for each bit of the second (Horner's rule).
pub fn product(
    alloc: Global,
    gates: &mut Gates,
    xs: &[Signal],
    ys: &[Signal],
) -> Result<Vec<Signal>, AllocError>
    ensures { IfOk result (λ v. Runs (product xs.now ys.now) gates.old gates.new v.items) }
{
    let mut so_far = copies(alloc, Signal::Fixed(false), xs.len())?;
    for y in ys {
        so_far = product_step(alloc, gates, &so_far, xs, *y)?;
    }
    Ok(so_far)
}

/// Twice what there is, and the word where the bit is 1.
fn product_step(
    alloc: Global,
    gates: &mut Gates,
    so_far: &[Signal],
    xs: &[Signal],
    bit: Signal,
) -> Result<Vec<Signal>, AllocError>
    requires { length so_far.now ≡ length xs.now }
    ensures runs { IfOk result (λ v. Runs (product_step so_far.now xs.now bit) gates.old gates.new v.items) }
    ensures width { IfOk result (λ v. length v.items ≡ length xs.now) }
{
    let part = mask(alloc, gates, bit, xs)?;
    let twice = double(alloc, so_far)?;
    let (word, _) = sum(alloc, gates, &twice, &part, Signal::Fixed(false))?;
    Ok(word)
}

/// The word moved up by one bit.
fn double(alloc: Global, xs: &[Signal]) -> Result<Vec<Signal>, AllocError>
    ensures { IfOk result (λ v. v.items ≡ doubled xs.now) }
{
    let mut made = Vec::with_capacity(alloc, xs.len())?;
    if let Some((_, low)) = xs.split_first() {
        made.extend_from_slice(low)?;
        made.push(Signal::Fixed(false))?;
    }
    Ok(made)
}
