//! Gate lists that go bit by bit.
ghost use Rattle.std.specs.Prelude.{◌≡◌, length, replicate, IfOk};
ghost use Rattle.gates.specs.Build.{and, or, exclusive, choice};
ghost use Rattle.gates.specs.Circuits.{Runs};
ghost use Rattle.gate_words.specs.GateLists.{each, masked, flipped, inverses, reduced, unlike};
ghost use Rattle.gate_words.specs.Bitwise.{building_of};

use gates::circuit::Gates;
use gates::signal::Signal;
use std::alloc::{AllocError, Global};

/// What is built of two bits: the and, the or, the exclusive or, or the first where a condition is 1 and else the second.
#[derive(Clone, Copy)]
pub enum Bitwise {
    And,
    Or,
    Exclusive,
    Choice(Signal),
}

impl Bitwise {
    ghost use Rattle.gate_words.specs.Bitwise.{building_of};

    /// Builds it.
    pub fn build(self, gates: &mut Gates, a: Signal, b: Signal) -> Result<Signal, AllocError>
        ensures { IfOk result (Runs (building_of self a b) gates.old gates.new) }
    {
        match self {
            Bitwise::And => gates.and(a, b),
            Bitwise::Or => gates.or(a, b),
            Bitwise::Exclusive => gates.exclusive(a, b),
            Bitwise::Choice(condition) => gates.choice(condition, a, b),
        }
    }
}

/// The gate list of two words of one width, bit by bit.
pub fn each(
    alloc: Global,
    gates: &mut Gates,
    bitwise: Bitwise,
    xs: &[Signal],
    ys: &[Signal],
) -> Result<Vec<Signal>, AllocError>
    requires { length xs.now ≡ length ys.now }
    ensures { IfOk result (λ zs. Runs (each (building_of bitwise) xs.now ys.now) gates.old gates.new zs.items) }
{
    let mut made = vec![in alloc; Signal::Fixed(false); xs.len()]?;
    let mut i = xs.len();
    while i > 0 {
        i -= 1;
        let bit = bitwise.build(gates, xs[i], ys[i])?;
        made[i] = bit;
    }
    Ok(made)
}

/// Each bit joined with what there is of the bits below it, from 0 on: with or whether a bit is 1, with the exclusive or
/// whether an odd number is.
pub fn reduce(gates: &mut Gates, bitwise: Bitwise, xs: &[Signal]) -> Result<Signal, AllocError>
    ensures { IfOk result (Runs (reduced (building_of bitwise) xs.now) gates.old gates.new) }
{
    let mut so_far = Signal::Fixed(false);
    let mut i = xs.len();
    while i > 0 {
        i -= 1;
        so_far = bitwise.build(gates, xs[i], so_far)?;
    }
    Ok(so_far)
}

/// Whether two words of one width differ.
pub fn unlike(
    alloc: Global,
    gates: &mut Gates,
    xs: &[Signal],
    ys: &[Signal],
) -> Result<Signal, AllocError>
    requires { length xs.now ≡ length ys.now }
    ensures { IfOk result (Runs (unlike xs.now ys.now) gates.old gates.new) }
{
    let bits = each(alloc, gates, Bitwise::Exclusive, xs, ys)?;
    reduce(gates, Bitwise::Or, &bits)
}

/// The bits of a word, where the condition is 1.
pub fn mask(
    alloc: Global,
    gates: &mut Gates,
    condition: Signal,
    xs: &[Signal],
) -> Result<Vec<Signal>, AllocError>
    ensures { IfOk result (λ zs. Runs (masked condition xs.now) gates.old gates.new zs.items) }
{
    let conditions = copies(alloc, condition, xs.len())?;
    each(alloc, gates, Bitwise::And, &conditions, xs)
}

/// The bits of a word, inverted where the condition is 1.
pub fn invert_if(
    alloc: Global,
    gates: &mut Gates,
    condition: Signal,
    xs: &[Signal],
) -> Result<Vec<Signal>, AllocError>
    ensures { IfOk result (λ zs. Runs (flipped condition xs.now) gates.old gates.new zs.items) }
{
    let conditions = copies(alloc, condition, xs.len())?;
    each(alloc, gates, Bitwise::Exclusive, &conditions, xs)
}

/// A word of one signal, so many times.
pub fn copies(alloc: Global, signal: Signal, width: usize) -> Result<Vec<Signal>, AllocError>
    ensures { IfOk result (λ v. v.items ≡ replicate width signal) }
{
    vec![in alloc; signal; width]
}

/// The word with each bit inverted. It takes no gate.
pub fn inverses(alloc: Global, xs: &[Signal]) -> Result<Vec<Signal>, AllocError>
    ensures { IfOk result (λ v. v.items ≡ inverses xs.now) }
{
    let mut made = Vec::with_capacity(alloc, xs.len())?;
    for x in xs {
        made.push(x.inverse())?;
    }
    Ok(made)
}
