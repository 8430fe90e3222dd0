//! Shifts.
ghost use Rattle.std.specs.Prelude.{◌≡◌, ◌≤◌, length, IfOk};
ghost use Rattle.gates.specs.Circuits.{Runs};
ghost use Rattle.gate_words.specs.GateLists.{moved_up, moved_down, stage, moved_from, moved, shifted_left, shifted_right, shifted_right_signed};
ghost use Rattle.gate_words.specs.Directions.{move_of};

use crate::bitwise::{Bitwise, copies, each};
use crate::divisions::top;
use gates::circuit::Gates;
use gates::signal::Signal;
use std::alloc::{AllocError, Global};

/// Where a word is shifted: up, with bits of 0 from below, or down, with copies of a signal from above.
#[derive(Clone, Copy)]
pub enum Direction {
    Up,
    Down(Signal),
}

impl Direction {
    ghost use Rattle.gate_words.specs.Directions.{move_of};

    /// The word moved by a number of bits, its width at most. It takes no gate.
    fn shift(self, alloc: Global, xs: &[Signal], distance: usize) -> Result<Vec<Signal>, AllocError>
        requires { distance ≤ length xs.now }
        ensures { IfOk result (λ v. v.items ≡ move_of self xs.now distance) }
    {
        match self {
            Direction::Up => moved_up(alloc, xs, distance),
            Direction::Down(signal) => moved_down(alloc, signal, xs, distance),
        }
    }
}

fn moved_up(alloc: Global, xs: &[Signal], distance: usize) -> Result<Vec<Signal>, AllocError>
    requires { distance ≤ length xs.now }
    ensures { IfOk result (λ v. v.items ≡ moved_up xs.now distance) }
{
    let mut made = Vec::from_slice(alloc, xs.split_at(distance).1)?;
    let zeros = copies(alloc, Signal::Fixed(false), distance)?;
    made.extend_from_slice(&zeros)?;
    Ok(made)
}

fn moved_down(
    alloc: Global,
    signal: Signal,
    xs: &[Signal],
    distance: usize,
) -> Result<Vec<Signal>, AllocError>
    requires { distance ≤ length xs.now }
    ensures { IfOk result (λ v. v.items ≡ moved_down signal xs.now distance) }
{
    let mut made = copies(alloc, signal, distance)?;
    made.extend_from_slice(xs.split_at(xs.len() - distance).0)?;
    Ok(made)
}

/// One stage: the word moved by the distance where the bit is 1. A distance that is not below the width moves no bit, and
/// the bit then joins those that are out.
fn stage(
    alloc: Global,
    gates: &mut Gates,
    direction: Direction,
    distance: usize,
    bit: Signal,
    word: &[Signal],
    is_out: Signal,
) -> Result<(Vec<Signal>, Signal), AllocError>
    ensures runs { IfOk result (λ s. Runs (stage (move_of direction) (length word.now) distance bit (record { word = word.now; is_out = is_out })) gates.old gates.new (record { word = s.0.items; is_out = s.1 })) }
    ensures width { IfOk result (λ s. length s.0.items ≡ length word.now) }
{
    if distance < word.len() {
        let far = direction.shift(alloc, word, distance)?;
        let next = each(alloc, gates, Bitwise::Choice(bit), &far, word)?;
        return Ok((next, is_out));
    }
    let out = gates.or(bit, is_out)?;
    let same = Vec::from_slice(alloc, word)?;
    Ok((same, out))
}

/// The word moved by each bit of the amount that counts below its width, and whether the amount has other bits.
fn moved_from(
    alloc: Global,
    gates: &mut Gates,
    direction: Direction,
    xs: &[Signal],
    amount: &[Signal],
) -> Result<(Vec<Signal>, Signal), AllocError>
    ensures runs { IfOk result (λ s. Runs (moved_from (move_of direction) xs.now amount.now) gates.old gates.new (record { word = s.0.items; is_out = s.1 })) }
    ensures width { IfOk result (λ s. length s.0.items ≡ length xs.now) }
{
    let mut word = Vec::from_slice(alloc, xs)?;
    let mut is_out = Signal::Fixed(false);
    let mut distance: usize = 1;
    let mut i = amount.len();
    while i > 0 {
        i -= 1;
        let (next, out) = stage(alloc, gates, direction, distance, amount[i], &word, is_out)?;
        word = next;
        is_out = out;
        distance = distance.saturating_mul(2);
    }
    Ok((word, is_out))
}

/// The word moved by the number of another: by a stage for each bit of the amount that counts below the width.
pub fn shift(
    alloc: Global,
    gates: &mut Gates,
    direction: Direction,
    xs: &[Signal],
    amount: &[Signal],
) -> Result<Vec<Signal>, AllocError>
    ensures { IfOk result (λ v. Runs (moved (move_of direction) xs.now amount.now) gates.old gates.new v.items) }
{
    let (word, is_out) = moved_from(alloc, gates, direction, xs, amount)?;
    let out = direction.shift(alloc, xs, xs.len())?;
    each(alloc, gates, Bitwise::Choice(is_out), &out, &word)
}

/// The first word moved up by the number of the second, with bits of 0 from below.
pub fn shifted_left(
    alloc: Global,
    gates: &mut Gates,
    xs: &[Signal],
    amount: &[Signal],
) -> Result<Vec<Signal>, AllocError>
    ensures { IfOk result (λ v. Runs (shifted_left xs.now amount.now) gates.old gates.new v.items) }
{
    shift(alloc, gates, Direction::Up, xs, amount)
}

/// The first word moved down by the number of the second, with bits of 0 from above.
pub fn shifted_right(
    alloc: Global,
    gates: &mut Gates,
    xs: &[Signal],
    amount: &[Signal],
) -> Result<Vec<Signal>, AllocError>
    ensures { IfOk result (λ v. Runs (shifted_right xs.now amount.now) gates.old gates.new v.items) }
{
    shift(
        alloc,
        gates,
        Direction::Down(Signal::Fixed(false)),
        xs,
        amount,
    )
}

/// The first word moved down by the number of the second, with copies of its top bit from above.
pub fn shifted_right_signed(
    alloc: Global,
    gates: &mut Gates,
    xs: &[Signal],
    amount: &[Signal],
) -> Result<Vec<Signal>, AllocError>
    ensures { IfOk result (λ v. Runs (shifted_right_signed xs.now amount.now) gates.old gates.new v.items) }
{
    shift(alloc, gates, Direction::Down(top(xs)), xs, amount)
}
