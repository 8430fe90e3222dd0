//! Which literals are true, kept by variable.
ghost use Rattle.std.specs.Prelude.{◌≡◌, ℕ, ◌<◌, ◌+◌, [], OnOk, length, slice_index_or};
ghost use Rattle.resolution_proof.specs.declared.literal.Literal.{Literal};
ghost use Rattle.lrat_text.specs.Marks.{mark_of, is_marked, Shows, IsBelow, with_mark};

use resolution_proof::literal::Literal;
use std::alloc::{AllocError, Global};

/// Which literals are true. A variable's mark is of the line at which it was made; those of earlier lines say nothing,
/// so no mark has to be undone.
#[derive(Drop)]
pub(crate) struct Marks {
    marks: Vec<u64>,
    stamp: u32,
}

fn mark_of(stamp: u32, positive: bool) -> u64
    ensures { result ≡ mark_of stamp positive }
{
    2 * stamp as u64 + if positive { 1 } else { 0 }
}

impl Marks {
    /// No literal is true. It takes no memory.
    pub(crate) fn new(alloc: Global) -> Marks
        ensures below { IsBelow 1 result }
    {
        Marks {
            marks: Vec::new(alloc),
            stamp: 0,
        }
    }

    /// No literal is true from now on, where the stamp is above the earlier ones.
    #[tactic(auto, using(crate::proofs::Judging::tells_none))]
    pub(crate) fn restart(&mut self, stamp: u32)
        requires { IsBelow stamp self.old }
        ensures shows { Shows self.new [] }
        ensures below { IsBelow (stamp + 1) self.new }
        ensures stamp { self.new.stamp ≡ stamp }
    {
        self.stamp = stamp;
    }

    /// Whether the literal is true.
    pub(crate) fn is_true(&self, literal: Literal) -> bool
        ensures { result ≡ is_marked self.now literal }
    {
        let mark = self.marks.get(literal.variable as usize).copied();
        mark.unwrap_or(0) == mark_of(self.stamp, literal.positive)
    }

    /// Makes a literal true and its negation not.
    #[tactic(auto, using(crate::proofs::Judging::marked_set, crate::proofs::Judging::below_set))]
    pub(crate) fn make_true(&mut self, literal: Literal) -> Result<(), AllocError>
        requires { IsBelow (self.old.stamp + 1) self.old }
        ensures marked { OnOk result ((l : Literal) → is_marked self.new l ≡ with_mark (is_marked self.old) literal l) }
        ensures stamp { self.new.stamp ≡ self.old.stamp }
        ensures below { OnOk result (IsBelow (self.old.stamp + 1) self.new) }
    {
        let position = literal.variable as usize;
        make_room(&mut self.marks, position)?;
        self.marks[position] = mark_of(self.stamp, literal.positive);
        Ok(())
    }
}

/// Makes the position one of the list, whose further marks are 0.
fn make_room(marks: &mut Vec<u64>, position: usize) -> Result<(), AllocError>
    ensures room { OnOk result (position < length marks.new.items) }
    ensures same { (k : ℕ) → slice_index_or marks.new.items k 0 ≡ slice_index_or marks.old.items k 0 }
{
    if marks.len() <= position {
        marks.resize(position.saturating_add(1), 0)?;
    }
    Ok(())
}
