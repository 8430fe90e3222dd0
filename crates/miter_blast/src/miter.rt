//! Miters: whether two modules differ, as one formula.
use crate::input::{Input, cut_bits};
use resolution_proof::assignment::Assignment;
use resolution_proof::cnf::Cnf;
use std::alloc::{AllocError, Global};
use std::marker::Model;

/// A comparison of two modules as a formula, which an assignment satisfies exactly where they differ in a step: its first
/// variables are the bits of the inputs of both, then those of what their registers hold.
#[derive(Drop)]
pub struct Miter {
    pub(crate) cnf: Cnf,
    pub(crate) widths: Vec<u32>,
}

impl Model for Miter {
    ghost use Rattle.miter_blast.specs.MiterForms.{MiterForm, HasLeaves};

    ghost Value = { MiterForm };

    ghost view = { λ m. record { formula = m.cnf; widths = m.widths.items } };

    ghost invariant = { λ m. HasLeaves (record { formula = m.cnf; widths = m.widths.items }) };
}

impl Miter {
    ghost use Rattle.std.specs.Prelude.{◌≡◌, IfOk, IsTrue};
    ghost use Rattle.resolution_proof.specs.Formula.{satisfies};
    ghost use Rattle.miter_blast.specs.Cuts.{cut};

    /// The formula. It takes no memory.
    pub fn cnf(&self) -> &Cnf
        ensures { result.now ≡ self.now.formula }
    {
        &self.cnf
    }

    /// What an assignment that satisfies the formula gives the inputs and the registers, leaf by leaf.
    pub fn input_of(&self, alloc: Global, assignment: &Assignment) -> Result<Input, AllocError>
        requires { IsTrue (satisfies assignment.now self.now.formula) }
        ensures { IfOk result (λ input. input ≡ cut self.now.widths assignment.now) }
    {
        cut_bits(alloc, assignment.as_slice(), &self.widths)
    }
}
