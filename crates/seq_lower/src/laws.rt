//! The laws of lowered registers, each a clause of a function that does nothing.

ghost use Rattle.std.specs.Prelude.{◌≡◌, ◌≤◌, ℕ, List, Some, slice_get};
ghost use Rattle.hw_model.specs.Types.{Name};
ghost use Rattle.hw_model.specs.Design.{Op, Module, Design};
ghost use Rattle.hw_model.specs.Weight.{weight};
ghost use Rattle.edit_laws.specs.Laws.{with_body};
ghost use Rattle.acceptance_laws.specs.Keeps.{IsFit};
ghost use Rattle.pass_laws.specs.Steady.{IsSteady};
ghost use Rattle.seq_lower.specs.Lowered.{lowered, HasNoEnables, Lowers};

/// Does nothing. Its clauses say that single changes lead to the lowered operations, and that none of their registers has an
/// enable or a synchronous reset.
pub fn lowering_leaves_none()
    ensures leads { (os : List Op) → Lowers os (lowered os) }
    ensures none { (os : List Op) → HasNoEnables (lowered os) }
{}

/// Does nothing. Its clauses say of a module of a fit design that the design with the operations to which single changes lead
/// from those of the module is fit and does what it did, and that no module is heavier.
pub fn lowering_follows()
    ensures steady { (d : Design) (k : ℕ) (m : Module) (os : List Op) → IsFit d → slice_get d k ≡ Some m → Lowers m.body os → IsSteady d (with_body d k m os) }
    ensures lighter { (d : Design) (k : ℕ) (m : Module) (os : List Op) → IsFit d → slice_get d k ≡ Some m → Lowers m.body os → (s : Name) → weight (with_body d k m os) s ≤ weight d s }
{}
