//! The laws of the elimination of common subexpressions, each a clause of a function that does nothing.

ghost use Rattle.std.specs.Prelude.{◌≡◌, ◌≤◌, ℕ, List, Some, slice_get};
ghost use Rattle.hw_model.specs.Types.{Name};
ghost use Rattle.hw_model.specs.Design.{Op, Module, Design};
ghost use Rattle.hw_model.specs.Weight.{weight};
ghost use Rattle.edit_laws.specs.Laws.{with_body};
ghost use Rattle.acceptance_laws.specs.Keeps.{IsFit};
ghost use Rattle.pass_laws.specs.Steady.{IsSteady};
ghost use Rattle.cse_pass.specs.Merges.{HasNoEqual};
ghost use Rattle.cse_pass.specs.Trims.{HasNoUnused};
ghost use Rattle.cse_pass.specs.Cse.{IsCseOf, Changes};

/// Does nothing. Its clause says that of operations one thing is made.
pub fn cse_once()
    ensures { (os a b : List Op) → IsCseOf os a → IsCseOf os b → a ≡ b }
{}

/// Does nothing. Its clauses say that single changes lead to what is made of operations, and that then no pure operation is
/// equal to an earlier one, and each has a use.
pub fn cse_leaves_none()
    ensures leads { (os os' : List Op) → IsCseOf os os' → Changes os os' }
    ensures equal { (os os' : List Op) → IsCseOf os os' → HasNoEqual os' }
    ensures unused { (os os' : List Op) → IsCseOf os os' → HasNoUnused os' }
{}

/// Does nothing. Its clauses say of a module of a fit design that the design with the operations to which single changes lead
/// from those of the module is fit and does what it did, and that no module is heavier.
pub fn cse_follows()
    ensures steady { (d : Design) (k : ℕ) (m : Module) (os : List Op) → IsFit d → slice_get d k ≡ Some m → Changes m.body os → IsSteady d (with_body d k m os) }
    ensures lighter { (d : Design) (k : ℕ) (m : Module) (os : List Op) → IsFit d → slice_get d k ≡ Some m → Changes m.body os → (s : Name) → weight (with_body d k m os) s ≤ weight d s }
{}
