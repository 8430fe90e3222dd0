//! The laws of canonical forms, each a clause of a function that does nothing.

ghost use Rattle.std.specs.Prelude.{◌≡◌, ◌≤◌, ℕ, List, Some, slice_get};
ghost use Rattle.hw_model.specs.Types.{Name};
ghost use Rattle.hw_model.specs.Design.{Op, Module, Design};
ghost use Rattle.hw_model.specs.Weight.{weight};
ghost use Rattle.edit_laws.specs.Laws.{with_body};
ghost use Rattle.acceptance_laws.specs.Keeps.{IsFit};
ghost use Rattle.pass_laws.specs.Steady.{IsSteady};
ghost use Rattle.canonicalise.specs.Canonical.{table, IsCanonicalOf, HasNoFold, Leads};

/// Does nothing. Its clause says that operations have one canonical form.
pub fn canonical_bodies_once()
    ensures { (os a b : List Op) → IsCanonicalOf os a → IsCanonicalOf os b → a ≡ b }
{}

/// Does nothing. Its clauses say that single folds lead to a canonical form, and that no pattern matches there.
pub fn canonical_bodies_are_folded()
    ensures leads { (os os' : List Op) → IsCanonicalOf os os' → Leads table os os' }
    ensures folded { (os os' : List Op) → IsCanonicalOf os os' → HasNoFold os' }
{}

/// Does nothing. Its clauses say of a module of a fit design that the design with the operations to which single folds lead
/// from those of the module is fit and does what it did, and that no module is heavier.
pub fn folds_follow()
    ensures steady { (d : Design) (k : ℕ) (m : Module) (os : List Op) → IsFit d → slice_get d k ≡ Some m → Leads table m.body os → IsSteady d (with_body d k m os) }
    ensures lighter { (d : Design) (k : ℕ) (m : Module) (os : List Op) → IsFit d → slice_get d k ≡ Some m → Leads table m.body os → (s : Name) → weight (with_body d k m os) s ≤ weight d s }
{}
