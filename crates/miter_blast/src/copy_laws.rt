//! The laws of flat copies, each a clause of a function that does nothing.

ghost use Rattle.std.specs.Prelude.{◌≡◌, ℕ, Bool, Some, slice_get};
ghost use Rattle.hw_model.specs.Types.{Name};
ghost use Rattle.hw_model.specs.Design.{Module, Design};
ghost use Rattle.hw_model.specs.Machine.{Same};
ghost use Rattle.hw_model.specs.Meaning.{machine};
ghost use Rattle.op_verifier.specs.Verdict.{IsAccepted};
ghost use Rattle.printing_laws.specs.Printable.{Printable};
ghost use Rattle.miter_blast.specs.FlatCopy.{with_marks, IsFlatCopy, KeepsFlat};

/// Does nothing. Its clauses say that an accepted design that can be printed is so whichever of its modules are private, and
/// that each module does what it did.
pub fn privacy_decides_nothing()
    ensures accepted { (d : Design) (is_marked : Module → Bool) → IsAccepted d → Printable d → IsAccepted (with_marks is_marked d) }
    ensures printable { (d : Design) (is_marked : Module → Bool) → IsAccepted d → Printable d → Printable (with_marks is_marked d) }
    ensures same { (d : Design) (is_marked : Module → Bool) → IsAccepted d → Printable d → (s : Name) → Same (machine d s) (machine (with_marks is_marked d) s) }
{}

/// Does nothing. Its clause says that a flat copy of a module of an accepted design that can be printed is one module alone,
/// accepted, which can be printed, without instances and aggregates, and does what the module did.
pub fn flat_copies_keep()
    ensures { (d e : Design) (n : ℕ) (m : Module) → IsAccepted d → Printable d → slice_get d n ≡ Some m → IsFlatCopy d m.symbol e → KeepsFlat d m e }
{}

/// Does nothing. Its clause says that a module has one flat copy.
pub fn flat_copies_are_one()
    ensures { (d : Design) (s : Name) (c e : Design) → IsFlatCopy d s c → IsFlatCopy d s e → c ≡ e }
{}
