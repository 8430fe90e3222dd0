//! The law of printable designs, the clause of a function that does nothing.

ghost use Rattle.hw_model.specs.Design.{Design};
ghost use Rattle.op_verifier.specs.Verdict.{IsAccepted};
ghost use Rattle.stored_form.specs.Canonical.{IsCanonical};
ghost use Rattle.printing_laws.specs.Printable.{Printable};

/// Does nothing. Its clause says that a design in canonical form of which nothing is refused can be printed.
pub fn what_is_canonical_is_printable()
    ensures { (d : Design) → IsAccepted d → IsCanonical d → Printable d }
{}
