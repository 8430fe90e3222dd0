//! The laws on generated designs, each a clause of a function that does nothing.
ghost use Rattle.std.specs.Prelude.{ℕ, ◌≤◌};
ghost use Rattle.op_verifier.specs.Verdict.{IsAccepted};
ghost use Rattle.stored_form.specs.Canonical.{IsCanonical};
ghost use Rattle.generator.specs.Generated.{generated};

/// Does nothing. Its clauses say that a generated design of at most 10,000 modules is accepted, and in canonical form.
pub fn generated_designs_are_accepted()
    ensures accepted { (seed n : ℕ) → n ≤ 10000 → IsAccepted (generated seed n) }
    ensures canonical { (seed n : ℕ) → n ≤ 10000 → IsCanonical (generated seed n) }
{}
