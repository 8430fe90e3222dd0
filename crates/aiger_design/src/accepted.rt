//! What the verifier says of imported designs, the clauses of a function that does nothing.
ghost use Rattle.std.specs.Prelude.{ℕ, ◌≤◌, ◌^◌, List, length};
ghost use Rattle.stored_form.specs.Canonical.{IsCanonical};
ghost use Rattle.op_verifier.specs.Verdict.{IsAccepted};
ghost use Rattle.aiger_laws.specs.Trees.{Aiger};
ghost use Rattle.aiger_laws.specs.Grammar.{IsAiger};
ghost use Rattle.aiger_design.specs.Built.{imported_design};

/// Does nothing. Its clauses say that the design of a text of at most 2^26 bytes is accepted, and in canonical form.
pub fn imported_designs_are_accepted()
    ensures accepted { (bytes : List ℕ) (t : Aiger) → IsAiger bytes t → length bytes ≤ 2 ^ 26 → IsAccepted (imported_design t) }
    ensures canonical { (bytes : List ℕ) (t : Aiger) → IsAiger bytes t → length bytes ≤ 2 ^ 26 → IsCanonical (imported_design t) }
{}
