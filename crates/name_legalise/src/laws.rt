//! Laws about legal names, each a clause of a function that does nothing.
ghost use Rattle.std.specs.Prelude.{◌≡◌, ℕ, ◌+◌, ◌<◌, ◌^◌, List, ◌++◌, length, true, false};
ghost use Rattle.hw_model.specs.Types.{Name};
ghost use Rattle.fresh_names.specs.Fresh.{with_suffix};
ghost use Rattle.verilog_model.specs.Reserved.{reserved_words};
ghost use Rattle.verilog_model.specs.Checks.{contains_name, is_identifier, names_check};
ghost use Rattle.name_legalise.specs.Legal.{clean, legal_name, legal_after, legal};

/// Does nothing. Its clauses say that legal names are identifiers of which none stands twice (IEEE 1364-2005, 3.7 and
/// 12.7), also after names that are taken; that there are as many as are wanted; and that none of them was taken before.
pub fn legal_names_are_identifiers()
    ensures checks { (wanted : List Name) → length wanted + 124 < 2 ^ 64 → names_check (legal wanted) ≡ true }
    ensures checks_after { (taken wanted : List Name) → length taken + length wanted + 124 < 2 ^ 64 → names_check (legal_after taken wanted) ≡ true }
    ensures count { (taken wanted : List Name) → length (legal_after taken wanted) ≡ length wanted }
    ensures free { (taken wanted : List Name) (name : Name) → length taken + length wanted + 124 < 2 ^ 64
        → contains_name name taken ≡ true → contains_name name (legal_after taken wanted) ≡ false }
{}

/// Does nothing. Its clauses say that a wanted identifier that is not taken stays as it is, and that a name which is
/// reserved or taken once its bytes are those of names gets the least number of which the suffixed name is not taken.
pub fn legal_names_are_least()
    ensures stays { (taken : List Name) (wanted : Name) → is_identifier wanted ≡ true → contains_name wanted taken ≡ false → legal_name taken wanted ≡ wanted }
    ensures least { (taken : List Name) (wanted : Name) → length taken + 125 < 2 ^ 64 → contains_name (clean wanted) (reserved_words ++ taken) ≡ true
        → (n : ℕ) × (legal_name taken wanted ≡ with_suffix (clean wanted) n) × ((k : ℕ) → k < n → contains_name (with_suffix (clean wanted) k) taken ≡ true) }
{}
