//! Laws about free names, each a clause of a function that does nothing.
ghost use Rattle.std.specs.Prelude.{◌≡◌, ℕ, ◌+◌, ◌<◌, ◌^◌, List, length, Some, slice_get, true, false};
ghost use Rattle.fresh_names.specs.Different.{AreDifferent};
ghost use Rattle.fresh_names.specs.Fresh.{Name, fresh, free_name, is_taken, with_suffix};

/// Does nothing. Its clauses say that a free name is not taken, that it is the wanted name where that is free, and else
/// a suffixed one of which each one with a smaller number is taken.
pub fn free_names()
    ensures free { (taken : List Name) (wanted : Name) → length taken + 1 < 2 ^ 64 → is_taken taken (free_name taken wanted) ≡ false }
    ensures stays { (taken : List Name) (wanted : Name) → is_taken taken wanted ≡ false → free_name taken wanted ≡ wanted }
    ensures least { (taken : List Name) (wanted : Name) → is_taken taken wanted ≡ true
        → (n : ℕ) × (free_name taken wanted ≡ with_suffix wanted n) × ((k : ℕ) → k < n → is_taken taken (with_suffix wanted k) ≡ true) }
{}

/// Does nothing. Its clauses say that as many names are given as are wanted, that none of them was taken before, and that
/// no two of them are equal.
pub fn fresh_names()
    ensures count { (taken wanted : List Name) → length (fresh taken wanted) ≡ length wanted }
    ensures free { (taken wanted : List Name) (i : ℕ) (name : Name) → length taken + length wanted < 2 ^ 64
        → slice_get (fresh taken wanted) i ≡ Some name → is_taken taken name ≡ false }
    ensures different { (taken wanted : List Name) → length taken + length wanted < 2 ^ 64 → AreDifferent (fresh taken wanted) }
{}
