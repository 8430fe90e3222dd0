//! The law of wiring. Nets get their values from other nets: a net `a` needs the nets `needs a`, and its value is
//! `value a` of theirs. A map of values is settled where this holds of each net. The library has the definitions
//! (`specs/Wiring.antt`), the laws below, and lemmas on lists and options that the crates above share (`proofs/`).
#![tactic(auto)]

ghost use Rattle.std.specs.Prelude.{◌≡◌, ℕ, suc, ◌≤◌, List, length};
ghost use Rattle.wiring.specs.Wiring.{IsAcyclic, IsWithin, IsHeight, HasHeights, FallsAlong, SettlesOnce};

/// Does nothing. Its clauses say when exactly one map of values is settled: where no net needs itself and the nets that
/// need others stand in a list, or where the nets have heights. The nets are not ordered, and need not be finitely many.
pub fn one_map_settles<Net, Value>()
    ensures acyclic { (needs : Net → List Net) (value : Net → List Value → Value) (nets : List Net) → IsWithin needs nets → IsAcyclic needs → SettlesOnce needs value }
    ensures heights { (needs : Net → List Net) (value : Net → List Value → Value) → HasHeights needs → SettlesOnce needs value }
{}

/// Does nothing. Its clauses say that a wiring without cycles is one whose nets have heights, if the nets that need
/// others stand in a list; that any number that falls along needs gives heights; that a net has one height; and how
/// great a height can be.
pub fn heights_are_acyclic<Net>()
    ensures heights { (needs : Net → List Net) (nets : List Net) → IsWithin needs nets → IsAcyclic needs → HasHeights needs }
    ensures acyclic { (needs : Net → List Net) → HasHeights needs → IsAcyclic needs }
    ensures falling { (needs : Net → List Net) (h : Net → ℕ) → FallsAlong needs h → HasHeights needs }
    ensures unique { (needs : Net → List Net) (g h : Net → ℕ) → IsHeight needs g → IsHeight needs h → (a : Net) → g a ≡ h a }
    ensures bounded { (needs : Net → List Net) (nets : List Net) → IsWithin needs nets → (h : Net → ℕ) → IsHeight needs h → (a : Net) → h a ≤ suc (length nets) }
{}
