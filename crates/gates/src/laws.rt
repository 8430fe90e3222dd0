//! Laws of circuits and their clauses.
ghost use Rattle.std.specs.Prelude.{◌≡◌, ℕ, Bool, true, ◌+◌, ◌≤◌, ◌++◌, ◌↔◌, List, length, IsTrue};
ghost use Rattle.std.specs.List.{list_all};
ghost use Rattle.resolution_proof.specs.Formula.{makes_true, are_clauses};
ghost use Rattle.gates.specs.declared.signal.Gate.{Gate};
ghost use Rattle.gates.specs.Order.{AreInOrder, AreKept, evaluated};
ghost use Rattle.gates.specs.Clauses.{clauses_from};

/// Does nothing. Its clauses say that an assignment makes the clauses of gates true exactly where it gives each gate's
/// variable the bit of the gate, and that they are clauses over the variables there are where the gates are in order.
pub fn clauses_say_gates()
    ensures kept { (m : List Bool) (n : ℕ) (gates : List Gate) → IsTrue (list_all (makes_true m) (clauses_from n gates)) ↔ AreKept m n gates }
    ensures clauses { (n variables : ℕ) (gates : List Gate) → AreInOrder n gates → n + length gates ≤ variables → IsTrue (are_clauses variables (clauses_from n gates)) }
{}

/// Does nothing. Its clauses say that gates in order have one assignment that goes on from given bits of the inputs:
/// the one that gives each gate the bit that it has by the variables before it.
pub fn inputs_decide()
    ensures kept { (x : List Bool) (gates : List Gate) → AreInOrder (length x) gates → AreKept (evaluated x gates) (length x) gates }
    ensures one { (x rest : List Bool) (gates : List Gate) → AreInOrder (length x) gates → length rest ≡ length gates → AreKept (x ++ rest) (length x) gates → x ++ rest ≡ evaluated x gates }
{}
