//! Laws of the gates of modules.
ghost use Rattle.std.specs.Prelude.{◌≡◌, ℕ, ◌+◌, ◌≤◌, ◌↔◌, Bool, List, [], length, IsTrue};
ghost use Rattle.resolution_proof.specs.Formula.{are_clauses, satisfies};
ghost use Rattle.bits_core.specs.Word.{Word};
ghost use Rattle.hw_model.specs.Flat.{Net};
ghost use Rattle.hw_model.specs.Meaning.{Settled};
ghost use Rattle.net_gates.specs.Miters.{Side, miter, miter_price, formula_of, HasNetGateLists, HaveSameWidth, IsDifference};
ghost use Rattle.net_gates.specs.RegisterMiters.{register_miter, register_miter_price, Step, HasStepGateLists, HaveSameOutputs, IsStepDifference};

/// Does nothing. Its clause says that an assignment satisfies the formula of the miter of two modules exactly where its
/// first bits are inputs and content on which the modules differ, and every other bit is that of its gate there.
pub fn miters_are_differences()
    ensures { (inputs content : ℕ) (a b : Side) → HasNetGateLists inputs content a → HasNetGateLists inputs content b → HaveSameWidth inputs content a b → (m : List Bool) → IsTrue (satisfies m (formula_of (inputs + content) (miter inputs a b))) ↔ IsDifference inputs content a b m }
{}

/// Does nothing. Its clauses say that the miter of two modules takes no more gates than its price, and that its formula
/// has clauses over its variables alone.
pub fn miters_are_formulas()
    ensures gates { (inputs content : ℕ) (a b : Side) → HasNetGateLists inputs content a → HasNetGateLists inputs content b → HaveSameWidth inputs content a b → (x q : Word) (ρ σ : Net → Word) → length x ≡ inputs → length q ≡ content → Settled a.design a.top x q ρ → Settled b.design b.top x q σ → length (miter inputs a b (inputs + content) []).gates ≤ miter_price a b ρ σ }
    ensures clauses { (inputs content : ℕ) (a b : Side) → HasNetGateLists inputs content a → HasNetGateLists inputs content b → HaveSameWidth inputs content a b → IsTrue (are_clauses (formula_of (inputs + content) (miter inputs a b)).variables (formula_of (inputs + content) (miter inputs a b)).clauses) }
{}

/// Does nothing. Its clause says that an assignment satisfies the formula of the miter of two modules with registers exactly
/// where its first bits are inputs and content on which the modules differ in a step, in their outputs or in what their
/// registers hold after it, and every other bit is that of its gate there.
pub fn register_miters_are_differences()
    ensures { (inputs content : ℕ) (a b : Side) → HasStepGateLists inputs content a → HasStepGateLists inputs content b → HaveSameOutputs inputs content a b → (m : List Bool) → IsTrue (satisfies m (formula_of (inputs + content) (register_miter inputs a b))) ↔ IsStepDifference inputs content a b m }
{}

/// Does nothing. Its clauses say that this miter takes no more gates than its price, and that its formula has clauses over
/// its variables alone.
pub fn register_miters_are_formulas()
    ensures gates { (inputs content : ℕ) (a b : Side) → HasStepGateLists inputs content a → HasStepGateLists inputs content b → HaveSameOutputs inputs content a b → (x q : Word) → length x ≡ inputs → length q ≡ content → (one : Step a x q) (two : Step b x q) → length (register_miter inputs a b (inputs + content) []).gates ≤ register_miter_price a b one.after two.after }
    ensures clauses { (inputs content : ℕ) (a b : Side) → HasStepGateLists inputs content a → HasStepGateLists inputs content b → HaveSameOutputs inputs content a b → IsTrue (are_clauses (formula_of (inputs + content) (register_miter inputs a b)).variables (formula_of (inputs + content) (register_miter inputs a b)).clauses) }
{}
