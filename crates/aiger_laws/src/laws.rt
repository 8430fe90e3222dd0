//! Laws of trees and of texts, each a clause of a function that does nothing.
ghost use Rattle.std.specs.Prelude.{◌≡◌, ℕ, Bool, List};
ghost use Rattle.wiring.specs.Wiring.{SettlesOnce};
ghost use Rattle.aiger_laws.specs.declared.fault.Fault.{Fault};
ghost use Rattle.aiger_laws.specs.Trees.{Aiger};
ghost use Rattle.aiger_laws.specs.Drivers.{needs, bit_of, HasNoCycle};
ghost use Rattle.aiger_laws.specs.Steps.{HasOneStep, HasOneRun};
ghost use Rattle.aiger_laws.specs.Grammar.{IsAiger, IsFirstFault};

/// Does nothing. Its clauses say that where no variable needs itself, exactly one assignment of bits is settled for all
/// inputs and latches, there is exactly one step, and exactly one run for each list of inputs.
pub fn trees_run_once()
    ensures settled { (t : Aiger) (inputs content : List Bool) → HasNoCycle t → SettlesOnce (needs t) (bit_of t inputs content) }
    ensures step { (t : Aiger) (inputs content : List Bool) → HasNoCycle t → HasOneStep t inputs content }
    ensures run { (t : Aiger) → HasNoCycle t → (content : List Bool) (steps : List (List Bool)) → HasOneRun t content steps }
{}

/// Does nothing. Its clauses say that a text says one tree at most, has one first fault at most, and not both.
pub fn texts_say_one_thing()
    ensures tree { (bytes : List ℕ) (s t : Aiger) → IsAiger bytes s → IsAiger bytes t → s ≡ t }
    ensures fault { (bytes : List ℕ) (m n : ℕ) (f g : Fault) → IsFirstFault bytes m f → IsFirstFault bytes n g → (m ≡ n) × (f ≡ g) }
    ensures apart { (bytes : List ℕ) (t : Aiger) (n : ℕ) (fault : Fault) → IsAiger bytes t → IsFirstFault bytes n fault → ⊥ }
{}
