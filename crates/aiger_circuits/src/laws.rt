//! Laws of the trees of circuits, each a clause of a function that does nothing.
ghost use Rattle.std.specs.Prelude.{◌≡◌, ◌↔◌, ◌+◌, ◌<◌, ◌^◌, ℕ, Bool, List, ◌++◌, length};
ghost use Rattle.gates.specs.declared.signal.Gate.{Gate};
ghost use Rattle.gates.specs.declared.signal.Signal.{Signal};
ghost use Rattle.gates.specs.Order.{AreInOrder, evaluated};
ghost use Rattle.gate_words.specs.Computes.{word_of};
ghost use Rattle.operation_gates.specs.WordOrder.{AreSignalsWithin};
ghost use Rattle.aiger_laws.specs.Drivers.{HasNoCycle};
ghost use Rattle.aiger_laws.specs.Steps.{Step};
ghost use Rattle.aiger_laws.specs.Grammar.{IsAiger};
ghost use Rattle.aiger_circuits.specs.CircuitTrees.{circuit_tree};
ghost use Rattle.aiger_circuits.specs.CircuitTexts.{Symbols, AreInLines, AreFew, tree_text};

/// Does nothing. Its clauses say that the tree of a circuit whose gates stand in order has no cycle, and that its steps give the
/// bits that the circuit computes for its outputs, and leave those for its latches.
pub fn circuit_trees_step()
    ensures acyclic { (inputs : ℕ) (outputs nexts : List Signal) (gates : List Gate) → AreInOrder (inputs + length nexts) gates → HasNoCycle (circuit_tree inputs outputs nexts gates) }
    ensures step { (outputs nexts : List Signal) (gates : List Gate) (x q : List Bool) → length q ≡ length nexts → AreInOrder (length x + length nexts) gates
        → AreSignalsWithin (length x + length nexts + length gates) outputs → AreSignalsWithin (length x + length nexts + length gates) nexts
        → (given after : List Bool) → Step (circuit_tree (length x) outputs nexts gates) x q given after
        ↔ ((given ≡ word_of (evaluated (x ++ q) gates) outputs) × (after ≡ word_of (evaluated (x ++ q) gates) nexts)) }
{}

/// Does nothing. Its clause says that the text of a circuit's tree, with names of its bits that stand in one line each, says that
/// tree and has no fault, where the circuit has fewer than 2^31 variables and its gates stand in order.
pub fn circuit_texts_are_read()
    ensures { (inputs : ℕ) (outputs nexts : List Signal) (gates : List Gate) → inputs + length nexts + length gates < 2 ^ 31
        → AreSignalsWithin (inputs + length nexts + length gates) outputs → AreSignalsWithin (inputs + length nexts + length gates) nexts → AreInOrder (inputs + length nexts) gates
        → (names : Symbols) → length outputs < 2 ^ 64 → AreFew names → AreInLines names.inputs → AreInLines names.latches → AreInLines names.outputs
        → IsAiger (tree_text (circuit_tree inputs outputs nexts gates) names) (circuit_tree inputs outputs nexts gates) }
{}
