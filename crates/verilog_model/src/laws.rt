//! Laws of the text that is read, as the contracts of functions that do nothing.

ghost use Rattle.std.specs.Prelude.{◌≡◌, ℕ, List};
ghost use Rattle.verilog_model.specs.Tree.{Tree};
ghost use Rattle.verilog_model.specs.Behaviour.{IsVerilog};

/// A text is at most one tree's: the grammar, the precedence of the operators and the checks
/// leave one reading of each text (IEEE 1364-2005, 5.1.2 and Annex A).
pub fn one_tree()
    ensures { (text : List ℕ) (t u : Tree) → IsVerilog text t → IsVerilog text u → t ≡ u }
{}
