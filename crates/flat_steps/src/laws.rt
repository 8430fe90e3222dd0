//! Laws of the tables of a flat module.
ghost use Rattle.std.specs.Prelude.{◌≡◌, ℕ, List, [], Some, length, slice_get};
ghost use Rattle.bits_core.specs.Word.{Word};
ghost use Rattle.hw_model.specs.Types.{Name, HwType};
ghost use Rattle.hw_model.specs.Design.{Op, Module, Design, result_type};
ghost use Rattle.hw_model.specs.Design.Ref.{result as op_value_of};
ghost use Rattle.hw_model.specs.Flat.{Net, net, state};
ghost use Rattle.hw_model.specs.Meaning.{Settled};
ghost use Rattle.flat_module_laws.specs.Sides.{IsPlain, IsFlat};
ghost use Rattle.flat_steps.specs.Tables.{cell, settled_results, TableFits};
ghost use Rattle.flat_steps.specs.Steps.{HaveWords};
ghost use Rattle.flat_steps.specs.Holds.{PortsHold, ResultsHold};

/// Does nothing. Its clause says that where the tables of a flat module of an accepted design hold inputs and content, its operations,
/// one after another in an order in which each stands after those whose results it takes, give each result the word of its
/// net under the settled map of those inputs and that content.
pub fn operations_settle()
    ensures { (d : Design) (top : Name) (m : Module) (order : List ℕ) → IsFlat d top m order → (x q : Word) (ρ : Net → Word) → Settled d top x q ρ
        → (ports results : List Word) → PortsHold m.ports ports x → ResultsHold (state d) m.body results q → length results ≡ length m.body
        → (j : ℕ) (o : Op) (t : HwType) → slice_get m.body j ≡ Some o → result_type o 0 ≡ Some t → cell (settled_results ports m.body order results) j ≡ ρ (net [] (op_value_of j 0)) }
{}

/// Does nothing. Its clause says that where the tables of a flat module of an accepted design hold inputs and content, each of its
/// operations takes the words of its operands, once those before it in such an order have theirs.
pub fn operations_fit()
    ensures { (d : Design) (top : Name) (m : Module) (order : List ℕ) → IsFlat d top m order → (x q : Word) (ports results : List Word)
        → PortsHold m.ports ports x → ResultsHold (state d) m.body results q → length results ≡ length m.body → TableFits ports m.body order results }
{}

/// Does nothing. Its clause says that each port of a module without instances and aggregates of an accepted design is of a word of 1 to 128 bits.
pub fn ports_are_words()
    ensures { (d : Design) (top : Name) (m : Module) → IsPlain d top m → HaveWords m.ports }
{}
