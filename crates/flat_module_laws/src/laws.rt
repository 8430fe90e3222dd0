//! Laws of flat modules with their nets in order.
ghost use Rattle.std.specs.Prelude.{ℕ, ◌+◌, ◌*◌, ◌≤◌, ◌↔◌, Bool, List, [], length, IsTrue};
ghost use Rattle.resolution_proof.specs.Formula.{are_clauses, satisfies};
ghost use Rattle.bits_core.specs.Word.{Word};
ghost use Rattle.hw_model.specs.Types.{Name};
ghost use Rattle.hw_model.specs.Design.{Module, Design};
ghost use Rattle.hw_model.specs.Flat.{Net, input_width, state};
ghost use Rattle.hw_model.specs.Meaning.{Settled};
ghost use Rattle.net_gates.specs.NetPrices.{nets_price};
ghost use Rattle.net_gates.specs.Miters.{miter, formula_of, HasNetGateLists, HaveSameWidth, IsDifference};
ghost use Rattle.net_gates.specs.RegisterMiters.{register_miter, HasStepGateLists, HaveSameOutputs, IsStepDifference};
ghost use Rattle.flat_module_laws.specs.Sides.{side_of, IsFlat, AreAlike};
ghost use Rattle.flat_module_laws.specs.FlatPrices.{module_price, stepped_price, output_bits};

/// Does nothing. Its clauses say that a flat module of an accepted design has nets in order, its outputs among them, a gate list
/// for each under every settled map, and heights; and registers whose operands are among them and as wide as they are, with
/// inputs that reset them asynchronously to constants.
pub fn flat_sides_have_gate_lists()
    ensures nets { (d : Design) (top : Name) (m : Module) (order : List ℕ) → IsFlat d top m order → HasNetGateLists (input_width m.ports) (state d top) (side_of d top order) }
    ensures steps { (d : Design) (top : Name) (m : Module) (order : List ℕ) → IsFlat d top m order → HasStepGateLists (input_width m.ports) (state d top) (side_of d top order) }
{}

/// Does nothing. Its clauses say that two such modules with outputs of the same types have outputs of as many bits, over the
/// same content and over any.
pub fn outputs_are_as_wide()
    ensures alike { (d : Design) (s : Name) (m : Module) (i : List ℕ) (e : Design) (t : Name) (n : Module) (j : List ℕ) → IsFlat d s m i → IsFlat e t n j → AreAlike d s m e t n
        → HaveSameWidth (input_width m.ports) (state d s) (side_of d s i) (side_of e t j) }
    ensures any { (d : Design) (s : Name) (m : Module) (i : List ℕ) (e : Design) (t : Name) (n : Module) (j : List ℕ) → IsFlat d s m i → IsFlat e t n j → AreAlike d s m e t n
        → HaveSameOutputs (input_width m.ports) (state d s) (side_of d s i) (side_of e t j) }
{}

/// Does nothing. Its clauses say that the nets of such a module take no more gates than its operations by their types; the
/// miter of two no more than both modules and 4 for each bit of an output; and that with registers no more than both modules
/// with theirs, and 4 for each bit of an output or of content.
pub fn gates_are_paid()
    ensures nets { (d : Design) (top : Name) (m : Module) (order : List ℕ) → IsFlat d top m order → (x q : Word) (ρ : Net → Word) → Settled d top x q ρ
        → nets_price d top ρ (side_of d top order).nets ≤ module_price m }
    ensures outputs { (d : Design) (s : Name) (m : Module) (i : List ℕ) (e : Design) (t : Name) (n : Module) (j : List ℕ) → IsFlat d s m i → IsFlat e t n j → AreAlike d s m e t n
        → length (miter (input_width m.ports) (side_of d s i) (side_of e t j) (input_width m.ports + state d s) []).gates ≤ module_price m + module_price n + 4 * output_bits m }
    ensures steps { (d : Design) (s : Name) (m : Module) (i : List ℕ) (e : Design) (t : Name) (n : Module) (j : List ℕ) → IsFlat d s m i → IsFlat e t n j → AreAlike d s m e t n
        → length (register_miter (input_width m.ports) (side_of d s i) (side_of e t j) (input_width m.ports + state d s) []).gates ≤ stepped_price d s m + stepped_price e t n + 4 * (output_bits m + state d s) }
{}

/// Does nothing. Its clauses say that an assignment satisfies the formula of the miter of two such modules exactly where its
/// first bits are inputs and content on which the modules differ, and every other bit is that of its gate there; and that
/// the formula has clauses over its variables alone.
pub fn flat_miters_are_differences()
    ensures differences { (d : Design) (s : Name) (m : Module) (i : List ℕ) (e : Design) (t : Name) (n : Module) (j : List ℕ) → IsFlat d s m i → IsFlat e t n j → AreAlike d s m e t n
        → (a : List Bool) → IsTrue (satisfies a (formula_of (input_width m.ports + state d s) (miter (input_width m.ports) (side_of d s i) (side_of e t j))))
        ↔ IsDifference (input_width m.ports) (state d s) (side_of d s i) (side_of e t j) a }
    ensures clauses { (d : Design) (s : Name) (m : Module) (i : List ℕ) (e : Design) (t : Name) (n : Module) (j : List ℕ) → IsFlat d s m i → IsFlat e t n j → AreAlike d s m e t n
        → IsTrue (are_clauses (formula_of (input_width m.ports + state d s) (miter (input_width m.ports) (side_of d s i) (side_of e t j))).variables
        (formula_of (input_width m.ports + state d s) (miter (input_width m.ports) (side_of d s i) (side_of e t j))).clauses) }
{}

/// Does nothing. Its clauses say the same of the miter of two such modules with registers: there the modules differ in a step,
/// in their outputs or in what their registers hold after it.
pub fn flat_register_miters_are_differences()
    ensures differences { (d : Design) (s : Name) (m : Module) (i : List ℕ) (e : Design) (t : Name) (n : Module) (j : List ℕ) → IsFlat d s m i → IsFlat e t n j → AreAlike d s m e t n
        → (a : List Bool) → IsTrue (satisfies a (formula_of (input_width m.ports + state d s) (register_miter (input_width m.ports) (side_of d s i) (side_of e t j))))
        ↔ IsStepDifference (input_width m.ports) (state d s) (side_of d s i) (side_of e t j) a }
    ensures clauses { (d : Design) (s : Name) (m : Module) (i : List ℕ) (e : Design) (t : Name) (n : Module) (j : List ℕ) → IsFlat d s m i → IsFlat e t n j → AreAlike d s m e t n
        → IsTrue (are_clauses (formula_of (input_width m.ports + state d s) (register_miter (input_width m.ports) (side_of d s i) (side_of e t j))).variables
        (formula_of (input_width m.ports + state d s) (register_miter (input_width m.ports) (side_of d s i) (side_of e t j))).clauses) }
{}
