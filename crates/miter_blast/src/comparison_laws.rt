//! Laws of the comparison of two modules by a formula over their flat copies.
ghost use Rattle.std.specs.Prelude.{◌≡◌, ℕ, ◌≤◌, ◌↔◌, Bool, List, [], ◌∷◌, map, length, Some, IsTrue};
ghost use Rattle.std.specs.List.{flat_map};
ghost use Rattle.wiring.specs.Lists.{total};
ghost use Rattle.resolution_proof.specs.Formula.{Formula, are_clauses, satisfies};
ghost use Rattle.bits_core.specs.Word.{Word};
ghost use Rattle.hw_model.specs.Types.{Name, leaves};
ghost use Rattle.hw_model.specs.Design.{Module, Design, find_module};
ghost use Rattle.hw_model.specs.Flat.{input_width, width_of, registers, state};
ghost use Rattle.hw_model.specs.Machine.{Run};
ghost use Rattle.hw_model.specs.Meaning.{machine};
ghost use Rattle.hw_model.specs.Sound.{output_types};
ghost use Rattle.hw_model.specs.Agreement.{LevelStep, Agree};
ghost use Rattle.op_verifier.specs.Verdict.{IsAccepted};
ghost use Rattle.printing_laws.specs.Printable.{Printable};
ghost use Rattle.pass_laws.specs.PassLaw.{register_types};
ghost use Rattle.net_gates.specs.RegisterPrices.{registers_price};
ghost use Rattle.flat_module_laws.specs.Sides.{IsFlat, AreAlike};
ghost use Rattle.miter_blast.specs.FlatCopy.{IsFlatCopy, KeepsFlat};
ghost use Rattle.miter_blast.specs.Comparable.{register_widths, AreComparable, DifferAt, IsDifferenceOf, inputs_in, content_in, IsFormulaOf, gates_of};
ghost use Rattle.miter_blast.specs.ComparisonPrices.{register_price, registers_total, comparison_price};

/// Does nothing. Its clauses say of what a flat copy keeps: inputs of as many bits as the module, the leaves of its outputs,
/// registers of the widths of the leaves of its registers, and content of as many bits.
pub fn flat_copies_are_as_wide()
    ensures inputs { (d c : Design) (m : Module) (kept : KeepsFlat d m c) → input_width kept.one.ports ≡ input_width m.ports }
    ensures outputs { (d c : Design) (m : Module) (kept : KeepsFlat d m c) → output_types kept.one.ports ≡ flat_map leaves (output_types m.ports) }
    ensures held { (d c : Design) (m : Module) → KeepsFlat d m c → map width_of (register_types c m.symbol) ≡ register_widths d m.symbol }
    ensures size { (d c : Design) (m : Module) → KeepsFlat d m c → state c m.symbol ≡ state d m.symbol }
{}

/// Does nothing. Its clause says that a flat copy of a module of an accepted design that can be printed has the steps by
/// levels of asynchronous resets that the module has.
pub fn copies_step_alike()
    ensures { (d : Design) (a : Name) (m : Module) (c : Design) → IsAccepted d → Printable d → find_module d a ≡ Some m → IsFlatCopy d a c
        → (inputs content given after : Word) → LevelStep d a inputs content given after ↔ LevelStep c a inputs content given after }
{}

/// Does nothing. Its clause says that flat copies of modules that can be compared have as many bits of inputs and of content,
/// and outputs of the same types.
pub fn copies_are_alike()
    ensures { (d : Design) (a : Name) (e : Design) (b : Name) → IsAccepted d → Printable d → IsAccepted e → Printable e → AreComparable d a e b
        → (c : Design) (one : Module) (f : Design) (two : Module) → IsFlatCopy d a c → c ≡ one ∷ [] → IsFlatCopy e b f → f ≡ two ∷ []
        → AreAlike c a one f b two }
{}

/// Does nothing. Its clauses say that an assignment satisfies the formula of a comparison exactly where its first bits are
/// inputs and content on which the two modules give other outputs or leave other content, and every other bit is that of
/// its gate there; so the modules differ at the inputs and the content that an assignment has which satisfies it; and that
/// the formula has clauses over its variables alone.
pub fn formulas_are_differences()
    ensures differences { (d : Design) (a : Name) (e : Design) (b : Name) → IsAccepted d → Printable d → IsAccepted e → Printable e → AreComparable d a e b
        → (f : Formula) (is : IsFormulaOf d a e b f) (bits : List Bool) → IsTrue (satisfies bits f) ↔ IsDifferenceOf d a e b (gates_of is) bits }
    ensures shown { (d : Design) (a : Name) (e : Design) (b : Name) → IsAccepted d → Printable d → IsAccepted e → Printable e → AreComparable d a e b
        → (f : Formula) → IsFormulaOf d a e b f → (bits : List Bool) → IsTrue (satisfies bits f) → DifferAt d a e b (inputs_in d a bits) (content_in d a bits) }
    ensures clauses { (d : Design) (a : Name) (e : Design) (b : Name) → IsAccepted d → Printable d → IsAccepted e → Printable e → AreComparable d a e b
        → (f : Formula) → IsFormulaOf d a e b f → IsTrue (are_clauses f.variables f.clauses) }
{}

/// Does nothing. Its clauses say that two modules agree where no assignment satisfies the formula of their comparison: from
/// each content of so many bits they then have the same runs.
pub fn unsatisfiable_formulas_agree()
    ensures steps { (d : Design) (a : Name) (e : Design) (b : Name) → IsAccepted d → Printable d → IsAccepted e → Printable e → AreComparable d a e b
        → (f : Formula) → IsFormulaOf d a e b f → ((bits : List Bool) → IsTrue (satisfies bits f) → ⊥) → Agree d a e b }
    ensures runs { (d : Design) (a : Name) (e : Design) (b : Name) → IsAccepted d → Printable d → IsAccepted e → Printable e → AreComparable d a e b
        → (f : Formula) → IsFormulaOf d a e b f → ((bits : List Bool) → IsTrue (satisfies bits f) → ⊥)
        → (content : Word) (steps outputs : List Word) → length content ≡ state d a → Run (machine d a) content steps outputs ↔ Run (machine e b) content steps outputs }
{}

/// Does nothing. Its clauses say that the prices of registers by their types are no less than those of their gates, that those
/// of a flat module are its operations' one after another, and that the gates of a comparison are no more than its price.
pub fn gates_are_within_prices()
    ensures registers { (d : Design) (s : Name) → registers_price (registers d s) ≤ registers_total d s }
    ensures bodies { (d : Design) (s : Name) (m : Module) (order : List ℕ) → IsFlat d s m order → registers_total d s ≡ total (map register_price m.body) }
    ensures gates { (d : Design) (a : Name) (e : Design) (b : Name) → IsAccepted d → Printable d → IsAccepted e → Printable e → AreComparable d a e b
        → (f : Formula) (is : IsFormulaOf d a e b f) → length (gates_of is) ≤ comparison_price is.first a is.one is.second b is.two }
{}
