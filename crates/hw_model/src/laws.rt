//! The laws on what a design means, each a clause of a function that does nothing.

ghost use Rattle.std.specs.Prelude.{◌≡◌, ◌⊎◌, ◌↔◌, ℕ, Bool, List, [], Option, Some, None, length, ◌≤◌};
ghost use Rattle.wiring.specs.Wiring.{In};
ghost use Rattle.bits_core.specs.Word.{Word};
ghost use Rattle.hw_model.specs.Types.{Name, HwType, width};
ghost use Rattle.opcode.specs.declared.listed.Listed.{Listed};
ghost use Rattle.hw_model.specs.Kinds.{Kind};
ghost use Rattle.hw_model.specs.Opcodes.{opcode_of, kind_named_by};
ghost use Rattle.hw_model.specs.Design.{Ref, Module, Design, IsSameDesign, find_module, instance_in, register_form};
ghost use Rattle.hw_model.specs.Value.{op_value};
ghost use Rattle.hw_model.specs.Flat.{Path, Net, net, module_at, state, Slot, ResetBy, async_reset_in, registers};
ghost use Rattle.hw_model.specs.Machine.{SettlesOnce, Step, Run, Same, Carries};
ghost use Rattle.hw_model.specs.Meaning.{Settled, HasNoCycle, HasHeights, machine};
ghost use Rattle.hw_model.specs.Resets.{ResetsFromPorts, ComesFromInput, IsFixed, StepsAreReset};
ghost use Rattle.hw_model.specs.Agreement.{LevelStep, Agree};
ghost use Rattle.hw_model.specs.Weight.{weight_of, weight};
ghost use Rattle.hw_model.specs.Hierarchy.{HasNoRecursion};
ghost use Rattle.hw_model.specs.Sound.{HaveWidths, type_in, Fits, Sound};

/// Does nothing. Its clauses say when exactly one map of a module's nets is settled, for all inputs and content: where
/// its nets have heights, or where no module of the design is within itself and no net needs itself.
pub fn one_map_settles()
    ensures heights { (d : Design) (top : Name) → HasHeights d top → (inputs content : Word) → SettlesOnce (machine d top) inputs content }
    ensures acyclic { (d : Design) (top : Name) → HasNoRecursion d → HasNoCycle d top → (inputs content : Word) → SettlesOnce (machine d top) inputs content }
{}

/// Does nothing. Its clauses say that a module's nets have heights where no module of the design is within itself and no
/// net needs itself, and that no net needs itself where they have heights.
pub fn heights_are_acyclic()
    ensures heights { (d : Design) (top : Name) → HasNoRecursion d → HasNoCycle d top → HasHeights d top }
    ensures acyclic { (d : Design) (top : Name) → HasHeights d top → HasNoCycle d top }
{}

/// Does nothing. Its clauses say that each value has as many bits as its type: under a settled map of a module of a sound
/// design whose nets have heights, at each path of instances; and for each kind of operation that is made of its
/// operands, where their words have as many bits as theirs.
pub fn widths_fit_types()
    ensures nets { (d : Design) (top : Name) (inputs content : Word) (map_of : Net → Word) → Sound d → HasHeights d top
        → Settled d top inputs content map_of → (p : Path) (m : Module) (r : Ref) (t : HwType)
        → module_at d top p ≡ Some m → type_in m.ports m.body r ≡ Some t → length (map_of (net p r)) ≡ width t }
    ensures kinds { (kind : Kind) (ts : List HwType) (xs : List (Option HwType)) (t : HwType) (k : ℕ) (words : List Word)
        → register_form kind ≡ None → instance_in kind ≡ None → Fits kind ts xs t k → HaveWidths xs words
        → length (op_value kind ts t k words) ≡ width t }
{}

/// Does nothing. Its clauses say that behaving the same is an equivalence among modules whose nets have heights, that it
/// follows from a way to carry settled maps forth or back, that each step of the one is then a step of the other, with the
/// same outputs and leaving the same content, and that a run has one list of outputs for each content and list of steps.
pub fn same_behaviour()
    ensures itself { (d : Design) (top : Name) → HasHeights d top → Same (machine d top) (machine d top) }
    ensures symmetric { (d e : Design) (a b : Name) → HasHeights d a → Same (machine d a) (machine e b) → Same (machine e b) (machine d a) }
    ensures composes { (d e f : Design) (a b c : Name) → Same (machine d a) (machine e b) → Same (machine e b) (machine f c)
        → Same (machine d a) (machine f c) }
    ensures back { (d e : Design) (a b : Name) (to : (Net → Word) → Net → Word) → state d a ≡ state e b → HasHeights d a → HasHeights e b
        → Carries (machine e b) (machine d a) to → Same (machine d a) (machine e b) }
    ensures forth { (d e : Design) (a b : Name) (to : (Net → Word) → Net → Word) → state d a ≡ state e b → HasHeights d a → HasHeights e b
        → Carries (machine d a) (machine e b) to → Same (machine d a) (machine e b) }
    ensures both_ways { (d e : Design) (a b : Name) (to back : (Net → Word) → Net → Word) → state d a ≡ state e b → HasHeights d a
        → Carries (machine d a) (machine e b) to → Carries (machine e b) (machine d a) back
        → ((inputs content : Word) (map_of : Net → Word) → Settled e b inputs content map_of → (n : Net) → to (back map_of) n ≡ map_of n)
        → Same (machine d a) (machine e b) }
    ensures steps { (d e : Design) (a b : Name) → Same (machine d a) (machine e b) → (before inputs content outputs after : Word)
        → Step (machine d a) before inputs content outputs after ↔ Step (machine e b) before inputs content outputs after }
    ensures runs_once { (d : Design) (top : Name) → HasHeights d top → (content : Word) (steps : List Word)
        → (outputs : List Word) × Run (machine d top) content steps outputs
        × ((others : List Word) → Run (machine d top) content steps others → others ≡ outputs) }
{}

/// Does nothing. Its clause says that two designs that differ in nothing but the locations of their modules and operations do
/// the same.
pub fn locations_decide_nothing()
    ensures { (d e : Design) → IsSameDesign d e → (top : Name) → HasHeights d top → Same (machine d top) (machine e top) }
{}

/// Does nothing. Its clause says that no module is heavier in a design with as many modules where none is with the same
/// weights of what it instances.
pub fn weights_follow_bodies()
    ensures { (d e : Design) → length e ≡ length d
        → ((s : Name) (inner : Name → ℕ) → weight_of inner (find_module e s) ≤ weight_of inner (find_module d s))
        → (s : Name) → weight e s ≤ weight d s }
{}

/// Does nothing. Its clauses say that an operation whose opcode alone tells its kind is found again by it, and that a kind
/// that is told by an opcode has that opcode.
pub fn opcodes_tell_kinds()
    ensures found { (kind : Kind) → (kind_named_by (opcode_of kind) ≡ Some kind) ⊎ (kind_named_by (opcode_of kind) ≡ None) }
    ensures opcode { (listed : Listed) (kind : Kind) → kind_named_by listed ≡ Some kind → opcode_of kind ≡ listed }
{}

/// Does nothing. Its clauses speak of designs in which asynchronous resets come from input ports and reset to constants:
/// the signal of each has the same bits of the top module's inputs under every settled map, its value is one word, and in
/// each step of a run the first phase gives what the levels of the resets give, so that a register whose reset is 1 then
/// holds its value.
pub fn resets_follow_inputs()
    ensures signals { (d : Design) (top : Name) (marked : Module → ℕ → Bool) → ResetsFromPorts d marked → (s : Slot) (r : ResetBy)
        → In s (registers d top) → async_reset_in s.op ≡ Some r → ComesFromInput d top (net s.path r.signal) }
    ensures values { (d : Design) (top : Name) (marked : Module → ℕ → Bool) → ResetsFromPorts d marked → (s : Slot) (r : ResetBy)
        → In s (registers d top) → async_reset_in s.op ≡ Some r → IsFixed d top (net s.path r.value) }
    ensures runs { (d : Design) (top : Name) (marked : Module → ℕ → Bool) → ResetsFromPorts d marked
        → (content : Word) (steps outputs : List Word) (run : Run (machine d top) content steps outputs)
        → StepsAreReset d top [] content steps outputs run }
{}

/// Does nothing. Its clauses speak of designs in which asynchronous resets come from input ports and reset to constants: two
/// modules that agree in each step by the levels of their resets have the same runs from every content, and a step by
/// levels is the first step of a run.
pub fn agreeing_modules_run_alike()
    ensures runs { (d : Design) (a : Name) (e : Design) (b : Name) (marked marked_too : Module → ℕ → Bool) → Agree d a e b
        → ResetsFromPorts d marked → ResetsFromPorts e marked_too → HasHeights d a → HasHeights e b
        → (content : Word) (steps outputs : List Word) → length content ≡ state d a
        → Run (machine d a) content steps outputs ↔ Run (machine e b) content steps outputs }
    ensures steps { (d : Design) (top : Name) (marked : Module → ℕ → Bool) → ResetsFromPorts d marked → HasHeights d top
        → (inputs content outputs after : Word) → LevelStep d top inputs content outputs after ↔ Step (machine d top) [] inputs content outputs after }
{}
