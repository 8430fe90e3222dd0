//! The laws on designs of which nothing is refused, each a clause of a function that does nothing.
ghost use Rattle.std.specs.Prelude.{◌≡◌, ℕ, ℤ, Bool, List, [], ◌∷◌, Option, Some, None, length, slice_get};
ghost use Rattle.hw_model.specs.Types.{Name, HwType};
ghost use Rattle.hw_model.specs.Types.HwType.{int};
ghost use Rattle.hw_model.specs.Kinds.{Kind};
ghost use Rattle.hw_model.specs.Kinds.Kind.{constant};
ghost use Rattle.hw_model.specs.Design.{Op, Module, Design, IsSameDesign};
ghost use Rattle.hw_model.specs.Hierarchy.{HasNoRecursion};
ghost use Rattle.hw_model.specs.Meaning.{HasNoCycle};
ghost use Rattle.hw_model.specs.Resets.{ResetsFromPorts};
ghost use Rattle.hw_model.specs.Sound.{Sound};
ghost use Rattle.type_inference.specs.ResultTypes.{result_types};
ghost use Rattle.port_checks.specs.ResetPorts.{is_reset_port};
ghost use Rattle.op_checks.specs.TypeLists.{known_types};
ghost use Rattle.op_checks.specs.OwnChecks.{own_cause};
ghost use Rattle.design_cycles.specs.Asked.{HasDistinctSymbols};
ghost use Rattle.op_verifier.specs.Faults.{first_fault};
ghost use Rattle.op_verifier.specs.Verdict.{OpAt, IsAccepted, IsInRange};

/// Does nothing. Its clause says that an operation that is not refused by itself has results of the types that it settles.
pub fn results_are_settled()
    ensures { (kind : Kind) (ts rs : List HwType) (named : ℕ) (xs : List (Option HwType)) (is_known : Bool)
        → own_cause kind ts rs named xs is_known ≡ None → result_types kind ts (length xs) ≡ known_types rs }
{}

/// Does nothing. Its clauses say that a design of which no header and no operation is refused is sound, and that no two of
/// its modules have one symbol.
pub fn unrefused_designs_are_sound()
    ensures sound { (d : Design) → first_fault d ≡ None → Sound d }
    ensures distinct { (d : Design) → first_fault d ≡ None → (i j : ℕ) (m n : Module) → slice_get d i ≡ Some m → slice_get d j ≡ Some n
        → m.symbol ≡ n.symbol → i ≡ j }
{}

/// Does nothing. Its clauses say that an accepted design is sound, that no two of its modules have one symbol, that none is
/// within itself, that no net of any module's flattening depends on itself without a register between, and that its
/// constants are in the range of their types.
pub fn accepted_designs_are_sound()
    ensures sound { (d : Design) → IsAccepted d → Sound d }
    ensures distinct { (d : Design) → IsAccepted d → HasDistinctSymbols d }
    ensures finite { (d : Design) → IsAccepted d → HasNoRecursion d }
    ensures acyclic { (d : Design) → IsAccepted d → (top : Name) → HasNoCycle d top }
    ensures constants { (d : Design) (n j : ℕ) (m : Module) (o : Op) (z : ℤ) (w : ℕ) → IsAccepted d → OpAt d n j m o
        → o.kind ≡ constant z → o.types ≡ int w ∷ [] → IsInRange z w }
{}

/// Does nothing. Its clause says that in an accepted design the signal of each asynchronous reset is a reset port of its
/// module and its value a constant, and that what instances join to reset ports are reset ports of their own modules.
pub fn resets_come_from_ports()
    ensures { (d : Design) → IsAccepted d → ResetsFromPorts d (is_reset_port d) }
{}

/// Does nothing. Its clause says that a design that differs from an accepted one in nothing but positions is accepted.
pub fn locations_decide_no_verdict()
    ensures { (d e : Design) → IsSameDesign d e → IsAccepted d → IsAccepted e }
{}
