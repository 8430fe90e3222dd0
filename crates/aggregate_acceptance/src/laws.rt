//! The laws of lowered designs, each a clause of a function that does nothing.

ghost use Rattle.std.specs.Prelude.{◌≡◌, ◌≤◌, true, List, Some};
ghost use Rattle.std.specs.List.{flat_map};
ghost use Rattle.wiring.specs.Wiring.{In};
ghost use Rattle.hw_model.specs.Types.{Name};
ghost use Rattle.hw_model.specs.Kinds.{Kind};
ghost use Rattle.hw_model.specs.Design.{Port, Op, Module, Design, find_module, is_instance};
ghost use Rattle.hw_model.specs.Hierarchy.{calls};
ghost use Rattle.hw_model.specs.Resets.{ResetsFromPorts};
ghost use Rattle.hw_model.specs.Sound.{type_in};
ghost use Rattle.hw_model.specs.Weight.{weight};
ghost use Rattle.edit_laws.specs.Follows.{Follows};
ghost use Rattle.op_verifier.specs.Verdict.{IsAccepted};
ghost use Rattle.printing_laws.specs.Printable.{Printable};
ghost use Rattle.port_checks.specs.ResetPorts.{is_reset_port};
ghost use Rattle.acceptance_laws.specs.Keeps.{IsFit};
ghost use Rattle.pass_laws.specs.PassLaw.{register_types, leaf_types};
ghost use Rattle.aggregate_laws.specs.Leaves.{bare_kind};
ghost use Rattle.aggregate_laws.specs.Rules.{lowered_design};
ghost use Rattle.aggregate_laws.specs.Aggregates.{aggregate_rules, IsRegular};
ghost use Rattle.aggregate_acceptance.specs.Joins.{joined_design};
ghost use Rattle.aggregate_acceptance.specs.Marks.{leaf_marks};
ghost use Rattle.aggregate_acceptance.specs.Names.{NamesPorts, NamesInstances};

/// Does nothing. Its clause says that each operation of a fit design is as the rule that lowers it asks (CIRCT, HW dialect:
/// `hw-lower-aggregates`), where instances get nothing but other names.
pub fn operations_are_regular()
    ensures { (d : Design) (named : Op → Kind) → IsFit d → ((o : Op) → is_instance o ≡ true → bare_kind (named o) ≡ bare_kind o.kind)
        → (s : Name) (m : Module) → find_module d s ≡ Some m → (o : Op) → In o m.body → IsRegular named (type_in m.ports m.body) o o.kind }
{}

/// Does nothing. Its clause says that in a lowered design asynchronous resets come from the leaves of those ports from which
/// they came (CIRCT, Seq dialect: `seq.firreg` with `reset async`).
pub fn resets_come_from_leaves()
    ensures { (split : List Port → List Port) (named : Op → Kind) (d : Design) → IsFit d → NamesPorts split d → NamesInstances split d named
        → ResetsFromPorts (lowered_design (aggregate_rules split named) d) (leaf_marks d (is_reset_port d)) }
{}

/// Does nothing. Its clause says that a fit design whose aggregate values have become their leaves is fit, where ports and
/// instances get such names.
pub fn lowered_designs_are_fit()
    ensures { (split : List Port → List Port) (named : Op → Kind) (d : Design) → IsFit d → NamesPorts split d → NamesInstances split d named
        → IsFit (lowered_design (aggregate_rules split named) d) }
{}

/// Does nothing. Its clauses say that a fit design stays fit where its aggregate values become their leaves and the wires of
/// operations that only join values or take them apart are taken out, where ports and instances get such names; that it
/// follows from what it was, and that no module gets heavier by that.
pub fn joins_are_taken_out()
    ensures fit { (split : List Port → List Port) (named : Op → Kind) (d : Design) → IsFit d → NamesPorts split d → NamesInstances split d named
        → IsFit (joined_design (aggregate_rules split named) d) }
    ensures follows { (split : List Port → List Port) (named : Op → Kind) (d : Design) → IsFit d → NamesPorts split d → NamesInstances split d named
        → Follows d (joined_design (aggregate_rules split named) d) }
    ensures lighter { (split : List Port → List Port) (named : Op → Kind) (d : Design) → IsFit d → NamesPorts split d → NamesInstances split d named
        → (s : Name) → weight (joined_design (aggregate_rules split named) d) s ≤ weight d s }
{}

/// Does nothing. Its clauses say that the registers of such a design are those that were, each one for each of its leaves, in
/// order, and that instances stay.
pub fn registers_become_leaves()
    ensures registers { (split : List Port → List Port) (named : Op → Kind) (d : Design) → IsFit d → NamesPorts split d → NamesInstances split d named
        → (s : Name) → register_types (joined_design (aggregate_rules split named) d) s ≡ flat_map leaf_types (register_types d s) }
    ensures instances { (split : List Port → List Port) (named : Op → Kind) (d : Design) → IsFit d → NamesPorts split d → NamesInstances split d named
        → (s : Name) → calls (joined_design (aggregate_rules split named) d) s ≡ calls d s }
{}

/// Does nothing. Its clause says that an accepted design that can be printed is so where its aggregate values become their
/// leaves and those wires are taken out.
pub fn lowered_designs_are_accepted()
    ensures { (split : List Port → List Port) (named : Op → Kind) (d : Design) → IsAccepted d → Printable d → NamesPorts split d → NamesInstances split d named
        → IsAccepted (joined_design (aggregate_rules split named) d) × Printable (joined_design (aggregate_rules split named) d) }
{}
