//! The laws of lowered designs, each a clause of a function that does nothing.

ghost use Rattle.std.specs.Prelude.{◌≡◌, ◌<◌, ◌^◌, List, Some, length, map};
ghost use Rattle.std.specs.List.{flat_map};
ghost use Rattle.wiring.specs.Wiring.{In};
ghost use Rattle.hw_model.specs.Types.{Name};
ghost use Rattle.hw_model.specs.Design.{Port, Op, Module, Design, find_module};
ghost use Rattle.hw_model.specs.Sound.{type_in};
ghost use Rattle.edit_laws.specs.Follows.{Valid, Follows};
ghost use Rattle.fresh_names.specs.Different.{AreDifferent};
ghost use Rattle.aggregate_laws.specs.Leaves.{bare_port, leaf_ports, bare_kind};
ghost use Rattle.aggregate_laws.specs.Rules.{lowered_design};
ghost use Rattle.aggregate_laws.specs.Aggregates.{IsRegular};
ghost use Rattle.aggregate_laws.specs.LeafPorts.{wanted_names, port_leaf_names, split_ports};
ghost use Rattle.lowering_rules.specs.LoweringRules.{leaf_named, lowering_rules};

/// Does nothing. Its clauses say that split ports are the leaves of ports, that no two leaves have one name where they are fewer than
/// 2^64, and that an instance keeps all but the names of its operands and results.
pub fn ports_are_split()
    ensures leaves { (ps : List Port) → map bare_port (split_ports ps) ≡ flat_map leaf_ports ps }
    ensures different { (ps : List Port) → length (wanted_names ps) < 2 ^ 64 → AreDifferent (port_leaf_names ps) }
    ensures kinds { (d : Design) (o : Op) → bare_kind (leaf_named d o) ≡ bare_kind o.kind }
{}

/// Does nothing. Its clause says that the design that the rules of lowering make of a valid one follows from it, before wires are
/// taken out, where each operation is as its rule asks.
pub fn lowering_follows()
    ensures { (d : Design) → ((s : Name) (m : Module) → find_module d s ≡ Some m → (o : Op) → In o m.body → IsRegular (leaf_named d) (type_in m.ports m.body) o o.kind)
        → Valid d → Follows d (lowered_design (lowering_rules d) d) }
{}
