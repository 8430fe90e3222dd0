//! The laws of lowering aggregates, each a clause of a function that does nothing.

ghost use Rattle.std.specs.Prelude.{◌≡◌, ◌≤◌, ◌^◌, ℕ, suc, false, true, List, [], ◌∷◌, Option, Some, None, length, map};
ghost use Rattle.std.specs.List.{flat_map};
ghost use Rattle.wiring.specs.Wiring.{In};
ghost use Rattle.hw_model.specs.Types.{Name, HwType, FieldTypes, width, leaves};
ghost use Rattle.hw_model.specs.Types.HwType.{int, array, struct};
ghost use Rattle.hw_model.specs.Kinds.{Kind, Literals};
ghost use Rattle.hw_model.specs.Kinds.ArrayOp.{array_create, array_concat, array_get, array_slice, array_inject};
ghost use Rattle.hw_model.specs.Kinds.StructOp.{struct_create, struct_extract, struct_inject, struct_explode};
ghost use Rattle.hw_model.specs.Kinds.Kind.{mux, aggregate_constant, on_array, on_struct, bitcast, wire};
ghost use Rattle.hw_model.specs.Value.{nth_type};
ghost use Rattle.hw_model.specs.Design.{Ref, Port, Op, Module, Design, RegisterForm, find_module, register_form, result_type};
ghost use Rattle.hw_model.specs.Sound.{field_list, type_in, OpFits};
ghost use Rattle.edit_laws.specs.Edit.{is_anchor};
ghost use Rattle.edit_laws.specs.Follows.{Valid, Follows};
ghost use Rattle.aggregate_laws.specs.Leaves.{bare_port, leaf_ports, bare_kind, result_types};
ghost use Rattle.aggregate_laws.specs.Lowered.{LoweredWell};
ghost use Rattle.aggregate_laws.specs.Rules.{Rules, parts_of, lowered_design, Splits};
ghost use Rattle.aggregate_laws.specs.OperationRules.{unnamed, join_rule, extract_rule, inject_rule, mux_rule, literals_types, constant_rule, stays_rule, register_rule, spread_rule};
ghost use Rattle.aggregate_laws.specs.Aggregates.{aggregate_rules, IsRegular};
ghost use Rattle.aggregate_laws.specs.Bitcasts.{bitcast_rule};
ghost use Rattle.aggregate_laws.specs.Choices.{get_rule, slice_rule, array_inject_rule};

/// Does nothing. Its clause says that a design follows from a valid one where what each symbol finds has the leaves of what
/// it found.
pub fn lowering_preserves()
    ensures { (scale : ℕ) (d e : Design) → length e ≡ length d → ((s : Name) → LoweredWell scale (find_module d s) (find_module e s)) → Valid d → Follows d e }
{}

/// Does nothing. Its clause says that the design that rules make of a valid one follows from it, where the rules give the
/// leaves of ports and each operation of its modules splits by them.
pub fn rules_preserve()
    ensures { (rules : Rules) (d : Design) → ((ps : List Port) → map bare_port (rules.ports ps) ≡ flat_map leaf_ports ps)
        → ((s : Name) (m : Module) → find_module d s ≡ Some m → (o : Op) → In o m.body → Splits (rules.rule o) (type_in m.ports m.body) (parts_of rules m.ports m.body) o)
        → Valid d → Follows d (lowered_design rules d) }
{}

/// Does nothing. Its clauses say that a wire, and a struct or an array that is created or joined of others, splits by a wire
/// for each leaf of its operands, in their order.
pub fn joins_split()
    ensures wire { (o : Op) (names : ℕ → Name) (old_type : Ref → Option HwType) (stand : Ref → List Ref) (t : HwType) → o.kind ≡ wire
        → result_types o ≡ t ∷ [] → OpFits old_type o → Splits (join_rule o names) old_type stand o }
    ensures struct_create { (o : Op) (names : ℕ → Name) (old_type : Ref → Option HwType) (stand : Ref → List Ref) (t : HwType) → o.kind ≡ on_struct struct_create
        → result_types o ≡ t ∷ [] → OpFits old_type o → Splits (join_rule o names) old_type stand o }
    ensures array_create { (o : Op) (names : ℕ → Name) (old_type : Ref → Option HwType) (stand : Ref → List Ref) (t : HwType) → o.kind ≡ on_array array_create
        → result_types o ≡ t ∷ [] → OpFits old_type o → Splits (join_rule o names) old_type stand o }
    ensures array_concat { (o : Op) (names : ℕ → Name) (old_type : Ref → Option HwType) (stand : Ref → List Ref) (t : HwType) → o.kind ≡ on_array array_concat
        → result_types o ≡ t ∷ [] → OpFits old_type o → Splits (join_rule o names) old_type stand o }
{}

/// Does nothing. Its clauses say that an operation on a field of a struct splits by a wire for each leaf of its result: of the
/// field that is taken out, of the struct with another field, and of all fields.
pub fn fields_split()
    ensures extract { (o : Op) (name : Name) (old_type : Ref → Option HwType) (stand : Ref → List Ref) (t : HwType) → o.kind ≡ on_struct (struct_extract name)
        → result_types o ≡ t ∷ [] → OpFits old_type o → Splits (extract_rule o name) old_type stand o }
    ensures inject { (o : Op) (name : Name) (old_type : Ref → Option HwType) (stand : Ref → List Ref) (t : HwType) → o.kind ≡ on_struct (struct_inject name)
        → result_types o ≡ t ∷ [] → OpFits old_type o → Splits (inject_rule o name) old_type stand o }
    ensures explode { (o : Op) (old_type : Ref → Option HwType) (stand : Ref → List Ref) (fs : FieldTypes) → o.kind ≡ on_struct struct_explode
        → nth_type o.types 0 ≡ struct fs → map old_type o.operands ≡ Some (struct fs) ∷ [] → result_types o ≡ field_list fs
        → Splits (join_rule o unnamed) old_type stand o }
{}

/// Does nothing. Its clauses say that a multiplexer splits by one for each leaf, a constant of an aggregate type by one for
/// each leaf, where these are its types, and an operation without aggregates by itself, with other operands.
pub fn leaves_split()
    ensures mux { (o : Op) (old_type : Ref → Option HwType) (stand : Ref → List Ref) (t : HwType) → o.kind ≡ mux
        → result_types o ≡ t ∷ [] → OpFits old_type o → Splits (mux_rule o) old_type stand o }
    ensures constant { (o : Op) (ls : Literals) (old_type : Ref → Option HwType) (stand : Ref → List Ref) (t : HwType) → o.kind ≡ aggregate_constant ls
        → result_types o ≡ t ∷ [] → literals_types ls ≡ leaves t → Splits (constant_rule o ls) old_type stand o }
    ensures stays { (o : Op) (old_type : Ref → Option HwType) (stand : Ref → List Ref) (t : HwType) (us : List HwType) → is_anchor o ≡ false
        → result_types o ≡ t ∷ [] → leaves t ≡ t ∷ [] → map old_type o.operands ≡ map (λ (u : HwType). Some u) us
        → ((u : HwType) → In u us → leaves u ≡ u ∷ []) → OpFits old_type o → Splits (stays_rule o) old_type stand o }
{}

/// Does nothing. Its clauses say that operations by an index split by a test for each number of an element, where the index
/// has a number for each: an element and a part of an array by a rule of multiplexers for each leaf too, and an array with
/// another element by one multiplexer for each leaf.
pub fn elements_split()
    ensures get { (o : Op) (n w : ℕ) (old_type : Ref → Option HwType) (stand : Ref → List Ref) (t : HwType) → o.kind ≡ on_array array_get
        → result_types o ≡ t ∷ [] → map old_type o.operands ≡ Some (array n t) ∷ Some (int w) ∷ [] → nth_type o.types 0 ≡ array n t → n ≤ 2 ^ w
        → Splits (get_rule o n w) old_type stand o }
    ensures slice { (o : Op) (n k w : ℕ) (old_type : Ref → Option HwType) (stand : Ref → List Ref) (e t : HwType) → o.kind ≡ on_array array_slice
        → result_types o ≡ t ∷ [] → t ≡ array k e → map old_type o.operands ≡ Some (array n e) ∷ Some (int w) ∷ [] → nth_type o.types 0 ≡ array n e → n ≤ 2 ^ w
        → Splits (slice_rule o n k (length (leaves e)) w) old_type stand o }
    ensures inject { (o : Op) (n w : ℕ) (old_type : Ref → Option HwType) (stand : Ref → List Ref) (e t : HwType) → o.kind ≡ on_array array_inject
        → result_types o ≡ t ∷ [] → t ≡ array n e → map old_type o.operands ≡ Some t ∷ Some (int w) ∷ Some e ∷ [] → nth_type o.types 0 ≡ t → n ≤ 2 ^ w
        → Splits (array_inject_rule o n (length (leaves e)) w) old_type stand o }
{}

/// Does nothing. Its clause says that the same bits under another type split by extracts of the leaves that each leaf
/// overlaps, joined where there are several.
pub fn bitcasts_split()
    ensures { (o : Op) (old_type : Ref → Option HwType) (stand : Ref → List Ref) (u t : HwType) → o.kind ≡ bitcast
        → result_types o ≡ t ∷ [] → map old_type o.operands ≡ Some u ∷ [] → width u ≡ width t → Splits (bitcast_rule o u) old_type stand o }
{}

/// Does nothing. Its clauses say that a register splits by one for each leaf, and an instance or an output by one with the
/// leaves of its operands and results, under any names.
pub fn anchors_split()
    ensures registers { (o : Op) (form : RegisterForm) (names : ℕ → Name) (old_type : Ref → Option HwType) (stand : Ref → List Ref) → register_form o.kind ≡ Some form
        → ((k : ℕ) → result_type o (suc k) ≡ None) → Splits (register_rule o form names) old_type stand o }
    ensures others { (o : Op) (kind : Kind) (old_type : Ref → Option HwType) (stand : Ref → List Ref) → is_anchor o ≡ true → register_form o.kind ≡ None
        → bare_kind kind ≡ bare_kind o.kind → Splits (spread_rule o kind) old_type stand o }
{}

/// Does nothing. Its clause says that the design that the rules for all operations make of a valid one follows from it, where
/// the rules give the leaves of ports and each operation is as its rule asks.
pub fn aggregates_preserve()
    ensures { (split : List Port → List Port) (named : Op → Kind) (d : Design) → ((ps : List Port) → map bare_port (split ps) ≡ flat_map leaf_ports ps)
        → ((s : Name) (m : Module) → find_module d s ≡ Some m → (o : Op) → In o m.body → IsRegular named (type_in m.ports m.body) o o.kind)
        → Valid d → Follows d (lowered_design (aggregate_rules split named) d) }
{}
