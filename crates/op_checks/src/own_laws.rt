//! What operations without a cause are, as the clauses of functions that do nothing.
ghost use Rattle.std.specs.Prelude.{◌≡◌, ℕ, Bool, List, None, Some, slice_get, take, drop, length};
ghost use Rattle.hw_model.specs.Types.{HwType};
ghost use Rattle.hw_model.specs.Kinds.{Kind, Instance};
ghost use Rattle.hw_model.specs.Kinds.Kind.{instance, output};
ghost use Rattle.hw_model.specs.Sound.{Fits};
ghost use Rattle.op_checks.specs.TypeLists.{known_types};
ghost use Rattle.op_checks.specs.OwnChecks.{own_cause};

/// Does nothing. Its clauses say what holds of an operation that has no cause and whose operands' types are all settled:
/// its types fit, as a sound design asks; an instance's operands and results have its written types; and so have an
/// output's operands.
pub fn operations_fit()
    ensures types { (kind : Kind) (ts rs : List HwType) (named : ℕ) (us : List HwType) (is_known : Bool)
        → own_cause kind ts rs named (known_types us) is_known ≡ None
        → (k : ℕ) (t : HwType) → slice_get rs k ≡ Some t → Fits kind ts (known_types us) t k }
    ensures instances { (i : Instance) (ts rs : List HwType) (named : ℕ) (us : List HwType) (is_known : Bool)
        → own_cause (instance i) ts rs named (known_types us) is_known ≡ None
        → (us ≡ take (length i.inputs) ts) × (rs ≡ drop (length i.inputs) ts) }
    ensures outputs { (ts rs : List HwType) (named : ℕ) (us : List HwType) (is_known : Bool)
        → own_cause output ts rs named (known_types us) is_known ≡ None → us ≡ ts }
{}
