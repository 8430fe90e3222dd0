//! The laws of inlining, each a clause of a function that does nothing.

ghost use Rattle.std.specs.Prelude.{◌≡◌, ◌≤◌, ℕ, suc, ◌∷◌, ◌++◌, map, take, drop, Some, slice_get};
ghost use Rattle.hw_model.specs.Types.{Name, HwType};
ghost use Rattle.hw_model.specs.Design.{Ref, Op, Module, Design, result_type};
ghost use Rattle.hw_model.specs.Flat.{Slot, registers};
ghost use Rattle.hw_model.specs.Hierarchy.{callee_symbols};
ghost use Rattle.hw_model.specs.Weight.{weight};
ghost use Rattle.edit_laws.specs.Follows.{Valid, Follows};
ghost use Rattle.edit_laws.specs.Laws.{erase_op, with_body};
ghost use Rattle.inline_laws.specs.Inline.{EndsWithOutput, RenamesOnly, IsInlined, inline_op};
ghost use Rattle.inline_laws.specs.Unwire.{IsWireAt, inline_without_wires};

/// Does nothing. Its clause says that a design follows from a valid one where an instance of a module is inlined, its
/// operations renamed in any way.
pub fn inline_preserves()
    ensures { (d : Design) (m : ℕ) (md : Module) (i : ℕ) (o : Op) (c : Module) (rename : Op → Op) → RenamesOnly rename → Valid d → slice_get d m ≡ Some md
        → IsInlined d md i o c → Follows d (with_body d m md (inline_op rename i o c md.body)) }
{}

/// Does nothing. Its clause says that a design follows from a valid one where a wire is taken out, its operand standing
/// for its result.
pub fn unwire_preserves()
    ensures { (d : Design) (m : ℕ) (md : Module) (i : ℕ) (o : Op) (t : HwType) (x : Ref) → Valid d → slice_get d m ≡ Some md → IsWireAt md.body i o t x
        → Follows d (with_body d m md (erase_op i x md.body)) }
{}

/// Does nothing. Its clause says that a design follows from a valid one where an instance of a module is inlined and the
/// wires that stand for its results are taken out.
pub fn inline_without_wires_preserves()
    ensures { (d : Design) (m : ℕ) (md : Module) (i : ℕ) (o : Op) (c : Module) (rename : Op → Op) → RenamesOnly rename → Valid d → slice_get d m ≡ Some md
        → IsInlined d md i o c → Follows d (with_body d m md (inline_without_wires rename i o c md.body)) }
{}

/// Does nothing. Its clauses say what stays of a module where an instance of it is inlined and its wires are taken out: the
/// types of its registers, in order, as those of all other modules; what its body instances, but that what the module of the
/// instance instances stands in the place of that; and that the body ends with its one output.
pub fn inlining_keeps_shape()
    ensures registers { (d : Design) (m : ℕ) (md : Module) (i : ℕ) (o : Op) (c : Module) (rename : Op → Op) → RenamesOnly rename → Valid d → slice_get d m ≡ Some md
        → IsInlined d md i o c → (s : Name)
        → map (λ (r : Slot). result_type r.op 0) (registers (with_body d m md (inline_without_wires rename i o c md.body)) s)
        ≡ map (λ (r : Slot). result_type r.op 0) (registers d s) }
    ensures called_before { (d : Design) (md : Module) (i : ℕ) (o : Op) (c : Module) (is : IsInlined d md i o c)
        → callee_symbols md.body ≡ callee_symbols (take i md.body) ++ (is.target.symbol ∷ callee_symbols (drop (suc i) md.body)) }
    ensures called_after { (d : Design) (md : Module) (i : ℕ) (o : Op) (c : Module) (rename : Op → Op) → RenamesOnly rename → IsInlined d md i o c
        → callee_symbols (inline_without_wires rename i o c md.body)
        ≡ callee_symbols (take i md.body) ++ (callee_symbols c.body ++ callee_symbols (drop (suc i) md.body)) }
    ensures ends { (d : Design) (md : Module) (i : ℕ) (o : Op) (c : Module) (rename : Op → Op) → RenamesOnly rename → IsInlined d md i o c
        → EndsWithOutput md.body → EndsWithOutput (inline_without_wires rename i o c md.body) }
{}

/// Does nothing. Its clause says that no module of a valid design becomes heavier where an instance is inlined and its
/// wires are taken out.
pub fn inlining_is_lighter()
    ensures { (d : Design) (m : ℕ) (md : Module) (i : ℕ) (o : Op) (c : Module) (rename : Op → Op) → RenamesOnly rename → Valid d → slice_get d m ≡ Some md
        → IsInlined d md i o c → (s : Name) → weight (with_body d m md (inline_without_wires rename i o c md.body)) s ≤ weight d s }
{}
