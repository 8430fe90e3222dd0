//! The laws of edits, each a clause of a function that does nothing.

ghost use Rattle.hw_model.specs.Machine.{Same};
ghost use Rattle.hw_model.specs.Meaning.{machine};
ghost use Rattle.hw_model.specs.Hierarchy.{IsWithout};
ghost use Rattle.std.specs.Prelude.{◌≡◌, ◌≤◌, ℕ, Bool, List, Some, length, set, slice_get};
ghost use Rattle.hw_model.specs.Types.{Name, HwType};
ghost use Rattle.hw_model.specs.Design.{Ref, Op, Module, Design, find_module};
ghost use Rattle.hw_model.specs.Design.Ref.{result as op_result, undefined};
ghost use Rattle.hw_model.specs.Resets.{IsConstantOf, ResetsFromPorts};
ghost use Rattle.hw_model.specs.Weight.{kind_weight, body_weight, weight};
ghost use Rattle.edit_laws.specs.Edit.{Edit, EditedModule};
ghost use Rattle.edit_laws.specs.Resets.{marks_by_symbol, KeepsResetValues};
ghost use Rattle.edit_laws.specs.Follows.{SameEdit, ValidEdit, Valid, Follows};
ghost use Rattle.edit_laws.specs.Registers.{Reloaded};
ghost use Rattle.edit_laws.specs.Laws.{InPlace, Inserted, Erased, IsUnused, erase_op, insert_op, with_body};

/// Does nothing. Its clauses say that a design follows from a valid one with as many modules where what each symbol finds
/// is an edit of what it found that keeps what it does, and that it is valid where the edits keep it valid.
pub fn edits_preserve()
    ensures valid { (d e : Design) → length e ≡ length d → ((s : Name) → ValidEdit (find_module d s) (find_module e s)) → Valid d → Valid e }
    ensures follows { (d e : Design) → length e ≡ length d → ((s : Name) → SameEdit (find_module d s) (find_module e s)) → Valid d → Follows d e }
{}

/// Does nothing. Its clauses say that what follows from what follows follows, and that a valid design follows from itself.
pub fn following_composes()
    ensures composes { (d e f : Design) → Follows d e → Follows e f → Follows d f }
    ensures itself { (d : Design) → Valid d → Follows d d }
{}

/// Does nothing. Its clause says that a design follows from a valid one where an operation of a module is changed in place
/// to one with the same words, of results of the same types, whose operands stand lower and which fits them.
pub fn replace_op_preserves()
    ensures { (d : Design) (m : ℕ) (md : Module) (i : ℕ) (o new : Op) → Valid d → slice_get d m ≡ Some md → InPlace md i o new
        → Follows d (with_body d m md (set md.body i new)) }
{}

/// Does nothing. Its clause says that a design follows from a valid one where an operation of a module is taken out, a
/// value standing for its result that has its word and its type and stands no higher.
pub fn erase_op_preserves()
    ensures { (d : Design) (m : ℕ) (md : Module) (i : ℕ) (o : Op) (t : HwType) (x : Ref) → Valid d → slice_get d m ≡ Some md → Erased md i o t x
        → Follows d (with_body d m md (erase_op i x md.body)) }
{}

/// Does nothing. Its clause says that a design follows from a valid one where an operation that fits is put in a module.
pub fn insert_op_preserves()
    ensures { (d : Design) (m : ℕ) (md : Module) (i : ℕ) (o : Op) → Valid d → slice_get d m ≡ Some md → Inserted md i o
        → Follows d (with_body d m md (insert_op i o md.body)) }
{}

/// Does nothing. Its clause says that a design follows from a valid one where an operation of a module is taken out whose
/// results nothing names.
pub fn erase_dead_op_preserves()
    ensures { (d : Design) (m : ℕ) (md : Module) (i : ℕ) (o : Op) → Valid d → slice_get d m ≡ Some md → IsUnused md i o
        → Follows d (with_body d m md (erase_op i undefined md.body)) }
{}

/// Does nothing. Its clause says that a design follows from a valid one where a register of a module takes its next value
/// by other operands or in another form, and loads the same.
pub fn replace_register_preserves()
    ensures { (d : Design) (m : ℕ) (md : Module) (i : ℕ) (o new : Op) → Valid d → slice_get d m ≡ Some md → Reloaded md i o new
        → Follows d (with_body d m md (set md.body i new)) }
{}

/// Does nothing. Its clauses say that a valid design without a module that nothing instances is valid, and that each other
/// module does what it did.
pub fn remove_module_preserves()
    ensures valid { (d e : Design) (gone : Name) → IsWithout d e gone → Valid d → Valid e }
    ensures others { (d e : Design) (gone : Name) → IsWithout d e gone → Valid d → (top : Name) → (top ≡ gone → ⊥) → Same (machine d top) (machine e top) }
{}

/// Does nothing. Its clauses say that edits of modules keep where asynchronous resets come from, the marks of ports going
/// by the modules' symbols, where what stands for each constant that a register is so reset to is a constant; and that a
/// constant that an edit does not change or take out is one.
pub fn edits_keep_resets()
    ensures edits { (d e : Design) (marked : Module → ℕ → Bool) (each : (s : Name) → EditedModule (find_module d s) (find_module e s))
        → ((s : Name) → KeepsResetValues (find_module d s) (find_module e s) (each s)) → ResetsFromPorts d marked → ResetsFromPorts e (marks_by_symbol d marked) }
    ensures constants { (os os' : List Op) (edit : Edit os os') (j j' k : ℕ) → edit.position j ≡ Some j' → IsConstantOf os (op_result j k)
        → IsConstantOf os' (edit.stand (op_result j k)) }
{}

/// Does nothing. Its clauses say that no module becomes heavier where a module gets a body that is not heavier, where an
/// operation is taken out, or where one is changed in place to one that is not heavier.
pub fn edits_are_lighter()
    ensures body { (d : Design) (m : ℕ) (md : Module) (os : List Op) → slice_get d m ≡ Some md
        → ((inner : Name → ℕ) → body_weight inner os ≤ body_weight inner md.body) → (s : Name) → weight (with_body d m md os) s ≤ weight d s }
    ensures out { (d : Design) (m : ℕ) (md : Module) (i : ℕ) (o : Op) (x : Ref) → slice_get d m ≡ Some md → slice_get md.body i ≡ Some o
        → (s : Name) → weight (with_body d m md (erase_op i x md.body)) s ≤ weight d s }
    ensures position { (d : Design) (m : ℕ) (md : Module) (i : ℕ) (o new : Op) → slice_get d m ≡ Some md → slice_get md.body i ≡ Some o
        → ((inner : Name → ℕ) → kind_weight inner new.kind new.types (length new.operands) ≤ kind_weight inner o.kind o.types (length o.operands))
        → (s : Name) → weight (with_body d m md (set md.body i new)) s ≤ weight d s }
{}
