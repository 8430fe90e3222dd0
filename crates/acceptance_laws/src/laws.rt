//! The laws of edits that keep designs accepted, each a clause of a function that does nothing.

ghost use Rattle.std.specs.Prelude.{◌≡◌, ◌≤◌, ℕ, Bool, List, set, Some, None, slice_get};
ghost use Rattle.std.specs.List.{remove};
ghost use Rattle.wiring.specs.Wiring.{In};
ghost use Rattle.hw_model.specs.Types.{Name, HwType};
ghost use Rattle.hw_model.specs.Design.{Ref, Port, Op, Module, Design};
ghost use Rattle.hw_model.specs.Design.Ref.{undefined};
ghost use Rattle.hw_model.specs.Hierarchy.{calls};
ghost use Rattle.hw_model.specs.Weight.{weight};
ghost use Rattle.op_verifier.specs.OpChecks.{op_cause};
ghost use Rattle.op_verifier.specs.Verdict.{IsAccepted};
ghost use Rattle.printing_laws.specs.Printable.{Printable};
ghost use Rattle.edit_laws.specs.Follows.{ValidEdit, Valid};
ghost use Rattle.edit_laws.specs.Laws.{InPlace, Inserted, Erased, IsUnused, erase_op, insert_op, with_body};
ghost use Rattle.edit_laws.specs.Registers.{Reloaded};
ghost use Rattle.acceptance_laws.specs.Asked.{Operand, Around, operands_in, around, cause_of, AllowMore, AllowsMoreAround};
ghost use Rattle.acceptance_laws.specs.Forms.{InPlaceFits, ErasedFits, InsertedFits};
ghost use Rattle.acceptance_laws.specs.Keeps.{IsFitting, KeepsModules, KeepsDesign, IsFit, KeepsAsked};

/// Does nothing. Its clauses say that the cause for which an operation is refused is told by what is asked of its operands
/// and by what stands around it, and that it has none where no more is refused of these.
pub fn causes_are_asked()
    ensures told { (d : Design) (ports : List Port) (os : List Op) (last : Bool) (o : Op)
        → op_cause d ports os last o ≡ cause_of o (operands_in ports os o.operands) (around d ports last o) }
    ensures fewer { (o : Op) (xs ys : List Operand) (a b : Around) → AllowMore xs ys → AllowsMoreAround o a b → cause_of o xs a ≡ None → cause_of o ys b ≡ None }
{}

/// Does nothing. Its clauses say that an accepted design that can be printed is fit, and that a fit design is accepted and
/// can be printed where no module is heavier than in an accepted one.
pub fn fit_designs_are_accepted()
    ensures fit { (d : Design) → IsAccepted d → Printable d → IsFit d }
    ensures accepted { (e : Design) → IsFit e → (d : Design) → IsAccepted d → ((s : Name) → weight e s ≤ weight d s) → IsAccepted e × Printable e }
{}

/// Does nothing. Its clauses say that a design stays fit by an edit of one module by which no more is refused of what stands
/// for an operand; and so by any change that keeps its modules, at their positions or by their symbols, where the new design
/// is valid.
pub fn edits_keep_fit()
    ensures edit { (d : Design) (k : ℕ) (m : Module) (os : List Op) (edit : ValidEdit (Some m) (Some (record m { body = os }))) → IsFit d
        → slice_get d k ≡ Some m → KeepsAsked m os edit → IsFit (with_body d k m os) }
    ensures modules { (d e : Design) → IsFit d → KeepsModules d e → Valid e → IsFit e }
    ensures design { (d e : Design) → IsFit d → KeepsDesign d e → Valid e → IsFit e }
{}

/// Does nothing. Its clauses say what must be shown of each edit of `edit_laws`, beside what keeps a design valid, so that a
/// fit design stays fit: of an operation that is changed in place, taken out with a value in the place of its result, taken
/// out where nothing names it, or put in, and of a register that loads in another way.
pub fn each_edit_keeps_fit()
    ensures position { (d : Design) (k : ℕ) (md : Module) (i : ℕ) (o new : Op) → IsFit d → slice_get d k ≡ Some md → InPlace md i o new → InPlaceFits md o new
        → IsFit (with_body d k md (set md.body i new)) }
    ensures erased { (d : Design) (k : ℕ) (md : Module) (i : ℕ) (o : Op) (t : HwType) (x : Ref) → IsFit d → slice_get d k ≡ Some md → Erased md i o t x
        → ErasedFits md o x → IsFit (with_body d k md (erase_op i x md.body)) }
    ensures dead { (d : Design) (k : ℕ) (md : Module) (i : ℕ) (o : Op) → IsFit d → slice_get d k ≡ Some md → IsUnused md i o
        → IsFit (with_body d k md (erase_op i undefined md.body)) }
    ensures inserted { (d : Design) (k : ℕ) (md : Module) (i : ℕ) (o : Op) → IsFit d → slice_get d k ≡ Some md → Inserted md i o → InsertedFits md i o
        → IsFit (with_body d k md (insert_op i o md.body)) }
    ensures register { (d : Design) (k : ℕ) (md : Module) (i : ℕ) (o new : Op) → IsFit d → slice_get d k ≡ Some md → Reloaded md i o new
        → IsFitting md.ports md.body new → IsFit (with_body d k md (set md.body i new)) }
{}

/// Does nothing. Its clauses say that a fit design stays fit where a module goes that nothing instances, and that no module
/// gets heavier by that.
pub fn removal_keeps_fit()
    ensures fit { (d : Design) (k : ℕ) (m : Module) → IsFit d → slice_get d k ≡ Some m → ((s : Name) → In m.symbol (calls d s) → ⊥) → IsFit (remove d k) }
    ensures lighter { (d : Design) (k : ℕ) (m : Module) → IsFit d → slice_get d k ≡ Some m → ((s : Name) → In m.symbol (calls d s) → ⊥)
        → (s : Name) → weight (remove d k) s ≤ weight d s }
{}
