//! The laws of passes, each a clause of a function that does nothing.

ghost use Rattle.std.specs.Prelude.{◌≡◌, ◌≤◌, ℕ, true, false, List, ◌++◌, set, Some, slice_get};
ghost use Rattle.hw_model.specs.Types.{Name};
ghost use Rattle.hw_model.specs.Design.{Ref, Op, Module, Design, is_register, result_type};
ghost use Rattle.hw_model.specs.Weight.{weight};
ghost use Rattle.op_verifier.specs.Verdict.{IsAccepted};
ghost use Rattle.edit_laws.specs.Edit.{is_anchor};
ghost use Rattle.edit_laws.specs.Follows.{Follows};
ghost use Rattle.edit_laws.specs.Laws.{erase_op, insert_op, with_body};
ghost use Rattle.acceptance_laws.specs.Keeps.{IsFit};
ghost use Rattle.pass_pipeline.specs.declared.pass.Pass.{Pass};
ghost use Rattle.pass_laws.specs.Remaining.{is_flatten, is_symbol_dce, is_lowering, has_pass};
ghost use Rattle.pass_laws.specs.PassLaw.{IsAfter, PassLaw};
ghost use Rattle.pass_laws.specs.Steady.{SameShape, IsSteady};

/// Does nothing. Its clause says that what leaves a design as it is meets the law of each list of passes that may
/// leave a design as it is.
pub fn identity_keeps()
    ensures { (passes : List Pass) → has_pass is_flatten passes ≡ false → has_pass is_symbol_dce passes ≡ false → has_pass is_lowering passes ≡ false
        → PassLaw passes (λ (d e : Design). e ≡ d) }
{}

/// Does nothing. Its clause says that a design that passes leave of one that others leave is left by both lists of passes.
pub fn laws_compose()
    ensures { (first second : List Pass) (d e f : Design) → IsAfter first d e → IsAfter second e f → IsAfter (first ++ second) d f }
{}

/// Does nothing. Its clauses say of designs that follow from one another by edits of bodies: each fit one does from itself,
/// one after another they do, an edit of one body leads to one where the design follows, is fit, and the body has its shape;
/// and where no module is heavier the law of passes that keep all modules holds of the last one.
pub fn steady_designs_compose()
    ensures itself { (d : Design) → IsFit d → IsSteady d d }
    ensures composes { (d e f : Design) → IsSteady d e → IsSteady e f → IsSteady d f }
    ensures edit { (d : Design) (k : ℕ) (m : Module) (os : List Op) → slice_get d k ≡ Some m → Follows d (with_body d k m os) → IsFit (with_body d k m os)
        → SameShape m.body os → IsSteady d (with_body d k m os) }
    ensures after { (passes : List Pass) (d e : Design) → has_pass is_flatten passes ≡ false → has_pass is_symbol_dce passes ≡ false
        → has_pass is_lowering passes ≡ false → IsAccepted d → IsSteady d e → ((s : Name) → weight e s ≤ weight d s) → IsAfter passes d e }
{}

/// Does nothing. Its clauses say that a body keeps its shape where an operation that is no register, no instance and no
/// output is changed in place, taken out or put in, and where a register is changed to one of the same type.
pub fn edits_keep_shape()
    ensures position { (os : List Op) (i : ℕ) (o new : Op) → slice_get os i ≡ Some o → is_anchor o ≡ false → is_anchor new ≡ false → SameShape os (set os i new) }
    ensures erased { (os : List Op) (i : ℕ) (o : Op) (x : Ref) → slice_get os i ≡ Some o → is_anchor o ≡ false → SameShape os (erase_op i x os) }
    ensures inserted { (os : List Op) (i : ℕ) (o : Op) → is_anchor o ≡ false → SameShape os (insert_op i o os) }
    ensures register { (o new : Op) → is_register o ≡ true → is_register new ≡ true → result_type new 0 ≡ result_type o 0 → (os : List Op) (i : ℕ)
        → slice_get os i ≡ Some o → SameShape os (set os i new) }
{}
