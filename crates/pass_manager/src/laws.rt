//! The laws of lists of passes, each a clause of a function that does nothing.

ghost use Rattle.std.specs.Prelude.{◌≡◌, ◌++◌, false, List, [], ◌∷◌};
ghost use Rattle.hw_model.specs.Design.{Design};
ghost use Rattle.op_verifier.specs.Verdict.{IsAccepted};
ghost use Rattle.printing_laws.specs.Printable.{Printable};
ghost use Rattle.aggregate_laws.specs.Scalars.{has_aggregates};
ghost use Rattle.pass_pipeline.specs.declared.pass.Pass.{Pass};
ghost use Rattle.pass_pipeline.specs.declared.pass.Pass.TheVariants.{Canonicalize, Cse, SeqLowerRegs, HwLowerAggregates, HwFlattenModules, SymbolDce};
ghost use Rattle.pass_laws.specs.PassLaw.{IsAfter, PassLaw};
ghost use Rattle.pass_manager.specs.Results.{IsChosen, IsResult, IsExported};

/// Does nothing. Its clauses say that each pass meets the law of passes.
pub fn passes_keep()
    ensures canonicalize { PassLaw (Canonicalize ∷ []) (IsChosen Canonicalize) }
    ensures cse { PassLaw (Cse ∷ []) (IsChosen Cse) }
    ensures seq_lower_regs { PassLaw (SeqLowerRegs ∷ []) (IsChosen SeqLowerRegs) }
    ensures lower_aggregates { PassLaw (HwLowerAggregates ∷ []) (IsChosen HwLowerAggregates) }
    ensures flatten { PassLaw (HwFlattenModules ∷ []) (IsChosen HwFlattenModules) }
    ensures symbol_dce { PassLaw (SymbolDce ∷ []) (IsChosen SymbolDce) }
{}

/// Does nothing. Its clause says that a list of passes makes one design of each.
pub fn result_once()
    ensures { (passes : List Pass) (d e f : Design) → IsResult passes d e → IsResult passes d f → e ≡ f }
{}

/// Does nothing. Its clause says that what a list of passes makes of an accepted, printable design meets their law: it is accepted
/// and printable, the modules that remain are in order and no heavier, and each public one does what it did.
pub fn results_follow()
    ensures { (passes : List Pass) (d e : Design) → IsAccepted d → Printable d → IsResult passes d e → IsAfter passes d e }
{}

/// Does nothing. Its clauses say of what becomes of an accepted, printable design by a list of passes and then for an export that it meets
/// the law of these passes and of the lowering of aggregates, and that no aggregate is left.
pub fn exports_follow()
    ensures after { (passes : List Pass) (d f : Design) → IsAccepted d → Printable d → IsExported passes d f → IsAfter (passes ++ HwLowerAggregates ∷ []) d f }
    ensures none_left { (passes : List Pass) (d f : Design) → IsAccepted d → Printable d → IsExported passes d f → has_aggregates f ≡ false }
{}
