//! The laws of passes on modules, each a clause of a function that does nothing.

ghost use Rattle.std.specs.Prelude.{◌≡◌, true, [], ◌∷◌};
ghost use Rattle.wiring.specs.Wiring.{In};
ghost use Rattle.hw_model.specs.Types.{Name};
ghost use Rattle.hw_model.specs.Design.{Module, Design};
ghost use Rattle.hw_model.specs.Hierarchy.{calls};
ghost use Rattle.op_verifier.specs.Verdict.{IsAccepted};
ghost use Rattle.acceptance_laws.specs.Keeps.{IsFit};
ghost use Rattle.pass_pipeline.specs.declared.pass.Pass.TheVariants.{HwFlattenModules, SymbolDce};
ghost use Rattle.pass_laws.specs.PassLaw.{PassLaw};
ghost use Rattle.inline_pass.specs.DeadModules.{IsWithoutDead};
ghost use Rattle.inline_pass.specs.Flattening.{IsFlattened};

/// Does nothing. Its clause says that `symbol-dce` meets the law of passes.
pub fn symbol_dce_keeps()
    ensures { PassLaw (SymbolDce ∷ []) IsWithoutDead }
{}

/// Does nothing. Its clauses say that a design has one result without dead modules, that in it each private module of an
/// accepted design is instanced, and that it is fit where the design is.
pub fn dead_modules_go_once()
    ensures once { (d e f : Design) → IsWithoutDead d e → IsWithoutDead d f → e ≡ f }
    ensures none_left { (d e : Design) → IsAccepted d → IsWithoutDead d e → (m : Module) → In m e → m.is_private ≡ true → (caller : Name) × In m.symbol (calls e caller) }
    ensures fit { (d e : Design) → IsFit d → IsWithoutDead d e → IsFit e }
{}

/// Does nothing. Its clause says that `hw-flatten-modules` meets the law of passes.
pub fn flattening_keeps()
    ensures { PassLaw (HwFlattenModules ∷ []) IsFlattened }
{}
