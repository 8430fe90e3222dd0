//! The laws of the lowering of aggregates, each a clause of a function that does nothing.

ghost use Rattle.std.specs.Prelude.{◌≡◌, false, [], ◌∷◌};
ghost use Rattle.hw_model.specs.Design.{Design};
ghost use Rattle.op_verifier.specs.Verdict.{IsAccepted};
ghost use Rattle.printing_laws.specs.Printable.{Printable};
ghost use Rattle.pass_pipeline.specs.declared.pass.Pass.TheVariants.{HwLowerAggregates};
ghost use Rattle.pass_laws.specs.PassLaw.{PassLaw};
ghost use Rattle.aggregate_laws.specs.Scalars.{has_aggregates};
ghost use Rattle.aggregate_lower.specs.Lowering.{lowered_aggregates};

/// Does nothing. Its clauses say that lowering meets the law of passes, ports and registers becoming their leaves, and that no
/// aggregate is left.
pub fn lowering_keeps()
    ensures law { PassLaw (HwLowerAggregates ∷ []) (λ (d e : Design). e ≡ lowered_aggregates d) }
    ensures none_left { (d : Design) → IsAccepted d → Printable d → has_aggregates (lowered_aggregates d) ≡ false }
{}
