//! What holds of pipelines, each a clause of a function that does nothing.
ghost use Rattle.std.specs.Prelude.{◌≡◌, ℕ, List, Ok};
ghost use Rattle.pass_pipeline.specs.Grammar.{Item, tokens, pipeline_spelled, passes_in, AllMayStand};
ghost use Rattle.pass_pipeline.specs.Pipelines.{passes};
ghost use Rattle.pass_pipeline.specs.declared.pass.Pass.{Pass};

/// Does nothing. Its clauses say that the texts that are read are just those whose tokens spell a pipeline: items within
/// `builtin.module`, each a pass on offer or `hw.module` around passes on offer that run on modules; and that such a text is
/// read as the passes of its items, in order.
pub fn pipelines_are_read()
    ensures read { (offered : List Pass) (text : List ℕ) (ps : List Pass) → passes offered text ≡ Ok ps
        → (is : List Item) × (tokens text ≡ pipeline_spelled is) × (ps ≡ passes_in is) × AllMayStand offered is }
    ensures spelled { (offered : List Pass) (text : List ℕ) (is : List Item) → tokens text ≡ pipeline_spelled is → AllMayStand offered is
        → passes offered text ≡ Ok (passes_in is) }
{}
