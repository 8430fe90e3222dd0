//! What passes make of verified designs, and the Verilog of it.
ghost use Rattle.std.specs.Prelude.{List, IfOk};
ghost use Rattle.hw_model.specs.Design.{Design};
ghost use Rattle.ir_store.specs.Designs.{design_of};
ghost use Rattle.op_verifier.specs.Verdict.{IsAccepted};
ghost use Rattle.stored_form.specs.Canonical.{IsCanonical};
ghost use Rattle.export_verilog.specs.Aggregates.{HasNoAggregates};
ghost use Rattle.pass_pipeline.specs.declared.pass.Pass.{Pass};
ghost use Rattle.pass_manager.specs.Results.{IsResult, IsExported};
ghost use Rattle.circt_top.specs.Translation.{IsTranslated, IsTranslatedFrom};

use command_line::workers::Workers;
use export_verilog::export::export;
use export_verilog::{
    accepted_designs_are_exportable, exported_designs_behave, stored_designs_have_room,
};
use io_edge::byte_text::Text;
use lowering_options::lowering::Lowering;
use op_verifier::Verified;
use pass_manager::exports_follow;
use pass_manager::for_export::lowered_for_export;
use pass_manager::gate::Gate;
use pass_manager::run::run_pipeline;
use pass_pipeline::pipeline::Pipeline;
use printing_laws::what_is_canonical_is_printable;
use std::alloc::{AllocError, Global};
use std::thread::Threads;

/// By what modules are worked.
#[derive(Drop)]
pub(crate) struct Means<'a, R, G> {
    /// It starts threads.
    pub(crate) rt: &'a R,
    /// It gives memory.
    pub(crate) alloc: Global,
    /// How many workers there are.
    pub(crate) workers: Workers,
    /// It is told of each module before a pass works on its body.
    pub(crate) gate: &'a G,
}

/// What passes make of a verified design.
pub(crate) fn passes_result<R: Threads + Sync, G: Gate + Copy + Send>(
    means: &Means<'_, R, G>,
    verified: Verified,
    passes: &Pipeline,
) -> Result<Verified, AllocError>
    ensures { IfOk result (λ made. IsResult passes.now (design_of verified.design) (design_of made.design)) }
{
    let mut gate = *means.gate;
    run_pipeline(
        means.rt,
        means.alloc,
        verified,
        passes,
        means.workers.count,
        &mut gate,
    )
}

/// What passes make of a verified design, with its aggregates lowered to their leaves where somebody uses them.
pub(crate) fn exported_result<R: Threads + Sync, G: Gate + Copy + Send>(
    means: &Means<'_, R, G>,
    verified: Verified,
    passes: &Pipeline,
) -> Result<Verified, AllocError>
    ensures made { IfOk result (λ made. IsExported passes.now (design_of verified.design) (design_of made.design)) }
    ensures plain { IfOk result (λ made. HasNoAggregates (design_of made.design)) }
{
    what_is_canonical_is_printable();
    exports_follow();
    let made = passes_result(means, verified, passes)?;
    lowered_for_export(means.alloc, made)
}

/// The Verilog of what passes and then the lowering of aggregates made of any verified design, its expressions written as `options` say.
pub(crate) fn export_made<R: Threads + Sync, G: Gate + Copy + Send>(
    means: &Means<'_, R, G>,
    made: &Verified,
    options: Lowering,
) -> Result<Text, AllocError>
    requires { HasNoAggregates (design_of made.now.design) }
    ensures { (passes : List Pass) (d : Design) → IsAccepted d → IsCanonical d → IsExported passes d (design_of made.now.design) → IfOk result (IsTranslatedFrom passes options d (design_of made.now.design)) }
{
    what_is_canonical_is_printable();
    exports_follow();
    accepted_designs_are_exportable();
    exported_designs_behave();
    stored_designs_have_room(made.design());
    export(means.rt, means.alloc, made, means.workers.count, options)
}

/// The Verilog of what passes make of a verified design, with its aggregates lowered, its expressions written as `options` say.
pub(crate) fn translate<R: Threads + Sync, G: Gate + Copy + Send>(
    means: &Means<'_, R, G>,
    verified: Verified,
    passes: &Pipeline,
    options: Lowering,
) -> Result<Text, AllocError>
    ensures { IfOk result (IsTranslated passes.now options (design_of verified.design)) }
{
    let made = exported_result(means, verified, passes)?;
    export_made(means, &made, options)
}
