//! What is made of a generated design.
ghost use Rattle.std.specs.Prelude.{◌≡◌, ℕ, List, IfOk};
ghost use Rattle.ir_store.specs.Designs.{design_of};
ghost use Rattle.command_line.specs.Line.Work.{generated_summary, generated_verilog};
ghost use Rattle.generator.specs.Generated.{generated};
ghost use Rattle.circt_top.specs.Generation.{generation_passes};
ghost use Rattle.circt_top.specs.Outcome.{GivesText};

use crate::made::OutcomeFail;
use crate::summary::{Summary, counts_of, summary_text};
use crate::translation::{Means, export_made, exported_result, translate};
use command_line::recipe::Recipe;
use design_counts::public_register_count;
use generator::generate;
use io_edge::byte_text::Text;
use lowering_options::lowering::Lowering;
use op_verifier::Verified;
use pass_manager::gate::Gate;
use pass_pipeline::pass::Pass;
use pass_pipeline::pipeline::{Pipeline, PipelineError, read_pipeline};
use std::alloc::{AllocError, Global};
use std::thread::Threads;

/// The passes that work on a generated design, as a pipeline.
const PIPELINE: &[u8] = b"builtin.module(canonicalize,cse,hw-flatten-modules,canonicalize,cse)";

/// The Verilog of what the passes make of the design of a recipe.
pub(crate) fn generate_verilog<R: Threads + Sync, G: Gate + Copy + Send>(
    means: &Means<'_, R, G>,
    recipe: Recipe,
) -> Result<Text, OutcomeFail>
    ensures { (contents : List (List ℕ)) → GivesText (generated_verilog recipe.seed recipe.count) contents result }
{
    let verified = generate_design(means.alloc, recipe)?;
    let passes = generation_passes(means.alloc)?;
    Ok(translate(means, verified, &passes, Lowering::Plain)?)
}

/// The summary of the design of a recipe, and of what the passes make of it.
pub(crate) fn summarise<R: Threads + Sync, G: Gate + Copy + Send>(
    means: &Means<'_, R, G>,
    recipe: Recipe,
) -> Result<Text, OutcomeFail>
    ensures { (contents : List (List ℕ)) → GivesText (generated_summary recipe.seed recipe.count) contents result }
{
    let verified = generate_design(means.alloc, recipe)?;
    let counts = counts_of(verified.design());
    let passes = generation_passes(means.alloc)?;
    let made = exported_result(means, verified, &passes)?;
    let verilog = export_made(means, &made, Lowering::Plain)?;
    let summary = Summary {
        counts,
        registers: public_register_count(made.design()),
        verilog_bytes: verilog.len(),
    };
    Ok(summary_text(means.alloc, &summary)?)
}

/// The design of a recipe.
fn generate_design(alloc: Global, recipe: Recipe) -> Result<Verified, AllocError>
    ensures { IfOk result (λ v. design_of v.design ≡ generated recipe.seed recipe.count) }
{
    generate(alloc, recipe.seed, recipe.count)
}

/// The passes that work on a generated design.
fn generation_passes(alloc: Global) -> Result<Pipeline, AllocError>
    ensures { IfOk result (λ passes. passes ≡ generation_passes) }
{
    let offered = [Pass::Canonicalize, Pass::Cse, Pass::HwFlattenModules];
    match read_pipeline(alloc, PIPELINE, &offered) {
        Ok(passes) => Ok(passes),
        Err(PipelineError::NoMemory) => Err(AllocError),
        Err(PipelineError::Bad(_)) => unreachable!(),
    }
}
