//! The passes that a command line names.
ghost use Rattle.std.specs.Prelude.{◌≡◌};
ghost use Rattle.clap.specs.Words.{found_of, rows_of};
ghost use Rattle.pass_pipeline.specs.Pipelines.{passes};
ghost use Rattle.command_line.specs.Line.{items_text, in_items, in_pipeline, in_list, passes_in};
ghost use Rattle.command_line.specs.Invocations.{SaysPasses};

use crate::invocation::LineFail;
use crate::usage::UsageKind;
use crate::values::value;
use clap::ArgMatches;
use pass_pipeline::pass::Pass;
use pass_pipeline::pipeline::{Pipeline, PipelineError, PipelineFail, read_pipeline};
use std::alloc::Global;

/// The passes that are given.
pub(crate) fn passes_in(
    alloc: Global,
    matches: &ArgMatches<'_>,
    offered: &[Pass],
) -> Result<Pipeline, LineFail>
    ensures { SaysPasses (passes_in offered.now (rows_of (found_of matches.now))) result }
{
    match (value(matches, "passes"), value(matches, "pass-pipeline")) {
        (Some(items), _) => read_items(alloc, items, offered),
        (None, Some(text)) => read_text(alloc, text, offered),
        (None, None) => Ok(Pipeline::new(alloc)),
    }
}

/// The passes of a pipeline.
fn read_text(alloc: Global, text: &str, offered: &[Pass]) -> Result<Pipeline, LineFail>
    ensures { SaysPasses (in_pipeline (passes offered.now text.now)) result }
{
    match read_pipeline(alloc, text.as_bytes(), offered) {
        Ok(passes) => Ok(passes),
        Err(PipelineError::Bad(fail)) => Err(LineFail::Usage(UsageKind::Pipeline(fail))),
        Err(PipelineError::NoMemory) => Err(LineFail::NoMemory),
    }
}

/// The passes of a list of flags, which is read as the items of a pipeline.
fn read_items(alloc: Global, items: &str, offered: &[Pass]) -> Result<Pipeline, LineFail>
    ensures { SaysPasses (in_list (passes offered.now (items_text items.now))) result }
{
    let text = format!(in alloc; "builtin.module({items})")?;
    match read_pipeline(alloc, text.as_bytes(), offered) {
        Ok(passes) => Ok(passes),
        Err(PipelineError::Bad(fail)) => Err(LineFail::Usage(UsageKind::Pipeline(in_items(fail)))),
        Err(PipelineError::NoMemory) => Err(LineFail::NoMemory),
    }
}

/// The same fault, its offset counted in the list of flags.
fn in_items(fail: PipelineFail) -> PipelineFail
    ensures { result ≡ in_items fail }
{
    match fail {
        PipelineFail::UnknownPass(at) => PipelineFail::UnknownPass(at.saturating_sub(15)),
        PipelineFail::WrongPlace(at) => PipelineFail::WrongPlace(at.saturating_sub(15)),
        PipelineFail::BadText(at) => PipelineFail::BadText(at.saturating_sub(15)),
    }
}
