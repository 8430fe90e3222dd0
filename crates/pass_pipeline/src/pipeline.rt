//! Pipelines, and how they are read.
ghost use Rattle.std.specs.Prelude.{◌≡◌, [], OnOk};
ghost use Rattle.pass_pipeline.specs.Pipelines.{passes, added, ended, Reads};

use crate::pass::Pass;
use crate::step::{Expected, step_over};
use crate::token::token_in;
use std::alloc::{AllocError, Global};
use std::marker::Model;

/// The first thing in a text that is wrong, with the offset of its first byte.
#[derive(Clone, Copy, PartialEq, Eq)]
pub enum PipelineFail {
    /// No pass on offer and no operation that may stand there has this name.
    UnknownPass(u64),
    /// This pass may not stand there.
    WrongPlace(u64),
    /// No pipeline has this byte there, or the text ends too early.
    BadText(u64),
}

/// Why a text was not read as a pipeline.
#[derive(Clone, Copy, PartialEq, Eq)]
pub enum PipelineError {
    /// It is none.
    Bad(PipelineFail),
    /// There was no memory for the passes.
    NoMemory,
}

impl From<AllocError> for PipelineError {
    ghost use Rattle.std.specs.Prelude.{◌≡◌};
    ghost use Rattle.pass_pipeline.specs.declared.pipeline.PipelineError.TheVariants.{NoMemory};

    ghost from_gives = { λ _ fail. fail ≡ NoMemory };

    fn from(_error: AllocError) -> PipelineError {
        PipelineError::NoMemory
    }
}

/// Passes in order. Contracts see it as their list.
#[derive(Drop)]
pub struct Pipeline {
    passes: Vec<Pass>,
}

impl Model for Pipeline {
    ghost use Rattle.std.specs.Prelude.{List};
    ghost use Rattle.pass_pipeline.specs.declared.pass.Pass.{Pass};

    ghost Value = { List Pass };

    ghost view = { λ p. p.passes.items };
}

impl Pipeline {
    /// No passes. It takes no memory.
    pub fn new(alloc: Global) -> Pipeline
        ensures { result ≡ [] }
    {
        Pipeline {
            passes: Vec::new(alloc),
        }
    }

    /// The passes in order.
    pub fn as_slice(&self) -> &[Pass]
        ensures { result.now ≡ self.now }
    {
        self.passes.as_slice()
    }
}

/// The passes of a text `builtin.module(..)`, in the order of the text: those within
/// `hw.module(..)` stand in its place. Spaces may stand around every name, comma and parenthesis.
///
/// Fails with the first fault from left to right: `UnknownPass` at a name that is no pass of
/// `offered` and no operation that may stand there, `WrongPlace` at a pass of `offered` that may
/// not, and `BadText` at the first byte that no pipeline has there, with the text's length where it
/// ends too early.
#[tactic(auto, unfolding(crate::specs::Pipelines::passes))]
pub fn read_pipeline(
    alloc: Global,
    text: &[u8],
    offered: &[Pass],
) -> Result<Pipeline, PipelineError>
    ensures { Reads (passes offered.now text.now) result }
{
    let mut passes = Vec::new(alloc);
    let mut expected = Expected::Root;
    // bytes of the last token that are still to pass
    let mut following: usize = 0;
    for (at, byte) in text.iter().enumerate() {
        if following > 0 {
            following -= 1;
            continue;
        }
        if *byte == b' ' {
            continue;
        }
        let token = token_in(&text[at..]);
        match step_over(offered, expected, at as u64, token) {
            Ok(step) => {
                push_named(&mut passes, step.pass)?;
                expected = step.next;
                following = token.len().saturating_sub(1);
            }
            Err(fail) => return Err(PipelineError::Bad(fail)),
        }
    }
    finish(passes, expected, text.len() as u64)
}

// Adds the pass that a token names, if it names one.
fn push_named(passes: &mut Vec<Pass>, pass: Option<Pass>) -> Result<(), AllocError>
    ensures { OnOk result (passes.new.items ≡ added passes.old.items pass) }
{
    if let Some(pass) = pass {
        passes.push(pass)?;
    }
    Ok(())
}

// The passes, where the text may end here.
fn finish(passes: Vec<Pass>, expected: Expected, at: u64) -> Result<Pipeline, PipelineError>
    ensures { Reads (ended passes.items expected at) result }
{
    match expected {
        Expected::End => Ok(Pipeline { passes }),
        _ => Err(PipelineError::Bad(PipelineFail::BadText(at))),
    }
}
