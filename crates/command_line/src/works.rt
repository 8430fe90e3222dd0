//! The work of each command, by its arguments.
ghost use Rattle.std.specs.Prelude.{◌≡◌, IfOk, ◌≤◌, string_bytes, option_map, codes};
ghost use Rattle.clap.specs.Words.{found_of, rows_of, first_of};
ghost use Rattle.command_line.specs.Line.{on_passes, on_lowering, translated, translated_work, translate_work, passes_in, mlir_work, generated_work, gen_work, lec_work, check_work, sim_work, lowering_in, passes_work, work_in, is_flagged};
ghost use Rattle.command_line.specs.Invocations.{work_of, SaysWork};

use crate::comparison::{Comparison, ProofFiles};
use crate::invocation::{LineFail, Work};
use crate::passes::passes_in;
use crate::recipe::Recipe;
use crate::translations::{Translation, translation_in};
use crate::usage::UsageKind;
use crate::values::{
    is_flagged, is_given_twice, is_stdin_twice, limit_in, lowering_in, name_in, number_in, value,
};
use clap::ArgMatches;
use lowering_options::lowering::Lowering;
use pass_pipeline::pass::Pass;
use pass_pipeline::pipeline::Pipeline;
use std::alloc::{AllocError, Global};

/// How many modules are generated at most.
const MOST_MODULES: u64 = 10_000;

/// The work of a command of this name.
pub(crate) fn work_in(
    alloc: Global,
    name: &str,
    matches: &ArgMatches<'_>,
    offered: &[Pass],
) -> Result<Work, LineFail>
    ensures { SaysWork (work_in offered.now name.now (rows_of (found_of matches.now))) result }
{
    if name == "gen" {
        gen_work(matches)
    } else if name == "lec" {
        lec_work(alloc, matches)
    } else if name == "check" {
        check_work(matches)
    } else if name == "sim" {
        sim_work(alloc, matches)
    } else {
        passes_work(alloc, name, matches, offered)
    }
}

/// The work of `gen`.
fn gen_work(matches: &ArgMatches<'_>) -> Result<Work, LineFail>
    ensures { SaysWork (gen_work (rows_of (found_of matches.now))) result }
{
    let Some(seed) = number_in(matches, "seed", 0, u64::from(u32::MAX)) else {
        return Err(LineFail::Usage(UsageKind::Words));
    };
    let Some(count) = number_in(matches, "count", 1, MOST_MODULES) else {
        return Err(LineFail::Usage(UsageKind::Words));
    };
    let recipe = Recipe {
        seed: seed as u32,
        count: count as u32,
    };
    Ok(generated_work(is_flagged(matches, "verilog"), recipe))
}

/// The work on the design from this recipe: Verilog, or a summary.
fn generated_work(is_verilog: bool, recipe: Recipe) -> Work
    ensures { work_of result ≡ generated_work is_verilog recipe.seed recipe.count }
{
    if is_verilog {
        Work::GeneratedVerilog(recipe)
    } else {
        Work::GeneratedSummary(recipe)
    }
}

/// The work of `lec`.
fn lec_work(alloc: Global, matches: &ArgMatches<'_>) -> Result<Work, LineFail>
    ensures { SaysWork (lec_work (rows_of (found_of matches.now))) result }
{
    let Some(conflict_limit) = limit_in(matches) else {
        return Err(LineFail::Usage(UsageKind::Words));
    };
    if is_stdin_twice(matches) {
        return Err(LineFail::Usage(UsageKind::StdinTwice));
    }
    match comparison_of(
        alloc,
        name_in(matches, "c1"),
        name_in(matches, "c2"),
        conflict_limit,
        value(matches, "proof"),
    ) {
        Ok(comparison) => Ok(Work::Verdict(comparison)),
        Err(_) => Err(LineFail::NoMemory),
    }
}

/// The comparison of the modules of these names, with a proof in the file of this name where one is given.
fn comparison_of(
    alloc: Global,
    left: &str,
    right: &str,
    conflict_limit: u64,
    proof: Option<&str>,
) -> Result<Comparison, AllocError>
    requires { 1 ≤ conflict_limit }
    ensures names { IfOk result (λ c. (string_bytes c.left ≡ left.now) × (string_bytes c.right ≡ right.now)) }
    ensures limit { IfOk result (λ c. c.conflict_limit ≡ conflict_limit) }
    ensures proof { IfOk result (λ c. option_map (λ p. string_bytes p.proof) c.proof ≡ option_map (λ s. s.now) proof.entry) }
{
    let left = String::from_str(alloc, left)?;
    let right = String::from_str(alloc, right)?;
    match proof_files(alloc, proof) {
        Ok(proof) => Ok(Comparison {
            left,
            right,
            conflict_limit,
            proof,
        }),
        Err(error) => Err(error),
    }
}

/// The files of the proof of this name, if one is given.
fn proof_files(alloc: Global, name: Option<&str>) -> Result<Option<ProofFiles>, AllocError>
    ensures { IfOk result (λ files. option_map (λ p. string_bytes p.proof) files ≡ option_map (λ s. s.now) name.entry) }
{
    match name {
        Some(name) => Ok(Some(ProofFiles::named(alloc, name)?)),
        None => Ok(None),
    }
}

/// The work of `check`.
fn check_work(matches: &ArgMatches<'_>) -> Result<Work, LineFail>
    ensures { SaysWork (check_work (rows_of (found_of matches.now))) result }
{
    if is_stdin_twice(matches) {
        return Err(LineFail::Usage(UsageKind::StdinTwice));
    }
    Ok(Work::ProofCheck)
}

/// The work of `sim`.
fn sim_work(alloc: Global, matches: &ArgMatches<'_>) -> Result<Work, LineFail>
    ensures { SaysWork (sim_work (rows_of (found_of matches.now))) result }
{
    if is_stdin_twice(matches) {
        return Err(LineFail::Usage(UsageKind::StdinTwice));
    }
    match String::from_str(alloc, name_in(matches, "top")) {
        Ok(top) => Ok(Work::Simulation(top)),
        Err(_) => Err(LineFail::NoMemory),
    }
}

/// The work of a command of this name that takes passes.
fn passes_work(
    alloc: Global,
    name: &str,
    matches: &ArgMatches<'_>,
    offered: &[Pass],
) -> Result<Work, LineFail>
    ensures { SaysWork (passes_work offered.now name.now (rows_of (found_of matches.now))) result }
{
    if is_given_twice(matches) {
        return Err(LineFail::Usage(UsageKind::TwoPipelines));
    }
    if name == "opt" {
        return opt_work(alloc, matches, offered);
    }
    translate_work(alloc, matches, offered)
}

/// The work of `opt`.
fn opt_work(alloc: Global, matches: &ArgMatches<'_>, offered: &[Pass]) -> Result<Work, LineFail>
    ensures { SaysWork (on_passes (mlir_work (is_flagged (codes "split-input-file") (rows_of (found_of matches.now)))) (passes_in offered.now (rows_of (found_of matches.now)))) result }
{
    match passes_in(alloc, matches, offered) {
        Ok(passes) => Ok(mlir_work(is_flagged(matches, "split-input-file"), passes)),
        Err(fail) => Err(fail),
    }
}

/// The work of `translate`.
fn translate_work(
    alloc: Global,
    matches: &ArgMatches<'_>,
    offered: &[Pass],
) -> Result<Work, LineFail>
    ensures { SaysWork (translate_work offered.now (rows_of (found_of matches.now))) result }
{
    match translation_in(matches) {
        Ok(translation) => translated_work(alloc, matches, offered, translation),
        Err(kind) => Err(LineFail::Usage(kind)),
    }
}

/// The work of this translation.
fn translated_work(
    alloc: Global,
    matches: &ArgMatches<'_>,
    offered: &[Pass],
    translation: Translation,
) -> Result<Work, LineFail>
    ensures { SaysWork (translated_work translation (lowering_in (first_of (codes "lowering-options") (rows_of (found_of matches.now)))) (passes_in offered.now (rows_of (found_of matches.now)))) result }
{
    match passes_in(alloc, matches, offered) {
        Ok(passes) => on_lowering(translation, passes, lowering_in(matches)),
        Err(fail) => Err(fail),
    }
}

/// A translation of what passes make, where the way in which Verilog is written is known.
fn on_lowering(
    translation: Translation,
    passes: Pipeline,
    lowering: Option<Lowering>,
) -> Result<Work, LineFail>
    ensures { SaysWork (on_lowering translation passes lowering) result }
{
    match lowering {
        Some(lowering) => Ok(translated(translation, passes, lowering)),
        None => Err(LineFail::Usage(UsageKind::Lowering)),
    }
}

/// A translation of what passes make. The way in which Verilog is written matters to Verilog alone.
fn translated(translation: Translation, passes: Pipeline, lowering: Lowering) -> Work
    ensures { work_of result ≡ translated translation passes lowering }
{
    match translation {
        Translation::ToVerilog => Work::Verilog(passes, lowering),
        Translation::ToAiger => Work::ExportAiger(passes),
        Translation::FromAiger => Work::ImportAiger(passes),
    }
}

/// The work of `opt`, on the pieces of the input or on the whole.
fn mlir_work(splits: bool, passes: Pipeline) -> Work
    ensures { work_of result ≡ mlir_work splits passes }
{
    if splits {
        Work::MlirPieces(passes)
    } else {
        Work::Mlir(passes)
    }
}
