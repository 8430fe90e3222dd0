//! What the words of a command line say.
ghost use Rattle.std.specs.List.{cons_option};
ghost use Rattle.std.specs.Prelude.{◌≡◌, IfOk, IfErr, OnOk, ◌++◌, map, string_bytes, option_map, [], Ok};
ghost use Rattle.clap.specs.Words.{found_of, rows_of, fault_of, subcommand_of, subcommand_rows_of};
ghost use Rattle.command_line.specs.Commands.{circt_app};
ghost use Rattle.command_line.specs.Making.{IsMade};
ghost use Rattle.command_line.specs.Line.{line, parse, require_subcommand, with_files, inputs_in, output_in, second_in, work_in, command_in};
ghost use Rattle.command_line.specs.Invocations.{work_of, Says, IsFault};

use crate::commands::circt_command;
use crate::comparison::Comparison;
use crate::normalise::{WordsFail, normalise};
use crate::recipe::Recipe;
use crate::usage::UsageKind;
use crate::values::{input_in, output_in, value, workers_in};
use crate::workers::Workers;
use crate::works::work_in;
use clap::error::ErrorKind;
use clap::{ArgMatches, Command};
use lowering_options::lowering::Lowering;
use pass_pipeline::pass::Pass;
use pass_pipeline::pipeline::Pipeline;
use std::alloc::{AllocError, Global};

/// What is made of the inputs.
#[derive(Drop)]
pub enum Work {
    /// MLIR text of the design that these passes make.
    Mlir(Pipeline),
    /// MLIR text of the designs that these passes make of those of the pieces of an input.
    MlirPieces(Pipeline),
    /// Verilog of the design that these passes make, written in this way.
    Verilog(Pipeline, Lowering),
    /// A text in the AIGER format of the design that these passes make.
    ExportAiger(Pipeline),
    /// MLIR text of the design that these passes make of the one that a text in the AIGER format says.
    ImportAiger(Pipeline),
    /// A summary of the design that is generated from this recipe.
    GeneratedSummary(Recipe),
    /// Verilog of the design that is generated from this recipe.
    GeneratedVerilog(Recipe),
    /// A verdict on two modules.
    Verdict(Comparison),
    /// A verdict on the proof that is the second input, of the formula that is the first.
    ProofCheck,
    /// The outputs of a run of the module of this name of the first input, by the steps of the second.
    Simulation(String),
}

/// A command with its values.
#[derive(Drop)]
pub struct Invocation {
    /// The names of the input files in order; `-` is standard input.
    pub inputs: Vec<String>,
    /// The name of the output file; none is standard output.
    pub output: Option<String>,
    /// What is made of the inputs.
    pub work: Work,
    /// How many workers work modules.
    pub workers: Workers,
}

/// Why words were not answered by an invocation.
#[derive(Clone, Copy, PartialEq, Eq)]
pub enum LineFail {
    /// They are wrong.
    Usage(UsageKind),
    /// There was no memory to read them.
    NoMemory,
}

impl From<AllocError> for LineFail {
    ghost use Rattle.std.specs.Prelude.{◌≡◌};
    ghost use Rattle.command_line.specs.declared.invocation.LineFail.TheVariants.{NoMemory};

    ghost from_gives = { λ _ fail. fail ≡ NoMemory };

    fn from(_error: AllocError) -> LineFail {
        LineFail::NoMemory
    }
}

/// What the words after the program's name say, which may name the passes of `offered`.
///
/// Words are wrong for the first of these causes: they are no command with its arguments, the
/// number of workers is none of 1 to 64 in decimal digits without a leading zero, or the seed of `gen` none
/// of 0 to 4294967295, or its number of modules none of 1 to 10000, or the conflict limit of `lec` none of
/// 1 to 18446744073709551615; passes
/// are given both by flags and by a pipeline, no translation is named, more than one is, the text of a pipeline is
/// none, no way of writing Verilog has the name that is given; `lec`, `check` or `sim` names standard input twice.
pub fn read_words(alloc: Global, words: &[String], offered: &[Pass]) -> Result<Invocation, LineFail>
    ensures { Says (line offered.now (map string_bytes words.now)) result }
{
    match normalise(alloc, words, offered) {
        Ok(regular) => read_line(alloc, &regular, offered),
        Err(WordsFail::Reserved) => Err(LineFail::Usage(UsageKind::Words)),
        Err(WordsFail::NoMemory) => Err(LineFail::NoMemory),
    }
}

/// What regular words say. They are those after the program's name, after [`normalise`], and
/// may name the passes of `offered`. They are wrong as in [`read_words`].
#[tactic(auto, unfolding(crate::specs::Line::parse))]
pub fn read_line(alloc: Global, words: &[String], offered: &[Pass]) -> Result<Invocation, LineFail>
    ensures { Says (parse offered.now (map string_bytes words.now)) result }
{
    match find_matches(alloc, words) {
        Ok(matches) => found_command(alloc, &matches, offered),
        Err(fail) => Err(fail),
    }
}

/// The matches that `clap` finds.
fn find_matches<'a>(alloc: Global, words: &'a [String]) -> Result<ArgMatches<'a>, LineFail>
    ensures ok { IfOk result (λ m. (fault_of circt_app (map string_bytes words.entry.now) ≡ []) × (subcommand_rows_of m ≡ subcommand_of circt_app (map string_bytes words.entry.now))) }
    ensures err { IfErr result (IsFault (fault_of circt_app (map string_bytes words.entry.now))) }
{
    match circt_command(alloc) {
        Ok(command) => matches_of(command, words),
        Err(_) => Err(LineFail::NoMemory),
    }
}

/// The matches that `clap` finds by the program's command.
fn matches_of<'a>(command: Command<'a>, words: &'a [String]) -> Result<ArgMatches<'a>, LineFail>
    requires { IsMade circt_app command }
    ensures ok { IfOk result (λ m. (fault_of circt_app (map string_bytes words.entry.now) ≡ []) × (subcommand_rows_of m ≡ subcommand_of circt_app (map string_bytes words.entry.now))) }
    ensures err { IfErr result (IsFault (fault_of circt_app (map string_bytes words.entry.now))) }
{
    match command.try_get_matches_from(words) {
        Ok(matches) => Ok(matches),
        Err(error) => match error.kind() {
            ErrorKind::OutOfMemory => Err(LineFail::NoMemory),
            _ => Err(LineFail::Usage(UsageKind::Words)),
        },
    }
}

/// The command that matches say.
fn found_command(
    alloc: Global,
    matches: &ArgMatches<'_>,
    offered: &[Pass],
) -> Result<Invocation, LineFail>
    ensures { Says (require_subcommand offered.now (subcommand_rows_of matches.now)) result }
{
    match matches.subcommand() {
        Some((name, rows)) => command_in(alloc, name, rows, offered),
        None => Err(LineFail::Usage(UsageKind::Words)),
    }
}

/// The command of a name with its arguments.
fn command_in(
    alloc: Global,
    name: &str,
    matches: &ArgMatches<'_>,
    offered: &[Pass],
) -> Result<Invocation, LineFail>
    ensures { Says (command_in offered.now name.now (rows_of (found_of matches.now))) result }
{
    let Some(workers) = workers_in(matches) else {
        return Err(LineFail::Usage(UsageKind::Words));
    };
    match work_in(alloc, name, matches, offered) {
        Ok(work) => with_files(alloc, matches, work, workers),
        Err(fail) => Err(fail),
    }
}

/// A work with the files that are named, and workers.
fn with_files(
    alloc: Global,
    matches: &ArgMatches<'_>,
    work: Work,
    workers: Workers,
) -> Result<Invocation, LineFail>
    ensures { Says (with_files (rows_of (found_of matches.now)) workers.count (Ok (work_of work))) result }
{
    match files_in(alloc, matches, &work) {
        Ok((inputs, output)) => Ok(Invocation {
            inputs,
            output,
            work,
            workers,
        }),
        Err(_) => Err(LineFail::NoMemory),
    }
}

/// The names of the files that are read for a work, and of the one that is written.
fn files_in(
    alloc: Global,
    matches: &ArgMatches<'_>,
    work: &Work,
) -> Result<(Vec<String>, Option<String>), AllocError>
    ensures { IfOk result (λ f. (map string_bytes f.0.items ≡ inputs_in (rows_of (found_of matches.now)) (work_of work.now)) × (option_map string_bytes f.1 ≡ output_in (rows_of (found_of matches.now)))) }
{
    let output = output_in(alloc, matches)?;
    match inputs_in(alloc, matches, work) {
        Ok(inputs) => Ok((inputs, output)),
        Err(error) => Err(error),
    }
}

/// The names of the files that are read for a work.
fn inputs_in(
    alloc: Global,
    matches: &ArgMatches<'_>,
    work: &Work,
) -> Result<Vec<String>, AllocError>
    ensures { IfOk result (λ v. map string_bytes v.items ≡ inputs_in (rows_of (found_of matches.now)) (work_of work.now)) }
{
    let mut inputs = Vec::new(alloc);
    match work {
        Work::GeneratedSummary(_) | Work::GeneratedVerilog(_) => {}
        Work::Mlir(_)
        | Work::MlirPieces(_)
        | Work::Verilog(_, _)
        | Work::ExportAiger(_)
        | Work::ImportAiger(_) => {
            inputs.push(String::from_str(alloc, input_in(matches))?)?;
        }
        Work::Verdict(_) | Work::ProofCheck | Work::Simulation(_) => {
            inputs.push(String::from_str(alloc, input_in(matches))?)?;
            push_second(alloc, matches, &mut inputs)?;
        }
    }
    Ok(inputs)
}

/// Adds the name of the second file that is read, if one is.
fn push_second(
    alloc: Global,
    matches: &ArgMatches<'_>,
    inputs: &mut Vec<String>,
) -> Result<(), AllocError>
    ensures { OnOk result (map string_bytes inputs.new.items ≡ map string_bytes inputs.old.items ++ cons_option (second_in (rows_of (found_of matches.now))) []) }
{
    if let Some(name) = value(matches, "second-file") {
        inputs.push(String::from_str(alloc, name)?)?;
    }
    Ok(())
}
