//! What the arguments of a command say, one by one.
ghost use Rattle.std.specs.Prelude.{◌≡◌, IfOk, IfSome, ◌≤◌, string_bytes, option_map, codes};
ghost use Rattle.clap.specs.Words.{found_of, rows_of, first_of};
ghost use Rattle.command_line.specs.Line.{input_in, output_in, is_given_twice, number_in, limit_in, name_in, is_dash, is_stdin_twice, is_flagged, workers_said, workers_in, lowering_in};

use crate::numbers::number_between;
use crate::workers::Workers;
use clap::ArgMatches;
use lowering_options::lowering::Lowering;
use std::alloc::{AllocError, Global};

/// How many clauses may be learnt where nothing is said.
const USUAL_LIMIT: u64 = 1_000_000;

/// How many workers are to work modules: as many as are said, or the usual number; one where threads are not wanted.
pub(crate) fn workers_in(matches: &ArgMatches<'_>) -> Option<Workers>
    ensures { option_map (λ w. w.count) result ≡ workers_in (rows_of (found_of matches.now)) }
{
    let workers = workers_said(matches)?;
    if is_flagged(matches, "mlir-disable-threading") {
        Some(Workers::one())
    } else {
        Some(workers)
    }
}

/// As many as are said, or the usual number.
fn workers_said(matches: &ArgMatches<'_>) -> Option<Workers>
    ensures { option_map (λ w. w.count) result ≡ workers_said (first_of (codes "workers") (rows_of (found_of matches.now))) }
{
    match value(matches, "workers") {
        Some(text) => Workers::read(text),
        None => Some(Workers::usual()),
    }
}

/// The number from `least` to `most` that an argument says.
pub(crate) fn number_in(matches: &ArgMatches<'_>, id: &str, least: u64, most: u64) -> Option<u64>
    ensures is { result ≡ number_in least most (first_of id.now (rows_of (found_of matches.now))) }
    ensures least { IfSome result (λ n. least ≤ n) }
    ensures most { IfSome result (λ n. n ≤ most) }
{
    match value(matches, id) {
        Some(text) => number_between(text, least, most),
        None => None,
    }
}

/// How many clauses may be learnt.
pub(crate) fn limit_in(matches: &ArgMatches<'_>) -> Option<u64>
    ensures is { result ≡ limit_in (first_of (codes "conflict-limit") (rows_of (found_of matches.now))) }
    ensures some { IfSome result (λ n. 1 ≤ n) }
{
    match value(matches, "conflict-limit") {
        Some(text) => number_between(text, 1, u64::MAX),
        None => Some(USUAL_LIMIT),
    }
}

/// The way in which Verilog is written, if it is known.
pub(crate) fn lowering_in(matches: &ArgMatches<'_>) -> Option<Lowering>
    ensures { result ≡ lowering_in (first_of (codes "lowering-options") (rows_of (found_of matches.now))) }
{
    match value(matches, "lowering-options") {
        Some(text) => Lowering::named(text),
        None => Some(Lowering::Plain),
    }
}

/// The value of an argument that is asked for.
pub(crate) fn name_in<'a>(matches: &ArgMatches<'a>, id: &str) -> &'a str
    ensures { result.now ≡ name_in (first_of id.now (rows_of (found_of matches.now))) }
{
    value(matches, id).unwrap_or("")
}

/// Whether standard input is named twice.
pub(crate) fn is_stdin_twice(matches: &ArgMatches<'_>) -> bool
    ensures { result ≡ is_stdin_twice (rows_of (found_of matches.now)) }
{
    input_in(matches) == "-" && is_dash(value(matches, "second-file"))
}

/// Whether a name is that of standard input.
fn is_dash(name: Option<&str>) -> bool
    ensures { result ≡ is_dash (option_map (λ s. s.now) name.entry) }
{
    match name {
        Some(name) => name == "-",
        None => false,
    }
}

/// Whether passes are given both by flags and by a pipeline.
pub(crate) fn is_given_twice(matches: &ArgMatches<'_>) -> bool
    ensures { result ≡ is_given_twice (rows_of (found_of matches.now)) }
{
    value(matches, "passes").is_some() && value(matches, "pass-pipeline").is_some()
}

/// The name of the file that is read.
pub(crate) fn input_in<'a>(matches: &ArgMatches<'a>) -> &'a str
    ensures { result.now ≡ input_in (rows_of (found_of matches.now)) }
{
    value(matches, "file").unwrap_or("-")
}

/// The name of the file that is written, if one is.
pub(crate) fn output_in(
    alloc: Global,
    matches: &ArgMatches<'_>,
) -> Result<Option<String>, AllocError>
    ensures { IfOk result (λ o. option_map string_bytes o ≡ output_in (rows_of (found_of matches.now))) }
{
    match named_output(matches) {
        Some(name) => Ok(Some(String::from_str(alloc, name)?)),
        None => Ok(None),
    }
}

/// The name after `-o`, but for `-`.
fn named_output<'a>(matches: &ArgMatches<'a>) -> Option<&'a str>
    ensures { option_map (λ s. s.now) result ≡ output_in (rows_of (found_of matches.now)) }
{
    value(matches, "output").filter(|name| *name != "-")
}

/// Whether a flag is given.
pub(crate) fn is_flagged(matches: &ArgMatches<'_>, id: &str) -> bool
    ensures { result ≡ is_flagged id.now (rows_of (found_of matches.now)) }
{
    match value(matches, id) {
        Some(text) => text == "true",
        None => false,
    }
}

/// The value of an argument.
pub(crate) fn value<'a>(matches: &ArgMatches<'a>, id: &str) -> Option<&'a str>
    ensures { option_map (λ s. s.now) result ≡ first_of id.now (rows_of (found_of matches.now)) }
{
    matches.get_str(id)
}
