//! Whether the cases of an example give what is expected.
use crate::cases::{Case, are_labelled_alike, cases, commands};
use crate::circuits::has_circuit;
use crate::runs::{Ended, run};
use crate::simulations::sim_prints;
use crate::steps::{design_runs, run_of, verilog_runs};
use crate::verdicts::do_differ;
use io_edge::file_access::{FileFail, Files};
use std::alloc::{AllocError, Global};
use std::thread::Threads;

// How many bytes of a file are read.
const LIMIT: u64 = 1 << 20;

// What `lec` prints first of modules that differ.
const DIFFERENT: &str = "c1 != c2\n";

// What an error message begins with that says a place of the text.
const REFUSED: &str = "<stdin>:";

/// What is expected of a command.
#[derive(Clone, Copy, PartialEq, Eq)]
enum Expected {
    /// The text that it prints.
    Output,
    /// The text that it prints, which `opt` prints again unchanged.
    StableOutput,
    /// Its error message.
    ErrorMessage,
    /// Its verdict on two modules, each of which takes steps as its circuit in the AIGER format does; or its error message.
    Verdict,
    /// The steps that the text that it prints takes, and `sim` prints of it where that is a design, whose circuit does the same.
    Steps,
}

/// A file beside an example.
struct Expectation {
    /// What its name ends with.
    ending: &'static str,
    /// The command that is run, and what the command of a line begins with that is run in its place.
    command: &'static str,
    begin: &'static str,
    expected: Expected,
}

const EXPECTATIONS: [Expectation; 6] = [
    Expectation {
        ending: ".opt.mlir",
        command: "opt",
        begin: "opt",
        expected: Expected::StableOutput,
    },
    Expectation {
        ending: ".v",
        command: "translate --export-verilog",
        begin: "translate",
        expected: Expected::Output,
    },
    Expectation {
        ending: ".opt.txt",
        command: "opt",
        begin: "opt",
        expected: Expected::ErrorMessage,
    },
    Expectation {
        ending: ".v.txt",
        command: "translate --export-verilog",
        begin: "translate",
        expected: Expected::ErrorMessage,
    },
    Expectation {
        ending: ".lec.txt",
        command: "lec - -c1 p -c2 q",
        begin: "lec",
        expected: Expected::Verdict,
    },
    Expectation {
        ending: ".steps.txt",
        command: "opt",
        begin: "",
        expected: Expected::Steps,
    },
];

/// Checks each case of an example by what is expected beside it and says so. It answers whether there
/// is an expectation, and each case gives what is expected.
pub fn check_example(
    rt: &(impl Print + Threads + Sync),
    alloc: Global,
    files: &mut impl Files,
    name: &str,
) -> anyhow::Result<bool> {
    let Some(example) = text_of(alloc, files, name, ".mlir")? else {
        println!(rt; "{name}: there is no such example")?;
        return Ok(false);
    };
    let Some(sources) = cases(alloc, example.as_str())? else {
        println!(rt; "{name}.mlir: a label is missing or stands twice")?;
        return Ok(false);
    };
    let mut is_well = false;
    for expectation in &EXPECTATIONS {
        if let Some(text) = text_of(alloc, files, name, expectation.ending)? {
            let lines = commands(
                alloc,
                example.as_str(),
                expectation.begin,
                expectation.command,
            )?;
            if !is_as_expected(
                rt,
                alloc,
                expectation,
                name,
                &lines,
                &sources,
                text.as_str(),
            )? {
                return Ok(false);
            }
            is_well = true;
        }
    }
    Ok(is_well)
}

// Whether the text of an expectation has a case of each label, in order, and each case gives by the command of each line what is
// expected. How many do is said.
fn is_as_expected(
    rt: &(impl Print + Threads + Sync),
    alloc: Global,
    expectation: &Expectation,
    name: &str,
    lines: &[String],
    sources: &[Case],
    text: &str,
) -> anyhow::Result<bool> {
    let ending = expectation.ending;
    let wanted = match cases(alloc, text)? {
        Some(wanted) if are_labelled_alike(sources, wanted.as_slice()) => wanted,
        _ => {
            println!(rt; "{name}{ending}: its labels are not those of {name}.mlir, in order")?;
            return Ok(false);
        }
    };
    let met = count_met(rt, alloc, expectation, lines, sources, &wanted)?;
    println!(rt; "{name}{ending}: {met} of {} cases", sources.len())?;
    Ok(met == sources.len())
}

// The text of an example's file of this ending, where it can be read.
fn text_of(
    alloc: Global,
    files: &mut impl Files,
    name: &str,
    ending: &str,
) -> anyhow::Result<Option<String>> {
    let path = format!(in alloc; "{name}{ending}")?;
    match files.read(alloc, path.as_str(), LIMIT) {
        Ok(text) => Ok(Some(String::from_str(alloc, str::from_utf8(text.as_bytes())?)?)),
        Err(FileFail::Failed) => Ok(None),
        Err(FileFail::NoMemory) => Err(AllocError.into()),
    }
}

// How many cases give what is expected of them by the command of each line. Each other one is shown with what it gives.
fn count_met(
    rt: &(impl Print + Threads + Sync),
    alloc: Global,
    expectation: &Expectation,
    lines: &[String],
    sources: &[Case],
    wanted: &[Case],
) -> anyhow::Result<usize> {
    let mut met = 0usize;
    for (source, expected) in sources.iter().zip(wanted) {
        if is_met(
            rt,
            alloc,
            expectation,
            lines,
            source,
            expected.text.as_str(),
        )? {
            met = met.saturating_add(1);
        } else {
            println!(rt; "not as expected: {}", source.label)?;
        }
    }
    Ok(met)
}

// Whether the command of each line gives of a case what is expected, and where that is said of it, `opt` of that the same
// again.
fn is_met(
    rt: &(impl Print + Threads + Sync),
    alloc: Global,
    expectation: &Expectation,
    lines: &[String],
    source: &Case,
    wanted: &str,
) -> anyhow::Result<bool> {
    let text = source.text.as_str();
    let expected = expectation.expected;
    let mut is_met = expected != Expected::StableOutput
        || is_given(rt, alloc, expected, "opt", wanted, wanted)?;
    for line in lines {
        is_met &= is_given(rt, alloc, expected, line.as_str(), text, wanted)?;
    }
    Ok(is_met)
}

// Whether the command of a line gives of a text what is expected. If not, what it gives is shown.
fn is_given(
    rt: &(impl Print + Threads + Sync),
    alloc: Global,
    expected: Expected,
    line: &str,
    source: &str,
    wanted: &str,
) -> anyhow::Result<bool> {
    let ended = run(rt, alloc, line, source)?;
    let is_given = match expected {
        Expected::Output | Expected::StableOutput => ended.is(0, wanted, ""),
        Expected::ErrorMessage => ended.is(1, "", wanted),
        Expected::Verdict if wanted.starts_with(REFUSED) => ended.is(1, "", wanted),
        Expected::Verdict => {
            is_verdict(alloc, &ended, source, wanted)? && have_circuits(rt, alloc, source)?
        }
        Expected::Steps => takes_steps(rt, alloc, &ended, line, wanted)?,
    };
    if !is_given {
        let out = String::from_utf8_lossy(alloc, ended.out.contents())?;
        let err = String::from_utf8_lossy(alloc, ended.err.contents())?;
        println!(rt;
            "{line}: status {} of:\n{source}gives:\n{out}{err}",
            ended.code
        )?;
    }
    Ok(is_given)
}

// Whether a run ended with this verdict on modules `p` and `q` of a text; if that is that they differ, they do at the words that are
// printed.
fn is_verdict(alloc: Global, ended: &Ended, source: &str, wanted: &str) -> anyhow::Result<bool> {
    if wanted != DIFFERENT {
        return Ok(ended.is(0, wanted, ""));
    }
    let out = str::from_utf8(ended.out.contents())?;
    let is_different = ended.code == 3 && ended.err.contents().is_empty();
    Ok(is_different && out.starts_with(DIFFERENT) && do_differ(alloc, source, out)?)
}

// Whether modules `p` and `q` of a text are each exported in the AIGER format as a circuit that does the same.
fn have_circuits(rt: &(impl Threads + Sync), alloc: Global, source: &str) -> anyhow::Result<bool> {
    Ok(has_circuit(rt, alloc, source, "p")? && has_circuit(rt, alloc, source, "q")?)
}

// Whether a run of a line's command ended well with a text that takes these steps.
fn takes_steps(
    rt: &(impl Threads + Sync),
    alloc: Global,
    ended: &Ended,
    line: &str,
    wanted: &str,
) -> anyhow::Result<bool> {
    let Some(run) = run_of(alloc, wanted)? else {
        return Ok(false);
    };
    let text = str::from_utf8(ended.out.contents())?;
    if ended.code != 0 || !ended.err.contents().is_empty() {
        return Ok(false);
    }
    if line.starts_with("opt") {
        Ok(
            design_runs(alloc, text, &run)?
                && sim_prints(rt, alloc, text, wanted)?
                && has_circuit(rt, alloc, text, run.top())?,
        )
    } else {
        Ok(verilog_runs(alloc, text, &run)?)
    }
}
