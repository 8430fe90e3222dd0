//! Lines of words for the program, and what each of them says.
use command_line::invocation::{Invocation, LineFail, Work, read_line};
use command_line::usage::UsageKind;
use lowering_options::lowering::Lowering;
use pass_pipeline::pass::Pass;
use std::alloc::{AllocError, Global};
use std::process::Abort;
use std::test::Fail;

/// All passes.
pub const ALL: [Pass; 6] = [
    Pass::Canonicalize,
    Pass::Cse,
    Pass::SeqLowerRegs,
    Pass::HwLowerAggregates,
    Pass::HwFlattenModules,
    Pass::SymbolDce,
];

/// What a line says. No value holds a reference, so that a table of lines takes no step where it is used.
pub enum Said {
    /// It is no command, for this reason.
    Wrong(UsageKind),
    /// It is a command.
    Command,
    /// A command for so many workers.
    Workers(u32),
    /// A command that asks for no pass.
    NoPass,
    /// A command that asks for one.
    OnePass(Pass),
    /// A command that asks for two.
    TwoPasses(Pass, Pass),
    /// A command for work on the pieces of the input, or for other work.
    Pieces(bool),
    /// A command for Verilog with zero extensions as their operand alone where they may be, or with all zeros.
    Bare(bool),
    /// A command for a text in the AIGER format.
    ToAiger,
    /// A command for the design of one.
    FromAiger,
    /// A command for the summary of a design that is generated without an input.
    Summary { seed: u32, count: u32 },
    /// A command for Verilog of one.
    Verilog { seed: u32, count: u32 },
}

/// Whether names are these.
pub fn are_names(names: &[String], wanted: &[&str]) -> bool {
    if names.len() != wanted.len() {
        return false;
    }
    for (name, other) in names.iter().zip(wanted) {
        if name.as_str() != *other {
            return false;
        }
    }
    true
}

/// The words of a line, which blanks part.
pub fn words_of(alloc: Global, line: &str) -> Result<Vec<String>, AllocError> {
    let mut words = Vec::new(alloc);
    for word in line.split(' ') {
        words.push(String::from_str(alloc, word)?)?;
    }
    Ok(words)
}

// Whether a work is on these passes.
fn is_on(work: &Work, passes: &[Pass]) -> bool {
    match work {
        Work::Mlir(given)
        | Work::MlirPieces(given)
        | Work::Verilog(given, _)
        | Work::ExportAiger(given)
        | Work::ImportAiger(given) => given.as_slice() == passes,
        Work::GeneratedSummary(_)
        | Work::GeneratedVerilog(_)
        | Work::Verdict(_)
        | Work::ProofCheck
        | Work::Simulation(_) => false,
    }
}

// Whether a work is on the pieces of the input.
fn is_on_pieces(work: &Work) -> bool {
    match work {
        Work::MlirPieces(_) => true,
        _ => false,
    }
}

// Whether a work is Verilog with zero extensions as their operand alone where they may be, or with all zeros.
fn is_written(work: &Work, bare: bool) -> bool {
    match work {
        Work::Verilog(_, Lowering::ImplicitExtension) => bare,
        Work::Verilog(_, Lowering::Plain) => !bare,
        _ => false,
    }
}

// Whether a work is a text in the AIGER format.
fn is_to_aiger(work: &Work) -> bool {
    match work {
        Work::ExportAiger(_) => true,
        _ => false,
    }
}

// Whether a work is the design of a text in the AIGER format.
fn is_from_aiger(work: &Work) -> bool {
    match work {
        Work::ImportAiger(_) => true,
        _ => false,
    }
}

// Whether an invocation without an input is for the summary of a design.
fn is_summary(invocation: &Invocation, seed: u32, count: u32) -> bool {
    match &invocation.work {
        Work::GeneratedSummary(recipe) => {
            invocation.inputs.is_empty() && (recipe.seed == seed && recipe.count == count)
        }
        _ => false,
    }
}

// Whether an invocation without an input is for Verilog of a generated design.
fn is_verilog(invocation: &Invocation, seed: u32, count: u32) -> bool {
    match &invocation.work {
        Work::GeneratedVerilog(recipe) => {
            invocation.inputs.is_empty() && (recipe.seed == seed && recipe.count == count)
        }
        _ => false,
    }
}

// Whether a command is what a line says.
fn is_command(invocation: &Invocation, said: &Said) -> bool {
    match said {
        Said::Wrong(_) => false,
        Said::Command => true,
        Said::Workers(count) => invocation.workers.count == *count,
        Said::NoPass => is_on(&invocation.work, &[]),
        Said::OnePass(pass) => is_on(&invocation.work, &[*pass]),
        Said::TwoPasses(first, second) => is_on(&invocation.work, &[*first, *second]),
        Said::Pieces(are_pieces) => is_on_pieces(&invocation.work) == *are_pieces,
        Said::Bare(bare) => is_written(&invocation.work, *bare),
        Said::ToAiger => is_to_aiger(&invocation.work),
        Said::FromAiger => is_from_aiger(&invocation.work),
        Said::Summary { seed, count } => is_summary(invocation, *seed, *count),
        Said::Verilog { seed, count } => is_verilog(invocation, *seed, *count),
    }
}

// Whether a line is wrong for this reason.
fn is_wrong(kind: UsageKind, said: &Said) -> bool {
    match said {
        Said::Wrong(wanted) => kind == *wanted,
        _ => false,
    }
}

/// The command of a line where these passes are on offer, or what is wrong with it.
pub fn invocation_of(
    alloc: Global,
    line: &str,
    offered: &[Pass],
) -> Result<Result<Invocation, UsageKind>, AllocError> {
    let words = words_of(alloc, line)?;
    match read_line(alloc, words.as_slice(), offered) {
        Ok(invocation) => Ok(Ok(invocation)),
        Err(LineFail::Usage(kind)) => Ok(Err(kind)),
        Err(LineFail::NoMemory) => Err(AllocError),
    }
}

// Whether a line says this.
fn says(alloc: Global, line: &str, offered: &[Pass], said: &Said) -> Result<bool, AllocError> {
    match invocation_of(alloc, line, offered)? {
        Ok(invocation) => Ok(is_command(&invocation, said)),
        Err(kind) => Ok(is_wrong(kind, said)),
    }
}

// The first line that says something else.
fn first_other(
    alloc: Global,
    rows: &[(&'static str, Said)],
    offered: &[Pass],
) -> Result<Option<&'static str>, AllocError> {
    for (line, said) in rows {
        if !says(alloc, line, offered, said)? {
            return Ok(Some(line));
        }
    }
    Ok(None)
}

/// Stops a test where there is a first line that differs.
pub fn none_differs(
    rt: &impl Abort,
    first: Result<Option<&'static str>, AllocError>,
) -> Result<(), Fail> {
    assert_eq!(rt; first?, None);
    Ok(())
}

/// Stops a test at the first line that says something else where these passes are on offer.
pub fn all_say(
    alloc: Global,
    rt: &impl Abort,
    rows: &[(&'static str, Said)],
    offered: &[Pass],
) -> Result<(), Fail> {
    none_differs(rt, first_other(alloc, rows, offered))
}
