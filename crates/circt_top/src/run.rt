//! The top call.
ghost use Rattle.std.specs.Prelude.{◌≡◌, ◌⊎◌, ℕ, List, Some, None, Ok, Err, map, string_bytes, option_map};
ghost use Rattle.io_edge.specs.declared.file_access.FileFail.TheVariants as fail;
ghost use Rattle.command_line.specs.Line.{files_before};
ghost use Rattle.command_line.specs.Invocations.{command_of, Says};
ghost use Rattle.circt_top.specs.Words.{line, fault_of, ForCommand};
ghost use Rattle.circt_top.specs.Inputs.{AreContents, IsOneMissing, IsOneRisen, ReadsThen, OnFault, unread_end, name_at, bytes_at};
ghost use Rattle.circt_top.specs.ReadOrder.{IsFirstUnread, IsFirstUnwritten, IsUnwrittenFrom, WritesAt, ReadsAt, ReadsFor};
ghost use Rattle.circt_top.specs.Outcome.{Verdict, Texts, IsAnswer, IsAnswered, verdict_of};
ghost use Rattle.circt_top.specs.Outcome.Answer.{prints, refuses};
ghost use Rattle.circt_top.specs.Delivery.{HasWriteFault};
ghost use Rattle.circt_top.specs.Ends.End.{answered};
ghost use Rattle.circt_top.specs.Ends.{end_of, usage_of, OnAnswered, OnRefused, OnReadFault, OnWriteFault, Unwritten, IsUsage, IsAnsweredOrNoMemory, IsReadFaultOrNoMemory, IsRefusedOrNoMemory, IsWorked};
ghost use Rattle.circt_top.specs.Answer.{IsMadeOf, IsRefusalOf, Delivers, DeliversPrefix, Starves, StarvesWith, line_of, Reports, ReportsEnd, IsSubject, IsToldAtOnce};
ghost use Rattle.circt_top.specs.Answer as answer;
ghost use Rattle.circt_top.specs.Views.{subject_of};

use crate::delivery::{Delivery, deliver};
use crate::inputs::{Unread, read_inputs};
use crate::made::{Finding, Made, OutcomeFail};
use crate::outcome::outcome;
use crate::report::{Subject, report, stop};
use crate::status::Status;
use crate::translation::Means;
use command_line::invocation::{Invocation, LineFail, read_words};
use io_edge::byte_text::Text;
use io_edge::file_access::Files;
use io_edge::sinks::Sink;
use pass_manager::gate::Gate;
use pass_pipeline::pass::Pass;
use std::alloc::Global;
use std::thread::Threads;

/// The end of a run on inputs that were read.
#[derive(Drop)]
struct Ended<'a> {
    /// How it ended.
    status: Status,
    /// The file of this name, or, without one, the output could not be written, where that is how it ended.
    unwritten: Option<&'a str>,
}

impl<'a> Ended<'a> {
    /// An end at which nothing is named that could not be written.
    fn with(status: Status) -> Ended<'a>
        ensures { result.status ≡ status }
    {
        Ended {
            status,
            unwritten: None,
        }
    }
}

/// The passes that words may name.
const PASSES_ON_OFFER: [Pass; 6] = [
    Pass::Canonicalize,
    Pass::Cse,
    Pass::SeqLowerRegs,
    Pass::HwLowerAggregates,
    Pass::HwFlattenModules,
    Pass::SymbolDce,
];

/// Runs the program: `words` are those after its name, `files` are read and written by name (`-` is
/// standard input), the output goes to `out` or to the file of `-o`, and an error message of one line
/// goes to `err`. `gate` is told of each module before a pass works on it.
///
/// `opt [FILE] [-o FILE]` reads FILE and prints its design as MLIR text, and
/// `translate [FILE] --export-verilog [-o FILE]` prints it as Verilog, each of the design that the
/// passes of `--canonicalize`, `--cse`, `--seq-lower-regs`, `--hw-flatten-modules`, `--symbol-dce` or of
/// `--pass-pipeline=TEXT` make, if it is given, by `--workers N` workers (1 to 64; 4 where nothing is said, one with
/// `--mlir-disable-threading`). `translate [FILE] --import-aiger [-o FILE]` reads a text in the AIGER format and prints what such passes make
/// of the design that it says as MLIR text. `translate [FILE] --export-aiger [-o FILE]` prints a text in the AIGER format of the one public module of what
/// such passes make of the design of FILE. With `--lowering-options=implicitExtension` Verilog has zero extensions as their operand alone where
/// the context gives the full width. `opt --split-input-file` prints the MLIR text of each
/// piece of FILE between the lines that are `// -----`, and joins the texts by such lines.
/// `gen SEED N [--verilog] [-o FILE]` prints a summary, or the Verilog, of a design of N modules (1 to 10,000) that is generated from
/// a seed. `lec FILE [FILE] -c1 NAME -c2 NAME [--conflict-limit N]` prints `c1 == c2` where the module of the first name, of the first
/// FILE, and that of the second name, of the last FILE, agree; `c1 != c2` and values of inputs and registers where they differ,
/// with [`Status::Different`]; and `unknown` where N clauses (a million where nothing is said) were learnt without an answer, with
/// [`Status::Unknown`]. With `--proof FILE`, where they agree, a formula and the proof that refutes it are written to `FILE.cnf` (DIMACS CNF)
/// and `FILE` (LRAT) before that. `check CNF PROOF` prints `verified` where the second file is such a proof over the formula
/// of the first one. `sim FILE STEPS --top NAME` prints the outputs of a run of the module of that name, a line a step, from the content and
/// with the inputs that STEPS says. All other words are answered by [`Status::Usage`]. A fault of `err` changes no status.
pub fn run_circt<R: Threads + Sync, F: Files, O: Sink, E: Sink, G: Gate + Copy + Send>(
    rt: &R,
    alloc: Global,
    words: &[String],
    files: &mut F,
    out: &mut O,
    err: &mut E,
    gate: &G,
) -> Status
    ensures usage { IsUsage (end_of result) (fault_of (map string_bytes words.now)) }
    ensures refused { OnRefused (end_of result) (λ r. ForCommand (map string_bytes words.now) (λ c. IsRefusalOf c (F.files files.old) r)) }
    ensures refused_as_read { OnRefused (end_of result) (λ r. ForCommand (map string_bytes words.now) (λ c. ReadsThen F.reads F.files files.old c.inputs (λ opened sources. IsAnswer c.work sources (refuses r)))) }
    ensures read_fault { OnReadFault (end_of result) (ForCommand (map string_bytes words.now) (λ c. IsOneRisen (F.read_faults files.old) (F.read_faults files.new) c.inputs)) }
    ensures write_fault { OnWriteFault (end_of result) (ForCommand (map string_bytes words.now) (λ c. HasWriteFault (files_before c.work) c.output (O.faults out.old) (O.faults out.new) (F.write_faults files.old) (F.write_faults files.new))) }
    ensures unwritten { Unwritten (end_of result) ((out.new ≡ out.old) × (F.files files.new ≡ F.files files.old)) ((out.new ≡ out.old) × ((F.files files.new ≡ F.files files.old) ⊎ ForCommand (map string_bytes words.now) (λ c. Starves F.reads F.writes F.files c files.old files.new))) }
    ensures read_once { ReadsFor F.reads F.files F.writes (map string_bytes words.now) (end_of result) files.old files.new }
    ensures done { OnAnswered (end_of result) (λ verdict. ForCommand (map string_bytes words.now) (λ c. (made : Texts) × ReadsThen F.reads F.files files.old c.inputs (λ opened sources. Delivers F.writes F.files O.puts O.told c.output opened files.new out.old out.new made × IsAnswer c.work sources (prints verdict made)) × IsMadeOf c (F.files files.old) verdict made)) }
    ensures prefix { OnWriteFault (end_of result) (ForCommand (map string_bytes words.now) (λ c. (verdict : Verdict) × (made : Texts) × ReadsThen F.reads F.files files.old c.inputs (λ opened sources. DeliversPrefix F.writes F.files O.puts O.told c.output opened files.new out.old out.new made × IsAnswer c.work sources (prints verdict made)) × IsMadeOf c (F.files files.old) verdict made)) }
    ensures complete { (c : _) → line (map string_bytes words.now) ≡ Ok c → (contents : List (List ℕ)) → AreContents (F.files files.old) c.inputs contents → IsAnswered c.work contents
        → ¬ IsOneRisen (F.read_faults files.old) (F.read_faults files.new) c.inputs
        → ¬ HasWriteFault (files_before c.work) c.output (O.faults out.old) (O.faults out.new) (F.write_faults files.old) (F.write_faults files.new)
        → IsAnsweredOrNoMemory (end_of result) }
    ensures refusing { (c : _) → line (map string_bytes words.now) ≡ Ok c → (contents : List (List ℕ)) → AreContents (F.files files.old) c.inputs contents → ¬ IsAnswered c.work contents
        → ¬ IsOneRisen (F.read_faults files.old) (F.read_faults files.new) c.inputs
        → IsRefusedOrNoMemory (end_of result) }
    ensures missing { (c : _) → line (map string_bytes words.now) ≡ Ok c → IsOneMissing (F.files files.old) c.inputs → IsReadFaultOrNoMemory (end_of result) }
    ensures report { ReportsEnd E.puts E.told E.faults (map string_bytes words.now) (IsFirstUnread F.reads F.files F.read_faults files.old files.new) (IsUnwrittenFrom F.reads F.files F.writes files.old files.new) (F.files files.old) (end_of result) err.old err.new }
    ensures silent { OnAnswered (end_of result) (λ verdict. err.new ≡ err.old) }
    ensures at_once { IsToldAtOnce E.puts (end_of result) err.old err.new }
{
    match read_command(alloc, words) {
        Ok(invocation) => run_on(rt, alloc, &invocation, files, out, err, gate),
        Err(LineFail::Usage(kind)) => stop(err, Status::Usage(kind)),
        Err(LineFail::NoMemory) => stop(err, Status::NoMemory),
    }
}

// What the words say.
fn read_command(alloc: Global, words: &[String]) -> Result<Invocation, LineFail>
    ensures { Says (line (map string_bytes words.now)) result }
{
    read_words(alloc, words, &PASSES_ON_OFFER)
}

// The run of a command.
fn run_on<R: Threads + Sync, F: Files, O: Sink, E: Sink, G: Gate + Copy + Send>(
    rt: &R,
    alloc: Global,
    invocation: &Invocation,
    files: &mut F,
    out: &mut O,
    err: &mut E,
    gate: &G,
) -> Status
    ensures refused { OnRefused (end_of result) (IsRefusalOf (command_of invocation.now) (F.files files.old)) }
    ensures refused_as_read { OnRefused (end_of result) (λ r. ReadsThen F.reads F.files files.old (command_of invocation.now).inputs (λ opened sources. IsAnswer (command_of invocation.now).work sources (refuses r))) }
    ensures read_fault { OnReadFault (end_of result) (IsOneRisen (F.read_faults files.old) (F.read_faults files.new) (command_of invocation.now).inputs) }
    ensures write_fault { OnWriteFault (end_of result) (HasWriteFault (files_before (command_of invocation.now).work) (command_of invocation.now).output (O.faults out.old) (O.faults out.new) (F.write_faults files.old) (F.write_faults files.new)) }
    ensures unwritten { Unwritten (end_of result) ((out.new ≡ out.old) × (F.files files.new ≡ F.files files.old)) ((out.new ≡ out.old) × ((F.files files.new ≡ F.files files.old) ⊎ Starves F.reads F.writes F.files (command_of invocation.now) files.old files.new)) }
    ensures read_once { ReadsAt F.reads F.files F.writes (end_of result) (command_of invocation.now) files.old files.new }
    ensures done { OnAnswered (end_of result) (λ verdict. (made : Texts) × ReadsThen F.reads F.files files.old (command_of invocation.now).inputs (λ opened sources. Delivers F.writes F.files O.puts O.told (command_of invocation.now).output opened files.new out.old out.new made × IsAnswer (command_of invocation.now).work sources (prints verdict made)) × IsMadeOf (command_of invocation.now) (F.files files.old) verdict made) }
    ensures prefix { OnWriteFault (end_of result) ((verdict : Verdict) × (made : Texts) × ReadsThen F.reads F.files files.old (command_of invocation.now).inputs (λ opened sources. DeliversPrefix F.writes F.files O.puts O.told (command_of invocation.now).output opened files.new out.old out.new made × IsAnswer (command_of invocation.now).work sources (prints verdict made)) × IsMadeOf (command_of invocation.now) (F.files files.old) verdict made) }
    ensures missing { IsOneMissing (F.files files.old) (command_of invocation.now).inputs → IsReadFaultOrNoMemory (end_of result) }
    ensures no_usage { usage_of (end_of result) ≡ None }
    ensures report { (s : answer.Subject) × IsSubject (IsFirstUnread F.reads F.files F.read_faults files.old files.new) (IsUnwrittenFrom F.reads F.files F.writes files.old files.new) (F.files files.old) (end_of result) (command_of invocation.now) s × Reports E.puts E.told E.faults err.old err.new (line_of s (end_of result)) }
    ensures silent { OnAnswered (end_of result) (λ verdict. err.new ≡ err.old) }
    ensures at_once { IsToldAtOnce E.puts (end_of result) err.old err.new }
{
    let sources = match read_inputs(alloc, invocation.inputs.as_slice(), files) {
        Ok(sources) => sources,
        Err(unread) => return report_unread(err, unread),
    };
    let ended = answer(rt, alloc, invocation, sources.as_slice(), files, out, gate);
    report(
        err,
        &subject_of(invocation, sources.as_slice(), &ended),
        &ended.status,
    );
    ended.status
}

// The end of a run of which an input was not read, with its line.
fn report_unread<E: Sink>(err: &mut E, unread: Unread<'_>) -> Status
    ensures status { end_of result ≡ unread_end unread.entry }
    ensures report { (s : answer.Subject) × OnFault unread.entry (λ name. s.input ≡ name) × Reports E.puts E.told E.faults err.old err.new (line_of s (unread_end unread.entry)) }
    ensures at_once { IsToldAtOnce E.puts (unread_end unread.entry) err.old err.new }
{
    match unread {
        Unread::Fault(name) => {
            report(err, &unread_subject(name), &Status::ReadFault);
            Status::ReadFault
        }
        Unread::NoMemory => stop(err, Status::NoMemory),
    }
}

// What the line on an input names that could not be read.
fn unread_subject(name: &str) -> Subject<'_>
    ensures { (subject_of result).input ≡ name.entry.now }
{
    Subject {
        input: name,
        source: b"",
        output: None,
    }
}

// What the line on the end of a command names.
fn subject_of<'a>(invocation: &'a Invocation, sources: &'a [Text], ended: &Ended<'a>) -> Subject<'a>
    ensures refused { OnRefused (end_of ended.now.status) (λ r. ((subject_of result).input ≡ name_at r.file (command_of invocation.entry.now).inputs) × ((subject_of result).source ≡ bytes_at r.file sources.entry.now)) }
    ensures unwritten { (subject_of result).output ≡ option_map (λ n. n.now) ended.now.unwritten }
{
    let (input, source) = match &ended.status {
        Status::Refused(refusal) => (
            name_at(refusal.file, invocation.inputs.as_slice()),
            bytes_at(refusal.file, sources),
        ),
        _ => ("-", b"".as_slice()),
    };
    Subject {
        input,
        source,
        output: ended.unwritten,
    }
}

// The name of the output file; none is standard output.
fn output_name<'a>(invocation: &'a Invocation) -> Option<&'a str>
    ensures { option_map (λ s. s.now) result ≡ (command_of invocation.entry.now).output }
{
    match &invocation.output {
        Some(name) => Some(name),
        None => None,
    }
}

// The name of the input of this number.
fn name_at(number: u32, names: &[String]) -> &str
    ensures { result.now ≡ name_at number (map string_bytes names.now) }
{
    match names.get(number as usize) {
        Some(name) => name,
        None => "-",
    }
}

// What is read of the input of this number.
fn bytes_at(number: u32, sources: &[Text]) -> &[u8]
    ensures { result.now ≡ bytes_at number sources.now }
{
    match sources.get(number as usize) {
        Some(source) => source.as_bytes(),
        None => b"",
    }
}

// The run on the texts of the inputs.
fn answer<'a, R: Threads + Sync, F: Files, O: Sink, G: Gate + Copy + Send>(
    rt: &R,
    alloc: Global,
    invocation: &'a Invocation,
    sources: &[Text],
    files: &mut F,
    out: &mut O,
    gate: &G,
) -> Ended<'a>
    ensures refused { OnRefused (end_of result.status) (λ r. IsAnswer (command_of invocation.entry.now).work sources.now (refuses r)) }
    ensures write_fault { OnWriteFault (end_of result.status) (HasWriteFault (files_before (command_of invocation.entry.now).work) (command_of invocation.entry.now).output (O.faults out.old) (O.faults out.new) (F.write_faults files.old) (F.write_faults files.new)) }
    ensures unwritten { Unwritten (end_of result.status) ((out.new ≡ out.old) × (F.files files.new ≡ F.files files.old)) ((out.new ≡ out.old) × ((F.files files.new ≡ F.files files.old) ⊎ StarvesWith F.writes F.files (command_of invocation.entry.now) sources.now files.old files.new)) }
    ensures written { WritesAt F.writes (end_of result.status) (command_of invocation.entry.now) files.old files.new }
    ensures target { OnWriteFault (end_of result.status) (IsFirstUnwritten F.writes fail.Failed (command_of invocation.entry.now) files.old files.new (option_map (λ n. n.now) result.unwritten)) }
    ensures done { OnAnswered (end_of result.status) (λ verdict. (made : Texts) × Delivers F.writes F.files O.puts O.told (command_of invocation.entry.now).output files.old files.new out.old out.new made × IsAnswer (command_of invocation.entry.now).work sources.now (prints verdict made)) }
    ensures prefix { OnWriteFault (end_of result.status) ((verdict : Verdict) × (made : Texts) × DeliversPrefix F.writes F.files O.puts O.told (command_of invocation.entry.now).output files.old files.new out.old out.new made × IsAnswer (command_of invocation.entry.now).work sources.now (prints verdict made)) }
    ensures reads { F.read_faults files.new ≡ F.read_faults files.old }
    ensures kinds { IsWorked (end_of result.status) }
{
    let means = Means {
        rt,
        alloc,
        workers: invocation.workers,
        gate,
    };
    match outcome(&means, &invocation.work, sources) {
        Ok(made) => match deliver(alloc, &made, output_name(invocation), files, out) {
            Delivery::Whole => Ended::with(status_of(made)),
            Delivery::Fault(unwritten) => Ended {
                status: Status::WriteFault,
                unwritten,
            },
            Delivery::NoMemory => Ended::with(Status::NoMemory),
        },
        Err(OutcomeFail::Refused(refusal)) => Ended::with(Status::Refused(refusal)),
        Err(OutcomeFail::NoMemory) => Ended::with(Status::NoMemory),
    }
}

// The status of a run of which this went out.
fn status_of(made: Made<'_>) -> Status
    ensures { end_of result ≡ answered (verdict_of made.entry.finding) }
{
    let Made { finding, .. } = made;
    match finding {
        Finding::Given => Status::Done,
        Finding::Different(input) => Status::Different(input),
        Finding::Unknown(log) => Status::Unknown(log),
    }
}
