//! The error message.
ghost use Rattle.std.specs.Prelude.{◌≡◌, [], ◌∷◌, Err, Ok, OnOk, OnErr, is_ok, option_map};
ghost use Rattle.io_edge.specs.Bytes.{Appends, AppendsPrefix};
ghost use Rattle.io_edge.specs.Faults.{HasCause};
ghost use Rattle.io_edge.specs.Pieces.{Sends};
ghost use Rattle.diag.specs.Puts.{GoesOut};
ghost use Rattle.diag.specs.Line.{IsWithin, operation_of};
ghost use Rattle.circt_top.specs.Ends.{end_of, IsStop, OnOutOfMemory};
ghost use Rattle.circt_top.specs.Answer.{line_of, usage_line, usage_end, shown_output, memory_line, Reports, IsToldAtOnce};
ghost use Rattle.circt_top.specs.Views.{subject_of};

use crate::status::Status;
use command_line::usage::UsageKind;
use diag::line::{display_name, put_three, refusal_text};
use diag::refusal::{OpName, Refusal};
use io_edge::sinks::{Failed, Sink, put_all};
use itoa::Buffer;

/// What the line on a wrong end may name.
#[derive(Clone, Copy)]
pub(crate) struct Subject<'a> {
    /// The name of an input.
    pub(crate) input: &'a str,
    /// What is read of that input. An operation that is not listed stands in it; of a location outside it nothing is shown.
    pub(crate) source: &'a [u8],
    /// The name of the output file; none is standard output.
    pub(crate) output: Option<&'a str>,
}

/// Sends the error message, if anything is wrong. A fault of the sink is let go. It takes no
/// memory.
pub(crate) fn report<E: Sink>(err: &mut E, subject: &Subject<'_>, status: &Status)
    ensures report { Reports E.puts E.told E.faults err.old err.new (line_of (subject_of subject.now) (end_of status.now)) }
    ensures at_once { IsToldAtOnce E.puts (end_of status.now) err.old err.new }
{
    let _ = put_line(err, subject, status);
}

/// An end before any file is read, with its line.
pub fn stop<E: Sink>(err: &mut E, status: Status) -> Status
    requires { IsStop (end_of status) }
    ensures status { result ≡ status }
    ensures report { (subject : _) → Reports E.puts E.told E.faults err.old err.new (line_of subject (end_of status)) }
    ensures at_once { IsToldAtOnce E.puts (end_of status) err.old err.new }
{
    let subject = Subject {
        input: "-",
        source: b"",
        output: None,
    };
    report(err, &subject, &status);
    status
}

// The line, up to the first fault of the sink.
fn put_line<E: Sink>(err: &mut E, subject: &Subject<'_>, status: &Status) -> Result<(), Failed>
    ensures ok { OnOk result (Appends (E.told err.old) (E.told err.new) (line_of (subject_of subject.now) (end_of status.now))) }
    ensures err { OnErr result (AppendsPrefix (E.told err.old) (E.told err.new) (line_of (subject_of subject.now) (end_of status.now))) }
    ensures cause { HasCause (E.faults err.old) (E.faults err.new) result }
    ensures puts { GoesOut E.puts err.old (line_of (subject_of subject.now) (end_of status.now)) (is_ok result) err.new }
    ensures at_once { OnOutOfMemory (end_of status.now) (Sends E.puts err.old (memory_line ∷ []) (is_ok result) err.new) }
{
    match status {
        Status::Done | Status::Different(_) | Status::Unknown(_) => put_all(err, b""),
        Status::Refused(refusal) => {
            let shown = Refusal {
                op: within(refusal.op, subject.source),
                ..*refusal
            };
            refusal_text(err, subject.input, subject.source, &shown)
        }
        Status::Usage(kind) => put_usage(err, *kind),
        Status::ReadFault => {
            let name = display_name(subject.input.as_bytes());
            put_three(err, b"circt: cannot read ", name, b"\n")
        }
        Status::WriteFault => {
            let name = shown_output(subject.output);
            put_three(err, b"circt: cannot write ", name, b"\n")
        }
        Status::NoMemory => put_all(err, b"circt: out of memory\n"),
    }
}

// The line on wrong words, up to the first fault of the sink.
fn put_usage<E: Sink>(err: &mut E, kind: UsageKind) -> Result<(), Failed>
    ensures ok { OnOk result (Appends (E.told err.old) (E.told err.new) (usage_line kind)) }
    ensures err { OnErr result (AppendsPrefix (E.told err.old) (E.told err.new) (usage_line kind)) }
    ensures cause { HasCause (E.faults err.old) (E.faults err.new) result }
    ensures puts { GoesOut E.puts err.old (usage_line kind) (is_ok result) err.new }
{
    match put_all(err, b"circt: usage: ") {
        Ok(()) => {}
        Err(failed) => return Err(failed),
    }
    match put_all(err, kind.text()) {
        Ok(()) => {}
        Err(failed) => return Err(failed),
    }
    put_usage_end(err, kind.offset())
}

// The end of a line on wrong words, up to the first fault of the sink.
fn put_usage_end<E: Sink>(err: &mut E, offset: Option<u64>) -> Result<(), Failed>
    ensures ok { OnOk result (Appends (E.told err.old) (E.told err.new) (usage_end offset)) }
    ensures err { OnErr result (AppendsPrefix (E.told err.old) (E.told err.new) (usage_end offset)) }
    ensures cause { HasCause (E.faults err.old) (E.faults err.new) result }
    ensures puts { GoesOut E.puts err.old (usage_end offset) (is_ok result) err.new }
{
    match offset {
        Some(at) => {
            let mut digits = Buffer::new();
            put_three(err, b" at offset ", digits.format(at).as_bytes(), b"\n")
        }
        None => put_all(err, b"\n"),
    }
}

// The name of an operation as far as it stands in a text.
fn within(op: OpName, source: &[u8]) -> OpName
    ensures is { operation_of result source.now ≡ operation_of op source.now }
    ensures within { IsWithin result source.now }
{
    match op {
        OpName::Other { at, len } => {
            let size = source.len() as u64;
            let start = at.min(size);
            OpName::Other {
                at: start,
                len: len.min(size - start),
            }
        }
        OpName::Listed(_) | OpName::File | OpName::Check | OpName::Sim | OpName::Aiger => op,
    }
}

// The output's name, as the line has it.
fn shown_output<'a>(name: Option<&'a str>) -> &'a [u8]
    ensures { result.now ≡ shown_output (option_map (λ s. s.now) name.entry) }
{
    match name {
        Some(name) => name.as_bytes(),
        None => b"<stdout>",
    }
}
