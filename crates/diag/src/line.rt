//! The line that says what is refused.
ghost use Rattle.std.specs.Prelude.{◌≡◌, ◌++◌, OnOk, OnErr, is_ok};
ghost use Rattle.io_edge.specs.Bytes.{Appends, AppendsPrefix};
ghost use Rattle.io_edge.specs.Faults.{HasCause};
ghost use Rattle.diag.specs.Puts.{GoesOut};
ghost use Rattle.diag.specs.Line.{operation_of, shown_name, refusal_line, IsWithin};

use crate::refusal::{OpName, Refusal};
use io_edge::sinks::{Failed, Sink, put_all};
use itoa::Buffer;

/// Sends the line of a refusal: `NAME:LINE:COL: error: 'OPERATION' CODE: TEXT`, and the end of the
/// line. `name` is the file's, of which `-` is shown as `<stdin>`, and `source` is the text in which
/// an operation that is not listed stands. It takes no memory, and fails exactly as the sink does:
/// a prefix of the line was sent then.
pub fn refusal_text<S: Sink>(
    sink: &mut S,
    name: &str,
    source: &[u8],
    r: &Refusal,
) -> Result<(), Failed>
    requires { IsWithin r.now.op source.now }
    ensures ok { OnOk result (Appends (S.told sink.old) (S.told sink.new) (refusal_line name.now source.now r.now)) }
    ensures err { OnErr result (AppendsPrefix (S.told sink.old) (S.told sink.new) (refusal_line name.now source.now r.now)) }
    ensures cause { HasCause (S.faults sink.old) (S.faults sink.new) result }
    ensures puts { GoesOut S.puts sink.old (refusal_line name.now source.now r.now) (is_ok result) sink.new }
{
    let mut line = Buffer::new();
    let mut col = Buffer::new();
    let line = line.format(r.location.line).as_bytes();
    let col = col.format(r.location.col).as_bytes();
    match put_three(sink, display_name(name.as_bytes()), b":", line) {
        Ok(()) => {}
        Err(failed) => return Err(failed),
    }
    match put_three(sink, b":", col, b": error: '") {
        Ok(()) => {}
        Err(failed) => return Err(failed),
    }
    match put_three(sink, operation(r.op, source), b"' ", r.cause.code()) {
        Ok(()) => {}
        Err(failed) => return Err(failed),
    }
    put_three(sink, b": ", r.cause.text(), b"\n")
}

/// A file's name, as a line has it: `<stdin>` for `-`. It takes no memory.
#[tactic(auto, unfolding(crate::specs::Line::shown_name))]
pub fn display_name(name: &[u8]) -> &[u8]
    ensures { result.now ≡ shown_name name.now }
{
    if name == b"-".as_slice() {
        b"<stdin>"
    } else {
        name
    }
}

// The name of the operation.
fn operation(op: OpName, source: &[u8]) -> &[u8]
    requires { IsWithin op source.now }
    ensures { result.now ≡ operation_of op source.now }
{
    match op {
        OpName::Listed(listed) => listed.name(),
        OpName::File => b"builtin.module",
        OpName::Check => b"check",
        OpName::Sim => b"sim",
        OpName::Aiger => b"aiger",
        OpName::Other { at, len } => &source[at as usize..(at + len) as usize],
    }
}

/// Sends three texts one after the other, up to the first that fails. It takes no memory.
pub fn put_three<S: Sink>(
    sink: &mut S,
    first: &[u8],
    second: &[u8],
    third: &[u8],
) -> Result<(), Failed>
    ensures ok { OnOk result (Appends (S.told sink.old) (S.told sink.new) (first.now ++ (second.now ++ third.now))) }
    ensures err { OnErr result (AppendsPrefix (S.told sink.old) (S.told sink.new) (first.now ++ (second.now ++ third.now))) }
    ensures cause { HasCause (S.faults sink.old) (S.faults sink.new) result }
    ensures puts { GoesOut S.puts sink.old (first.now ++ (second.now ++ third.now)) (is_ok result) sink.new }
{
    match put_all(sink, first) {
        Ok(()) => {}
        Err(failed) => return Err(failed),
    }
    match put_all(sink, second) {
        Ok(()) => {}
        Err(failed) => return Err(failed),
    }
    put_all(sink, third)
}
