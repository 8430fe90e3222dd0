//! A sink over a writer of the system.
ghost use Rattle.std.specs.Prelude.{◌≡◌, ◌≤◌, [], take, length, OnOk, OnErr, IfOk};
ghost use Rattle.io_edge.specs.Bytes.{Appends, AppendsPrefix};
ghost use Rattle.io_edge.specs.Faults.{HasCause, HasRisen};

use crate::sinks::{Failed, Sink};
use std::io::{ErrorKind, Write};
use std::marker::Model;

/// A sink that writes to a file, standard output or any other writer. Over the system it tells
/// nothing; over a writer that says what it holds, as a `Vec<u8>`, it tells that.
#[derive(Drop)]
pub struct RealSink<W: Write + Drop> {
    writer: W,
    faults: u64,
}

impl<W: Write + Drop> Model for RealSink<W> {
    ghost use Rattle.io_edge.specs.RealState.{WriterState};

    ghost Value = { WriterState };

    ghost view = { λ s. record { told = W.contents s.writer; faults = s.faults } };
}

impl<W: Write + Drop> RealSink<W> {
    /// The sink over this writer.
    pub fn new(writer: W) -> RealSink<W>
        ensures { result ≡ record { told = W.contents writer; faults = 0 } }
    {
        RealSink { writer, faults: 0 }
    }

    /// How many writes failed or took nothing. The count saturates at its type's end.
    pub fn faults(&self) -> u64
        ensures { result ≡ self.now.faults }
    {
        self.faults
    }
}

impl<W: Write + Drop> Sink for RealSink<W> {
    ghost told = { λ sink. sink.told };

    ghost faults = { λ sink. sink.faults };

    // What a put does to a writer of the system is not known beyond the clauses.
    ghost puts = { λ sink piece taken after. Unit {0} };

    /// Writes until the whole piece is taken. A write that fails is a fault, and so is one that
    /// takes nothing; after an interrupted one, which counts too, the next is tried. A writer with
    /// a buffer of its own is not flushed.
    fn put(&mut self, bytes: &[u8]) -> Result<(), Failed> {
        write_out(&mut self.writer, bytes, &mut self.faults)
    }
}

// Writes all bytes, and counts each fault.
pub(crate) fn write_out<W: Write>(
    writer: &mut W,
    bytes: &[u8],
    faults: &mut u64,
) -> Result<(), Failed>
    ensures ok { OnOk result (Appends (W.contents writer.old) (W.contents writer.new) bytes.now) }
    ensures err { OnErr result (AppendsPrefix (W.contents writer.old) (W.contents writer.new) bytes.now) }
    ensures cause { HasCause faults.old faults.new result }
{
    let mut rest = bytes;
    'writes: for _ in 0..u64::MAX {
        if rest.is_empty() {
            return Ok(());
        }
        match write_some(writer, rest, faults) {
            Ok(count) => rest = rest.split_at(count).1,
            Err(failed) => return Err(failed),
        }
    }
    *faults = faults.saturating_add(1);
    Err(Failed)
}

// One write: how many bytes it took, which is 0 only where it was interrupted. A fault is counted.
fn write_some<W: Write>(writer: &mut W, bytes: &[u8], faults: &mut u64) -> Result<usize, Failed>
    ensures ok { IfOk result (λ count. count ≤ length bytes.now) }
    ensures nothing { IfOk result (λ count. count ≡ 0 → HasRisen faults.old faults.new) }
    ensures bytes { IfOk result (λ count. Appends (W.contents writer.old) (W.contents writer.new) (take count bytes.now)) }
    ensures err { OnErr result (Appends (W.contents writer.old) (W.contents writer.new) []) }
    ensures cause { HasCause faults.old faults.new result }
{
    match writer.write(bytes) {
        Ok(0) => {}
        Ok(count) => return Ok(count),
        Err(error) => {
            if error.kind() == ErrorKind::Interrupted {
                *faults = faults.saturating_add(1);
                return Ok(0);
            }
        }
    }
    *faults = faults.saturating_add(1);
    Err(Failed)
}
