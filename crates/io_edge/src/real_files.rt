//! The system's files and standard input.
ghost use Rattle.std.specs.Prelude.{◌≡◌, ◌≤◌, ◌<◌, length, None, IfOk, OnOk, OnErr, false};
ghost use Rattle.io_edge.specs.Bytes.{Appends, AppendsPrefix, Loses};
ghost use Rattle.io_edge.specs.Source.{IsPrefix, Moves};
ghost use Rattle.io_edge.specs.Faults.{HasRisen};
ghost use Rattle.io_edge.specs.Reading.{HasFileCause};

use crate::byte_text::Text;
use crate::file_access::{FileFail, Files};
use crate::real_sink::write_out;
use std::alloc::{AllocError, Global};
use std::io::{ErrorKind, Read, Write};
use std::marker::Model;
use std::{fs, rt};

// How many bytes one read asks for at most. They stand on the heap, so that a small stack suffices.
const WINDOW: usize = 65_536;

/// The system's files and standard input. Nothing of them is told but how many reads and how many
/// writes failed.
#[derive(Drop)]
pub struct RealFiles<'a, R: rt::Files + Input> {
    rt: &'a R,
    read_faults: u64,
    write_faults: u64,
}

impl<'a, R: rt::Files + Input> Model for RealFiles<'a, R> {
    ghost use Rattle.io_edge.specs.RealState.{FaultCounts};

    ghost Value = { FaultCounts };

    ghost view = { λ s. record { reads = s.read_faults; writes = s.write_faults } };
}

impl<'a, R: rt::Files + Input> RealFiles<'a, R> {
    /// The files that this runtime reaches.
    pub fn new(rt: &'a R) -> RealFiles<'a, R>
        ensures { result ≡ record { reads = 0; writes = 0 } }
    {
        RealFiles {
            rt,
            read_faults: 0,
            write_faults: 0,
        }
    }

    /// How many reads failed. The count saturates at its type's end.
    pub fn read_faults(&self) -> u64
        ensures { result ≡ self.now.reads }
    {
        self.read_faults
    }

    /// How many writes failed or took nothing. The count saturates at its type's end.
    pub fn write_faults(&self) -> u64
        ensures { result ≡ self.now.writes }
    {
        self.write_faults
    }
}

impl<'a, R: rt::Files + Input> Files for RealFiles<'a, R> {
    ghost files = { λ counts. None };

    ghost read_faults = { λ counts name. counts.reads };

    ghost write_faults = { λ counts name. counts.writes };

    // What a read and a write do to the system's files is not known beyond the clauses.
    ghost reads = { λ counts name limit answer after. Unit {0} };

    ghost writes = { λ counts name bytes answer after. Unit {0} };

    /// Reads to the end of the file or to `limit` bytes. A file that cannot be opened is a fault,
    /// and so is a read that fails; after an interrupted one, which counts too, the next is tried.
    fn read(&mut self, alloc: Global, name: &str, limit: u64) -> Result<Text, FileFail> {
        if name == "-" {
            return read_text(&mut self.rt.reader(), alloc, limit, &mut self.read_faults);
        }
        match fs::open(self.rt, name) {
            Ok(mut file) => read_text(&mut file, alloc, limit, &mut self.read_faults),
            Err(_) => {
                self.read_faults = self.read_faults.saturating_add(1);
                Err(FileFail::Failed)
            }
        }
    }

    /// Makes the file new, or empties it, and writes until all bytes are taken. A file that cannot be
    /// made is a fault, and so is a write that fails or takes nothing; after an interrupted one,
    /// which counts too, the next is tried.
    fn write(&mut self, _alloc: Global, name: &str, bytes: &[u8]) -> Result<(), FileFail> {
        match fs::create(self.rt, name) {
            Ok(mut file) => write_text(&mut file, bytes, &mut self.write_faults),
            Err(_) => {
                self.write_faults = self.write_faults.saturating_add(1);
                Err(FileFail::Failed)
            }
        }
    }
}

/// Reads a source to its end or to `limit` bytes. Each read that fails is counted in `faults`; after
/// an interrupted one the next is tried, any other answers `Failed`.
pub fn read_text<S: Read>(
    source: &mut S,
    alloc: Global,
    limit: u64,
    faults: &mut u64,
) -> Result<Text, FileFail>
    ensures text { IfOk result (IsPrefix (S.remaining source.old) limit) }
    ensures no_further { IfOk result (Loses (S.remaining source.old) (S.remaining source.new)) }
    ensures within { IfOk result (λ text. length text ≤ limit) }
    ensures cause { HasFileCause faults.old faults.new result }
{
    let mut text = Text::new(alloc);
    let mut window = zeros(alloc, WINDOW)?;
    'reads: for _ in 0..u64::MAX {
        let left = limit - text.len() as u64;
        if left == 0 {
            return Ok(text);
        }
        let room = left.min(WINDOW as u64) as usize;
        match read_some(
            source,
            window.as_mut_slice().split_at_mut(room).0,
            &mut text,
            faults,
        ) {
            Ok(true) => return Ok(text),
            Ok(false) => {}
            Err(fail) => return Err(fail),
        }
    }
    *faults = faults.saturating_add(1);
    Err(FileFail::Failed)
}

// So many zero bytes.
fn zeros(alloc: Global, size: usize) -> Result<Vec<u8>, AllocError>
    ensures { IfOk result (λ bytes. length bytes.items ≡ size) }
{
    vec![in alloc; 0u8; size]
}

// One read of at least one byte, put at the end of the text: whether the source has ended. A fault
// is counted; after an interrupted read nothing is put, and the next may be tried.
fn read_some<S: Read>(
    source: &mut S,
    window: &mut [u8],
    text: &mut Text,
    faults: &mut u64,
) -> Result<bool, FileFail>
    requires { 0 < length window.old }
    ensures ok { IfOk result (Moves (S.remaining source.old) (S.remaining source.new) text.old text.new (length window.old)) }
    ensures nothing { IfOk result (λ ended. ended ≡ false → text.new ≡ text.old → HasRisen faults.old faults.new) }
    ensures cause { HasFileCause faults.old faults.new result }
{
    match source.read(window) {
        Ok(0) => Ok(true),
        Ok(count) => {
            text.push_bytes(&window[..count])?;
            Ok(false)
        }
        Err(error) => {
            *faults = faults.saturating_add(1);
            if error.kind() == ErrorKind::Interrupted {
                Ok(false)
            } else {
                Err(FileFail::Failed)
            }
        }
    }
}

// Writes all bytes, and counts each fault.
fn write_text<W: Write>(writer: &mut W, bytes: &[u8], faults: &mut u64) -> Result<(), FileFail>
    ensures ok { OnOk result (Appends (W.contents writer.old) (W.contents writer.new) bytes.now) }
    ensures err { OnErr result (AppendsPrefix (W.contents writer.old) (W.contents writer.new) bytes.now) }
    ensures cause { HasFileCause faults.old faults.new result }
{
    match write_out(writer, bytes, faults) {
        Ok(()) => Ok(()),
        Err(_) => Err(FileFail::Failed),
    }
}
