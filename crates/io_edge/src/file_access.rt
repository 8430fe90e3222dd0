//! Files, which are read and written by name.
ghost use Rattle.std.specs.Prelude.{◌≡◌, ℕ, ◌≤◌, List, Option, Result, length, IfOk};
ghost use Rattle.io_edge.specs.Reading.{Reads, HasNamedCause};
ghost use Rattle.io_edge.specs.Writing.{Writes};

use crate::byte_text::Text;
use std::alloc::{AllocError, Global};
use std::fmt::Debug;
use thiserror::Error;

/// Why a file was not read or not written.
#[derive(Clone, Copy, Debug, PartialEq, Eq, Error)]
pub enum FileFail {
    /// The file could not be read, or not be written. The count of such faults of its name rose.
    #[error("cannot be read or written")]
    Failed,
    /// There was no memory for it.
    #[error("out of memory")]
    NoMemory,
}

impl From<AllocError> for FileFail {
    ghost use Rattle.std.specs.Prelude.{◌≡◌};
    ghost use Rattle.io_edge.specs.declared.file_access.FileFail.TheVariants.{NoMemory};

    ghost from_gives = { λ _ fail. fail ≡ NoMemory };

    fn from(_error: AllocError) -> FileFail {
        FileFail::NoMemory
    }
}

/// Something that has files.
pub trait Files {
    ghost use Rattle.io_edge.specs.declared.file_access.FileFail.{FileFail};

    // The files, each a name and its bytes, where they are told. The first of a name counts.
    ghost files: { Self → Option (List (List ℕ × List ℕ)) };

    // How many faults reads of a name met. No count ever falls; each saturates at the end of a u64.
    ghost read_faults: { Self → List ℕ → ℕ };

    // How many faults writes of a name met, in the same way.
    ghost write_faults: { Self → List ℕ → ℕ };

    // What one read may do: the files before, the name, the limit, what it answers, the files after.
    ghost reads: { Self → List ℕ → ℕ → Result (List ℕ) FileFail → Self → Type 0 };

    // What one write may do: the files before, the name, the bytes, what it answers, the files after.
    ghost writes: { Self → List ℕ → List ℕ → Result (Unit {0}) FileFail → Self → Type 0 };

    /// The whole content of the file of this name, or its first `limit` bytes where it is longer:
    /// more is not read. The name `-` is standard input. It fails with `Failed` where the file
    /// cannot be read, as at an unknown name, and with `NoMemory` when out of memory. It changes
    /// no file.
    fn read(&mut self, alloc: Global, name: &str, limit: u64) -> Result<Text, FileFail>
        ensures text { Reads (files self.old) name.now limit result }
        ensures within { IfOk result (λ text. length text ≤ limit) }
        ensures unchanged { files self.new ≡ files self.old }
        ensures cause { HasNamedCause name.now (read_faults self.old) (read_faults self.new) result }
        ensures writes { write_faults self.new ≡ write_faults self.old }
        ensures step { reads self.old name.now limit result self.new };

    /// Gives the file of this name these bytes; a name that no file has gets one. It fails with
    /// `Failed` where the file cannot be written, which then is as it was or has a prefix of the
    /// bytes, and with `NoMemory` when out of memory, which changes nothing. No other file changes.
    fn write(&mut self, alloc: Global, name: &str, bytes: &[u8]) -> Result<(), FileFail>
        ensures files { Writes (files self.old) (files self.new) name.now bytes.now result }
        ensures cause { HasNamedCause name.now (write_faults self.old) (write_faults self.new) result }
        ensures reads { read_faults self.new ≡ read_faults self.old }
        ensures step { writes self.old name.now bytes.now result self.new };
}
