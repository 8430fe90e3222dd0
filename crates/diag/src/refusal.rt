//! A refusal and its location.
ghost use Rattle.std.specs.Prelude.{◌≡◌};
ghost use Rattle.diag.specs.Location.{start_location, next_location, further};

use crate::cause::Cause;
use opcode::listed::Listed;

/// A location in a text: its line, and its column in bytes, both from 1. Each saturates at the end
/// of a u32, which a text of less than 2^32 bytes does not reach.
#[derive(Clone, Copy, PartialEq, Eq)]
pub struct Location {
    pub line: u32,
    pub col: u32,
}

/// The operation at which something is refused.
#[derive(Clone, Copy, PartialEq, Eq)]
pub enum OpName {
    /// A listed operation.
    Listed(Listed),
    /// The file as a whole, which is named `builtin.module`.
    File,
    /// The check of a proof, which is named `check`.
    Check,
    /// The run of a module, which is named `sim`.
    Sim,
    /// A text of AIGER, which is named `aiger`.
    Aiger,
    /// The name that stands in the source from `at` on, `len` bytes long.
    Other { at: u64, len: u64 },
}

/// A refusal: the number of its file, the location there, the operation and the cause.
#[derive(Clone, Copy, PartialEq, Eq)]
pub struct Refusal {
    pub file: u32,
    pub location: Location,
    pub op: OpName,
    pub cause: Cause,
}

impl Location {
    /// The location of a text's first byte.
    pub fn start() -> Location
        ensures { result ≡ start_location }
    {
        Location { line: 1, col: 1 }
    }

    /// The location of the first byte of the next line.
    pub fn next_line(self) -> Location
        ensures { result ≡ next_location self 10 }
    {
        Location {
            line: self.line.saturating_add(1),
            col: 1,
        }
    }

    /// The location `count` bytes further on the same line.
    pub fn along(self, count: usize) -> Location
        ensures { result ≡ further self count }
    {
        let col = (self.col as usize).saturating_add(count);
        Location {
            line: self.line,
            col: col.min(u32::MAX as usize) as u32,
        }
    }
}
