//! Sinks, which take bytes, and the one way in which a whole text goes out.
ghost use Rattle.std.specs.Prelude.{◌≡◌, ℕ, List, Option, Bool, OnOk, OnErr, is_ok, take, drop};
ghost use Rattle.io_edge.specs.Bytes.{Appends, AppendsPrefix};
ghost use Rattle.io_edge.specs.Faults.{HasCause};
ghost use Rattle.io_edge.specs.Pieces.{pieces_of, Sends};

use std::fmt::Debug;
use thiserror::Error;

/// How many bytes a piece has at most, in which a text goes out.
pub const PIECE: usize = 4096;

/// A put that failed. The sink's count of faults rose.
#[derive(Clone, Copy, Debug, PartialEq, Eq, Error)]
#[error("cannot be written")]
pub struct Failed;

/// Something that bytes go out to.
pub trait Sink {
    // The bytes that it was sent, where it tells them.
    ghost told: { Self → Option (List ℕ) };

    // How many faults it met. The count never falls, and saturates at the end of a u64.
    ghost faults: { Self → ℕ };

    // What one put may do: the sink before, the piece, whether all of it was taken, the sink after.
    ghost puts: { Self → List ℕ → Bool → Self → Type 0 };

    /// Takes a piece. On an error the count of faults rose, and a prefix of the piece was taken,
    /// which may be empty. It takes no memory.
    fn put(&mut self, bytes: &[u8]) -> Result<(), Failed>
        ensures ok { OnOk result (Appends (told self.old) (told self.new) bytes.now) }
        ensures err { OnErr result (AppendsPrefix (told self.old) (told self.new) bytes.now) }
        ensures cause { HasCause (faults self.old) (faults self.new) result }
        ensures step { puts self.old bytes.now (is_ok result) self.new };
}

/// Sends a whole text by puts of 4,096 bytes each, of which the last may be shorter. An empty text
/// makes no put. It stops at the first put that fails.
pub fn put_all<K: Sink>(sink: &mut K, bytes: &[u8]) -> Result<(), Failed>
    ensures ok { OnOk result (Appends (K.told sink.old) (K.told sink.new) bytes.now) }
    ensures err { OnErr result (AppendsPrefix (K.told sink.old) (K.told sink.new) bytes.now) }
    ensures cause { HasCause (K.faults sink.old) (K.faults sink.new) result }
    ensures pieces { Sends K.puts sink.old (pieces_of PIECE bytes.now) (is_ok result) sink.new }
{
    let mut rest = bytes;
    while !rest.is_empty() {
        let (piece, others) = first_piece(rest);
        match sink.put(piece) {
            Ok(()) => rest = others,
            Err(failed) => return Err(failed),
        }
    }
    Ok(())
}

// The first piece, and what comes after it.
fn first_piece(bytes: &[u8]) -> (&[u8], &[u8])
    ensures piece { result.0.now ≡ take PIECE bytes.now }
    ensures others { result.1.now ≡ drop PIECE bytes.now }
{
    if bytes.len() <= PIECE {
        (bytes, &[])
    } else {
        bytes.split_at(PIECE)
    }
}
