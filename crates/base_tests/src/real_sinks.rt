//! Sinks over writers that are interrupted or fail.
use io_edge::real_sink::RealSink;
use io_edge::sinks::Sink;
use std::alloc::Global;
use std::io;
use std::io::{ErrorKind, Write};

// Takes three bytes a write. Its second write is interrupted, and its write `last` takes nothing.
#[derive(Drop)]
struct Trickle {
    taken: Vec<u8>,
    writes: u32,
    last: u32,
}

impl Write for Trickle {
    fn write(&mut self, bytes: &[u8]) -> io::Result<usize> {
        self.writes = self.writes.saturating_add(1);
        if self.writes == 2 {
            return Err(io::Error::from(ErrorKind::Interrupted));
        }
        if self.writes == self.last {
            return Ok(0);
        }
        let count = bytes.len().min(3);
        self.taken.extend_from_slice(&bytes[..count])?;
        Ok(count)
    }

    fn flush(&mut self) -> io::Result<()> {
        Ok(())
    }
}

// What a writer took whose write `last` takes nothing, whether all was put, and how many faults there were.
fn put_until(alloc: Global, last: u32) -> (Vec<u8>, bool, u64) {
    let mut writer = Trickle {
        taken: Vec::new(alloc),
        writes: 0,
        last,
    };
    let mut sink = RealSink::new(&mut writer);
    let is_ok = sink.put(b"abcdefgh").is_ok();
    let faults = sink.faults();
    (writer.taken, is_ok, faults)
}

/// Which write takes nothing, what is written, and whether all of it was put with how many faults.
struct Row {
    last: u32,
    taken: &'static [u8],
    is_ok: bool,
    faults: u64,
}

const ROWS: [Row; 3] = [
    Row {
        last: 9,
        taken: b"abcdefgh",
        is_ok: true,
        faults: 1,
    },
    Row {
        last: 3,
        taken: b"abc",
        is_ok: false,
        faults: 2,
    },
    Row {
        last: 1,
        taken: b"",
        is_ok: false,
        faults: 1,
    },
];

#[test]
fn writes_to_the_end_or_a_fault(rt: HostRuntime) {
    for row in &ROWS {
        let (taken, is_ok, faults) = put_until(rt.alloc(), row.last);
        assert_eq!(rt; taken.as_slice(), row.taken, "at {}", row.last);
        assert_eq!(rt; (is_ok, faults), (row.is_ok, row.faults), "at {}", row.last);
    }
}
