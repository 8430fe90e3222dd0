//! Files of the system, and readers that are interrupted or fail.
use io_edge::file_access::{FileFail, Files};
use io_edge::real_files::{RealFiles, read_text};
use std::alloc::Global;
use std::io::{ErrorKind, Read};
use std::test::Fail;
use std::{fs, io};

// Gives its bytes by three a read. Its second read is interrupted, and its read `last` fails.
#[derive(Drop)]
struct Drip {
    rest: &'static [u8],
    reads: u32,
    last: u32,
}

impl Read for Drip {
    fn read(&mut self, window: &mut [u8]) -> io::Result<usize> {
        self.reads = self.reads.saturating_add(1);
        if self.reads == 2 {
            return Err(io::Error::from(ErrorKind::Interrupted));
        }
        if self.reads == self.last {
            return Err(io::Error::from(ErrorKind::Other));
        }
        let room = window.len().min(3);
        self.rest.read(window.split_at_mut(room).0)
    }
}

/// Which read fails, how many bytes are read at most, whether a text is read, which one, and with how many faults.
struct Row {
    last: u32,
    limit: u64,
    is_read: bool,
    text: &'static [u8],
    faults: u64,
}

const ROWS: [Row; 5] = [
    Row {
        last: 9,
        limit: 100,
        is_read: true,
        text: b"abcdefgh",
        faults: 1,
    },
    Row {
        last: 9,
        limit: 8,
        is_read: true,
        text: b"abcdefgh",
        faults: 1,
    },
    Row {
        last: 9,
        limit: 4,
        is_read: true,
        text: b"abcd",
        faults: 1,
    },
    Row {
        last: 9,
        limit: 0,
        is_read: true,
        text: b"",
        faults: 0,
    },
    Row {
        last: 3,
        limit: 100,
        is_read: false,
        text: b"",
        faults: 2,
    },
];

// Whether what a row says comes of its reads.
fn is_met(alloc: Global, row: &Row) -> bool {
    let mut source = Drip {
        rest: b"abcdefgh",
        reads: 0,
        last: row.last,
    };
    let mut faults = 0;
    let is_so = match read_text(&mut source, alloc, row.limit, &mut faults) {
        Ok(text) => row.is_read && text.as_bytes() == row.text,
        Err(FileFail::Failed) => !row.is_read,
        Err(FileFail::NoMemory) => false,
    };
    is_so && faults == row.faults
}

#[test]
fn reads_to_the_end_the_limit_or_a_fault(rt: HostRuntime) {
    for row in &ROWS {
        assert!(rt; is_met(rt.alloc(), row), "at {} {}", row.last, row.limit);
    }
}

#[test]
fn reads_a_file_of_the_system(rt: HostRuntime) -> Result<(), Fail> {
    let name = "io_edge_read_test.mlir";
    fs::write(&rt, name, "module {}")?;
    let mut files = RealFiles::new(&rt);
    let whole = files.read(rt.alloc(), name, 100)?;
    let prefix = files.read(rt.alloc(), name, 6)?;
    fs::remove_file(&rt, name)?;
    assert_eq!(rt; whole.as_bytes(), b"module {}".as_slice());
    assert_eq!(rt; prefix.as_bytes(), b"module".as_slice());
    assert_eq!(rt; files.read_faults(), 0);
    assert_eq!(rt;
        files.read(rt.alloc(), name, 100).err(),
        Some(FileFail::Failed)
    );
    assert_eq!(rt; files.read_faults(), 1);
    Ok(())
}

// Whether a text is written to a file and read again.
fn is_written(alloc: Global, files: &mut impl Files, name: &str, text: &[u8]) -> bool {
    let is_ok = files.write(alloc, name, text).is_ok();
    match files.read(alloc, name, 100) {
        Ok(held) => is_ok && held.as_bytes() == text,
        Err(_) => false,
    }
}

#[test]
fn writes_a_file_of_the_system(rt: HostRuntime) -> Result<(), Fail> {
    let name = "io_edge_write_test.v";
    let mut files = RealFiles::new(&rt);
    for text in ["module M;", "endmodule", ""] {
        assert!(rt; is_written(rt.alloc(), &mut files, name, text.as_bytes()));
    }
    fs::remove_file(&rt, name)?;
    assert_eq!(rt; files.write_faults(), 0);
    let answer = files.write(rt.alloc(), "no_such_folder/a.v", b"x");
    assert_eq!(rt; answer.err(), Some(FileFail::Failed));
    assert_eq!(rt; files.write_faults(), 1);
    Ok(())
}
