//! Texts, sinks and files in memory.
use io_edge::byte_text::Text;
use io_edge::file_access::{FileFail, Files};
use io_edge::memory_files::{MemoryFile, MemoryFiles};
use io_edge::memory_sink::MemorySink;
use io_edge::sinks::{Sink, put_all};
use std::alloc::{AllocError, Global};
use std::test::Fail;

#[test]
fn texts_are_their_bytes(rt: HostRuntime) -> Result<(), Fail> {
    let alloc = rt.alloc();
    let mut text = Text::with_room(alloc, 8)?;
    text.push(b'm')?;
    text.push_bytes(b"odule")?;
    assert_eq!(rt; text.as_bytes(), b"module".as_slice());
    assert_eq!(rt; text.len(), 6);
    let same = text.try_clone(alloc)?;
    assert!(rt; same == text);
    assert!(rt; Text::new(alloc) < text);
    Ok(())
}

#[test]
fn texts_grow_past_22_bytes(rt: HostRuntime) -> Result<(), Fail> {
    let alloc = rt.alloc();
    let mut text = Text::of(alloc, b"0123456789abcdef012345")?;
    text.push(b'6')?;
    text.push_bytes(b"789abcdef")?;
    assert_eq!(rt;
        text.as_bytes(),
        b"0123456789abcdef0123456789abcdef".as_slice()
    );
    let short = Text::of(alloc, b"0123456789abcdef")?;
    assert!(rt; short < text);
    assert!(rt; text.try_clone(alloc)? == text);
    assert!(rt; Text::with_room(alloc, 100)?.is_empty());
    Ok(())
}

// How many bytes of a text a sink holds that fails at a put, whether all went out, and how many faults it met.
fn put_with_fault(
    alloc: Global,
    length: usize,
    failing: u64,
) -> Result<(usize, bool, u64), AllocError> {
    let text = vec![in alloc; 7u8; length]?;
    let mut sink = MemorySink::new(alloc, 20_000)?.failing_at(vec![in alloc; failing]?);
    let is_ok = put_all(&mut sink, text.as_slice()).is_ok();
    Ok((sink.contents().len(), is_ok, sink.faults()))
}

/// A text of so many bytes, the put that fails, and how many bytes are held then.
struct Put {
    length: usize,
    failing: u64,
    held: usize,
}

const PUTS: [Put; 6] = [
    Put {
        length: 0,
        failing: 0,
        held: 0,
    },
    Put {
        length: 1,
        failing: 1,
        held: 1,
    },
    Put {
        length: 8192,
        failing: 2,
        held: 8192,
    },
    Put {
        length: 8193,
        failing: 2,
        held: 8192,
    },
    Put {
        length: 10_000,
        failing: 1,
        held: 4096,
    },
    Put {
        length: 10_000,
        failing: 0,
        held: 0,
    },
];

// The first text of which other bytes go out, by its length.
fn first_other_put(alloc: Global, rows: &[Put]) -> Result<Option<usize>, AllocError> {
    for row in rows {
        let is_whole = row.held == row.length;
        let wanted = (row.held, is_whole, u64::from(!is_whole));
        if put_with_fault(alloc, row.length, row.failing)? != wanted {
            return Ok(Some(row.length));
        }
    }
    Ok(None)
}

#[test]
fn a_text_goes_out_in_pieces_of_4096_bytes(rt: HostRuntime) -> Result<(), Fail> {
    assert_eq!(rt; first_other_put(rt.alloc(), &PUTS)?, None);
    Ok(())
}

// Whether a sink with room for five bytes takes three, and of three more not all.
fn fills(sink: &mut MemorySink) -> bool {
    let takes_first = sink.put(b"abc").is_ok();
    let takes_second = sink.put(b"def").is_ok();
    takes_first && !takes_second
}

// Whether a full sink has taken what fits, and met one fault.
fn keeps_what_fits(alloc: Global) -> Result<bool, AllocError> {
    let mut sink = MemorySink::new(alloc, 5)?;
    Ok(fills(&mut sink) && (sink.contents() == b"abcde".as_slice() && sink.faults() == 1))
}

#[test]
fn a_full_sink_keeps_what_fits(rt: HostRuntime) -> Result<(), Fail> {
    assert!(rt; keeps_what_fits(rt.alloc())?);
    Ok(())
}

// Files of which there is one.
fn one_file(alloc: Global, name: &str, bytes: &[u8]) -> Result<MemoryFiles, AllocError> {
    let file = MemoryFile::of(alloc, name, bytes)?;
    Ok(MemoryFiles::new(alloc, vec![in alloc; file]?))
}

/// A reading of a file, whether it succeeds, and what it then gives.
struct Reading {
    name: &'static str,
    limit: u64,
    is_read: bool,
    bytes: &'static [u8],
}

const READINGS: [Reading; 4] = [
    Reading {
        name: "-",
        limit: 100,
        is_read: true,
        bytes: b"module",
    },
    Reading {
        name: "-",
        limit: 3,
        is_read: true,
        bytes: b"mod",
    },
    Reading {
        name: "-",
        limit: 100,
        is_read: false,
        bytes: b"",
    },
    Reading {
        name: "x.mlir",
        limit: 100,
        is_read: false,
        bytes: b"",
    },
];

// Whether a reading gives what it is to give.
fn reads_well(files: &mut MemoryFiles, alloc: Global, row: &Reading) -> Result<bool, AllocError> {
    match files.read(alloc, row.name, row.limit) {
        Ok(text) => Ok(row.is_read && text.as_bytes() == row.bytes),
        Err(FileFail::Failed) => Ok(!row.is_read),
        Err(FileFail::NoMemory) => Err(AllocError),
    }
}

// The first reading that gives something else, by its position.
fn first_other_reading(
    files: &mut MemoryFiles,
    alloc: Global,
    rows: &[Reading],
) -> Result<Option<usize>, AllocError> {
    for (at, row) in rows.iter().enumerate() {
        if !reads_well(files, alloc, row)? {
            return Ok(Some(at));
        }
    }
    Ok(None)
}

// The first reading of a file that gives something else where the third one is to fail, and how many failed.
fn first_other_read(alloc: Global) -> Result<(Option<usize>, u64), AllocError> {
    let failing = vec![in alloc; 2]?;
    let mut files = one_file(alloc, "-", b"module")?.failing_at(failing);
    let other = first_other_reading(&mut files, alloc, &READINGS)?;
    Ok((other, files.read_faults()))
}

#[test]
fn files_in_memory_are_read_by_name(rt: HostRuntime) -> Result<(), Fail> {
    assert_eq!(rt; first_other_read(rt.alloc())?, (None, 2));
    Ok(())
}

/// Bytes that are written to a file, and whether they then stand there.
struct Writing {
    name: &'static str,
    bytes: &'static [u8],
    is_written: bool,
}

const WRITINGS: [Writing; 4] = [
    Writing {
        name: "a.v",
        bytes: b"new text",
        is_written: true,
    },
    Writing {
        name: "a.v",
        bytes: b"lost",
        is_written: false,
    },
    Writing {
        name: "b.v",
        bytes: b"",
        is_written: true,
    },
    Writing {
        name: "a.v",
        bytes: b"x",
        is_written: true,
    },
];

// Whether these bytes are written to a file.
fn is_written(files: &mut MemoryFiles, alloc: Global, name: &str, bytes: &[u8]) -> bool {
    files.write(alloc, name, bytes).is_ok() && files.contents(name) == Some(bytes)
}

// The first writing that goes otherwise, by its position.
fn first_other_writing(files: &mut MemoryFiles, alloc: Global, rows: &[Writing]) -> Option<usize> {
    for (at, row) in rows.iter().enumerate() {
        if is_written(files, alloc, row.name, row.bytes) != row.is_written {
            return Some(at);
        }
    }
    None
}

// Whether a file without bytes is there, another one is not, and one writing and no reading failed.
fn are_left(files: &MemoryFiles) -> bool {
    let names = files.contents("b.v") == Some(b"".as_slice()) && files.contents("c.v").is_none();
    names && (files.write_faults() == 1 && files.read_faults() == 0)
}

// The first writing that goes otherwise where the second one is to fail, and whether the files are then as they should be.
fn first_other_written(alloc: Global) -> Result<(Option<usize>, bool), AllocError> {
    let failing = vec![in alloc; 1]?;
    let mut files = one_file(alloc, "a.v", b"old")?.failing_writes_at(failing);
    let other = first_other_writing(&mut files, alloc, &WRITINGS);
    Ok((other, are_left(&files)))
}

#[test]
fn files_in_memory_are_written_by_name(rt: HostRuntime) -> Result<(), Fail> {
    assert_eq!(rt; first_other_written(rt.alloc())?, (None, true));
    Ok(())
}
