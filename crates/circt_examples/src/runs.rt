//! Runs of the program on a text.
use circt_top::Open;
use circt_top::run::run_circt;
use io_edge::memory_files::{MemoryFile, MemoryFiles};
use io_edge::memory_sink::MemorySink;
use std::alloc::{AllocError, Global};
use std::thread::Threads;

// How many bytes an output may have.
const ROOM: usize = 1 << 20;

/// How a run ended: its exit status, the output and the error message.
#[derive(Drop)]
pub struct Ended {
    pub code: u8,
    pub out: MemorySink,
    pub err: MemorySink,
}

impl Ended {
    /// Whether a run ended with this exit status, output and error message.
    pub fn is(&self, code: u8, out: &str, err: &str) -> bool {
        self.code == code
            && self.out.contents() == out.as_bytes()
            && self.err.contents() == err.as_bytes()
    }
}

/// Runs the program with these words, separated by blanks, and this text on standard input.
pub fn run(
    rt: &(impl Threads + Sync),
    alloc: Global,
    words: &str,
    input: &str,
) -> Result<Ended, AllocError> {
    run_beside(rt, alloc, words, input, "")
}

/// The same with another text in the file `steps`.
pub fn run_beside(
    rt: &(impl Threads + Sync),
    alloc: Global,
    words: &str,
    input: &str,
    steps: &str,
) -> Result<Ended, AllocError> {
    let mut split = Vec::new(alloc);
    for word in words.split_whitespace() {
        split.push(String::from_str(alloc, word)?)?;
    }
    let mut files = Vec::new(alloc);
    files.push(MemoryFile::of(alloc, "-", input.as_bytes())?)?;
    files.push(MemoryFile::of(alloc, "steps", steps.as_bytes())?)?;
    let mut files = MemoryFiles::new(alloc, files);
    let mut out = MemorySink::new(alloc, ROOM)?;
    let mut err = MemorySink::new(alloc, ROOM)?;
    let status = run_circt(
        rt,
        alloc,
        split.as_slice(),
        &mut files,
        &mut out,
        &mut err,
        &Open,
    );
    let code = status.code();
    Ok(Ended { code, out, err })
}
