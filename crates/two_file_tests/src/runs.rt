//! Runs of the whole program on two files in memory.
use circt_top::Open;
use circt_top::run::run_circt;
use io_edge::memory_files::{MemoryFile, MemoryFiles};
use io_edge::memory_sink::MemorySink;
use std::alloc::{AllocError, AllocGlobal, Global};
use std::thread::Threads;

/// What fails: reads and writes of files, and puts on the output and on the error output, by their positions.
#[derive(Clone, Copy)]
pub struct Faults {
    /// Reads.
    pub reads: &'static [u64],
    /// Writes.
    pub writes: &'static [u64],
    /// Puts on the output.
    pub puts: &'static [u64],
    /// Puts on the error output.
    pub error_puts: &'static [u64],
}

/// Nothing fails.
pub const NO_FAULTS: Faults = Faults {
    reads: &[],
    writes: &[],
    puts: &[],
    error_puts: &[],
};

/// How a run ended: the exit status, the files, what is on the output and on the error output.
#[derive(Drop)]
pub struct Ended {
    pub code: u8,
    pub files: MemoryFiles,
    pub out: MemorySink,
    pub err: MemorySink,
}

impl Ended {
    /// Whether a run ended with this status, output and error message.
    pub fn is(&self, code: u8, out: &str, err: &str) -> bool {
        self.code == code
            && self.out.contents() == out.as_bytes()
            && self.err.contents() == err.as_bytes()
    }
}

/// The words of a line with two files, and how a run of them ends: with what is on the output and on the error output.
pub struct Row {
    /// The words, between blanks.
    pub line: &'static str,
    /// The text of `f.mlir` and of standard input.
    pub first: &'static str,
    /// The text of `g.mlir`.
    pub second: &'static str,
    /// The exit status.
    pub code: u8,
    /// What is on the output.
    pub out: &'static str,
    /// What is on the error output.
    pub err: &'static str,
}

// The words that stand between blanks.
fn words_of(alloc: Global, line: &str) -> Result<Vec<String>, AllocError> {
    let mut words = Vec::new(alloc);
    for word in line.split_whitespace() {
        words.push(String::from_str(alloc, word)?)?;
    }
    Ok(words)
}

// Files in memory: `f.mlir` and standard input with one text, and `g.mlir` with another.
fn files_of(
    alloc: Global,
    first: &str,
    second: &str,
    faults: &Faults,
) -> Result<MemoryFiles, AllocError> {
    let files = vec![in alloc;
        MemoryFile::of(alloc, "f.mlir", first.as_bytes())?,
        MemoryFile::of(alloc, "-", first.as_bytes())?,
        MemoryFile::of(alloc, "g.mlir", second.as_bytes())?,
    ]?;
    let reads = Vec::from_slice(alloc, faults.reads)?;
    let writes = Vec::from_slice(alloc, faults.writes)?;
    let files = MemoryFiles::new(alloc, files).failing_at(reads);
    Ok(files.failing_writes_at(writes))
}

// A sink of which these puts fail.
fn sink_of(alloc: Global, failing: &[u64]) -> Result<MemorySink, AllocError> {
    let failing = Vec::from_slice(alloc, failing)?;
    Ok(MemorySink::new(alloc, 16384)?.failing_at(failing))
}

/// The run of the words of a line, where `f.mlir` and standard input have one text and `g.mlir` another, with faults. The error
/// comes only when out of memory.
pub fn run_with_faults(
    rt: &(impl Threads + Sync + AllocGlobal),
    line: &str,
    first: &str,
    second: &str,
    faults: &Faults,
) -> Result<Ended, AllocError> {
    let alloc = rt.alloc();
    let words = words_of(alloc, line)?;
    let mut files = files_of(alloc, first, second, faults)?;
    let mut out = sink_of(alloc, faults.puts)?;
    let mut err = sink_of(alloc, faults.error_puts)?;
    let words = words.as_slice();
    let status = run_circt(rt, alloc, words, &mut files, &mut out, &mut err, &Open);
    Ok(Ended {
        code: status.code(),
        files,
        out,
        err,
    })
}

/// The same where nothing fails.
pub fn run_on(
    rt: &(impl Threads + Sync + AllocGlobal),
    line: &str,
    first: &str,
    second: &str,
) -> Result<Ended, AllocError> {
    run_with_faults(rt, line, first, second, &NO_FAULTS)
}

/// The run of a row, with faults.
pub fn run_row(
    rt: &(impl Threads + Sync + AllocGlobal),
    row: &Row,
    faults: &Faults,
) -> Result<Ended, AllocError> {
    run_with_faults(rt, row.line, row.first, row.second, faults)
}

/// Whether a run ended as a row says.
pub fn is_as_said(ended: &Ended, row: &Row) -> bool {
    ended.is(row.code, row.out, row.err)
}

/// The words of the first row that ends in another way. The error comes only when out of memory.
pub fn first_other(
    rt: &(impl Threads + Sync + AllocGlobal),
    rows: &[Row],
) -> Result<Option<&'static str>, AllocError> {
    for row in rows {
        if !is_as_said(&run_row(rt, row, &NO_FAULTS)?, row) {
            return Ok(Some(row.line));
        }
    }
    Ok(None)
}
