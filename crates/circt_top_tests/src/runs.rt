//! Runs of the whole program on files and sinks in memory.
use circt_top::run::run_circt;
use circt_top::{Gate, Open};
use io_edge::memory_files::{MemoryFile, MemoryFiles};
use io_edge::memory_sink::MemorySink;
use std::alloc::{AllocError, AllocGlobal, Global};
use std::thread::Threads;

/// A module that adds its two inputs.
pub const ADDER: &str = "hw.module @Add8(in %a : i8, in %b : i8, out c : i8) {
  %0 = comb.add %a, %b : i8
  hw.output %0 : i8
}
";

/// The adder with operands that decide nothing, which folds to it.
pub const FOLDABLE_ADDER: &str = "hw.module @Add8(in %a : i8, in %b : i8, out c : i8) {
  %c0_i8 = hw.constant 0 : i8
  %0 = comb.add %c0_i8, %a : i8
  %1 = comb.add %0, %b : i8
  hw.output %1 : i8
}
";

/// That as it is printed where nothing is folded.
pub const FOLDABLE_ADDER_PRINTED: &str = "module {
  hw.module @Add8(in %a : i8, in %b : i8, out c : i8) {
    %c0_i8 = hw.constant 0 : i8
    %0 = comb.add %c0_i8, %a : i8
    %1 = comb.add %0, %b : i8
    hw.output %1 : i8
  }
}
";

/// The adder as Verilog.
pub const ADDER_VERILOG: &str = "module Add8(
  input wire [7:0] a,
  input wire [7:0] b,
  output wire [7:0] c
);
  assign c = a + b;
endmodule
";

/// The adder as it is printed.
pub const ADDER_PRINTED: &str = "module {
  hw.module @Add8(in %a : i8, in %b : i8, out c : i8) {
    %0 = comb.add %a, %b : i8
    hw.output %0 : i8
  }
}
";

/// Two instances of a register.
pub const TWO_REGISTERS: &str =
    "hw.module private @Reg(in %clk : !seq.clock, in %rst : i1, in %en : i1, in %d : i8, out q : i8) {
  %z = hw.constant 9 : i8
  %r = seq.compreg.ce %d, %clk, %en reset %rst, %z : i8
  hw.output %r : i8
}
hw.module @Two(in %clk : !seq.clock, in %rst : i1, in %en : i1, in %d : i8, out a : i8, out b : i8) {
  %u1.q = hw.instance \"u1\" @Reg(clk: %clk: !seq.clock, rst: %rst: i1, en: %en: i1, d: %d: i8) -> (q: i8)
  %u2.q = hw.instance \"u2\" @Reg(clk: %clk: !seq.clock, rst: %rst: i1, en: %en: i1, d: %u1.q: i8) -> (q: i8)
  hw.output %u1.q, %u2.q : i8, i8
}
";

/// That with the register in the place of its instances.
pub const TWO_FLAT: &str = "module {
  hw.module @Two(in %clk : !seq.clock, in %rst : i1, in %en : i1, in %d : i8, out a : i8, out b : i8) {
    %c9_i8 = hw.constant 9 : i8
    %u1_r = seq.compreg.ce %d, %clk, %en reset %rst, %c9_i8 : i8
    %c9_i8_0 = hw.constant 9 : i8
    %u2_r = seq.compreg.ce %u1_r, %clk, %en reset %rst, %c9_i8_0 : i8
    hw.output %u1_r, %u2_r : i8, i8
  }
}
";

/// What is to fail first.
#[derive(Clone, Copy, PartialEq, Eq)]
pub enum Failing {
    No,
    Read,
    Write,
    Put,
    Line,
}

/// How many bytes a long output takes.
const LONG: usize = 1048576;

/// How a run ended: the exit status, the files, what is on the output and on the error output.
#[derive(Drop)]
pub struct Ended {
    pub code: u8,
    pub files: MemoryFiles,
    pub out: MemorySink,
    pub err: MemorySink,
}

impl Ended {
    /// Whether a run ended with this status, output and error message.
    pub fn is(&self, code: u8, out: &str, err: &str) -> bool {
        self.code == code
            && self.out.contents() == out.as_bytes()
            && self.err.contents() == err.as_bytes()
    }
}

/// The words that stand between blanks.
pub fn words_of(alloc: Global, line: &str) -> Result<Vec<String>, AllocError> {
    let mut words = Vec::new(alloc);
    for word in line.split_whitespace() {
        words.push(String::from_str(alloc, word)?)?;
    }
    Ok(words)
}

// Files in memory: standard input and `a.mlir` with this text, and `x.v` with an old one.
fn files_of(alloc: Global, input: &str, failing: Failing) -> Result<MemoryFiles, AllocError> {
    let mut files = Vec::new(alloc);
    files.push(MemoryFile::of(alloc, "-", input.as_bytes())?)?;
    files.push(MemoryFile::of(alloc, "a.mlir", input.as_bytes())?)?;
    files.push(MemoryFile::of(alloc, "x.v", b"old")?)?;
    let reads = vec![in alloc; 0; usize::from(failing == Failing::Read)]?;
    let writes = vec![in alloc; 0; usize::from(failing == Failing::Write)]?;
    let files = MemoryFiles::new(alloc, files).failing_at(reads);
    Ok(files.failing_writes_at(writes))
}

// A sink of which the first put fails, or none does.
fn sink_of(alloc: Global, fails: bool) -> Result<MemorySink, AllocError> {
    let failing = vec![in alloc; 0; usize::from(fails)]?;
    Ok(MemorySink::new(alloc, 16384)?.failing_at(failing))
}

/// The run of the words that stand between the blanks of a line.
pub fn run_words(
    rt: &(impl Threads + Sync + AllocGlobal),
    line: &str,
    input: &str,
    failing: Failing,
) -> Result<Ended, AllocError> {
    run_gated(rt, line, input, failing, &Open)
}

/// The same with a gate that is told of modules.
pub fn run_gated(
    rt: &(impl Threads + Sync + AllocGlobal),
    line: &str,
    input: &str,
    failing: Failing,
    gate: &(impl Gate + Copy + Send),
) -> Result<Ended, AllocError> {
    let words = words_of(rt.alloc(), line)?;
    run_at(rt, words.as_slice(), input, failing, gate)
}

/// The run of these words.
pub fn run_list(
    rt: &(impl Threads + Sync + AllocGlobal),
    words: &[String],
    input: &str,
    failing: Failing,
) -> Result<Ended, AllocError> {
    run_at(rt, words, input, failing, &Open)
}

// The run of these words with a gate.
fn run_at(
    rt: &(impl Threads + Sync + AllocGlobal),
    words: &[String],
    input: &str,
    failing: Failing,
    gate: &(impl Gate + Copy + Send),
) -> Result<Ended, AllocError> {
    let alloc = rt.alloc();
    let mut files = files_of(alloc, input, failing)?;
    let mut out = sink_of(alloc, failing == Failing::Put)?;
    let mut err = sink_of(alloc, failing == Failing::Line)?;
    let status = run_circt(rt, alloc, words, &mut files, &mut out, &mut err, gate);
    Ok(Ended {
        code: status.code(),
        files,
        out,
        err,
    })
}

/// The run of the words that stand between the blanks of a line, with this input and an output that takes long texts and of which
/// these puts fail.
pub fn run_long(
    rt: &(impl Threads + Sync + AllocGlobal),
    line: &str,
    input: &str,
    failing: &[u64],
) -> Result<Ended, AllocError> {
    let alloc = rt.alloc();
    let words = words_of(alloc, line)?;
    let mut files = files_of(alloc, input, Failing::No)?;
    let positions = Vec::from_slice(alloc, failing)?;
    let mut out = MemorySink::new(alloc, LONG)?.failing_at(positions);
    let mut err = sink_of(alloc, false)?;
    let words = words.as_slice();
    let status = run_circt(rt, alloc, words, &mut files, &mut out, &mut err, &Open);
    Ok(Ended {
        code: status.code(),
        files,
        out,
        err,
    })
}
