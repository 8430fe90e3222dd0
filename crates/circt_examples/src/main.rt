//! Runs the program on example files, and says how many cases of each give what is expected.
//!
//! Each word is the name of an example. `NAME.mlir` has its cases: a line `// -----` stands between two, and the first line of each is
//! its label, `// LABEL`. Lines `// RUN: circt WORDS` before the first case name the commands, with their options, that are run on the
//! text after the label. A file beside it has what is expected of the case of each label, in the same order: `NAME.opt.mlir` what `opt`
//! prints, which `opt` prints again unchanged, `NAME.v` what `translate --export-verilog` prints, `NAME.opt.txt` and `NAME.v.txt` the error
//! messages of these commands, `NAME.lec.txt` the verdict of `lec` on modules `p` and `q` of the case, and `NAME.steps.txt` the steps
//! that a module of the texts that are printed takes.
#![tactic(auto)]

mod cases;
mod checks;
mod circuits;
mod designs;
mod runs;
mod simulations;
mod steps;
mod verdicts;
mod words;

use checks::check_example;
use io_edge::real_files::RealFiles;
use std::env;
use std::process::ExitCode;

/// Checks each example that the words name. The exit status is 1 where a case differs.
fn main(rt: HostRuntime) -> anyhow::Result<ExitCode> {
    let mut words = env::args(&rt)?;
    let _program = words.next();
    let names = words.collect::<Vec<_>>(rt.alloc())?;
    let mut files = RealFiles::new(&rt);
    let mut is_well = true;
    for name in &names {
        is_well &= check_example(&rt, rt.alloc(), &mut files, name.as_str())?;
    }
    Ok(ExitCode::from(u8::from(!is_well)))
}
